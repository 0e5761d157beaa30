// A register's text brought back to a sheet: taken a byte at a time, by value, and the sheet that it says written.
// 02, item 3. `import` takes a text in lent bytes; a program that reads a text in pieces calls `feed` for each, and then `settle`.

#![tactic(auto, unfolding(crate::specs::Rooms::entry_in, crate::specs::Importing::is_whole, crate::specs::Importing::is_done, crate::specs::Importing::record_in, crate::specs::Importing::closed))]

ghost use Rattle.std.specs.Prelude.{◌≡◌, IfErr, length};
ghost use Rattle.importing.specs.Importing.{imported_of, is_whole, is_done, record_at, record_in, closed, settle_of, settle_into, Settles, Imports};
ghost use Rattle.importing.specs.Refusals.{NamesNoBlock};
ghost use Rattle.importing.specs.Rooms.{entry_in, fed_at, kept_kind, kept_event, fed_next, Feeds};

mod refusal;
mod stands;
pub mod steps;

pub use refusal::Refusal;
use register::{Mode, Stage};
use sheet::layout::{BLOCK_BYTES, MOST_ENTRIES, PER_BLOCK};
use stands::{MOST_COUNTED, number_of};
use steps::{Marks, State};

// What import returns: the number, at which record (of 28; the header is 1; else 0), and of a sheet that was written how many bytes it has.
#[repr(C)]
#[derive(Clone, Copy)]
pub struct Imported {
    pub number: u32,
    pub at: u64,
    pub bytes: usize,
}

// The event that a record's marks say, as a sheet has it.
fn entry_of(marks: Marks) -> [u32; 4]
    ensures { result ≡ entry_in marks }
{
    [
        number_of(marks.b),
        number_of(marks.c),
        number_of(marks.e),
        number_of(marks.d),
    ]
}

// The kind that the record before `s` told, where it told one and there is room for it: `posts` were known before it.
#[tactic(auto, unfolding(crate::specs::Rooms::kept_kind), using(crate::proofs::Kept::storing))]
fn keep_kind(kinds: &mut [u32], posts: u32, s: State)
    ensures { kinds.new ≡ kept_kind posts s kinds.old }
{
    let at = posts as usize;
    if posts != s.posts && at < kinds.len() {
        kinds[at] = number_of(s.marks.b);
    }
}

// The event that the record before `s` told, where it told one and there is room for it: `known` were known before it.
#[tactic(auto, unfolding(crate::specs::Rooms::kept_event), using(crate::proofs::Kept::storing))]
fn keep_event(events: &mut [[u32; 4]], known: u64, s: State)
    ensures { events.new ≡ kept_event known s events.old }
{
    let at = known as usize;
    if known != s.events && at < events.len() {
        events[at] = entry_of(s.marks);
    }
}

// One byte more. Nothing is told but at the end of a record, which is an LF.
#[tactic(auto, unfolding(crate::specs::Rooms::fed_next), using(crate::proofs::Told::not_told))]
fn take(b: u8, s: State, kinds: &mut [u32], events: &mut [[u32; 4]]) -> State
    ensures { fed_at result kinds.new events.new ≡ fed_next (fed_at s kinds.old events.old) b }
{
    let next = steps::step(s, b);
    if b != b'\n' {
        return next;
    }
    keep_kind(kinds, s.posts, next);
    keep_event(events, s.events, next);
    next
}

// The next piece of a text: its kinds and events go to their rooms, as many as fit.
pub fn feed(text: &[u8], s: State, kinds: &mut [u32], events: &mut [[u32; 4]]) -> State
    ensures { Feeds text.now s result kinds.old kinds.new events.old events.new }
{
    let mut last = s;
    for &b in text {
        last = take(b, last, kinds, events);
    }
    last
}

impl From<Result<usize, Refusal>> for Imported {
    // What import said, in numbers.
    fn from(imported: Result<usize, Refusal>) -> Imported
        ensures { result ≡ imported_of imported }
    {
        match imported {
            Ok(bytes) => Imported {
                number: 0,
                at: 0,
                bytes,
            },
            Err(refusal) => Imported {
                number: refusal.number(),
                at: refusal.record(),
                bytes: 0,
            },
        }
    }
}

// Every record begun is whole.
fn is_whole(s: State) -> bool
    ensures { result ≡ is_whole s }
{
    matches!(s.mode, Mode::Start) && s.place == 0
}

// And the table is done.
fn is_done(s: State) -> bool
    ensures { result ≡ is_done s }
{
    is_whole(s) && matches!(s.stage, Stage::AtEvents)
}

// The record after those that stand.
fn record_of(s: State) -> u64
    ensures { result ≡ record_in s }
{
    if s.events > MOST_COUNTED {
        return 0;
    }
    match s.stage {
        Stage::AtHeader => 1,
        Stage::AtStart => 2,
        Stage::AtKinds => 3 + s.posts as u64,
        Stage::AtEvents => 3 + s.posts as u64 + s.events,
    }
}

// The end of the text is one more line end, unless it has just had one.
fn close(s: State, kinds: &mut [u32], events: &mut [[u32; 4]]) -> State
    ensures { fed_at result kinds.new events.new ≡ closed (fed_at s kinds.old events.old) }
{
    if is_whole(s) {
        return s;
    }
    feed(b"\r\n", s, kinds, events)
}

// The text is at its end, and this is what was fed of it: writes the sheet that it says, or refuses; how many bytes the sheet has.
fn write_fed(s: State, kinds: &[u32], events: &[[u32; 4]], out: &mut [u8]) -> Result<usize, Refusal>
    ensures settled { (imported_of result ≡ settle_of (fed_at s kinds.now events.now) (length out.old)) × (out.new ≡ settle_into (fed_at s kinds.now events.now) out.old) }
    ensures place { IfErr result (λ refusal. NamesNoBlock refusal) }
{
    if !is_done(s) {
        return Err(Refusal::Record(record_of(s)));
    }
    let Some(events) = events.get(..s.events as usize) else {
        return Err(Refusal::Sheet(sheet::Refusal::Length));
    };
    let Some(kinds) = kinds.get(..s.posts as usize) else {
        return Err(Refusal::Sheet(sheet::Refusal::NotValid));
    };
    lent_sheet::write(kinds, s.stamp, events, out)?;
    Ok(BLOCK_BYTES + events.len().div_ceil(PER_BLOCK) * BLOCK_BYTES)
}

// The text is at its end: writes the sheet that was fed to the front of `out`, or refuses; how many bytes the sheet has.
pub fn settle(
    s: State,
    kinds: &mut [u32],
    events: &mut [[u32; 4]],
    out: &mut [u8],
) -> Result<usize, Refusal>
    ensures settles { Settles (fed_at s kinds.old events.old) (imported_of result) kinds.new events.new out.old out.new }
    ensures place { IfErr result (λ refusal. NamesNoBlock refusal) }
{
    let last = close(s, kinds, events);
    write_fed(last, kinds, events, out)
}

// Writes the sheet that a register's text says to the front of `out`; how many bytes it has. A refusal leaves `out` as it was.
pub fn import(text: &[u8], out: &mut [u8]) -> Result<usize, Refusal>
    ensures imports { Imports text.now (imported_of result) out.old out.new }
    ensures place { IfErr result (λ refusal. NamesNoBlock refusal) }
{
    let mut kinds = [0u32; 32];
    let mut events = [[0u32; 4]; MOST_ENTRIES];
    let s = feed(text, steps::begin(), &mut kinds, &mut events);
    settle(s, &mut kinds, &mut events, out)
}
