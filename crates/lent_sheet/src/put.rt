// A sheet's blocks, written into lent bytes.
// One loop stores a block's words, the zeros at its end with them: of a loop that stores zeros alone the compiler makes a call of C's memset, whose stack is in none of our archives.
#![tactic(auto, unfolding(sheet::specs::Sheet::posts_of, sheet::specs::Reading::form_ok, sheet::specs::Reading::table_fits, sheet::specs::Reading::tables_ok, sheet::specs::Writing::tracks_fit), using(relay::proofs::Tests::tests))]

ghost use Rattle.std.specs.Prelude.{◌≡◌, ◌+◌, ◌*◌, ◌<◌, ◌≤◌, true, ◌&&◌, length, slice_index};
ghost use Rattle.sheet.specs.Words.{put_word};
ghost use Rattle.sheet.specs.Check.{sum, word, seal};
ghost use Rattle.sheet.specs.Sheet.{held, posts_of, events_word};
ghost use Rattle.sheet.specs.Writing.{all_in_fields, all_below, tracks_fit, Lays};
ghost use Rattle.sheet.specs.Reading.{verdict, form_ok, tables_ok, table_fits};
ghost use Rattle.sheet.specs.Refusals.{verdict_code, refusal_code};
ghost use Rattle.sheet.specs.Puts.{put_block, head_only, events_only};
ghost use Rattle.sheet.specs.Layout.{block_bytes, check_at, most_blocks, per_block, two_tracks};

use crate::{entry, words};
use sheet::Refusal;
use sheet::layout::{
    BLOCK_BYTES, CHECK_AT, CHECK_BASE, CHECK_OFFSET, LAST_CIRCUIT, MOST_ENTRIES, ONE_TRACK,
    PER_BLOCK, TWO_TRACKS,
};

// Places for an event's word and its stamp in an event block, with those that stay zero.
const PAIRS: usize = (CHECK_AT - 1) / 2;

// A sheet to be written, whose table may be started and whose events and tracks fit their fields: how many tracks it is of, its table, its start stamp, its events and the track of each.
#[derive(Clone, Copy)]
pub struct Draft<'a> {
    pub tracks: u32,
    pub table: &'a [u32],
    pub stamp: u32,
    pub events: &'a [[u32; 4]],
    pub on: &'a [u32],
    ghost few_words: { length table.now ≤ 65 },
    ghost in_fields: { all_in_fields events.now ≡ true },
    ghost on_tracks: { all_below 2 on.now ≡ true },
}

// Every event is in its fields.
pub fn all_in_fields(events: &[[u32; 4]]) -> bool
    ensures { result ≡ all_in_fields events.now }
{
    events.iter().all(|event| entry::in_fields(*event))
}

// Each track is below how many tracks the sheet is of, and there is one for each of `n` events.
pub fn tracks_fit(tracks: u32, n: usize, on: &[u32]) -> bool
    ensures { result ≡ tracks_fit tracks n on.now }
{
    on.len() == n && on.iter().all(|track| *track < tracks)
}

// Whether starting would accept two tables of one length and their circuit.
fn tables_ok(table: &[u32]) -> bool
    ensures { result ≡ tables_ok table.now }
{
    let n = table.len() / 2;
    table.len() % 2 == 1
        && line::may_start(n, &table[..n])
        && line::may_start(n, &table[n..n * 2])
        && table[n * 2] <= LAST_CIRCUIT
}

// Whether starting would accept the table of a sheet of so many tracks, one or two.
pub fn may_start(tracks: u32, table: &[u32]) -> bool
    ensures { result ≡ (form_ok two_tracks tracks && table_fits tracks table.now) }
{
    match tracks {
        ONE_TRACK => line::may_start(table.len(), table),
        TWO_TRACKS => tables_ok(table),
        _ => false,
    }
}

// How many of `n` events stand in event block `c`.
fn held_in(n: usize, c: usize) -> usize
    requires { c * per_block ≤ n }
    ensures { result ≡ held n c }
{
    PER_BLOCK.min(n - c * PER_BLOCK)
}

// Word `i` of a table or of the tracks, or zero past them.
fn word_or_zero(ws: &[u32], i: usize) -> u32
    ensures { result ≡ slice_index ws.now i }
{
    ws.get(i).copied().unwrap_or(0)
}

// How many posts a table of `m` words is of, in a sheet of so many tracks.
fn posts_of(tracks: u32, m: usize) -> usize
    ensures { result ≡ posts_of tracks m }
{
    if tracks == TWO_TRACKS { m / 2 } else { m }
}

// Sets word 127 of block `b`, so that the block checks.
fn set_check(out: &mut [u8], b: usize)
    requires { (b < most_blocks) × (b * block_bytes + block_bytes ≤ length out.old) }
    ensures { out.new ≡ put_word out.old (b * block_bytes + check_at * 4) (seal (sum (word out.old b) check_at) b) }
{
    let total = words::sum_words(out, b, CHECK_AT);
    words::put_word(
        out,
        b * BLOCK_BYTES + CHECK_OFFSET,
        std::num::wrapping_sub_u32(CHECK_BASE + b as u32, total),
    );
}

impl Draft<'_> {
    // Words 1 + 2j and 2 + 2j of event block `c`: an event's word and its stamp, or zeros past the last event.
    fn pair_in(&self, c: usize, j: usize) -> (u32, u32)
        requires { (c < most_blocks) × (c * per_block ≤ length self.now.events.now) }
        ensures word { result.0 ≡ events_word (events_only self.now.events.now self.now.on.now) c (1 + j * 2) }
        ensures stamp { result.1 ≡ events_word (events_only self.now.events.now self.now.on.now) c (2 + j * 2) }
    {
        if j < held_in(self.events.len(), c) {
            let i = c * PER_BLOCK + j;
            let e = self.events[i];
            let word = entry::pack(e[0], e[1], e[2], word_or_zero(self.on, i));
            return (word, e[3]);
        }
        (0, 0)
    }

    // Block 0.
    fn head(&self, out: &mut [u8])
        requires { block_bytes ≤ length out.old }
        ensures { out.new ≡ put_block (head_only self.now.tracks self.now.stamp self.now.table.now) 0 out.old }
    {
        let table = self.table;
        words::put_word(out, 0, self.tracks);
        words::put_word(out, 4, posts_of(self.tracks, table.len()) as u32);
        words::put_word(out, 8, self.stamp);
        for i in 0..CHECK_AT - 3 {
            words::put_word(out, 12 + i * 4, word_or_zero(table, i));
        }
        set_check(out, 0);
    }

    // Event block `c`, which is block `c + 1`.
    fn block(&self, c: usize, out: &mut [u8])
        requires { (c + 1 < most_blocks) × ((c * per_block ≤ length self.now.events.now) × ((c + 1) * block_bytes + block_bytes ≤ length out.old)) }
        ensures { out.new ≡ put_block (events_only self.now.events.now self.now.on.now) (c + 1) out.old }
    {
        let b = c + 1;
        let at = b * BLOCK_BYTES;
        words::put_word(out, at, held_in(self.events.len(), c) as u32);
        for j in 0..PAIRS {
            let (word, stamp) = self.pair_in(c, j);
            words::put_word(out, at + 4 + j * 8, word);
            words::put_word(out, at + 8 + j * 8, stamp);
        }
        set_check(out, b);
    }

    // The whole sheet, to the front of `out`; refused for its length or for want of room, and then `out` is as it was.
    pub fn write(&self, out: &mut [u8]) -> Result<(), Refusal>
        ensures written { Lays (record { form = self.now.tracks; stamp = self.now.stamp; table = self.now.table.now; events = self.now.events.now; tracks = self.now.on.now }) (refusal_code result) out.old out.new }
        ensures place { verdict_code result ≡ verdict (refusal_code result) 0 }
    {
        let m = self.events.len();
        if m > MOST_ENTRIES {
            return Err(Refusal::Length);
        }
        let n = (m + (PER_BLOCK - 1)) / PER_BLOCK;
        if out.len() < BLOCK_BYTES + n * BLOCK_BYTES {
            return Err(Refusal::RoomShort);
        }
        self.head(out);
        for c in 0..n {
            self.block(c, out);
        }
        Ok(())
    }
}
