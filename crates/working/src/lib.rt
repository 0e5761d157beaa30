// Working a sheet: its events taken one after the other from the fresh line of its table, and the answers written.

#![tactic(auto)]

ghost use Rattle.std.specs.Prelude.{IfOk, IfErr, OnOk, Err, ◌≡◌, ◌≤◌, ◌&&◌, true, Some, None, get_or, [], length, ltb};
ghost use Rattle.relay.specs.Choice.{pick};
ghost use Rattle.relay.specs.Line.{told};
ghost use Rattle.relay.specs.Valid.{h};
ghost use Rattle.rows.specs.Rows.{stood_two};
ghost use Rattle.sheet.specs.Layout.{one_track, two_tracks};
ghost use Rattle.sheet.specs.Reading.{form_ok, table_fits, decode_tracked};
ghost use Rattle.row.specs.Row.{row_of};
ghost use Rattle.sheet.specs.Sheet.{Tracked, circuit_of};
ghost use Rattle.sheet.specs.Writing.{all_in_fields, tracks_fit, bytes_for};
ghost use Rattle.working.specs.Working.{begin_by, step_by, ran_by, ran_events_by, first_answered, outcome, outcome_bytes, session_at_end, refused, refused_tracks, worked_of, worked_tracks_of, Works, WorksTracks, section_numbers};

use relay::{Head, Post};
use row::Row;
use sheet::layout::{MOST_ENTRIES, MOST_TABLE, ONE_TRACK, PER_BLOCK, TWO_TRACKS, UNANSWERED};
use sheet::{Refusal, Verdict};
use tracks::Track;

// A row of no line.
#[tactic(auto, unfolding(row::specs::Row::row_of))]
fn no_row() -> Row
    ensures { result ≡ row_of [] }
{
    Row {
        posts: [line::blank_post(); 32],
        n: 0,
    }
}

// The circuit of a table of two tracks; 0 where the table is shorter.
pub fn circuit_of(table: &[u32]) -> u32
    ensures { result ≡ circuit_of table.now }
{
    let i = table.len() / 2 * 2;
    if i < table.len() { table[i] } else { 0 }
}

// The track of event `i`, 0 where there is none.
pub fn track_at(on: &[u32], i: usize) -> u32
    ensures { result ≡ get_or on.now i 0 }
{
    if i < on.len() { on[i] } else { 0 }
}

// A session of a sheet of so many tracks, as it stands: its circuit, both rows and the head. One of one track has no second row: `second` is a row of no posts then, and no event is taken on it. It has no circuit either: `circuit` is what `circuit_of` finds in its table then, and nothing looks at it.
#[derive(Clone, Copy)]
pub struct Session {
    pub tracks: u32,
    pub circuit: u32,
    pub first: Row,
    pub second: Row,
    pub head: Head,
}

impl Session {
    // The session that begins from a table of one track, if one may.
    fn begin_one(kinds: &[u32], stamp: u32) -> Option<Session>
        ensures { result ≡ begin_by one_track kinds.now stamp }
    {
        let begun = row::start_row(kinds, stamp);
        if begun.told.answer != relay::TAKEN {
            return None;
        }
        Some(Session {
            tracks: ONE_TRACK,
            circuit: circuit_of(kinds),
            first: begun.row,
            second: no_row(),
            head: begun.told.head,
        })
    }

    // The session that begins from a table of two tracks, if one may.
    fn begin_two(table: &[u32], stamp: u32) -> Option<Session>
        ensures { result ≡ begin_by two_tracks table.now stamp }
    {
        let n = table.len() / 2;
        if table.len() % 2 != 1 {
            return None;
        }
        let circuit = circuit_of(table);
        let begun = rows::start_rows(&table[..n], &table[n..n * 2], circuit, stamp);
        if begun.told.answer != relay::TAKEN {
            return None;
        }
        Some(Session {
            tracks: TWO_TRACKS,
            circuit,
            first: begun.first,
            second: begun.second,
            head: begun.told.head,
        })
    }

    // The session that begins from the table of a sheet of so many tracks, if one may.
    #[tactic(auto, using(crate::proofs::Both::begin_none))]
    pub fn begin(tracks: u32, table: &[u32], stamp: u32) -> Option<Session>
        ensures { result ≡ begin_by tracks table.now stamp }
    {
        match tracks {
            ONE_TRACK => Session::begin_one(table, stamp),
            TWO_TRACKS => Session::begin_two(table, stamp),
            _ => None,
        }
    }

    // Takes one event, on its track; what it is answered.
    #[tactic(auto, unfolding(crate::specs::Working::step_by), using(relay::proofs::Tests::tests))]
    pub fn step(&mut self, track: u32, number: u32, place: u32, stamp: u32) -> u32
        ensures stands { stood_two (told result self.new.head) self.new.first self.new.second ≡ step_by self.old.tracks self.old.circuit self.old.first self.old.second self.old.head track number place stamp }
        ensures keeps { (self.new.tracks ≡ self.old.tracks) × (self.new.circuit ≡ self.old.circuit) }
    {
        if self.tracks == TWO_TRACKS {
            let done = rows::event_rows(
                self.first,
                self.second,
                self.circuit,
                self.head,
                track,
                number,
                place,
                stamp,
            );
            self.first = done.first;
            self.second = done.second;
            self.head = done.told.head;
            return done.told.answer;
        }
        let done = row::event_row(self.first, self.head, number, place, stamp);
        self.first = done.row;
        self.head = done.told.head;
        done.told.answer
    }
}

// Takes the events of a sheet of so many tracks, each on its track, from the fresh lines of its table, and fills each one's answer in; the session at their end. From a table that no session begins with it takes none.
pub fn run(
    tracks: u32,
    table: &[u32],
    stamp: u32,
    events: &mut [[u32; 4]],
    on: &[u32],
) -> Option<Session>
    ensures { (result ≡ ran_by tracks table.now stamp events.old on.now) × (events.new ≡ ran_events_by tracks table.now stamp events.old on.now) }
{
    let mut session = Session::begin(tracks, table, stamp)?;
    for i in 0..events.len() {
        let e = events[i];
        let answer = session.step(track_at(on, i), e[0], e[1], e[3]);
        events[i] = [e[0], e[1], answer, e[3]];
    }
    Some(session)
}

// The place of the first event that is answered already, if there is one.
pub fn first_answered(events: &[[u32; 4]]) -> Option<usize>
    ensures { result ≡ pick (ltb (first_answered events.now) (length events.now)) (Some (first_answered events.now)) None }
{
    events.iter().position(|event| event[2] != UNANSWERED)
}

// Refuses a sheet of `size` bytes that is answered already, and then an output of `room` bytes that is too short for it.
fn may_answer(events: &[[u32; 4]], size: usize, room: usize) -> Result<(), Refusal>
    requires few { length events.now ≤ 3780 }
    ensures passes { OnOk result ((length events.now ≤ first_answered events.now) × (size ≤ room)) }
    ensures refuses { IfErr result (λ refusal. (t : Tracked) → t.events ≡ events.now → size ≡ bytes_for (length t.events) → Err refusal ≡ outcome t room) }
{
    if let Some(i) = first_answered(events) {
        return Err(Refusal::Contents(1 + (i / PER_BLOCK) as u32));
    }
    if room < size {
        return Err(Refusal::RoomShort);
    }
    Ok(())
}

// Fills in the answers of a sheet of `size` bytes that reading took, and writes it so to the front of `out`: the session at its end. A refusal leaves `out` as it was.
fn answer(
    tracks: u32,
    table: &[u32],
    stamp: u32,
    events: &mut [[u32; 4]],
    on: &[u32],
    size: usize,
    out: &mut [u8],
) -> Result<Session, Refusal>
    requires starts { (form_ok two_tracks tracks && table_fits tracks table.now) ≡ true }
    requires fits { (all_in_fields events.old && tracks_fit tracks (length events.old) on.now) ≡ true }
    requires few { length events.old ≤ 3780 }
    requires whole { size ≡ bytes_for (length events.old) }
    ensures returned { result ≡ outcome (record { form = tracks; stamp = stamp; table = table.now; events = events.old; tracks = on.now }) (length out.old) }
    ensures written { out.new ≡ outcome_bytes (record { form = tracks; stamp = stamp; table = table.now; events = events.old; tracks = on.now }) out.old }
{
    may_answer(events, size, out.len())?;
    let end = run(tracks, table, stamp, events, on).unwrap();
    let Ok(()) = lent_sheet::write_tracks(tracks, table, stamp, events, on, out) else {
        unreachable!()
    };
    Ok(end)
}

// Works a sheet of one track: writes it to the front of `out` with its answers filled in. A refusal leaves `out` as it was.
pub fn work(s: &[u8], out: &mut [u8]) -> Result<Session, Refusal>
    ensures worked { Works s.now (worked_of result) out.old out.new }
    ensures ends { IfOk result (λ end. end ≡ session_at_end (decode_tracked s.now)) }
{
    // Tested before the rooms, and again as it is read: of a sheet that testing refuses no room is cleared.
    lent_sheet::test(s)?;
    let mut kinds = [0u32; 32];
    let mut events = [[0u32; 4]; MOST_ENTRIES];
    let header = lent_sheet::read(s, &mut kinds, &mut events)?;
    let kinds = &kinds[..header.posts as usize];
    let events = &mut events[..header.events as usize];
    may_answer(events, s.len(), out.len())?;
    let end = run(ONE_TRACK, kinds, header.stamp, events, &[]).unwrap();
    let Ok(()) = lent_sheet::write(kinds, header.stamp, events, out) else {
        unreachable!()
    };
    Ok(end)
}

// Works a sheet of one track or of two: writes it to the front of `out` with its answers filled in. A refusal leaves `out` as it was.
pub fn work_tracks(s: &[u8], out: &mut [u8]) -> Result<Session, Refusal>
    ensures worked { WorksTracks s.now (worked_tracks_of result) out.old out.new }
    ensures ends { IfOk result (λ end. end ≡ session_at_end (decode_tracked s.now)) }
{
    let mut table = [0u32; MOST_TABLE];
    let mut events = [[0u32; 4]; MOST_ENTRIES];
    let mut on = [0u32; MOST_ENTRIES];
    let header = lent_sheet::read_tracks(s, &mut table, &mut events, &mut on)?;
    let k = lent_sheet::table_words(header.tracks, header.posts);
    let m = header.events as usize;
    answer(
        header.tracks,
        &table[..k],
        header.stamp,
        &mut events[..m],
        &on[..m],
        s.len(),
        out,
    )
}

// What working a sheet returns in numbers: a refusal with its block and the event's position in it, or zeros with the row and head at the end.
#[repr(C)]
#[derive(Clone, Copy)]
pub struct Worked {
    pub number: u32,
    pub block: u32,
    pub position: u32,
    pub row: Row,
    pub head: Head,
}

impl From<Verdict> for Worked {
    // What a refusal returns.
    fn from(verdict: Verdict) -> Worked
        ensures { result ≡ refused verdict }
    {
        WorkedTracks::from(verdict).of_one()
    }
}

impl From<Result<Session, Refusal>> for Worked {
    // What working a sheet of one track said.
    fn from(worked: Result<Session, Refusal>) -> Worked
        ensures { result ≡ worked_of worked }
    {
        WorkedTracks::from(worked).of_one()
    }
}

// What working a sheet of either form returns in numbers: a refusal with its block and the event's position in it, or zeros with how many tracks it is of, both rows and the head at the end. A sheet of one track has no second row.
#[repr(C)]
#[derive(Clone, Copy)]
pub struct WorkedTracks {
    pub number: u32,
    pub block: u32,
    pub position: u32,
    pub tracks: u32,
    pub first: Row,
    pub second: Row,
    pub head: Head,
}

impl WorkedTracks {
    // The same of a sheet of one track.
    fn of_one(self) -> Worked
        ensures { result ≡ record { number = self.number; block = self.block; position = self.position; row = self.first; head = self.head } }
    {
        let WorkedTracks {
            number,
            block,
            position,
            first,
            head,
            ..
        } = self;
        Worked {
            number,
            block,
            position,
            row: first,
            head,
        }
    }
}

impl From<Verdict> for WorkedTracks {
    // What a refusal returns: beside its number, block and position all is 0.
    fn from(verdict: Verdict) -> WorkedTracks
        ensures { result ≡ refused_tracks verdict }
    {
        let Verdict {
            number,
            block,
            position,
        } = verdict;
        WorkedTracks {
            number,
            block,
            position,
            tracks: 0,
            first: no_row(),
            second: no_row(),
            head: Head { taken: 0, last: 0 },
        }
    }
}

impl From<Result<Session, Refusal>> for WorkedTracks {
    // What working a sheet of either form said.
    fn from(worked: Result<Session, Refusal>) -> WorkedTracks
        ensures { result ≡ worked_tracks_of worked }
    {
        match worked {
            Ok(
                Session {
                    tracks,
                    first,
                    second,
                    head,
                    ..
                },
            ) => WorkedTracks {
                number: 0,
                block: 0,
                position: 0,
                tracks,
                first,
                second,
                head,
            },
            Err(refusal) => WorkedTracks::from(refusal.verdict()),
        }
    }
}

// 1 if RL is down, else 0.
#[tactic(auto, unfolding(relay::specs::Relays::up), using(relay::proofs::Tests::tests))]
pub fn held(word: u32) -> u32
    ensures { result ≡ h word }
{
    if word & relay::RL == 0 { 1 } else { 0 }
}

// The numbers of section s, between the posts p and d, in the order of its line.
#[tactic(auto, unfolding(crate::specs::Working::section_numbers))]
pub fn section(s: u32, p: Post, d: Post) -> [u32; 10]
    ensures { result ≡ section_numbers s p d }
{
    [s, p.a, d.r, p.x, d.q, d.e, p.y, p.v, p.g, held(p.word)]
}
