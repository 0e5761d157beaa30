// The event sheet in lent bytes: tested, read into lent room, and written.

#![tactic(auto, unfolding(sheet::specs::Check::checks_alone, sheet::specs::Sheet::table_words), using(relay::proofs::Tests::tests))]

ghost use Rattle.std.specs.Prelude.{◌≡◌, IfOk};
ghost use Rattle.sheet.specs.Sheet.{table_words};
ghost use Rattle.sheet.specs.Layout.{two_tracks};
ghost use Rattle.sheet.specs.Writing.{Writes, WritesTracked};
ghost use Rattle.sheet.specs.Check.{checks_alone};
ghost use Rattle.sheet.specs.Reading.{verdict, verdict_of, verdict_up_to, Reads, ReadsTracks};
ghost use Rattle.sheet.specs.Refusals.{verdict_code, refusal_code, header_in, found_of, found_tracks_of};

mod blocks;
mod entry;
mod good;
mod put;
mod words;

use good::Good;
use put::Draft;
use sheet::layout::{BLOCK_BYTES, ONE_TRACK, TWO_TRACKS};
use sheet::{Header, Refusal};

// Events and tracks that are to be written stand in no block yet.
const NO_BLOCK: u32 = 0;

// Whether one block by itself checks, as block `number` of a sheet. Any length but that of a block does not.
pub fn check(s: &[u8], number: u32) -> bool
    ensures { result ≡ checks_alone s.now number }
{
    s.len() == BLOCK_BYTES && words::checks_as(s, 0, number)
}

// Tests a sheet: refuses the first bad block, with the position in it of an event whose upper bits are not zero.
pub fn test(s: &[u8]) -> Result<(), Refusal>
    ensures { verdict_code result ≡ verdict_of s.now }
{
    blocks::test_up_to(s, ONE_TRACK)
}

// Tests a sheet of one track or of two.
pub fn test_tracks(s: &[u8]) -> Result<(), Refusal>
    ensures { verdict_code result ≡ verdict_up_to two_tracks s.now }
{
    blocks::test_up_to(s, TWO_TRACKS)
}

// Reads a sheet: its kinds to the front of `kinds` and its events, each as number, post, answer and stamp, to the front of `events`. A refusal leaves both as they were.
pub fn read(s: &[u8], kinds: &mut [u32], events: &mut [[u32; 4]]) -> Result<Header, Refusal>
    ensures reads { Reads s.now (found_of result) kinds.old kinds.new events.old events.new }
    ensures header { IfOk result (λ header. header ≡ header_in s.now) }
{
    let sheet = Good::test(s, ONE_TRACK)?;
    // The tracks of its events, all the same, are not handed out.
    if !sheet.fits(kinds.len(), events.len(), events.len()) {
        return Err(Refusal::RoomShort);
    }
    sheet.table(kinds);
    sheet.events(events);
    Ok(sheet.header())
}

// Reads a sheet of one track or of two: its table to the front of `table` (the kinds; of two tracks those of track 1, those of track 2 and the circuit), its events as `read` does, and the track of each to the front of `on`. A refusal leaves all three as they were.
pub fn read_tracks(
    s: &[u8],
    table: &mut [u32],
    events: &mut [[u32; 4]],
    on: &mut [u32],
) -> Result<Header, Refusal>
    ensures { ReadsTracks s.now (found_tracks_of result) table.old table.new events.old events.new on.old on.new }
{
    let sheet = Good::test(s, TWO_TRACKS)?;
    if !sheet.fits(table.len(), events.len(), on.len()) {
        return Err(Refusal::RoomShort);
    }
    sheet.table(table);
    sheet.events(events);
    sheet.tracks(on);
    Ok(sheet.header())
}

// How many words the table of so many posts has, in a sheet of so many tracks.
pub fn table_words(tracks: u32, posts: u32) -> usize
    ensures { result ≡ table_words tracks posts }
{
    let n = posts as usize;
    if tracks == TWO_TRACKS { n * 2 + 1 } else { n }
}

// Writes a sheet to the front of `out`. A refusal leaves `out` as it was.
pub fn write(kinds: &[u32], stamp: u32, events: &[[u32; 4]], out: &mut [u8]) -> Result<(), Refusal>
    ensures written { Writes (record { stamp = stamp; kinds = kinds.now; events = events.now }) (refusal_code result) out.old out.new }
    ensures place { verdict_code result ≡ verdict (refusal_code result) 0 }
{
    if !line::may_start(kinds.len(), kinds) {
        return Err(Refusal::NotValid);
    }
    if !put::all_in_fields(events) {
        return Err(Refusal::Contents(NO_BLOCK));
    }
    let draft = Draft {
        tracks: ONE_TRACK,
        table: kinds,
        stamp,
        events,
        on: &[],
    };
    draft.write(out)
}

// Writes a sheet of one track or of two to the front of `out`, by how many tracks it is of, its table as `read_tracks` hands it out, and the track of each event. A refusal leaves `out` as it was.
pub fn write_tracks(
    tracks: u32,
    table: &[u32],
    stamp: u32,
    events: &[[u32; 4]],
    on: &[u32],
    out: &mut [u8],
) -> Result<(), Refusal>
    ensures written { WritesTracked (record { form = tracks; stamp = stamp; table = table.now; events = events.now; tracks = on.now }) (refusal_code result) out.old out.new }
    ensures place { verdict_code result ≡ verdict (refusal_code result) 0 }
{
    if !put::may_start(tracks, table) {
        return Err(Refusal::NotValid);
    }
    if !put::all_in_fields(events) {
        return Err(Refusal::Contents(NO_BLOCK));
    }
    if !put::tracks_fit(tracks, events.len(), on) {
        return Err(Refusal::Contents(NO_BLOCK));
    }
    let draft = Draft {
        tracks,
        table,
        stamp,
        events,
        on,
    };
    draft.write(out)
}
