// The calls on a sheet for a panel written in C or Rust, beside those of `lent` on the row: `include/desk.h` declares them.
// Each is the call below it, under that call's own contract.

#![tactic(auto)]

ghost use Rattle.std.specs.Prelude.{◌≡◌};
ghost use Rattle.exporting.specs.Exporting.{Exports};
ghost use Rattle.importing.specs.Importing.{Imports};
ghost use Rattle.sheet.specs.Check.{checks_alone};
ghost use Rattle.sheet.specs.Layout.{two_tracks};
ghost use Rattle.sheet.specs.Reading.{Reads, ReadsTracks, verdict_of, verdict_up_to};
ghost use Rattle.sheet.specs.Writing.{Writes, WritesTracked};
ghost use Rattle.why.specs.Why.{since_of, since_tracks_of};
ghost use Rattle.working.specs.Working.{Works, WorksTracks};

use exporting::Exported;
use importing::Imported;
use sheet::{Found, FoundTracks, Verdict, written_number};
use why::Since;
use working::{Worked, WorkedTracks};

// Whether one block by itself checks.
#[unsafe(no_mangle)]
pub extern "C" fn desk_check(block: &[u8], number: u32) -> bool
    ensures { result ≡ checks_alone block.now number }
{
    lent_sheet::check(block, number)
}

// Tests a sheet.
#[unsafe(no_mangle)]
pub extern "C" fn desk_test(s: &[u8]) -> Verdict
    ensures { result ≡ verdict_of s.now }
{
    Verdict::from(lent_sheet::test(s))
}

// Reads a sheet into lent room.
#[unsafe(no_mangle)]
pub extern "C" fn desk_read(s: &[u8], kinds: &mut [u32], events: &mut [[u32; 4]]) -> Found
    ensures { Reads s.now result kinds.old kinds.new events.old events.new }
{
    Found::from(lent_sheet::read(s, kinds, events))
}

// Writes a sheet to the front of `out`.
#[unsafe(no_mangle)]
pub extern "C" fn desk_write(kinds: &[u32], stamp: u32, events: &[[u32; 4]], out: &mut [u8]) -> u32
    ensures { Writes (record { stamp = stamp; kinds = kinds.now; events = events.now }) result out.old out.new }
{
    written_number(lent_sheet::write(kinds, stamp, events, out))
}

// Works a sheet whole.
#[unsafe(no_mangle)]
pub extern "C" fn desk_work(s: &[u8], out: &mut [u8]) -> Worked
    ensures { Works s.now result out.old out.new }
{
    Worked::from(working::work(s, out))
}

// Since when what a refusal of 8, 9 or 13 says is so.
#[unsafe(no_mangle)]
pub extern "C" fn desk_why(s: &[u8], position: u32) -> Since
    ensures { result ≡ since_of s.now position }
{
    Since::from(why::since_when(s, position))
}

// Exports a sheet's register as comma-separated text.
#[unsafe(no_mangle)]
pub extern "C" fn desk_export(s: &[u8], out: &mut [u8]) -> Exported
    ensures { Exports s.now result out.old out.new }
{
    Exported::from(exporting::export(s, out))
}

// Brings a register's text back to a sheet.
#[unsafe(no_mangle)]
pub extern "C" fn desk_import(text: &[u8], out: &mut [u8]) -> Imported
    ensures { Imports text.now result out.old out.new }
{
    Imported::from(importing::import(text, out))
}

// Tests a sheet of one track or of two.
#[unsafe(no_mangle)]
pub extern "C" fn desk_test_tracks(s: &[u8]) -> Verdict
    ensures { result ≡ verdict_up_to two_tracks s.now }
{
    Verdict::from(lent_sheet::test_tracks(s))
}

// Reads a sheet of one track or of two into lent room, for its table, its events and the track of each.
#[unsafe(no_mangle)]
pub extern "C" fn desk_read_tracks(
    s: &[u8],
    table: &mut [u32],
    events: &mut [[u32; 4]],
    on: &mut [u32],
) -> FoundTracks
    ensures { ReadsTracks s.now result table.old table.new events.old events.new on.old on.new }
{
    FoundTracks::from(lent_sheet::read_tracks(s, table, events, on))
}

// Writes a sheet of so many tracks to the front of `out`.
#[unsafe(no_mangle)]
pub extern "C" fn desk_write_tracks(
    tracks: u32,
    table: &[u32],
    stamp: u32,
    events: &[[u32; 4]],
    on: &[u32],
    out: &mut [u8],
) -> u32
    ensures { WritesTracked (record { form = tracks; stamp = stamp; table = table.now; events = events.now; tracks = on.now }) result out.old out.new }
{
    written_number(lent_sheet::write_tracks(tracks, table, stamp, events, on, out))
}

// Works a sheet of one track or of two whole.
#[unsafe(no_mangle)]
pub extern "C" fn desk_work_tracks(s: &[u8], out: &mut [u8]) -> WorkedTracks
    ensures { WorksTracks s.now result out.old out.new }
{
    WorkedTracks::from(working::work_tracks(s, out))
}

// Since when what a refusal of 8, 9 or 13 says is so, in a sheet of one track or of two.
#[unsafe(no_mangle)]
pub extern "C" fn desk_why_tracks(s: &[u8], position: u32) -> Since
    ensures { result ≡ since_tracks_of s.now position }
{
    Since::from(why::since_when_tracks(s, position))
}
