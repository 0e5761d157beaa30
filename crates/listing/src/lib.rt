// The listing of a sheet, put into a lent page. 01, 'The program and one listing'.

#![tactic(auto)]

ghost use Rattle.std.specs.Prelude.{MatchResult, ◌+◌, ◌*◌, ◌≤◌, ◌≡◌, eqb, length};
ghost use Rattle.relay.specs.Choice.{pick};
ghost use Rattle.row.specs.Row.{line_of};
ghost use Rattle.sheet.specs.Layout.{two_tracks, upper_bits};
ghost use Rattle.listing.specs.Lines.{spaced, ended, track_named, event_line, section_line, refused_line, Lined};
ghost use Rattle.listing.specs.Listing.{event_lines, section_lines, lines_of, answer_to, listing_of};
ghost use Rattle.sheet.specs.Reading.{decode_tracked};
ghost use Rattle.sheet.specs.Refusals.{verdict_code};
ghost use Rattle.working.specs.Run.{marked};
ghost use Rattle.digits.specs.Texts.{Put};

use row::Row;
use sheet::layout::{MOST_ENTRIES, MOST_TABLE, PER_BLOCK, TWO_TRACKS, UPPER_BITS};
use sheet::{Refusal, Verdict};
use tracks::Track;

// Room for any line.
pub const LINE: usize = 128;

// Room for any listing: a line for each of 3,780 events and of 31 sections on two tracks.
pub const PAGE: usize = (MOST_ENTRIES + 62) * LINE;

// Each number after a single space, from `at` on; the place past them.
fn put_spaced(out: &mut [u8], at: usize, ns: &[u32]) -> usize
    requires { (length ns.now ≤ 10) × (at + length ns.now * 11 ≤ length out.old) }
    ensures put { Put (spaced ns.now) at result out.old out.new }
    ensures short { result ≤ at + length ns.now * 11 }
{
    let mut p = at;
    for i in 0..ns.len() {
        out[p] = b' ';
        p = digits::put_number(out, p + 1, ns[i] as u64);
    }
    p
}

// Each number after a single space, from `at` on, and the line feed; the place past it.
fn put_rest(out: &mut [u8], at: usize, ns: &[u32]) -> usize
    requires { (length ns.now ≤ 10) × (at + length ns.now * 11 + 1 ≤ length out.old) }
    ensures put { Put (ended ns.now) at result out.old out.new }
    ensures short { result ≤ at + length ns.now * 11 + 1 }
{
    let p = put_spaced(out, at, ns);
    out[p] = b'\n';
    p + 1
}

// How many tracks a line names in a sheet of so many: the one that it is of, where there are two.
fn tracks_named(tracks: u32) -> usize
    ensures { result ≡ pick (eqb tracks two_tracks) 1 0 }
{
    if tracks == TWO_TRACKS { 1 } else { 0 }
}

// 'position from 1, event, post, answer' and the track's field, from `at` on; the place past the line.
fn put_event(
    out: &mut [u8],
    at: usize,
    position: u32,
    event: u32,
    post: u32,
    answer: u32,
    tracks: u32,
    track: u32,
) -> usize
    requires { at + 128 ≤ length out.old }
    ensures put { Put (event_line position event post answer (track_named tracks track)) at result out.old out.new }
    ensures short { result ≤ at + 128 }
{
    let ns = [event, post, answer, track];
    let p = digits::put_number(out, at, position as u64);
    let k = 3 + tracks_named(tracks);
    put_rest(out, p, &ns[..k])
}

// 'S, section, a, r, x, q, e, y, v, g, h', the section and its nine numbers, and the track's field, from `at` on; the place past the line.
fn put_section(out: &mut [u8], at: usize, numbers: [u32; 10], tracks: u32, track: u32) -> usize
    requires { at + 128 ≤ length out.old }
    ensures put { Put (section_line numbers (track_named tracks track)) at result out.old out.new }
    ensures short { result ≤ at + 128 }
{
    out[at] = b'S';
    let p = put_spaced(out, at + 1, &numbers);
    let ns = [track];
    let k = tracks_named(tracks);
    put_rest(out, p, &ns[..k])
}

// How many events the line of a refusal names: the one whose word has upper bits.
fn events_named(number: u32) -> usize
    ensures { result ≡ pick (eqb number upper_bits) 1 0 }
{
    if number == UPPER_BITS { 1 } else { 0 }
}

// '"refused", its number and the block', or another place, and the position of the event that 24 names, at the front; how long the line is.
fn put_refused(out: &mut [u8], number: u32, place: u64, position: u32) -> usize
    requires { 128 ≤ length out.old }
    ensures { Lined (refused_line number place position) result out.old out.new }
{
    out[..8].copy_from_slice(b"refused ");
    let p = digits::put_number(out, 8, number as u64);
    out[p] = b' ';
    let q = digits::put_number(out, p + 1, place);
    let ns = [position];
    let k = events_named(number);
    put_rest(out, q, &ns[..k])
}

// One line for each event of a sheet of so many tracks, at the front; how long they are.
fn put_events(out: &mut [u8], tracks: u32, events: &[[u32; 4]], on: &[u32]) -> usize
    requires { (length events.now ≤ 3780) × (length events.now ≤ length on.now) × (length events.now * 128 ≤ length out.old) }
    ensures put { Lined (event_lines tracks 1 (marked events.now on.now)) result out.old out.new }
    ensures short { result ≤ length events.now * 128 }
{
    let mut p: usize = 0;
    for i in 0..events.len() {
        let e = events[i];
        let position = i as u32 + 1;
        p = put_event(out, p, position, e[0], e[1], e[2], tracks, on[i]);
    }
    p
}

// One line for each section of a track, from `at` on; the place past them.
fn put_sections(out: &mut [u8], at: usize, tracks: u32, track: u32, row: Row) -> usize
    requires { (row.n ≤ 32) × (at + 31 * 128 ≤ length out.old) }
    ensures put { Put (section_lines (track_named tracks track) 0 (line_of row)) at result out.old out.new }
    ensures short { result ≤ at + 31 * 128 }
{
    let mut p = at;
    for j in 1..row.n {
        let numbers = working::section((j - 1) as u32, row.posts[j - 1], row.posts[j]);
        p = put_section(out, p, numbers, tracks, track);
    }
    p
}

// One line of a listing alone, at the front of a lent array; how long it is. An event's, of a sheet of so many tracks:
pub fn event_line(
    out: &mut [u8; LINE],
    position: u32,
    event: u32,
    post: u32,
    answer: u32,
    tracks: u32,
    track: u32,
) -> usize
    ensures { Lined (event_line position event post answer (track_named tracks track)) result out.old out.new }
{
    put_event(out, 0, position, event, post, answer, tracks, track)
}

// A section's, its number and its nine numbers.
pub fn section_line(out: &mut [u8; LINE], numbers: [u32; 10], tracks: u32, track: u32) -> usize
    ensures { Lined (section_line numbers (track_named tracks track)) result out.old out.new }
{
    put_section(out, 0, numbers, tracks, track)
}

// A refusal's.
pub fn refused_line(out: &mut [u8; LINE], number: u32, place: u64, position: u32) -> usize
    ensures { Lined (refused_line number place position) result out.old out.new }
{
    put_refused(out, number, place, position)
}

// Works the events of a sheet of one track or of two and puts the lines of its listing at the front of the page; how long they are. A refusal leaves the page as it was.
fn list_worked(s: &[u8], page: &mut [u8; PAGE]) -> Result<usize, Refusal>
    ensures refused { verdict_code result ≡ answer_to s.now }
    ensures listed { MatchResult result (λ n. Lined (lines_of (decode_tracked s.now)) n page.old page.new) (λ _. page.new ≡ page.old) }
{
    let mut table = [0u32; MOST_TABLE];
    let mut events = [[0u32; 4]; MOST_ENTRIES];
    let mut on = [0u32; MOST_ENTRIES];
    let header = lent_sheet::read_tracks(s, &mut table, &mut events, &mut on)?;
    let k = lent_sheet::table_words(header.tracks, header.posts);
    let m = header.events as usize;
    if let Some(i) = working::first_answered(&events[..m]) {
        return Err(Refusal::Contents(1 + (i / PER_BLOCK) as u32));
    }
    let end = working::run(
        header.tracks,
        &table[..k],
        header.stamp,
        &mut events[..m],
        &on[..m],
    )
    .unwrap();
    let used = put_events(page, end.tracks, &events[..m], &on[..m]);
    let p = put_sections(page, used, end.tracks, Track::One as u32, end.first);
    Ok(put_sections(page, p, end.tracks, Track::Two as u32, end.second))
}

// Puts the listing of a sheet of one track or of two at the front of the page, its lines or the one of its refusal; how long it is.
pub fn list(s: &[u8], page: &mut [u8; PAGE]) -> usize
    ensures { Lined (listing_of s.now) result page.old page.new }
{
    match list_worked(s, page) {
        Ok(n) => n,
        Err(refusal) => {
            let Verdict {
                number,
                block,
                position,
            } = refusal.verdict();
            put_refused(page, number, block as u64, position)
        }
    }
}
