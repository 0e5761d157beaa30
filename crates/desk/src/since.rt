// The text of `desk why POSITION`. 02, item 1.
ghost use Rattle.std.specs.Prelude.{◌≤◌, length};
ghost use Rattle.listing.specs.Lines.{Lined};
ghost use Rattle.desk.specs.Text.{start_line, since_text};

use listing::LINE;
use sheet::layout::{MOST_ENTRIES, MOST_TABLE};
use why::Since;

// '0' and the line feed, at the front; how long the line is.
fn put_start(out: &mut [u8]) -> usize
    requires { 2 ≤ length out.old }
    ensures { Lined start_line result out.old out.new }
{
    out[0] = b'0';
    out[1] = b'\n';
    2
}

// The event since which the refusal at `position` holds, as the listing has it, or why there is none; how long the line is.
pub fn since_text(s: &[u8], position: u32, out: &mut [u8; LINE]) -> usize
    ensures { Lined (since_text s.now position) result out.old out.new }
{
    let asked = why::since_when_tracks(s, position);
    let Ok(at) = asked else {
        let since = Since::from(asked);
        return listing::refused_line(out, since.number, since.block as u64, since.position);
    };
    if at == 0 {
        return put_start(out);
    }
    let mut table = [0u32; MOST_TABLE];
    let mut events = [[0u32; 4]; MOST_ENTRIES];
    let mut on = [0u32; MOST_ENTRIES];
    // What was asked of reads again.
    let Ok(header) = lent_sheet::read_tracks(s, &mut table, &mut events, &mut on) else {
        unreachable!()
    };
    let i = (at - 1) as usize;
    let e = events[i];
    listing::event_line(out, at, e[0], e[1], e[2], header.tracks, on[i])
}
