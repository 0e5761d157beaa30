// The listing: kinds 0, 1, start stamp 0, event k stamped 1000k. 01, 'The program and one listing'.
// Prints one line per event, position, event, post, answer; then the section, S, section, a, r, x, q, e, y, v, g, h.
use crate::row;
use relay::{Event, Form, Post};
use std::fmt::{Result, Write};

// What the line of a section begins with.
const SECTION: &str = "S";

const KINDS: [u32; 2] = [Form::Origin as u32, Form::Terminus as u32];

// The event and its post, and why it has the paper's answer. So S is 0, then a = r = 1, x = 0, q = e = y = 1, v = 0, g = 1, h = 0.
const EVENTS: [(Event, u32); 15] = [
    // 0: L is up and the lever normal
    (Event::Reverse, 0),
    // 0: the lever is reversed, so the signal closes, and at kind 0 L drops
    (Event::Strike, 0),
    // 10: RL is up, the lever reversed
    (Event::Announce, 0),
    // 0: the lever goes to normal
    (Event::Normal, 0),
    // 8: L is down
    (Event::Reverse, 0),
    // 0: RL is up, the lever normal; a = 1, L and RL drop, W314 rises
    (Event::Announce, 0),
    // 0: An is down, so the strike has no effect
    (Event::Pass, 1),
    // 0: W314 drops, An rises, r = 1
    (Event::Arrive, 0),
    // 12: An is up, KPg down
    (Event::Release, 1),
    // 0: KPg rises, q = 1
    (Event::Pass, 1),
    // 0: at kind 1 the lever is normal; An and KPg drop, W241 rises, e = 1
    (Event::Release, 1),
    // 0: W241 drops, y = 1
    (Event::Lose, 0),
    // 8: the release was lost, L is still down
    (Event::Reverse, 0),
    // 0: RL is down, nothing under way, An down; L and RL rise, g = 1
    (Event::Restore, 0),
    // 0: L is up again
    (Event::Reverse, 0),
];

// The section between the posts `p` and `d`; h is 1 if RL is down.
fn section<W: Write>(output: &mut W, p: Post, d: Post) -> Result {
    let h = u8::from(p.word & relay::RL == 0);
    write!(output, "{SECTION} {} {} {}", 0, p.a, d.r)?;
    write!(output, " {} {} {}", p.x, d.q, d.e)?;
    writeln!(output, " {} {} {} {h}", p.y, p.v, p.g)
}

pub fn run<W: Write>(output: &mut W) -> Result {
    let mut line = [row::LITTER; KINDS.len()];
    let mut head = row::session(&mut line, &KINDS, 0);
    for (i, (event, post)) in EVENTS.iter().enumerate() {
        let position = i as u32 + 1;
        let number = *event as u32;
        let told = lent::desk_event(&mut line, head, number, *post, 1000 * position);
        head = told.head;
        writeln!(output, "{position} {number} {post} {}", told.answer)?;
    }
    section(output, line[0], line[1])
}
