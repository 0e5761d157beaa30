// Rows that are no line. 01, 'A line that may be used', and 02, item 2; 'Numbers returned', 1: line not valid. A refused event leaves every record and the head.
// The row is that of 32 posts in mid-session, kinds 0, 4 thirty times, 1, with four events taken: post 0 has announced (a = 1, L and RL down),
// post 1 has An and KPg up and has announced onward (r = q = a = 1, L and RL down, W314 up). Event 6 at post 1 is taken next, as in P 12.
// Prints `D`, the damage, the answer to that event, whether records and head are the same after it, whether the row was valid.
use crate::row;
use lent::array::{Kept, ROOM};
use relay::{Event, Head, Post};
use std::fmt::{Result, Write};

// The first `n` records of the room are lent to the event; all are compared, those past the row too.
fn case<W: Write>(
    output: &mut W,
    damage: &str,
    room: [Post; ROOM],
    n: usize,
    head: Head,
) -> Result {
    let Kept { told, posts } = lent::array::event_on(room, n, head, Event::Release as u32, 1, 0);
    let same = u8::from(posts == room && told.head == head);
    let valid = u8::from(lent::array::valid_on(room, n, head));
    writeln!(output, "D {damage} {} {same} {valid}", told.answer)
}

// 02, item 2: the jam is bit 8, 'down .. at the origin'.
fn buttons<W: Write>(output: &mut W, room: [Post; ROOM], head: Head) -> Result {
    // 22 1 1: at post 1 it is no damage, and the release is refused
    let mut jam = room;
    jam[1].word |= relay::JAM;
    case(output, "jam", jam, 32, head)?;
    // 1 1 0: at the origin it is
    let mut origin = room;
    origin[0].word |= relay::JAM;
    case(output, "origin", origin, 32, head)
}

// '2 to 32 records': one intermediate post more, each record right; and fewer than two.
fn lengths<W: Write>(output: &mut W, room: [Post; ROOM], head: Head) -> Result {
    let mut long = room;
    long[32] = room[31];
    long[31] = room[30];
    case(output, "long", long, 33, head)?;
    case(output, "one", room, 1, head)?;
    case(output, "empty", room, 0, head)
}

pub fn run<W: Write>(output: &mut W) -> Result {
    let mut room = [row::LITTER; ROOM];
    let head = row::session(&mut room[..32], &row::intermediate::<32>(), 4);
    // 0 0 1: as it is, the row is valid and takes the event
    case(output, "none", room, 32, head)?;
    // 1 1 0, as all that follow: 'All other bits are zero'
    let mut bit = room;
    bit[1].word |= relay::ALL + 1;
    case(output, "bit", bit, 32, head)?;
    // 'all others have 2, 3 or 4'
    let mut kind = room;
    kind[1].kind = 5;
    case(output, "kind", kind, 32, head)?;
    // 'h equals a - v - g': 1 is not 2
    let mut count = room;
    count[0].a = 2;
    case(output, "count", count, 32, head)?;
    // the same: 0 is not 1
    let mut free = room;
    free[0].word |= relay::RL;
    case(output, "RL", free, 32, head)?;
    lengths(output, room, head)?;
    buttons(output, room, head)
}
