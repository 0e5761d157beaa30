// Stamps and heads, on a fresh line of kinds 0, 4, 1 with the head given. 01, 'Numbers returned': order 1, 3, 2, 5, 4, 6;
// 'A stamp is behind when its difference from the last, taken round 2^32 and read as a signed number, is below zero. Equal is not behind.'
// 'An event taken adds 1 to the events taken and sets the last stamp. A refused event does neither.'
// Prints `E`, the case, the answer, the head (events taken, last stamp), whether the records are the same.
use crate::row;
use lent::array::ROOM;
use relay::{Event, Form, Head};
use std::fmt::{Result, Write};

// What each line begins with.
const LINE: &str = "E";

const KINDS: [u32; 3] = [
    Form::Origin as u32,
    Form::Intermediate as u32,
    Form::Terminus as u32,
];

// The head, and the event, its post, its stamp.
#[derive(Clone, Copy)]
struct Case {
    taken: u32,
    last: u32,
    event: Event,
    post: u32,
    stamp: u32,
}

// The lever of post 0 reversed at stamp 0, the last stamp before the clock's turn.
const TURN: Case = Case {
    taken: 0,
    last: 4294967295,
    event: Event::Reverse,
    post: 0,
    stamp: 0,
};

// The same with the head of a fresh line.
const START: Case = Case {
    taken: 0,
    last: 0,
    event: Event::Reverse,
    post: 0,
    stamp: 0,
};

const CASES: [Case; 13] = [
    // 0 1 5 0: six after the last, over the clock's turn
    Case { stamp: 5, ..TURN },
    // 4 0 4294967295 1: 2^31 after the last
    Case {
        stamp: 2147483647,
        ..TURN
    },
    // 0 1 2147483646 0: 2^31 - 1 after it
    Case {
        stamp: 2147483646,
        ..TURN
    },
    // 0 1 4294967295 0: equal
    Case {
        stamp: 4294967295,
        ..TURN
    },
    // 4 0 4294967295 1: one before it
    Case {
        stamp: 4294967294,
        ..TURN
    },
    // 5 1000000 0 1: 1,000,000 events already taken
    Case {
        taken: 1000000,
        ..START
    },
    // 0 1000000 0 0: the last event of a session
    Case {
        taken: 999999,
        ..START
    },
    // 1 1000001 0 1: 'Events taken are at most 1,000,000', else the line is not valid
    Case {
        taken: 1000001,
        ..START
    },
    // 5 1000000 9 1: 5 before 4
    Case {
        taken: 1000000,
        last: 9,
        stamp: 8,
        ..START
    },
    // 2 1000000 0 1: 2 before 5
    Case {
        taken: 1000000,
        event: Event::Arrive,
        post: 2,
        ..START
    },
    // 4 0 9 1: 4 before 6
    Case {
        last: 9,
        event: Event::Announce,
        post: 2,
        stamp: 8,
        ..START
    },
    // 7 0 0 1: refused by its own list, the stamp 9 is not kept
    Case {
        event: Event::Normal,
        stamp: 9,
        ..START
    },
    // 0 1 9 1: a passage with An down is taken with no effect on the records
    Case {
        event: Event::Pass,
        post: 1,
        stamp: 9,
        ..START
    },
];

// All records are compared, those past the row too.
pub fn run<W: Write>(output: &mut W) -> Result {
    let mut fresh = [row::LITTER; ROOM];
    row::session(&mut fresh[..KINDS.len()], &KINDS, 0);
    for (i, case) in CASES.iter().enumerate() {
        let head = Head {
            taken: case.taken,
            last: case.last,
        };
        let number = case.event as u32;
        let kept = lent::array::event_on(fresh, KINDS.len(), head, number, case.post, case.stamp);
        let same = u8::from(kept.posts == fresh);
        let (taken, last) = (kept.told.head.taken, kept.told.head.last);
        writeln!(
            output,
            "{LINE} {} {} {taken} {last} {same}",
            i + 1,
            kept.told.answer
        )?;
    }
    Ok(())
}
