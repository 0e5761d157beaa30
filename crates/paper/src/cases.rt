// The cases marked P, each on a fresh line of kinds 0, 4, 1. 01, 'Proved and run examples'. Prints `P`, the case, the answer.
use crate::row;
use relay::{Event, Form};
use std::fmt::{Result, Write};

// What each line begins with.
const LINE: &str = "P";

const KINDS: [u32; 3] = [
    Form::Origin as u32,
    Form::Intermediate as u32,
    Form::Terminus as u32,
];

// How many of row's events come before, then the event's number, its post, its stamp.
#[derive(Clone, Copy)]
struct Case {
    before: usize,
    number: u32,
    post: u32,
    stamp: u32,
}

// The lever of post 0 reversed at stamp 0, with nothing before it; each case says what it has else.
const FIRST: Case = Case {
    before: 0,
    number: Event::Reverse as u32,
    post: 0,
    stamp: 0,
};

const CASES: [Case; 12] = [
    // 7: the lever is normal already
    Case {
        number: Event::Normal as u32,
        ..FIRST
    },
    // 6: kind 1 has no announcement to send
    Case {
        number: Event::Announce as u32,
        post: 2,
        ..FIRST
    },
    // 2: three posts have the sections 0 and 1
    Case {
        number: Event::Arrive as u32,
        post: 2,
        ..FIRST
    },
    // 14: nothing is under way
    Case {
        number: Event::Arrive as u32,
        ..FIRST
    },
    // 3, before 2: there is no event 16, and no post 40
    Case {
        number: 16,
        post: 40,
        ..FIRST
    },
    // 0: 2^31 - 1 after the last is not behind
    Case {
        stamp: 2147483647,
        ..FIRST
    },
    // 4: 2^31 after the last reads below zero
    Case {
        stamp: 2147483648,
        ..FIRST
    },
    // 15: RL is up
    Case {
        number: Event::Restore as u32,
        ..FIRST
    },
    // 16: the announcement is under way
    Case {
        before: 1,
        number: Event::Restore as u32,
        ..FIRST
    },
    // 17: An is up at post 1
    Case {
        before: 2,
        number: Event::Restore as u32,
        ..FIRST
    },
    // 13: post 1 has not announced onward, so its RL is up
    Case {
        before: 3,
        number: Event::Release as u32,
        post: 1,
        ..FIRST
    },
    // 0: now it has
    Case {
        before: 4,
        number: Event::Release as u32,
        post: 1,
        ..FIRST
    },
];

pub fn run<W: Write>(output: &mut W) -> Result {
    for (i, case) in CASES.iter().enumerate() {
        let mut line = [row::LITTER; KINDS.len()];
        let head = row::session(&mut line, &KINDS, case.before);
        let told = lent::desk_event(&mut line, head, case.number, case.post, case.stamp);
        writeln!(output, "{LINE} {} {}", i + 1, told.answer)?;
    }
    Ok(())
}
