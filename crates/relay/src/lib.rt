// The relay rules: the record of a post, the session head, and the numbers of the paper. The rules themselves stand in specs/,
// each beside the sentence that it comes from, and proofs/ has what is proved of them; `step` has them as functions.

#![tactic(auto)]

mod event;
mod form;
mod refusal;

pub use event::Event;
pub use form::Form;
pub use refusal::Refusal;

// So much greater is the short form of a kind from 1 to 4.
pub const SHORT: u32 = 16;

// The relays, as masks of the word.
pub const AN: u32 = 1;

pub const KPG: u32 = 2;

pub const L: u32 = 4;

pub const RL: u32 = 8;

pub const LEVER: u32 = 16;

pub const SIGNAL: u32 = 32;

pub const W314: u32 = 64;

pub const W241: u32 = 128;

pub const JAM: u32 = 256;

pub const ALL: u32 = 511;

// The number returned where nothing is refused; `Refusal` has the others.
pub const TAKEN: u32 = 0;

// The number of the last event.
pub const LAST_EVENT: u32 = Event::Free as u32;

// The most events of a session.
pub const MOST_EVENTS: u32 = 1000000;

// The record of one post: its relay word, its kind, the five counts of the section downstream and the four of the section upstream.
#[repr(C)]
#[derive(Clone, Copy, Default, PartialEq, Eq)]
pub struct Post {
    pub word: u32,
    pub kind: u32,
    pub a: u32,
    pub x: u32,
    pub y: u32,
    pub v: u32,
    pub g: u32,
    pub r: u32,
    pub q: u32,
    pub e: u32,
    pub c: u32,
}

// The session head: events taken so far, last stamp.
#[repr(C)]
#[derive(Clone, Copy, PartialEq, Eq)]
pub struct Head {
    pub taken: u32,
    pub last: u32,
}

// What a call returns: its number and the head. C is given it so.
#[repr(C)]
#[derive(Clone, Copy)]
pub struct Told {
    pub answer: u32,
    pub head: Head,
}

// The post that an event names, and its neighbour.
#[derive(Clone, Copy)]
pub struct Pair {
    pub here: Post,
    pub other: Post,
}
