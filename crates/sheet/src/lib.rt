// The event sheet: its numbers, and what testing, reading and unpacking say. What a sheet is stands in specs/, what is proved of it
// in proofs/; `lent_sheet` tests, reads and writes one in lent bytes.

#![tactic(auto)]

ghost use Rattle.std.specs.Prelude.{◌≡◌};
ghost use Rattle.sheet.specs.Reading.{refused, refused_tracks};
ghost use Rattle.sheet.specs.Refusals.{verdict_code, found_of, found_tracks_of};

pub mod layout;
mod refusal;

pub use refusal::{Refusal, written_number};

// What unpacking an event word says, where its upper bits are zero.
#[derive(Clone, Copy)]
pub struct Unpacked {
    pub number: u32,
    pub post: u32,
    pub answer: u32,
    pub track: u32,
}

// What a block that keeps to the layout must hold before its words are looked at one by one: how many events, and how many words before the zeros.
#[derive(Clone, Copy)]
pub struct Shape {
    pub events: usize,
    pub used: usize,
}

// What a good sheet says beside its table and its events: how many tracks it is of, how many posts each has, its start stamp and how many events.
#[derive(Clone, Copy)]
pub struct Header {
    pub tracks: u32,
    pub posts: u32,
    pub stamp: u32,
    pub events: u32,
}

// A refusal of reading, its block, and for 24 the event's position in that block; or zeros.
#[repr(C)]
#[derive(Clone, Copy)]
pub struct Verdict {
    pub number: u32,
    pub block: u32,
    pub position: u32,
}

impl From<Result<(), Refusal>> for Verdict {
    // What testing said, in numbers.
    fn from(tested: Result<(), Refusal>) -> Verdict
        ensures { result ≡ verdict_code tested }
    {
        match tested {
            Ok(()) => Verdict {
                number: 0,
                block: 0,
                position: 0,
            },
            Err(refusal) => refusal.verdict(),
        }
    }
}

// What reading returns: the number, block and position, and of a good sheet how many posts it has, its start stamp and how many events.
#[repr(C)]
#[derive(Clone, Copy)]
pub struct Found {
    pub number: u32,
    pub block: u32,
    pub position: u32,
    pub posts: u32,
    pub stamp: u32,
    pub events: u32,
}

impl From<Verdict> for Found {
    // A refusal's numbers, and nothing of the sheet.
    fn from(verdict: Verdict) -> Found
        ensures { result ≡ refused verdict }
    {
        Found {
            number: verdict.number,
            block: verdict.block,
            position: verdict.position,
            posts: 0,
            stamp: 0,
            events: 0,
        }
    }
}

impl From<Result<Header, Refusal>> for Found {
    // What reading a sheet of one track said, in numbers.
    fn from(read: Result<Header, Refusal>) -> Found
        ensures { result ≡ found_of read }
    {
        match read {
            Ok(header) => Found {
                number: 0,
                block: 0,
                position: 0,
                posts: header.posts,
                stamp: header.stamp,
                events: header.events,
            },
            Err(refusal) => Found::from(refusal.verdict()),
        }
    }
}

// What reading a sheet of either form returns: number, block and position, and of a good sheet how many tracks it is of, how many posts each has, its start stamp and how many events.
#[repr(C)]
#[derive(Clone, Copy)]
pub struct FoundTracks {
    pub number: u32,
    pub block: u32,
    pub position: u32,
    pub tracks: u32,
    pub posts: u32,
    pub stamp: u32,
    pub events: u32,
}

impl From<Verdict> for FoundTracks {
    // A refusal's numbers, and nothing of the sheet.
    fn from(verdict: Verdict) -> FoundTracks
        ensures { result ≡ refused_tracks verdict }
    {
        FoundTracks {
            number: verdict.number,
            block: verdict.block,
            position: verdict.position,
            tracks: 0,
            posts: 0,
            stamp: 0,
            events: 0,
        }
    }
}

impl From<Result<Header, Refusal>> for FoundTracks {
    // What reading a sheet of either form said, in numbers.
    fn from(read: Result<Header, Refusal>) -> FoundTracks
        ensures { result ≡ found_tracks_of read }
    {
        match read {
            Ok(header) => FoundTracks {
                number: 0,
                block: 0,
                position: 0,
                tracks: header.tracks,
                posts: header.posts,
                stamp: header.stamp,
                events: header.events,
            },
            Err(refusal) => FoundTracks::from(refusal.verdict()),
        }
    }
}
