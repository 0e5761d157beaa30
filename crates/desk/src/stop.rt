// Why the program stops before all that was asked for is printed, and what it says of that.
use std::io::Write;
use stream::{Unread, Unwritten};

#[derive(Clone, Copy)]
pub enum Stop {
    Unread(Unread),
    Unwritten(Unwritten),
    // A refusal by its number, as the listing has it.
    Refused {
        number: u32,
        place: u64,
        position: u32,
    },
    // The words ask for no job.
    Unasked,
}

impl From<Unread> for Stop {
    fn from(unread: Unread) -> Stop {
        Stop::Unread(unread)
    }
}

impl From<Unwritten> for Stop {
    fn from(unwritten: Unwritten) -> Stop {
        Stop::Unwritten(unwritten)
    }
}

// The line of a refused sheet names its block.
impl From<sheet::Refusal> for Stop {
    fn from(refusal: sheet::Refusal) -> Stop {
        Stop::Refused {
            number: refusal.number(),
            place: refusal.block() as u64,
            position: refusal.position(),
        }
    }
}

// That of a refused text names its record.
impl From<importing::Refusal> for Stop {
    fn from(refusal: importing::Refusal) -> Stop {
        Stop::Refused {
            number: refusal.number(),
            place: refusal.record(),
            position: 0,
        }
    }
}

impl Stop {
    // Says it on `errors`, which is standard error, in one line, written whole. Where that fails too, nothing is left to do.
    #[tactic(auto, using(crate::proofs::Fronts::stands, crate::proofs::Fronts::front))]
    pub fn tell<E: Write>(self, errors: &mut E) {
        match self {
            Stop::Unread(unread) => {
                let _ = unread.tell(errors);
            }
            Stop::Unwritten(unwritten) => {
                let _ = unwritten.tell(errors);
            }
            Stop::Refused {
                number,
                place,
                position,
            } => {
                let mut line = [0u8; listing::LINE];
                let m = listing::refused_line(&mut line, number, place, position);
                let _ = stream::write_whole(errors, &line[..m]);
            }
            Stop::Unasked => {
                let usage = b"usage: desk [work | why POSITION | export | import] <INPUT\n";
                let _ = stream::write_whole(errors, usage);
            }
        }
    }
}
