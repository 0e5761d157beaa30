// Why a sheet is refused. The refusals of the relays, of a register and of a question are in their own crates.
ghost use Rattle.std.specs.Prelude.{◌≡◌, ◌≢◌};
ghost use Rattle.sheet.specs.Refusals.{number_of_refusal, verdict_of_refusal, refusal_code};

use crate::Verdict;
use crate::layout::{CHECK_WRONG, CONTENTS_WRONG, LENGTH_WRONG, ROOM_SHORT, UPPER_BITS};

// Each refusal with the block that it names, and for upper bits the event's position in that block; the events and the tracks to write stand in no block yet, so their contents are refused in block 0.
#[derive(Clone, Copy, PartialEq, Eq)]
pub enum Refusal {
    NotValid,
    Length,
    Check(u32),
    Contents(u32),
    RoomShort,
    UpperBits(u32, u32),
}

impl Refusal {
    // Its number in the table of the numbers returned; 0 in that table is no refusal.
    pub fn number(self) -> u32
        ensures value { result ≡ number_of_refusal self }
        ensures refuses { result ≢ 0 }
    {
        match self {
            Refusal::NotValid => relay::Refusal::NotValid.number(),
            Refusal::Length => LENGTH_WRONG,
            Refusal::Check(_) => CHECK_WRONG,
            Refusal::Contents(_) => CONTENTS_WRONG,
            Refusal::RoomShort => ROOM_SHORT,
            Refusal::UpperBits(_, _) => UPPER_BITS,
        }
    }

    // The block that it names, or 0.
    pub fn block(self) -> u32
        ensures { result ≡ (verdict_of_refusal self).block }
    {
        match self {
            Refusal::Check(block) | Refusal::Contents(block) | Refusal::UpperBits(block, _) =>
                block,
            Refusal::NotValid | Refusal::Length | Refusal::RoomShort => 0,
        }
    }

    // The position in that block of the event that it names, or 0.
    pub fn position(self) -> u32
        ensures { result ≡ (verdict_of_refusal self).position }
    {
        match self {
            Refusal::UpperBits(_, position) => position,
            _ => 0,
        }
    }

    // Number, block and position: three calls and no match, which would compile to a jump through a table, and the stack of a call could not be bounded.
    pub fn verdict(self) -> Verdict
        ensures { result ≡ verdict_of_refusal self }
    {
        Verdict {
            number: self.number(),
            block: self.block(),
            position: self.position(),
        }
    }
}

// What writing returns as a number: that of its refusal, or 0.
pub fn written_number(written: Result<(), Refusal>) -> u32
    ensures { result ≡ refusal_code written }
{
    match written {
        Ok(()) => relay::TAKEN,
        Err(refusal) => refusal.number(),
    }
}
