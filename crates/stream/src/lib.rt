// Reading and writing whole, where a call that fails is never taken for an end.

#![tactic(auto)]

ghost use Rattle.std.specs.Prelude.{◌≡◌, Some, length};
ghost use Rattle.stream.specs.Steps.{after_read, after_write, Within};
ghost use Rattle.stream.specs.Steps.{further as Steps·further};
ghost use Rattle.stream.specs.Whole.{ReadsWhole, WritesWhole};
ghost use Rattle.std.specs.Io.KnownBytes.{Appends};
ghost use Rattle.stream.specs.Lines.{line, unread, unwritten};

use std::io::{Read, Write};
use std::ops::ControlFlow;
use std::ops::ControlFlow::{Break, Continue};
use std::{fmt, io};

// A read failed, so the input could not be read to its end.
#[derive(Clone, Copy, Debug, PartialEq, Eq)]
pub struct Unread;

// A write failed or took nothing, so the output could not be written whole.
#[derive(Clone, Copy, Debug, PartialEq, Eq)]
pub struct Unwritten;

impl fmt::Display for Unread {
    ghost output = { λ _. Some unread };

    fn fmt<W: fmt::Write>(&self, f: &mut fmt::Formatter<W>) -> fmt::Result {
        write!(f, "the input could not be read")
    }
}

impl fmt::Display for Unwritten {
    ghost output = { λ _. Some unwritten };

    fn fmt<W: fmt::Write>(&self, f: &mut fmt::Formatter<W>) -> fmt::Result {
        write!(f, "the output could not be written")
    }
}

impl Unread {
    // Tells it on `errors`, which is standard error, in one line. The line and its end are one text, so that no other program's line comes between them.
    pub fn tell<E: Write>(self, errors: &mut E) -> Result<(), Unwritten>
        ensures { WritesWhole (E.contents errors.old) (E.contents errors.new) result (line unread) }
    {
        write_whole(errors, b"the input could not be read\n")
    }
}

impl Unwritten {
    // Tells it likewise.
    pub fn tell<E: Write>(self, errors: &mut E) -> Result<(), Unwritten>
        ensures { WritesWhole (E.contents errors.old) (E.contents errors.new) result (line unwritten) }
    {
        write_whole(errors, b"the output could not be written\n")
    }
}

// An output that `write!` and `writeln!` print to. Each piece of what is printed is written by `write_whole`, so a write that fails or that a signal interrupts is the last.
#[derive(Drop)]
pub struct Printer<'a, W> {
    pub output: &'a mut W,
}

impl<W: Write> fmt::Write for Printer<'_, W> {
    ghost write_str_gives = { λ before text after. Appends (W.contents before.output.now) (W.contents after.output.now) text };

    fn write_str(&mut self, s: &str) -> fmt::Result {
        match write_whole(self.output, s.as_bytes()) {
            Ok(()) => Ok(()),
            Err(_) => Err(fmt::Error),
        }
    }
}

// `k` bytes further than `at`, and never past the room.
fn further(at: usize, room: usize, k: usize) -> usize
    ensures { result ≡ Steps·further at room k }
{
    at.saturating_add(k).min(room)
}

// The step of a reading: `got` is what `read` gave, for the room from `at` on. The reading is over with so many bytes, or goes on from a further place.
#[tactic(auto, unfolding(crate::specs::Steps::after_read))]
pub fn after_read(
    got: io::Result<usize>,
    at: usize,
    room: usize,
) -> Result<ControlFlow<usize, usize>, Unread>
    ensures { result ≡ after_read got at room }
{
    match got {
        Ok(0) => Ok(Break(at)),
        Ok(n) => Ok(Continue(further(at, room, n))),
        Err(_) => Err(Unread),
    }
}

// The step of a writing: `got` is what `write` gave, for the bytes from `at` on. The writing goes on from a further place.
#[tactic(auto, unfolding(crate::specs::Steps::after_write))]
pub fn after_write(got: io::Result<usize>, at: usize, room: usize) -> Result<usize, Unwritten>
    ensures { result ≡ after_write got at room }
{
    match got {
        Ok(0) | Err(_) => Err(Unwritten),
        Ok(n) => Ok(further(at, room, n)),
    }
}

// Reads until the room is full, the input is at its end or a read fails; how many bytes stand at the front of the room.
pub fn read_whole<R: Read>(input: &mut R, room: &mut [u8]) -> Result<usize, Unread>
    ensures within { Within (length room.new) result }
    ensures bytes { ReadsWhole (R.remaining input.old) (R.remaining input.new) result room.new }
{
    let mut at: usize = 0;
    // A read moves as many bytes as it likes, so no range counts the turns; nor does one below, of the writes.
    while at < room.len() {
        match after_read(input.read(&mut room[at..]), at, room.len())? {
            Break(n) => return Ok(n),
            Continue(place) => at = place,
        }
    }
    Ok(at)
}

// Writes all of the text, or up to a write that fails or takes nothing.
pub fn write_whole<W: Write>(output: &mut W, text: &[u8]) -> Result<(), Unwritten>
    ensures { WritesWhole (W.contents output.old) (W.contents output.new) result text.now }
{
    let mut at: usize = 0;
    while at < text.len() {
        at = after_write(output.write(&text[at..]), at, text.len())?;
    }
    Ok(())
}
