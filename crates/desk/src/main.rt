// The desk's program: does what its words ask for with the sheet, of one track or of two, on standard input. 01, 'The program and one listing'; 02, items 1, 3 and 7.

#![tactic(auto)]

ghost use Rattle.std.specs.Prelude.{◌≤◌, length};
ghost use Rattle.stream.specs.Steps.{Within};

mod since;
mod stop;
mod words;

use importing::steps;
use importing::steps::State;
use sheet::Verdict;
use sheet::layout::{MOST_BYTES, MOST_ENTRIES};
use std::env::{Env, FillError};
use std::io::{Read, Write};
use stop::Stop;
use stream::Unread;
use words::Job;

// Room for the longest word that asks for anything: a longer one is taken as an empty one.
const WORD: usize = 16;

// One byte more than the longest sheet: an input that fills it is longer than any.
const ROOM: usize = MOST_BYTES + 1;

// What follows a longest sheet is read in pieces, to two gigabytes of them.
const PIECE: usize = 65536;

const PIECES: u32 = 32768;

// A text is read in as many pieces as 2 to the 64th bytes have.
const TEXT_PIECES: u64 = 281474976710656;

// Reads on to the end of an input longer than any sheet, of which n bytes are read, so that whoever writes it is not cut off; an input that never ends is left after two gigabytes.
fn drain<R: Read>(input: &mut R, n: usize) -> Result<(), Unread> {
    if n < ROOM {
        return Ok(());
    }
    let mut room = [0u8; PIECE];
    for _ in 0..PIECES {
        if stream::read_whole(input, &mut room)? < PIECE {
            return Ok(());
        }
    }
    Ok(())
}

// Reads the whole input; how many bytes of it stand at the front of the room.
fn read_input<R: Read>(input: &mut R, room: &mut [u8; ROOM]) -> Result<usize, Unread>
    ensures { Within (length room.new) result }
{
    let n = stream::read_whole(input, room)?;
    drain(input, n)?;
    Ok(n)
}

// Prints the listing of the sheet.
fn list_sheet<R: Read, W: Write>(input: &mut R, output: &mut W) -> Result<(), Stop> {
    let mut s = [0u8; ROOM];
    let mut page = [0u8; listing::PAGE];
    let n = read_input(input, &mut s)?;
    let m = listing::list(&s[..n], &mut page);
    Ok(stream::write_whole(output, &page[..m])?)
}

// Prints the worked sheet's bytes. A refusal is told on standard error, so that none ends up inside a sheet.
fn work_sheet<R: Read, W: Write>(input: &mut R, output: &mut W) -> Result<(), Stop> {
    let mut s = [0u8; ROOM];
    let mut out = [0u8; MOST_BYTES];
    let n = read_input(input, &mut s)?;
    working::work_tracks(&s[..n], &mut out)?;
    Ok(stream::write_whole(output, &out[..n])?)
}

// Prints since when the refusal of the event at `position` holds.
#[tactic(auto, using(crate::proofs::Fronts::stands, crate::proofs::Fronts::front))]
fn say_since<R: Read, W: Write>(input: &mut R, output: &mut W, position: u32) -> Result<(), Stop> {
    let mut s = [0u8; ROOM];
    let mut line = [0u8; listing::LINE];
    let n = read_input(input, &mut s)?;
    let m = since::since_text(&s[..n], position, &mut line);
    Ok(stream::write_whole(output, &line[..m])?)
}

// Prints the register of the sheet as comma-separated text. A refusal is told on standard error, so that none ends up inside a register.
fn export_sheet<R: Read, W: Write>(input: &mut R, output: &mut W) -> Result<(), Stop> {
    let mut s = [0u8; ROOM];
    let mut page = [0u8; exporting::PAGE];
    let n = read_input(input, &mut s)?;
    let m = exporting::export_tracks(&s[..n], &mut page)?;
    Ok(stream::write_whole(output, &page[..m])?)
}

// Prints the sheet that the register's text on standard input says: read in pieces, to its end, however long it is. A refusal is told on standard error.
fn import_text<R: Read, W: Write>(input: &mut R, output: &mut W) -> Result<(), Stop> {
    let mut kinds = [0u32; 32];
    let mut events = [[0u32; 4]; MOST_ENTRIES];
    let mut room = [0u8; PIECE];
    let mut s = steps::begin();
    for _ in 0..TEXT_PIECES {
        let n = stream::read_whole(input, &mut room)?;
        s = importing::feed(&room[..n], s, &mut kinds, &mut events);
        if n < PIECE {
            return print_imported(output, s, kinds, events);
        }
    }
    Err(Stop::Unread(Unread))
}

// Prints the sheet that was fed.
fn print_imported<W: Write>(
    output: &mut W,
    s: State,
    mut kinds: [u32; 32],
    mut events: [[u32; 4]; MOST_ENTRIES],
) -> Result<(), Stop> {
    let mut out = [0u8; MOST_BYTES];
    let n = importing::settle(s, &mut kinds, &mut events, &mut out)?;
    Ok(stream::write_whole(output, &out[..n])?)
}

// How many arguments the program was started with, its own name among them.
fn argument_count<V: Env>(rt: &V) -> usize {
    let mut word = [0u8; WORD];
    for i in 0..usize::MAX {
        if let Err(FillError::NotPresent) = rt.arg(i, &mut word) {
            return i;
        }
    }
    usize::MAX
}

// Puts argument `i` at the front of the room; how long it is, or 0 where it is missing or longer than the room.
fn argument<V: Env>(rt: &V, i: usize, room: &mut [u8; WORD]) -> usize
    ensures { result ≤ length room.new }
{
    rt.arg(i, room).unwrap_or(0)
}

// The job that the program's words ask for, if they ask for any.
fn asked<V: Env>(rt: &V) -> Option<Job> {
    let mut word = [0u8; WORD];
    let mut after = [0u8; WORD];
    let n = argument(rt, 1, &mut word);
    let m = argument(rt, 2, &mut after);
    words::job_of(argument_count(rt), &word[..n], &after[..m])
}

// One line for each job: a job more is a line here, its words in `words` and a function above.
fn run<R: Read, W: Write>(input: &mut R, output: &mut W, job: Option<Job>) -> Result<(), Stop> {
    match job {
        Some(Job::List) => list_sheet(input, output),
        Some(Job::Work) => work_sheet(input, output),
        Some(Job::Why(position)) => say_since(input, output, position),
        Some(Job::Export) => export_sheet(input, output),
        Some(Job::Import) => import_text(input, output),
        None => Err(Stop::Unasked),
    }
}

fn main(rt: HostRuntime) {
    let job = asked(&rt);
    if let Err(stop) = run(&mut rt.stdin(), &mut rt.stdout(), job) {
        stop.tell(&mut rt.stderr());
    }
}
