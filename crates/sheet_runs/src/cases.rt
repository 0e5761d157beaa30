// The cases, by subject.
ghost use Rattle.std.specs.Prelude.{◌≤◌, ◌<◌, ◌+◌, length};

use relay::{Event, Form};
use sheet::layout::{BLOCK_BYTES, MOST_BYTES, MOST_ENTRIES, UNANSWERED};
use sheet::{Found, Refusal, Verdict};
use std::fmt::{Result, Write};

// The event of the paper's second check word: event 1 at post 0, not yet answered, stamp 1000.
const FIRST: [u32; 4] = [Event::Reverse as u32, 0, UNANSWERED, 1000];

// The table of the shortest line.
const KINDS: [u32; 2] = [Form::Origin as u32, Form::Terminus as u32];

// The little-endian word that stands at a byte offset.
fn word_at(s: &[u8], at: usize) -> u32
    requires { at + 3 < length s.now }
{
    u32::from_le_bytes([s[at], s[at + 1], s[at + 2], s[at + 3]])
}

// What writing returns as a number.
fn written(kinds: &[u32], stamp: u32, events: &[[u32; 4]], out: &mut [u8]) -> u32 {
    sheet::written_number(lent_sheet::write(kinds, stamp, events, out))
}

// What testing says: number, block and position.
fn tested<W: Write>(output: &mut W, name: &str, s: &[u8]) -> Result {
    let v = Verdict::from(lent_sheet::test(s));
    writeln!(output, "{name} {} {} {}", v.number, v.block, v.position)
}

// 'kinds 0, 1 with start stamp 0 give a block 0 check word of 317940; a following block of event 1 at post 0, answer 31, stamp 1000 has check word 253455';
// 'a header alone is a good sheet'
pub fn paper<W: Write>(output: &mut W) -> Result {
    let mut out = [9u8; 1030];
    let written = written(&KINDS, 0, &[FIRST], &mut out);
    let (first, second) = (word_at(&out, 508), word_at(&out, 1020));
    // the bytes past the sheet stay
    let name = "written";
    writeln!(output, "{name} {written} {first} {second} {}", out[1024])?;
    blocks(output, &out)
}

fn blocks<W: Write>(output: &mut W, sheet: &[u8; 1030]) -> Result {
    tested(output, "header alone", &sheet[..512])?;
    tested(output, "both blocks", &sheet[..1024])?;
    // the second block alone is read as block 0: its check is one off
    tested(output, "no header", &sheet[512..1024])
}

// 'Lengths 0, 511 and 33,280 give 18'
pub fn lengths<W: Write>(output: &mut W) -> Result {
    let bytes = [0u8; 33280];
    tested(output, "length 0", &bytes[..0])?;
    tested(output, "length 511", &bytes[..511])?;
    tested(output, "length 513", &bytes[..513])?;
    tested(output, "length 33280", &bytes)?;
    // of zeros, block 0 fails its check
    tested(output, "length 512", &bytes[..512])
}

// Room that is too short gives 21, last, and stays; room past what is read stays.
pub fn rooms<W: Write>(output: &mut W) -> Result {
    let mut less = [7u8; 1023];
    let refused = written(&KINDS, 0, &[FIRST], &mut less);
    let name = "short output";
    writeln!(output, "{name} {refused} {}", less[0])?;
    let mut out = [0u8; 1024];
    let _ = lent_sheet::write(&KINDS, 77, &[FIRST], &mut out);
    let mut kinds = [5u32; 3];
    let mut events = [[6u32; 4]; 2];
    let found = Found::from(lent_sheet::read(&out, &mut kinds, &mut events));
    let (number, posts, stamp) = (found.number, found.posts, found.stamp);
    let name = "read";
    write!(output, "{name} {number} {posts} {stamp} {}", found.events)?;
    write!(output, " {} {}", kinds[1], kinds[2])?;
    let [event, post, answer, at] = events[0];
    writeln!(output, " {event} {post} {answer} {at} {}", events[1][0])?;
    let mut one = [5u32; 1];
    let short = Found::from(lent_sheet::read(&out, &mut one, &mut events));
    let (number, block, posts) = (short.number, short.block, short.posts);
    let name = "short room";
    writeln!(output, "{name} {number} {block} {posts} {}", one[0])
}

// A full sheet of 3,780 events is 64 blocks; 3,781 are refused 18; an event out of its field 20; a wrong table 1, before all.
pub fn full<W: Write>(output: &mut W) -> Result {
    let kinds = [0u32, 3, 1];
    let mut out = [0u8; MOST_BYTES];
    let whole = written(&kinds, 5, &[FIRST; MOST_ENTRIES], &mut out);
    let name = "full";
    write!(output, "{name} {whole}")?;
    tested(output, "", &out)?;
    let long = written(&kinds, 5, &[FIRST; MOST_ENTRIES + 1], &mut out);
    let name = "one too many";
    writeln!(output, "{name} {long}")?;
    let number = written(&kinds, 5, &[[32, 0, 31, 0]], &mut out);
    let post = written(&kinds, 5, &[[1, 64, 31, 0]], &mut out);
    let answer = written(&kinds, 5, &[[1, 0, 32, 0]], &mut out);
    let table = written(&[0, 5, 1], 5, &[[1, 0, 32, 0]], &mut out);
    let name = "out of field";
    writeln!(output, "{name} {number} {post} {answer} {table}")
}

// Whether a flipped bit in block `b` gives 19 with that block. The bit is flipped back.
fn found_bad(sheet: &mut [u8; MOST_BYTES], b: usize) -> bool
    requires { b < 64 }
{
    let at = b * BLOCK_BYTES + 8;
    sheet[at] ^= 1;
    let tested = lent_sheet::test(sheet);
    sheet[at] ^= 1;
    tested == Err(Refusal::Check(b as u32))
}

// One flipped bit in each block of a full sheet: 19 with that block, and no block before it.
pub fn damaged<W: Write>(output: &mut W) -> Result {
    let mut out = [0u8; MOST_BYTES];
    let _ = lent_sheet::write(&[0, 2, 4, 1], 5, &[FIRST; MOST_ENTRIES], &mut out);
    let mut right = 0;
    for b in 0..64 {
        right += usize::from(found_bad(&mut out, b));
    }
    let name = "a bad block in each place";
    writeln!(output, "{name} {right}")?;
    tested(output, "mended", &out)
}

// Bit 16 of two event words of block 2 up, and bit 16 of their stamps down, so that the block adds up as before: 24 with the block and the first of the two, then with the other.
pub fn upper<W: Write>(output: &mut W) -> Result {
    let mut out = [0u8; 1536];
    let _ = lent_sheet::write(&KINDS, 0, &[[1, 0, UNANSWERED, 66536]; 120], &mut out);
    // events 7 and 9 of block 2: their words at 1084 and 1100
    out[1086] = 1;
    out[1090] = 0;
    out[1102] = 1;
    out[1106] = 0;
    tested(output, "upper bits", &out)?;
    out[1086] = 0;
    out[1090] = 1;
    tested(output, "of one event", &out)
}
