// The blocks of a sheet, up to the first bad one.
#![tactic(auto, unfolding(sheet::specs::Reading::length_ok, sheet::specs::Reading::form_ok, sheet::specs::Reading::events_fit, sheet::specs::Reading::table_fits, sheet::specs::Reading::verdict_up_to, sheet::specs::Shape::head_shape, sheet::specs::Shape::shape_of), using(relay::proofs::Tests::tests))]

ghost use Rattle.std.specs.Prelude.{◌≡◌, ◌+◌, ◌*◌, ◌<◌, ◌≤◌, length};
ghost use Rattle.relay.specs.Kinds.{table_ok};
ghost use Rattle.sheet.specs.Check.{word};
ghost use Rattle.sheet.specs.Reading.{length_ok, kinds_at, table_in, table_fits, form_ok, events_fit, first_bad, verdict_up_to};
ghost use Rattle.sheet.specs.Refusals.{verdict_code};
ghost use Rattle.sheet.specs.Shape.{head_shape, shape_of};
ghost use Rattle.sheet.specs.Layout.{block_bytes, most_blocks};

use crate::{entry, words};
use sheet::layout::{
    BLOCK_BYTES, CHECK_AT, LAST_CIRCUIT, MOST_BYTES, ONE_TRACK, PER_BLOCK, TWO_TRACKS,
};
use sheet::{Refusal, Shape};

pub fn length_ok(n: usize) -> bool
    ensures { result ≡ length_ok n }
{
    n % BLOCK_BYTES == 0 && (BLOCK_BYTES..=MOST_BYTES).contains(&n)
}

// Whether a sheet that may be of `most` tracks may be of so many.
pub fn form_ok(most: u32, tracks: u32) -> bool
    ensures { result ≡ form_ok most tracks }
{
    (ONE_TRACK..=most).contains(&tracks)
}

// Whether starting would accept N and the kinds that stand from word `at` of block 0 on.
pub fn kinds_at(s: &[u8], at: usize) -> bool
    requires { (at ≤ 35) × (block_bytes ≤ length s.now) }
    ensures { result ≡ table_ok (kinds_at s.now at) }
{
    let n = words::get_word(s, 4) as usize;
    if !line::kinds::count_fits(n) {
        return false;
    }
    for i in 0..n {
        if !line::kinds::kind_fits(n, i, words::get_word(s, (at + i) * 4)) {
            return false;
        }
    }
    true
}

// Whether starting would accept the table of block 0, of a sheet of so many tracks: of two tracks both tables and the circuit.
pub fn table_in(s: &[u8], tracks: u32) -> bool
    requires { (block_bytes ≤ length s.now) × (tracks ≡ word s.now 0 0) }
    ensures { result ≡ table_fits (word s.now 0 0) (table_in s.now) }
{
    if !kinds_at(s, 3) {
        return false;
    }
    if tracks != TWO_TRACKS {
        return true;
    }
    let n = words::get_word(s, 4) as usize;
    kinds_at(s, 3 + n) && words::get_word(s, (3 + n * 2) * 4) <= LAST_CIRCUIT
}

// The shape of block 0 of a sheet that may be of `most` tracks; none where it departs from the layout.
fn head_shape(s: &[u8], most: u32) -> Option<Shape>
    requires { block_bytes ≤ length s.now }
    ensures { result ≡ head_shape most s.now }
{
    let tracks = words::get_word(s, 0);
    if !(form_ok(most, tracks) && table_in(s, tracks)) {
        return None;
    }
    Some(Shape {
        events: 0,
        used: 3 + crate::table_words(tracks, words::get_word(s, 4)),
    })
}

// The shape of block `b` of `n`, of a sheet that may be of `most` tracks; none where it departs from the layout.
pub fn shape_of(s: &[u8], n: u32, b: u32, most: u32) -> Option<Shape>
    requires { (b < n) × (n ≤ most_blocks) × (n * block_bytes ≤ length s.now) }
    ensures { result ≡ shape_of most s.now n b }
{
    if b == 0 {
        return head_shape(s, most);
    }
    let m = words::get_word(s, b as usize * BLOCK_BYTES) as usize;
    if !events_fit(m, b + 1 == n) {
        return None;
    }
    Some(Shape {
        events: m,
        used: 1 + m * 2,
    })
}

// 1 to 60 events, and 60 in all but the last block.
pub fn events_fit(m: usize, last: bool) -> bool
    ensures { result ≡ events_fit m last }
{
    (1..=PER_BLOCK).contains(&m) && (last || m == PER_BLOCK)
}

// Tests a sheet that may be of `most` tracks: its length first, then its blocks.
pub fn test_up_to(s: &[u8], most: u32) -> Result<(), Refusal>
    ensures { verdict_code result ≡ verdict_up_to most s.now }
{
    let n = s.len();
    if !length_ok(n) {
        return Err(Refusal::Length);
    }
    first_bad(s, (n / BLOCK_BYTES) as u32, most)
}

// Refuses the first bad block of the `n` blocks of a sheet that may be of `most` tracks; check before contents.
pub fn first_bad(s: &[u8], n: u32, most: u32) -> Result<(), Refusal>
    requires { (n ≤ most_blocks) × (n * block_bytes ≤ length s.now) }
    ensures { verdict_code result ≡ first_bad most s.now n 0 n }
{
    let mut b: u32 = 0;
    // The blocks are left by their label, wherever in one the fault is.
    'blocks: loop {
        if n <= b {
            break 'blocks Ok(());
        }
        let at = b as usize * BLOCK_BYTES;
        if !words::checks_as(s, b as usize, b) {
            break 'blocks Err(Refusal::Check(b));
        }
        let Some(shape) = shape_of(s, n, b, most) else {
            break 'blocks Err(Refusal::Contents(b));
        };
        let tracks = words::get_word(s, 0);
        for j in 0..shape.events {
            if !entry::upper_zero(words::get_word(s, at + (1 + j * 2) * 4), tracks) {
                break 'blocks Err(Refusal::UpperBits(b, j as u32));
            }
        }
        for k in shape.used..CHECK_AT {
            if words::get_word(s, at + k * 4) != 0 {
                break 'blocks Err(Refusal::Contents(b));
            }
        }
        b += 1;
    }
}
