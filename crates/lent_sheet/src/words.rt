// Little-endian 32-bit words in lent bytes, and the check of a block of 128 of them.
#![tactic(auto, unfolding(sheet::specs::Words::word_at, sheet::specs::Words::put_word, sheet::specs::Check::checks_as))]

ghost use Rattle.std.specs.Prelude.{◌≡◌, ◌+◌, ◌*◌, ◌%◌, ◌^◌, ◌<◌, ◌≤◌, length};
ghost use Rattle.sheet.specs.Words.{word_at, put_word};
ghost use Rattle.sheet.specs.Check.{sum, word, checks_as};
ghost use Rattle.sheet.specs.Layout.{block_bytes, block_words, most_blocks};

use sheet::layout::{BLOCK_BYTES, BLOCK_WORDS, CHECK_BASE};

// The word at the byte offset `at`.
pub fn get_word(s: &[u8], at: usize) -> u32
    requires { at + 4 ≤ length s.now }
    ensures { result ≡ word_at s.now at }
{
    u32::from_le_bytes([s[at], s[at + 1], s[at + 2], s[at + 3]])
}

// Stores the word `w` at the byte offset `at`.
pub fn put_word(s: &mut [u8], at: usize, w: u32)
    requires { at + 4 ≤ length s.old }
    ensures { s.new ≡ put_word s.old at w }
{
    let bytes = w.to_le_bytes();
    s[at] = bytes[0];
    s[at + 1] = bytes[1];
    s[at + 2] = bytes[2];
    s[at + 3] = bytes[3];
}

// The sum of the first `n` words of block `b`, carried round at 2^32.
pub fn sum_words(s: &[u8], b: usize, n: usize) -> u32
    requires { (b < most_blocks) × (n ≤ block_words) × (b * block_bytes + block_bytes ≤ length s.now) }
    ensures { result ≡ sum (word s.now b) n % 2 ^ 32 }
{
    let at = b * BLOCK_BYTES;
    let mut total: u32 = 0;
    for k in 0..n {
        total = std::num::wrapping_add_u32(total, get_word(s, at + k * 4));
    }
    total
}

// Whether the words of the block in place `p` add up to what those of block `b` do.
pub fn checks_as(s: &[u8], p: usize, b: u32) -> bool
    requires { (p < most_blocks) × (p * block_bytes + block_bytes ≤ length s.now) }
    ensures { result ≡ checks_as s.now p b }
{
    sum_words(s, p, BLOCK_WORDS) as u64 == CHECK_BASE as u64 + b as u64
}
