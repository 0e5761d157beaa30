// A row of at most 32 records by value, for callers that keep the line themselves: the calls of `lent` on its first records.

#![tactic(auto)]

ghost use Rattle.std.specs.Prelude.{◌≡◌, ◌≤◌, length};
ghost use Rattle.relay.specs.Posts.{at};
ghost use Rattle.relay.specs.Valid.{valid};
ghost use Rattle.row.specs.Row.{line_of, event_row, start_row};

use relay::{Head, Post, Told};

// The most records of a row.
pub const MOST: usize = 32;

#[repr(C)]
#[derive(Clone, Copy)]
pub struct Row {
    pub posts: [Post; MOST],
    pub n: usize,
}

// What a call returns, and the row that it leaves: also of a refused event, so the two are no case of one another.
#[derive(Clone, Copy)]
pub struct Stood {
    pub told: Told,
    pub row: Row,
}

impl Row {
    // The records of its line, none where it says more than it has.
    #[tactic(auto, unfolding(crate::specs::Row::line_of), using(relay::proofs::Tests::tests))]
    pub fn line(&self) -> &[Post]
        ensures { result.now ≡ line_of self.now }
    {
        self.posts.get(..self.n).unwrap_or(&[])
    }
}

// How many posts the row's line has.
pub fn count(row: Row) -> usize
    ensures value { result ≡ length (line_of row) }
    ensures within { result ≤ 32 }
{
    row.line().len()
}

// Whether the row's line may be used with this head.
pub fn valid_row(row: Row, s: Head) -> bool
    ensures { result ≡ valid (line_of row) s }
{
    lent::desk_valid(row.line(), s)
}

// One event on the row.
pub fn event_row(row: Row, s: Head, number: u32, place: u32, stamp: u32) -> Stood
    ensures { result ≡ event_row row s number place stamp }
{
    let mut posts = row.posts;
    let told = lent::desk_event(&mut posts[..count(row)], s, number, place, stamp);
    Stood {
        told,
        row: Row { posts, ..row },
    }
}

// A row started from a table of kinds: refused, it has no posts.
pub fn start_row(kinds: &[u32], stamp: u32) -> Stood
    ensures { result ≡ start_row kinds.now stamp }
{
    let mut posts = [line::blank_post(); MOST];
    let n = kinds.len();
    let told = lent::desk_start(&mut posts[..n.min(MOST)], kinds, stamp);
    Stood {
        told,
        row: Row {
            posts,
            n: if told.answer == relay::TAKEN { n } else { 0 },
        },
    }
}

// The word of a post of the row's line, 0 where it has no such post.
pub fn word_at(row: Row, i: usize) -> u32
    ensures { result ≡ (at (line_of row) i).word }
{
    row.line().get(i).map_or(0, |post| post.word)
}
