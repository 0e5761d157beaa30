// The lent calls on the first records of an array that the caller hands over and gets back: a caller that keeps its row by value runs them so.
// The row is the first `n` records, all of them where `n` is more than there are; the records past it stay.
ghost use Rattle.std.specs.Prelude.{◌≡◌, min, take};
ghost use Rattle.relay.specs.Valid.{valid};
ghost use Rattle.lent.specs.Array.{event_on, start_on, room};

use relay::{Head, Post, Told};

// The records of an array: one more than a line may have, so that a row too long for a line can be lent too.
pub const ROOM: usize = 33;

// What a call returns, and the array that it leaves, also refused.
#[derive(Clone, Copy)]
pub struct Kept {
    pub told: Told,
    pub posts: [Post; ROOM],
}

// How many records a row of `n` has.
fn at_most(n: usize) -> usize
    ensures { result ≡ min n room }
{
    n.min(ROOM)
}

// One event on the row.
pub fn event_on(
    mut posts: [Post; ROOM],
    n: usize,
    s: Head,
    number: u32,
    place: u32,
    stamp: u32,
) -> Kept
    ensures { result ≡ event_on posts n s number place stamp }
{
    let told = crate::desk_event(&mut posts[..at_most(n)], s, number, place, stamp);
    Kept { told, posts }
}

// The row started from a table of kinds.
pub fn start_on(mut posts: [Post; ROOM], n: usize, kinds: &[u32], stamp: u32) -> Kept
    ensures { result ≡ start_on posts n kinds.now stamp }
{
    let told = crate::desk_start(&mut posts[..at_most(n)], kinds, stamp);
    Kept { told, posts }
}

// Whether the row may be used as a line with this head.
pub fn valid_on(posts: [Post; ROOM], n: usize, s: Head) -> bool
    ensures { result ≡ valid (take n posts) s }
{
    crate::desk_valid(&posts[..at_most(n)], s)
}
