// A line that may be used, rule by rule and by value: the tests of one post, of one section, and of one step of the pass over the records.
// 01, 'A line that may be used' and 'One post's relays'.

#![tactic(auto, unfolding(crate::specs::Pass::pair_ok, relay::specs::Posts::fresh_post, relay::specs::Kinds::table_ok))]

ghost use Rattle.std.specs.Prelude.{◌≡◌, ◌&&◌, eqb, leb, length};
ghost use Rattle.relay.specs.Kinds.{count_fits, table_ok};
ghost use Rattle.relay.specs.Posts.{blank, fresh_post};
ghost use Rattle.relay.specs.Valid.{most_events};
ghost use Rattle.line.specs.Pass.{pair_ok};

pub mod choice;
pub mod kinds;
pub mod post;
pub mod section;

use relay::{Head, Post};

// What is tested before the records: how many there are, and the events taken.
pub fn usable(n: usize, s: Head) -> bool
    ensures { result ≡ (count_fits n && leb s.taken most_events) }
{
    kinds::count_fits(n) && s.taken <= relay::MOST_EVENTS
}

// One step of the pass: post `i` and the section downstream; the last post is tested with its section.
pub fn pair_ok(p: Post, d: Post, i: usize, n: usize, taken: u32) -> bool
    ensures { result ≡ pair_ok n i taken p d }
{
    post::post_ok(n, i, taken, p)
        && section::section_ok(p, d)
        && (!kinds::is_last_section(n, i) || post::post_ok(n, i + 1, taken, d))
}

// A record of zeros: what stands past the end of a row.
pub fn blank_post() -> Post
    ensures { result ≡ blank }
{
    Post::default()
}

// A post of a fresh line.
pub fn fresh(kind: u32) -> Post
    ensures { result ≡ fresh_post kind }
{
    Post {
        word: post::fresh_word(kind),
        kind,
        ..blank_post()
    }
}

// Whether a row of `m` records may be started from the table: of its length, and right.
pub fn may_start(m: usize, kinds: &[u32]) -> bool
    ensures { result ≡ (eqb m (length kinds.now) && table_ok kinds.now) }
{
    let n = kinds.len();
    m == n
        && kinds::count_fits(n)
        && kinds
            .iter()
            .enumerate()
            .all(|(i, kind)| kinds::kind_fits(n, i, *kind))
}
