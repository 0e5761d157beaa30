// Two rows by value over one circuit, for callers that keep both lines themselves: the calls of `lent_rows` on their first records.

#![tactic(auto)]

ghost use Rattle.std.specs.Prelude.{◌≡◌};
ghost use Rattle.row.specs.Row.{line_of};
ghost use Rattle.tracks.specs.Circuit.{valid_two};
ghost use Rattle.rows.specs.Rows.{event_rows, start_rows};

use relay::{Head, Told};
use row::{MOST, Row};

// What a call returns, and the two rows that it leaves, also refused.
#[derive(Clone, Copy)]
pub struct StoodTwo {
    pub told: Told,
    pub first: Row,
    pub second: Row,
}

// Whether the two rows' lines may be used together with this head.
pub fn valid_rows(first: Row, second: Row, circuit: u32, s: Head) -> bool
    ensures { result ≡ valid_two circuit (line_of first) (line_of second) s }
{
    let own = &first.posts[..row::count(first)];
    let other = &second.posts[..row::count(second)];
    lent_rows::desk_valid_tracks(own, other, circuit, s)
}

// One event on the two rows: on the first for track 0, on the second for track 1.
pub fn event_rows(
    first: Row,
    second: Row,
    circuit: u32,
    s: Head,
    track: u32,
    number: u32,
    place: u32,
    stamp: u32,
) -> StoodTwo
    ensures { result ≡ event_rows circuit first second s track number place stamp }
{
    let mut own = first.posts;
    let mut other = second.posts;
    let told = lent_rows::desk_event_tracks(
        &mut own[..row::count(first)],
        &mut other[..row::count(second)],
        circuit,
        s,
        track,
        number,
        place,
        stamp,
    );
    StoodTwo {
        told,
        first: Row {
            posts: own,
            ..first
        },
        second: Row {
            posts: other,
            ..second
        },
    }
}

// Two rows started from two tables of one length: refused, neither has posts.
pub fn start_rows(kinds: &[u32], others: &[u32], circuit: u32, stamp: u32) -> StoodTwo
    ensures { result ≡ start_rows circuit kinds.now others.now stamp }
{
    let mut own = [line::blank_post(); MOST];
    let mut other = own;
    let n = kinds.len();
    let told = lent_rows::desk_start_tracks(
        &mut own[..n.min(MOST)],
        &mut other[..others.len().min(MOST)],
        kinds,
        others,
        circuit,
        stamp,
    );
    let n = if told.answer == relay::TAKEN { n } else { 0 };
    StoodTwo {
        told,
        first: Row { posts: own, n },
        second: Row { posts: other, n },
    }
}
