// What is lent to a start, and a line in mid-session.
ghost use Rattle.std.specs.Prelude.{◌≤◌};

use relay::{Event, Form, Head, Post};

// The events that come before the later P cases: post 0 announces, the announcement arrives, a train passes post 1, post 1 announces.
const BEFORE: [(Event, u32); 4] = [
    (Event::Announce, 0),
    (Event::Arrive, 0),
    (Event::Pass, 1),
    (Event::Announce, 1),
];

// A record of no line, and not a fresh one: whatever a refused start touched would show.
pub const LITTER: Post = Post {
    word: 511,
    kind: 9,
    a: 1,
    x: 2,
    y: 3,
    v: 4,
    g: 5,
    r: 6,
    q: 7,
    e: 8,
    c: 10,
};

// Starts a line on the row from the table at stamp 0, and takes the first `count` of the events above, all at stamp 0; the head then.
pub fn session(row: &mut [Post], kinds: &[u32], count: usize) -> Head {
    let mut head = lent::desk_start(row, kinds, 0).head;
    for (event, post) in BEFORE.iter().take(count) {
        head = lent::desk_event(row, head, *event as u32, *post, 0).head;
    }
    head
}

// The table of a line of `N` posts, all between its ends intermediate.
pub fn intermediate<const N: usize>() -> [u32; N]
    requires { 2 ≤ N }
{
    let mut kinds = [Form::Intermediate as u32; N];
    kinds[0] = Form::Origin as u32;
    kinds[N - 1] = Form::Terminus as u32;
    kinds
}
