// The calls on a lent row for C: `include/desk.h` declares them. Each is the call of `lent` of its name, under that call's own contract.

#![tactic(auto)]

ghost use Rattle.std.specs.Prelude.{◌≡◌};
ghost use Rattle.relay.specs.Line.{start_of, event_of, Gives};
ghost use Rattle.relay.specs.Valid.{valid};

use relay::{Head, Post, Told};

// Whether the line may be used.
#[unsafe(no_mangle)]
pub extern "C" fn desk_valid(row: &[Post], s: Head) -> bool
    ensures { result ≡ valid row.now s }
{
    lent::desk_valid(row, s)
}

// A fresh line from a table of kinds.
#[unsafe(no_mangle)]
pub extern "C" fn desk_start(row: &mut [Post], kinds: &[u32], stamp: u32) -> Told
    ensures { Gives (start_of row.old kinds.now stamp) result row.new }
{
    lent::desk_start(row, kinds, stamp)
}

// One event.
#[unsafe(no_mangle)]
pub extern "C" fn desk_event(row: &mut [Post], s: Head, number: u32, place: u32, stamp: u32) -> Told
    ensures { Gives (event_of row.old s number place stamp) result row.new }
{
    lent::desk_event(row, s, number, place, stamp)
}
