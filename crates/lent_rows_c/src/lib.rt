// The calls on two lent rows for C: `include/desk.h` declares them. Each is the call of `lent_rows` of its name, under that call's own contract.

#![tactic(auto)]

ghost use Rattle.std.specs.Prelude.{◌≡◌};
ghost use Rattle.tracks.specs.Circuit.{valid_two, event_two, GivesTwo, start_two};

use relay::{Head, Post, Told};

// Whether the two tracks may be used together.
#[unsafe(no_mangle)]
pub extern "C" fn desk_valid_tracks(first: &[Post], second: &[Post], circuit: u32, s: Head) -> bool
    ensures { result ≡ valid_two circuit first.now second.now s }
{
    lent_rows::desk_valid_tracks(first, second, circuit, s)
}

// One event on either track.
#[unsafe(no_mangle)]
pub extern "C" fn desk_event_tracks(
    first: &mut [Post],
    second: &mut [Post],
    circuit: u32,
    s: Head,
    track: u32,
    number: u32,
    place: u32,
    stamp: u32,
) -> Told
    ensures { GivesTwo (event_two circuit first.old second.old s track number place stamp) result first.new second.new }
{
    lent_rows::desk_event_tracks(first, second, circuit, s, track, number, place, stamp)
}

// Two fresh lines from two tables of kinds.
#[unsafe(no_mangle)]
pub extern "C" fn desk_start_tracks(
    first: &mut [Post],
    second: &mut [Post],
    kinds: &[u32],
    others: &[u32],
    circuit: u32,
    stamp: u32,
) -> Told
    ensures { GivesTwo (start_two circuit first.old second.old kinds.now others.now stamp) result first.new second.new }
{
    lent_rows::desk_start_tracks(first, second, kinds, others, circuit, stamp)
}
