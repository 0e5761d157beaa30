// The calls on two lent rows of post records, the two tracks over one circuit. None copies a row. C calls them by `lent_rows_c`.

#![tactic(auto)]

ghost use Rattle.std.specs.Prelude.{◌≡◌, ◌-◌, ◌&&◌, eqb, length};
ghost use Rattle.relay.specs.Kinds.{table_ok};
ghost use Rattle.relay.specs.Line.{Gives};
ghost use Rattle.relay.specs.Numbers.{number_of_refusal};
ghost use Rattle.tracks.specs.Circuit.{circuit_ok, apart, beside_ok, valid_two, answer_on, event_on, nowhere, event_two, GivesTwo, start_two};
ghost use Rattle.tracks.specs.Numbers.{refusal_code};

use relay::{Head, Pair, Post, Told};
use tracks::circuit::Circuit;
use tracks::{Refusal, Track};

// No two sections that face each other both have a signal under way: one pass over those of `own`, left at the first that has beside the other's.
#[tactic(auto, using(tracks::proofs::Tested::clear_none, tracks::proofs::Tested::clear_more, tracks::proofs::Tested::stops))]
pub fn are_apart(own: &[Post], other: &[Post]) -> bool
    ensures { result ≡ apart own.now other.now (length own.now - 1) }
{
    let n = own.len();
    for i in 0..n.saturating_sub(1) {
        let facing = other.get(tracks::circuit::facing_section(n, i));
        if !tracks::circuit::is_clear(own[i].word, facing.map_or(0, |post| post.word)) {
            return false;
        }
    }
    true
}

// What two tracks that may be used together ask beside the track's own line: on polarised current that the sections that face each other be apart.
#[tactic(auto, unfolding(tracks::specs::Circuit::beside_ok))]
pub fn beside_ok(own: &[Post], other: &[Post], circuit: u32, s: Head) -> bool
    ensures { result ≡ beside_ok circuit own.now other.now s }
{
    let Some(kind) = Circuit::decode(circuit) else {
        return false;
    };
    own.len() == other.len()
        && lent::desk_valid(other, s)
        && (kind == Circuit::Vibrated || are_apart(own, other))
}

// Whether two rows of these lengths may be the tracks of a circuit.
fn alike(n: usize, m: usize, circuit: u32) -> bool
    ensures { result ≡ (circuit_ok circuit && eqb n m) }
{
    tracks::circuit::circuit_ok(circuit) && n == m
}

// Whether the two tracks may be used together; what asks for no walk over a row comes first.
#[tactic(auto, unfolding(tracks::specs::Circuit::valid_two, tracks::specs::Circuit::beside_ok))]
pub fn desk_valid_tracks(first: &[Post], second: &[Post], circuit: u32, s: Head) -> bool
    ensures { result ≡ valid_two circuit first.now second.now s }
{
    alike(first.len(), second.len(), circuit)
        && lent::desk_valid(first, s)
        && beside_ok(first, second, circuit, s)
}

// Alters the post or section `place` of the own row, and at most one neighbour of it, or says why the event is refused beside the other row; refused, the row is as it was.
#[tactic(auto, unfolding(relay::specs::Line::answer_of, relay::specs::Line::event_of, relay::specs::Line::changed_line, tracks::specs::Circuit::answer_on, tracks::specs::Circuit::event_on, tracks::specs::Circuit::met, tracks::specs::Circuit::refusal_beside))]
fn alter(
    own: &mut [Post],
    other: &[Post],
    circuit: u32,
    s: Head,
    number: u32,
    place: u32,
    stamp: u32,
) -> Result<(), Refusal>
    ensures code { refusal_code result ≡ answer_on circuit own.old other.now s number place stamp }
    ensures line { own.new ≡ (event_on circuit own.old other.now s number place stamp).line }
{
    if !desk_valid_tracks(own, other, circuit, s) {
        return Err(Refusal::Relays(relay::Refusal::NotValid));
    }
    let n = own.len();
    step::gate::gate_refusal(n, s, number, place, stamp)?;
    let i = place as usize;
    let j = step::gate::neighbour_of(number, place);
    let facing = other[tracks::circuit::facing_of(n, number, place)].word;
    let Pair { here, other } = tracks::circuit::attempt_beside(
        own[i], own[j], facing, circuit, number,
    )?;
    own[i] = here;
    own[j] = other;
    Ok(())
}

// One event on a track beside the other: the post or section `place` of its own row, and at most one neighbour of it, altered in place; refused, the row is as it was.
#[tactic(auto, unfolding(tracks::specs::Circuit::event_on, relay::specs::Line::event_of))]
pub fn event_on(
    own: &mut [Post],
    other: &[Post],
    circuit: u32,
    s: Head,
    number: u32,
    place: u32,
    stamp: u32,
) -> Told
    ensures { Gives (event_on circuit own.old other.now s number place stamp) result own.new }
{
    match alter(own, other, circuit, s, number, place, stamp) {
        Ok(()) => step::gate::tell(relay::TAKEN, step::events::grow(s.taken), stamp),
        Err(refusal) => step::gate::refuse(refusal.number(), s),
    }
}

// The refusal of an event on a track that is neither.
#[tactic(auto, unfolding(tracks::specs::Circuit::nowhere))]
fn nowhere(first: &[Post], second: &[Post], circuit: u32, s: Head, number: u32) -> relay::Refusal
    ensures { number_of_refusal result ≡ nowhere circuit first.now second.now s number }
{
    if !desk_valid_tracks(first, second, circuit, s) {
        return relay::Refusal::NotValid;
    }
    tracks::circuit::no_track(number)
}

// One event on either track, 0 for the first and 1 for the second; the other row stays, and refused, both do.
#[tactic(auto, unfolding(tracks::specs::Circuit::event_two, tracks::specs::Circuit::event_on))]
pub fn desk_event_tracks(
    first: &mut [Post],
    second: &mut [Post],
    circuit: u32,
    s: Head,
    track: u32,
    number: u32,
    place: u32,
    stamp: u32,
) -> Told
    ensures { GivesTwo (event_two circuit first.old second.old s track number place stamp) result first.new second.new }
{
    match Track::decode(track) {
        Some(Track::One) => event_on(first, second, circuit, s, number, place, stamp),
        Some(Track::Two) => event_on(second, first, circuit, s, number, place, stamp),
        None => step::gate::refuse(nowhere(first, second, circuit, s, number).number(), s),
    }
}

// Whether rows of `n` and `m` posts may be started from the two tables.
fn may_start_tracks(n: usize, m: usize, kinds: &[u32], others: &[u32], circuit: u32) -> bool
    ensures { result ≡ (circuit_ok circuit && ((eqb n (length kinds.now) && table_ok kinds.now) && ((eqb m (length others.now) && table_ok others.now) && eqb (length kinds.now) (length others.now)))) }
{
    tracks::circuit::circuit_ok(circuit)
        && line::may_start(n, kinds)
        && line::may_start(m, others)
        && kinds.len() == others.len()
}

// Two fresh lines from two tables of kinds; refused, both rows are as they were and the head is of zeros. All is tested before the first store.
pub fn desk_start_tracks(
    first: &mut [Post],
    second: &mut [Post],
    kinds: &[u32],
    others: &[u32],
    circuit: u32,
    stamp: u32,
) -> Told
    ensures { GivesTwo (start_two circuit first.old second.old kinds.now others.now stamp) result first.new second.new }
{
    if !may_start_tracks(first.len(), second.len(), kinds, others, circuit) {
        return step::gate::tell(relay::Refusal::NotValid.number(), 0, 0);
    }
    lent::desk_start(first, kinds, stamp);
    lent::desk_start(second, others, stamp)
}
