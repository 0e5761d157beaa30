// The shared circuit: which posts face each other, whether a signal is under way, and an event at the post named, its neighbour and the word of the facing post.
#![tactic(auto, unfolding(relay::specs::Line::numbered, relay::specs::Relays::up, crate::specs::Circuit::circuit_ok, crate::specs::Circuit::on_wire, crate::specs::Circuit::clear, crate::specs::Circuit::facing, crate::specs::Circuit::sends, crate::specs::Circuit::sends_in, crate::specs::Circuit::facing_of, crate::specs::Circuit::hinders, crate::specs::Circuit::at_last, crate::specs::Circuit::refusal_beside, crate::specs::Circuit::no_track), using(relay::proofs::Tests::tests))]

ghost use Rattle.std.specs.Prelude.{◌≡◌, IfOk, IfSome, is_some};
ghost use Rattle.relay.specs.Events.{changed};
ghost use Rattle.relay.specs.Numbers.{number_of_refusal};
ghost use Rattle.tracks.specs.Circuit.{circuit_ok, on_wire, clear, facing, sends, sends_in, facing_of, hinders, refusal_beside, no_track};
ghost use Rattle.tracks.specs.Numbers.{number_of_circuit, refusal_code};

use crate::Refusal;
use relay::{Event, Pair, Post};

// What current the circuit has.
#[derive(Clone, Copy, PartialEq, Eq)]
pub enum Circuit {
    Polarised = 0,
    Vibrated = 1,
}

impl Circuit {
    // The circuit kind of a number; no other number is one's.
    pub fn decode(number: u32) -> Option<Circuit>
        ensures some { IfSome result (λ c. number_of_circuit c ≡ number) }
        ensures numbered { is_some result ≡ circuit_ok number }
    {
        match number {
            0 => Some(Circuit::Polarised),
            1 => Some(Circuit::Vibrated),
            _ => None,
        }
    }
}

// Whether a number is a circuit kind.
pub fn circuit_ok(circuit: u32) -> bool
    ensures { result ≡ circuit_ok circuit }
{
    Circuit::decode(circuit).is_some()
}

// Whether a signal is under way in the section downstream of a post with this word.
pub fn on_wire(word: u32) -> bool
    ensures { result ≡ on_wire word }
{
    word & relay::W314 != 0 || word & relay::W241 != 0
}

// Not both of two sections that face each other have a signal under way: the words at their heads.
pub fn is_clear(own: u32, other: u32) -> bool
    ensures { result ≡ clear own other }
{
    !(on_wire(own) && on_wire(other))
}

// The section of the other track between the same two posts as section `s`, of `n` posts.
pub fn facing_section(n: usize, s: usize) -> usize
    ensures { result ≡ facing n s }
{
    n.saturating_sub(2).saturating_sub(s)
}

// Events 5, 6 and 7 send a signal.
pub fn sends_signal(number: u32) -> bool
    ensures { result ≡ sends number }
{
    matches!(
        Event::decode(number),
        Some(Event::Announce | Event::Release | Event::Garage)
    )
}

// The section that an event which sends names by its post.
pub fn section_of(number: u32, place: u32) -> usize
    ensures { result ≡ sends_in number place }
{
    let at = place as usize;
    if matches!(Event::decode(number), Some(Event::Announce)) {
        at
    } else {
        at.saturating_sub(1)
    }
}

// The other track's post at the head of the section that faces it, of `n` posts; 0 for an event that sends none.
pub fn facing_of(n: usize, number: u32, place: u32) -> usize
    ensures { result ≡ facing_of n number place }
{
    if sends_signal(number) {
        facing_section(n, section_of(number, place))
    } else {
        0
    }
}

// Whether the circuit is busy for the event: `word` is that post's.
pub fn is_hindered(circuit: u32, number: u32, word: u32) -> bool
    ensures { result ≡ hinders circuit number word }
{
    Circuit::decode(circuit) == Some(Circuit::Polarised) && sends_signal(number) && on_wire(word)
}

// What the event makes of the post named and its neighbour beside the word of the facing post, or why it is refused: by a busy circuit last of all.
pub fn attempt_beside(p: Post, o: Post, w: u32, circuit: u32, number: u32) -> Result<Pair, Refusal>
    ensures refused { refusal_code result ≡ refusal_beside circuit number p.kind p.word o.word w }
    ensures taken { IfOk result (λ b. b ≡ changed number p o) }
{
    let pair = step::gate::attempt(p, o, number)?;
    if is_hindered(circuit, number, w) {
        return Err(Refusal::CircuitBusy);
    }
    Ok(pair)
}

// The refusal of an event on a track that is neither, where the two may be used together.
pub fn no_track(number: u32) -> relay::Refusal
    ensures { number_of_refusal result ≡ no_track number }
{
    if Event::decode(number).is_none() {
        return relay::Refusal::NoSuchEvent;
    }
    relay::Refusal::NoSuchPlace
}
