// What a call returns, the tests that come before an event's own, and the event on the post named and its neighbour: the by-value core.
#![tactic(auto, unfolding(relay::specs::Line::names_section, relay::specs::Line::present, relay::specs::Line::neighbour, relay::specs::Line::gate, relay::specs::Line::numbered), using(relay::proofs::Tests::tests))]

ghost use Rattle.std.specs.Prelude.{◌≡◌, IfOk};
ghost use Rattle.relay.specs.Numbers.{refusal_code};
ghost use Rattle.relay.specs.Events.{refusal, changed};
ghost use Rattle.relay.specs.Line.{told, head, names_section, gate, present, neighbour};

use relay::{Event, Head, Pair, Post, Refusal, Told};

// What a call returns.
pub fn tell(answer: u32, taken: u32, last: u32) -> Told
    ensures { result ≡ told answer (head taken last) }
{
    Told {
        answer,
        head: Head { taken, last },
    }
}

// A refusal: the head stays.
pub fn refuse(answer: u32, s: Head) -> Told
    ensures { result ≡ told answer s }
{
    Told { answer, head: s }
}

// Events 8, 9 and 10 name a section, the others a post.
pub fn names_section(number: u32) -> bool
    ensures { result ≡ names_section number }
{
    matches!(
        Event::decode(number),
        Some(Event::Arrive | Event::Lose | Event::Restore)
    )
}

// Whether the post `i`, or for 8, 9 and 10 the section `i`, is one of a line of `m` posts.
pub fn is_present(m: usize, number: u32, i: u32) -> bool
    ensures { result ≡ present m number i }
{
    if names_section(number) {
        i as usize + 1 < m
    } else {
        (i as usize) < m
    }
}

// The one neighbour that the event may alter.
pub fn neighbour_of(number: u32, i: u32) -> usize
    ensures { result ≡ neighbour number i }
{
    let at = i as usize;
    if names_section(number) || at == 0 {
        at + 1
    } else {
        at - 1
    }
}

// 3, 2, 5 and 4, in this order, on a line of `m` posts.
pub fn gate_refusal(m: usize, s: Head, number: u32, i: u32, stamp: u32) -> Result<(), Refusal>
    ensures { refusal_code result ≡ gate m s number i stamp }
{
    if Event::decode(number).is_none() {
        return Err(Refusal::NoSuchEvent);
    }
    if !is_present(m, number, i) {
        return Err(Refusal::NoSuchPlace);
    }
    if s.taken >= relay::MOST_EVENTS {
        return Err(Refusal::SessionFull);
    }
    if crate::clock::is_behind(s.last, stamp) {
        return Err(Refusal::StampBehind);
    }
    Ok(())
}

// What the event makes of the post named and its neighbour, or why it is refused.
pub fn attempt(p: Post, o: Post, number: u32) -> Result<Pair, Refusal>
    ensures refused { refusal_code result ≡ refusal number p.kind p.word o.word }
    ensures taken { IfOk result (λ b. b ≡ changed number p o) }
{
    crate::events::refusal_of(number, p.kind, p.word, o.word)?;
    Ok(crate::events::change(number, p, o))
}
