// The rules of one post: its word at its kind, and its counts. Those of a word take the ordinary form of the kind, but where both forms matter.

#![tactic(auto, unfolding(relay::specs::Posts::fresh_word, relay::specs::Valid::no_other_bits, relay::specs::Valid::stays_down, relay::specs::Valid::held_is_locked, relay::specs::Valid::pedal_blocks, relay::specs::Valid::announcement_blocks, relay::specs::Valid::open_is_reversed, relay::specs::Valid::passage_is_announced, relay::specs::Valid::word_ok, relay::specs::Valid::stays_zero, relay::specs::Valid::counts_within, relay::specs::Valid::post_ok, relay::specs::Relays::up, relay::specs::Relays::raise))]

ghost use Rattle.std.specs.Prelude.{◌≡◌};
ghost use Rattle.relay.specs.Posts.{fresh_word};
ghost use Rattle.relay.specs.Valid.{no_other_bits, stays_down, held_is_locked, pedal_blocks, announcement_blocks, open_is_reversed, passage_is_announced, word_ok, stays_zero, counts_within, post_ok};

use crate::choice::needs;
use crate::kinds;
use relay::{Form, Post};

pub fn no_other_bits(w: u32) -> bool
    ensures { result ≡ no_other_bits w }
{
    w <= relay::ALL
}

pub fn stays_down(kind: u32, w: u32) -> bool
    ensures { result ≡ stays_down kind w }
{
    match Form::decode(kind) {
        Some(Form::Origin) => { w & relay::AN == 0 && w & relay::KPG == 0 && w & relay::JAM == 0 }
        Some(Form::Terminus) => {
            w & relay::L == 0 && w & relay::RL == 0 && w & relay::W314 == 0 && w & relay::W241 == 0
        }
        _ => true,
    }
}

pub fn held_is_locked(kind: u32, w: u32) -> bool
    ensures { result ≡ held_is_locked kind w }
{
    matches!(Form::decode(kind), Some(Form::Terminus))
        || needs(
            w & relay::RL == 0,
            w & relay::L == 0 && w & relay::LEVER == 0,
        )
}

pub fn pedal_blocks(kind: u32, w: u32) -> bool
    ensures { result ≡ pedal_blocks kind w }
{
    needs(
        kinds::blocks_at_pedal(kind),
        needs(
            w & relay::LEVER != 0,
            (w & relay::SIGNAL != 0) == (w & relay::L != 0),
        ),
    )
}

pub fn announcement_blocks(kind: u32, w: u32) -> bool
    ensures { result ≡ announcement_blocks kind w }
{
    needs(
        kinds::blocks_at_announcement(kind),
        ((w & relay::L != 0) == (w & relay::RL != 0))
            && ((w & relay::SIGNAL != 0) == (w & relay::LEVER != 0)),
    )
}

pub fn open_is_reversed(w: u32) -> bool
    ensures { result ≡ open_is_reversed w }
{
    needs(w & relay::SIGNAL != 0, w & relay::LEVER != 0)
}

pub fn passage_is_announced(kind: u32, w: u32) -> bool
    ensures { result ≡ passage_is_announced kind w }
{
    needs(
        !step::kinds::is_short(kind),
        needs(w & relay::KPG != 0, w & relay::AN != 0),
    )
}

pub fn word_ok(kind: u32, w: u32) -> bool
    ensures { result ≡ word_ok kind w }
{
    let form = step::kinds::ordinary(kind);
    no_other_bits(w)
        && stays_down(form, w)
        && held_is_locked(form, w)
        && pedal_blocks(form, w)
        && announcement_blocks(form, w)
        && open_is_reversed(w)
        && passage_is_announced(kind, w)
}

pub fn stays_zero(p: Post) -> bool
    ensures { result ≡ stays_zero p }
{
    match kinds::form_of(p.kind) {
        Some(Form::Origin) => p.r == 0 && p.q == 0 && p.e == 0 && p.c == 0,
        Some(Form::Terminus) => {
            p.a == 0 && p.x == 0 && p.y == 0 && p.v == 0 && p.g == 0 && p.c == 0
        }
        Some(Form::Intermediate) => p.c == 0,
        _ => true,
    }
}

pub fn counts_within(taken: u32, p: Post) -> bool
    ensures { result ≡ counts_within taken p }
{
    p.a <= taken
        && p.x <= taken
        && p.y <= taken
        && p.v <= taken
        && p.g <= taken
        && p.r <= taken
        && p.q <= taken
        && p.e <= taken
        && p.c <= taken
}

pub fn post_ok(n: usize, i: usize, taken: u32, p: Post) -> bool
    ensures { result ≡ post_ok n i taken p }
{
    kinds::kind_fits(n, i, p.kind)
        && word_ok(p.kind, p.word)
        && stays_zero(p)
        && counts_within(taken, p)
}

pub fn fresh_word(kind: u32) -> u32
    ensures { result ≡ fresh_word kind }
{
    match kinds::form_of(kind) {
        Some(Form::Terminus) => 0,
        _ => relay::L | relay::RL,
    }
}
