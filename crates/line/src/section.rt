// The rules of the section between the posts `p` and `d`. The sums are of 64 bits, so that none comes round.

#![tactic(auto, unfolding(relay::specs::Relays::up, relay::specs::Valid::announcements_agree, relay::specs::Valid::garage_within, relay::specs::Valid::holds, relay::specs::Valid::one_at_most, relay::specs::Valid::passages_agree, relay::specs::Valid::recorded_agree, relay::specs::Valid::releases_agree, relay::specs::Valid::section_ok))]

ghost use Rattle.std.specs.Prelude.{◌≡◌};
ghost use Rattle.relay.specs.Valid.{holds, announcements_agree, releases_agree, recorded_agree, passages_agree, garage_within, one_at_most, section_ok};

use crate::choice::needs;
use relay::Post;

pub fn holds(p: Post) -> bool
    ensures { result ≡ holds p }
{
    u64::from(p.a) == u64::from(p.v) + u64::from(p.g) + u64::from(p.word & relay::RL == 0)
}

pub fn announcements_agree(p: Post, d: Post) -> bool
    ensures { result ≡ announcements_agree p d }
{
    u64::from(p.a) == u64::from(d.r) + u64::from(p.x) + u64::from(p.word & relay::W314 != 0)
}

pub fn releases_agree(p: Post, d: Post) -> bool
    ensures { result ≡ releases_agree p d }
{
    u64::from(d.e) == u64::from(p.v) + u64::from(p.y) + u64::from(p.word & relay::W241 != 0)
}

pub fn recorded_agree(d: Post) -> bool
    ensures { result ≡ recorded_agree d }
{
    u64::from(d.r) == u64::from(d.e) + u64::from(d.word & relay::AN != 0)
}

pub fn passages_agree(d: Post) -> bool
    ensures { result ≡ passages_agree d }
{
    u64::from(d.q) == u64::from(d.e) + u64::from(d.word & relay::KPG != 0)
}

pub fn garage_within(d: Post) -> bool
    ensures { result ≡ garage_within d }
{
    d.c <= d.e
}

// `w` is the word upstream, `z` the word downstream.
pub fn one_at_most(w: u32, z: u32) -> bool
    ensures { result ≡ one_at_most w z }
{
    (u64::from(z & relay::AN != 0)
        + u64::from(w & relay::W314 != 0)
        + u64::from(w & relay::W241 != 0)
        <= 1)
        && needs(
            z & relay::AN != 0 || w & relay::W314 != 0 || w & relay::W241 != 0,
            w & relay::RL == 0,
        )
}

pub fn section_ok(p: Post, d: Post) -> bool
    ensures { result ≡ section_ok p d }
{
    holds(p)
        && announcements_agree(p, d)
        && releases_agree(p, d)
        && recorded_agree(d)
        && passages_agree(d)
        && garage_within(d)
        && one_at_most(p.word, d.word)
}
