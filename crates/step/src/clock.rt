// The stamp of an event against the last.
#![tactic(auto, unfolding(relay::specs::Clock::behind))]

ghost use Rattle.std.specs.Prelude.{◌≡◌};
ghost use Rattle.relay.specs.Clock.{behind};

// Behind: the difference round 2^32, read as a signed number, is below zero.
pub fn is_behind(last: u32, stamp: u32) -> bool
    ensures { result ≡ behind last stamp }
{
    stamp.wrapping_sub(last).cast_signed() < 0
}
