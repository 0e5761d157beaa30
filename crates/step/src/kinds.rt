// The two forms of a kind: every rule that asks a kind asks its ordinary form.
#![tactic(auto, unfolding(relay::specs::Kinds::is_short, relay::specs::Kinds::ordinary), using(relay::proofs::Tests::tests))]

ghost use Rattle.std.specs.Prelude.{◌≡◌};
ghost use Rattle.relay.specs.Kinds.{is_short, ordinary};

use relay::Form;

// Whether a kind is the short form of another.
pub fn is_short(kind: u32) -> bool
    ensures { result ≡ is_short kind }
{
    Form::Terminus as u32 + relay::SHORT <= kind && kind <= Form::Intermediate as u32 + relay::SHORT
}

// Its ordinary form.
pub fn ordinary(kind: u32) -> u32
    ensures { result ≡ ordinary kind }
{
    if is_short(kind) {
        kind - relay::SHORT
    } else {
        kind
    }
}
