// The word that the rules are written with.
ghost use Rattle.std.specs.Prelude.{◌≡◌};
ghost use Rattle.relay.specs.Choice.{requires};

// 'a requires b'
pub fn needs(a: bool, b: bool) -> bool
    ensures { result ≡ requires a b }
{
    !a || b
}
