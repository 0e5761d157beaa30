// Why an event on a track beside another is refused.
ghost use Rattle.std.specs.Prelude.{◌≡◌, ◌≢◌};
ghost use Rattle.tracks.specs.Numbers.{number_of_refusal};
ghost use Rattle.tracks.specs.declared.refusal.Refusal.TheVariants.{Relays};

// The number of a busy circuit.
const CIRCUIT_BUSY: u32 = 25;

#[derive(Clone, Copy, PartialEq, Eq)]
pub enum Refusal {
    // As on one track.
    Relays(relay::Refusal),
    // A signal is under way in the facing section of the other track.
    CircuitBusy,
}

impl From<relay::Refusal> for Refusal {
    ghost from_gives = { λ alone refusal. refusal ≡ Relays alone };

    fn from(alone: relay::Refusal) -> Refusal {
        Refusal::Relays(alone)
    }
}

impl Refusal {
    // Its number in the table of the numbers returned; 0 in that table is no refusal.
    pub fn number(self) -> u32
        ensures value { result ≡ number_of_refusal self }
        ensures refuses { result ≢ 0 }
    {
        match self {
            Refusal::Relays(alone) => alone.number(),
            Refusal::CircuitBusy => CIRCUIT_BUSY,
        }
    }
}
