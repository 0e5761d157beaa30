// Why a register's text is refused.
ghost use Rattle.std.specs.Prelude.{◌≡◌, ◌≢◌};
ghost use Rattle.importing.specs.Refusals.{number_of_refusal, record_of_refusal};
ghost use Rattle.importing.specs.declared.refusal.Refusal.TheVariants.{Sheet};

// The number of a record that cannot stand, or is missing.
const WRONG_RECORD: u32 = 28;

// A record that cannot stand, or is missing, by its number, the header's being 1 (0 where it can't be counted); or what writing the sheet refuses.
#[derive(Clone, Copy, PartialEq, Eq)]
pub enum Refusal {
    Record(u64),
    Sheet(sheet::Refusal),
}

impl Refusal {
    // Its number in the table of the numbers returned; 0 in that table is no refusal.
    pub fn number(self) -> u32
        ensures value { result ≡ number_of_refusal self }
        ensures refuses { result ≢ 0 }
    {
        match self {
            Refusal::Record(_) => WRONG_RECORD,
            Refusal::Sheet(refusal) => refusal.number(),
        }
    }

    // The record that it names, or 0.
    pub fn record(self) -> u64
        ensures { result ≡ record_of_refusal self }
    {
        match self {
            Refusal::Record(at) => at,
            Refusal::Sheet(_) => 0,
        }
    }
}

impl From<sheet::Refusal> for Refusal {
    ghost from_gives = { λ refusal here. here ≡ Sheet refusal };

    fn from(refusal: sheet::Refusal) -> Refusal {
        Refusal::Sheet(refusal)
    }
}
