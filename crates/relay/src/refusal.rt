// Why a start or an event on the relays is refused. The sheet's refusals, the circuit's, the register's and the question's are in their own crates.
ghost use Rattle.std.specs.Prelude.{◌≡◌, ◌≢◌, IfSome, is_some};
ghost use Rattle.relay.specs.Numbers.{number_of_refusal, is_refusal};

// Each refusal is stored and returned as its number in the table of the numbers returned; 0 there is no refusal.
#[derive(Clone, Copy, PartialEq, Eq)]
pub enum Refusal {
    NotValid = 1,
    NoSuchPlace = 2,
    NoSuchEvent = 3,
    StampBehind = 4,
    SessionFull = 5,
    NoDevice = 6,
    LeverThere = 7,
    LDown = 8,
    RlDown = 9,
    LeverReversed = 10,
    AnDown = 11,
    KpgDown = 12,
    RlUp = 13,
    NothingUnderWay = 14,
    SectionFree = 15,
    SignalUnderWay = 16,
    AnUp = 17,
    ButtonJammed = 22,
    ButtonFree = 23,
}

impl Refusal {
    // The refusal that a number in the table is of; the numbers left out are no refusal or other crates'.
    pub fn decode(number: u32) -> Option<Refusal>
        ensures some { IfSome result (λ r. number_of_refusal r ≡ number) }
        ensures numbered { is_some result ≡ is_refusal number }
    {
        match number {
            1 => Some(Refusal::NotValid),
            2 => Some(Refusal::NoSuchPlace),
            3 => Some(Refusal::NoSuchEvent),
            4 => Some(Refusal::StampBehind),
            5 => Some(Refusal::SessionFull),
            6 => Some(Refusal::NoDevice),
            7 => Some(Refusal::LeverThere),
            8 => Some(Refusal::LDown),
            9 => Some(Refusal::RlDown),
            10 => Some(Refusal::LeverReversed),
            11 => Some(Refusal::AnDown),
            12 => Some(Refusal::KpgDown),
            13 => Some(Refusal::RlUp),
            14 => Some(Refusal::NothingUnderWay),
            15 => Some(Refusal::SectionFree),
            16 => Some(Refusal::SignalUnderWay),
            17 => Some(Refusal::AnUp),
            22 => Some(Refusal::ButtonJammed),
            23 => Some(Refusal::ButtonFree),
            _ => None,
        }
    }

    // Its number in the table.
    pub fn number(self) -> u32
        ensures value { result ≡ number_of_refusal self }
        ensures refuses { result ≢ 0 }
    {
        self as u32
    }
}
