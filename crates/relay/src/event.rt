// The twelve events, as a sheet or a caller numbers them.
ghost use Rattle.std.specs.Prelude.{◌≡◌, IfSome, is_some};
ghost use Rattle.relay.specs.Line.{numbered};
ghost use Rattle.relay.specs.Numbers.{number_of_event};

// What a post does, or what befalls a section.
#[derive(Clone, Copy, PartialEq, Eq)]
pub enum Event {
    Reverse = 1,
    Normal = 2,
    Pass = 3,
    Strike = 4,
    Announce = 5,
    Release = 6,
    Garage = 7,
    Arrive = 8,
    Lose = 9,
    Restore = 10,
    Jam = 11,
    Free = 12,
}

impl Event {
    // The event of a number; none has 0 or a number past 12.
    #[tactic(auto, unfolding(crate::specs::Line::numbered))]
    pub fn decode(number: u32) -> Option<Event>
        ensures some { IfSome result (λ e. number_of_event e ≡ number) }
        ensures numbered { is_some result ≡ numbered number }
    {
        match number {
            1 => Some(Event::Reverse),
            2 => Some(Event::Normal),
            3 => Some(Event::Pass),
            4 => Some(Event::Strike),
            5 => Some(Event::Announce),
            6 => Some(Event::Release),
            7 => Some(Event::Garage),
            8 => Some(Event::Arrive),
            9 => Some(Event::Lose),
            10 => Some(Event::Restore),
            11 => Some(Event::Jam),
            12 => Some(Event::Free),
            _ => None,
        }
    }
}
