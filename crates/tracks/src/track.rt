// The two tracks, as a sheet or a caller numbers them.
ghost use Rattle.std.specs.Prelude.{◌≡◌, ◌||◌, IfSome, is_some, eqb};
ghost use Rattle.tracks.specs.Circuit.{track_one, track_two};
ghost use Rattle.tracks.specs.Numbers.{number_of_track};

// One of the two tracks.
#[derive(Clone, Copy, PartialEq, Eq)]
pub enum Track {
    One = 0,
    Two = 1,
}

impl Track {
    // The track of a number; no other number is a track's.
    pub fn decode(number: u32) -> Option<Track>
        ensures some { IfSome result (λ t. number_of_track t ≡ number) }
        ensures numbered { is_some result ≡ (eqb number track_one || eqb number track_two) }
    {
        match number {
            0 => Some(Track::One),
            1 => Some(Track::Two),
            _ => None,
        }
    }
}
