// The five ordinary kinds of post.
ghost use Rattle.std.specs.Prelude.{◌≡◌, ◌<◌, IfSome, is_some, ltb};
ghost use Rattle.relay.specs.Numbers.{number_of_form, forms};

// What a post is on its line.
#[derive(Clone, Copy, PartialEq, Eq)]
pub enum Form {
    Origin = 0,
    Terminus = 1,
    PedalStation = 2,
    AnnouncementStation = 3,
    Intermediate = 4,
}

impl Form {
    // The form of a kind that is ordinary; a short kind's comes by `step::kinds::ordinary`, and a number past 4 is of none.
    pub fn decode(kind: u32) -> Option<Form>
        ensures some { IfSome result (λ f. number_of_form f ≡ kind) }
        ensures numbered { is_some result ≡ ltb kind forms }
    {
        match kind {
            0 => Some(Form::Origin),
            1 => Some(Form::Terminus),
            2 => Some(Form::PedalStation),
            3 => Some(Form::AnnouncementStation),
            4 => Some(Form::Intermediate),
            _ => None,
        }
    }
}
