// How many posts a line has, and the kind of each; the rules of a kind take its ordinary form, but `kind_fits`, which takes either.

#![tactic(auto, unfolding(relay::specs::Kinds::between, relay::specs::Kinds::blocks_at_pedal, relay::specs::Kinds::blocks_at_announcement, relay::specs::Kinds::count_fits, relay::specs::Kinds::kind_fits))]

ghost use Rattle.std.specs.Prelude.{◌≡◌, ◌+◌, IfSome, is_some, eqb, ltb};
ghost use Rattle.relay.specs.Kinds.{between, blocks_at_pedal, blocks_at_announcement, count_fits, kind_fits, ordinary};
ghost use Rattle.relay.specs.Numbers.{number_of_form, forms};

use relay::Form;

pub fn count_fits(n: usize) -> bool
    ensures { result ≡ count_fits n }
{
    (2..=32).contains(&n)
}

// The form of a kind, ordinary or short; a number that is no kind has none.
pub(crate) fn form_of(kind: u32) -> Option<Form>
    ensures some { IfSome result (λ f. number_of_form f ≡ ordinary kind) }
    ensures numbered { is_some result ≡ ltb (ordinary kind) forms }
{
    Form::decode(step::kinds::ordinary(kind))
}

pub fn between(kind: u32) -> bool
    ensures { result ≡ between kind }
{
    matches!(
        Form::decode(kind),
        Some(Form::PedalStation | Form::AnnouncementStation | Form::Intermediate)
    )
}

pub fn blocks_at_pedal(kind: u32) -> bool
    ensures { result ≡ blocks_at_pedal kind }
{
    matches!(Form::decode(kind), Some(Form::Origin | Form::PedalStation))
}

pub fn blocks_at_announcement(kind: u32) -> bool
    ensures { result ≡ blocks_at_announcement kind }
{
    matches!(
        Form::decode(kind),
        Some(Form::AnnouncementStation | Form::Intermediate)
    )
}

// Whether post `i` is the last of `n`.
pub fn is_last(n: usize, i: usize) -> bool
    ensures { result ≡ eqb (i + 1) n }
{
    n.checked_sub(1) == Some(i)
}

// Whether section `i` is the last of a line of `n` posts.
pub fn is_last_section(n: usize, i: usize) -> bool
    ensures { result ≡ eqb (i + 1 + 1) n }
{
    n.checked_sub(2) == Some(i)
}

pub fn kind_fits(n: usize, i: usize, kind: u32) -> bool
    ensures { result ≡ kind_fits n i kind }
{
    match form_of(kind) {
        Some(Form::Origin) => i == 0,
        Some(Form::Terminus) => i != 0 && is_last(n, i),
        Some(Form::PedalStation | Form::AnnouncementStation | Form::Intermediate) => {
            i != 0 && !is_last(n, i)
        }
        None => false,
    }
}
