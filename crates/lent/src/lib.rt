// The calls on a lent row of post records. None copies the row. C calls them by `lent_c`: `include/desk.h` declares them.

#![tactic(auto)]

ghost use Rattle.std.specs.Prelude.{◌≡◌};
ghost use Rattle.relay.specs.Line.{start_of, answer_of, event_of, Gives};
ghost use Rattle.relay.specs.Numbers.{refusal_code};
ghost use Rattle.relay.specs.Valid.{valid};

pub mod array;

use relay::{Head, Pair, Post, Refusal, Told};

// Whether the line may be used: one pass over the records, left at the first that breaks a rule.
#[tactic(auto, using(line::proofs::Pass::pass))]
pub fn desk_valid(row: &[Post], s: Head) -> bool
    ensures { result ≡ valid row.now s }
{
    let n = row.len();
    if !line::usable(n, s) {
        return false;
    }
    for j in 1..n {
        if !line::pair_ok(row[j - 1], row[j], j - 1, n, s.taken) {
            return false;
        }
    }
    true
}

// A fresh line from a table of kinds; refused, the row is as it was and the head is of zeros.
#[tactic(auto, using(crate::proofs::Started::starts))]
pub fn desk_start(row: &mut [Post], kinds: &[u32], stamp: u32) -> Told
    ensures { Gives (start_of row.old kinds.now stamp) result row.new }
{
    if !line::may_start(row.len(), kinds) {
        return step::gate::tell(Refusal::NotValid.number(), 0, 0);
    }
    for (i, post) in row.iter_mut().enumerate() {
        *post = line::fresh(kinds[i]);
    }
    step::gate::tell(relay::TAKEN, 0, stamp)
}

// Alters the post or section `place`, and at most one neighbour of it, or says why the event is refused; refused, the row is as it was.
#[tactic(auto, unfolding(relay::specs::Line::answer_of, relay::specs::Line::event_of, relay::specs::Line::changed_line))]
fn alter(row: &mut [Post], s: Head, number: u32, place: u32, stamp: u32) -> Result<(), Refusal>
    ensures code { refusal_code result ≡ answer_of row.old s number place stamp }
    ensures line { row.new ≡ (event_of row.old s number place stamp).line }
{
    if !desk_valid(row, s) {
        return Err(Refusal::NotValid);
    }
    step::gate::gate_refusal(row.len(), s, number, place, stamp)?;
    let i = place as usize;
    let j = step::gate::neighbour_of(number, place);
    let Pair { here, other } = step::gate::attempt(row[i], row[j], number)?;
    row[i] = here;
    row[j] = other;
    Ok(())
}

// One event: the post or section `place`, and at most one neighbour of it, altered in place; refused, the row is as it was.
#[tactic(auto, unfolding(relay::specs::Line::event_of))]
pub fn desk_event(row: &mut [Post], s: Head, number: u32, place: u32, stamp: u32) -> Told
    ensures { Gives (event_of row.old s number place stamp) result row.new }
{
    match alter(row, s, number, place, stamp) {
        Ok(()) => step::gate::tell(relay::TAKEN, step::events::grow(s.taken), stamp),
        Err(refusal) => step::gate::refuse(refusal.number(), s),
    }
}
