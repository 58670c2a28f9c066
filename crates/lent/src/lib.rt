// The step over a saved state that is lent: the bytes are changed where they stand, with the results of the
// step by value. Rests on `saved`, which judges them, and on `event`, which executes the line in them.
#![tactic(auto)]

ghost use Rattle.std.specs.Prelude.{◌≡◌};
ghost use Rattle.lent.specs.Lent.{lent_answer, lent_bytes};
ghost use Rattle.number.specs.Answer.{answer_of};

use number::{NodeNo, Refusal, ThreadNo};

// One event of the saved state: refusal 1 if the bytes break a rule, and then 5 to 12, the first that
// applies. A refusal changes no byte.
#[tactic(auto, using(crate::specs::Proof::Event::bad_answer, crate::specs::Proof::Event::bad_stays))]
pub fn step_saved(bytes: &mut [u8], t: ThreadNo, n: NodeNo) -> Result<(), Refusal>
    ensures { (answer_of result ≡ lent_answer bytes.old t n) × (bytes.new ≡ lent_bytes bytes.old t n) }
{
    number::refuse(!saved::good(bytes), Refusal::BadState)?;
    event::event(bytes, t, n)
}
