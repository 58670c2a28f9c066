// The step over a state that the host keeps: the state is changed where it stands, with the results of the
// step by value. Rests on `step`, which judges the state first and does the work.
#![tactic(auto)]

ghost use Rattle.std.specs.Prelude.{◌≡◌};
ghost use Rattle.kept.specs.Kept.{kept_answer, kept_state};
ghost use Rattle.number.specs.Answer.{answer_of};

use lock::State;
use number::{NodeNo, Refusal, ThreadNo};

// One event of the kept state: refusal 1, and then 5 to 12, the first that applies; a refusal leaves the
// state as it was.
pub fn step_in(s: &mut State, t: ThreadNo, n: NodeNo) -> Result<(), Refusal>
    ensures { (answer_of result ≡ kept_answer s.old t n) × (s.new ≡ kept_state s.old t n) }
{
    *s = step::step(*s, t, n)?;
    Ok(())
}
