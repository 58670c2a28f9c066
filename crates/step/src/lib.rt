// One step of the lock, by value: the state is judged, laid into a local buffer, the event is executed
// there, and the state is taken up again. Rests on `saved` and `event`; what a step is, and what it
// promises, stands in specs/ of `machine`.
#![tactic(auto)]

ghost use Rattle.std.specs.Prelude.{true, ◌≡◌};
ghost use Rattle.machine.specs.Step.{advance as advance_of, step as step_of};
ghost use Rattle.machine.specs.Stepped.{stepped_from};
ghost use Rattle.saved.specs.Saved.{saved_good, state_in};

use lock::State;
use number::{NodeNo, Refusal, ThreadNo};

// One event of a saved state that was judged before: the state after it, taken up from the bytes.
fn advance(b: &mut [u8], t: ThreadNo, n: NodeNo) -> Result<State, Refusal>
    requires { saved_good b.old ≡ true }
    ensures { stepped_from (state_in b.old) result ≡ advance_of (state_in b.old) t n }
{
    event::event(b, t, n)?;
    Ok(saved::state_in(b))
}

// One event: refusal 1, and then 5 to 12, the first that applies; else the state with the line's changes and
// nothing else changed.
#[tactic(auto, using(saved::specs::Proof::Held::laid_good), unfolding(machine::specs::Step::step))]
pub fn step(s: State, t: ThreadNo, n: NodeNo) -> Result<State, Refusal>
    ensures { stepped_from s result ≡ step_of s t n }
{
    number::refuse(!lock::valid(s), Refusal::BadState)?;
    let mut laid = saved::laid(s);
    let size = laid.size;
    advance(&mut laid.bytes[..size], t, n)
}
