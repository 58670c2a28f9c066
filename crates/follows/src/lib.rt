// What the lines do that follow a node, in place on the bytes of a saved state: one function for each thing
// that is done, in the order of the lines, as in crate `acts`. Those that only wait are here: which of them
// follows a node is their row's to say. Rests on `refusals`, and on `cells` for the bytes.
#![tactic(auto)]

ghost use Rattle.std.specs.Prelude.{◌≢◌};
ghost use Rattle.cells.specs.Cells.{HasNode, Laid, Leaves};
ghost use Rattle.number.specs.Answer.{answer_of};
ghost use Rattle.refusals.specs.Lines.{Gives, Ready, Strict, freed, locked_set, next_cleared, next_read, passed_on, prev_linked, released, waited};
ghost use Rattle.refusals.specs.Stops.{AtNode};

use lines::Row;
use number::{NodeNo, Refusal, ThreadNo};

// 12 | next(my) := 0
pub fn clear_next(b: &mut [u8], row: Row, t: ThreadNo, n: NodeNo) -> Result<(), Refusal>
    requires { Ready b.old t × Strict row.0 }
    ensures { Gives b.old b.new (answer_of result) (λ s. next_cleared row s t n) }
{
    let k = refusals::follow(b, row, t, n)?;
    cells::set_next(b, k, NodeNo::BOTTOM);
    cells::set_line(b, t, row.2);
    Ok(())
}

// 13 | locked(my) := 1
pub fn lock_my(b: &mut [u8], row: Row, t: ThreadNo, n: NodeNo) -> Result<(), Refusal>
    requires { Ready b.old t × Strict row.0 }
    ensures { Gives b.old b.new (answer_of result) (λ s. locked_set row s t n) }
{
    let k = refusals::follow(b, row, t, n)?;
    cells::set_locked(b, k, 1);
    cells::set_line(b, t, row.2);
    Ok(())
}

// 16 | waits until flag is 1
// 19 | waits until locked(my) is 0
// 23 | waits until next(my) is not 0
// 27 | the critical section
#[tactic(auto, using(refusals::specs::Laws::behind))]
pub fn go_on(b: &mut [u8], row: Row, t: ThreadNo, n: NodeNo) -> Result<(), Refusal>
    requires { Ready b.old t × AtNode row.1 (Strict row.0) }
    ensures { Gives b.old b.new (answer_of result) (λ s. waited row s t n) }
{
    let k = refusals::follow(b, row, t, n)?;
    refusals::wait_stop(b, row.1, k)?;
    cells::set_line(b, t, row.2);
    Ok(())
}

// 18 | next(prev) := my
pub fn link_prev(b: &mut [u8], row: Row, t: ThreadNo, n: NodeNo) -> Result<(), Refusal>
    requires { Ready b.old t × Strict row.0 }
    ensures { Gives b.old b.new (answer_of result) (λ s. prev_linked row s t n) }
{
    let k = refusals::follow(b, row, t, n)?;
    let my = cells::my(b, t);
    cells::set_next(b, k, my);
    cells::set_line(b, t, row.2);
    Ok(())
}

// 20 and 24 | nxmy and succ := next(my)
pub fn read_next(b: &mut [u8], row: Row, t: ThreadNo, n: NodeNo) -> Result<(), Refusal>
    requires { Ready b.old t × Strict row.0 }
    ensures { Gives b.old b.new (answer_of result) (λ s. next_read row s t n) }
{
    let k = refusals::follow(b, row, t, n)?;
    let next = cells::next(b, k);
    cells::set_nxmy(b, t, next);
    cells::set_succ(b, t, next);
    cells::set_line(b, t, row.2);
    Ok(())
}

// 26 | succ := 0; my is no longer in use (the number stays)
pub fn release(b: &mut [u8], row: Row, t: ThreadNo, n: NodeNo) -> Result<(), Refusal>
    requires { Ready b.old t }
    ensures { Gives b.old b.new (answer_of result) (λ s. released row s t n) }
{
    let k = refusals::follow(b, row, t, n)?;
    let used = word::take_out(cells::local(b), k);
    cells::set_succ(b, t, NodeNo::BOTTOM);
    cells::set_local(b, used);
    cells::set_line(b, t, row.2);
    Ok(())
}

// Node k is unlocked, or the flag is raised where there is none.
fn free(b: &mut [u8], k: NodeNo)
    requires { Laid b.old × (k.0 ≢ 0 → HasNode b.old k) }
    ensures { Leaves b.old b.new (freed k) }
{
    if k.is_bottom() {
        cells::set_flag(b, 1);
    } else {
        cells::set_locked(b, k, 0);
    }
}

// 29 | if succ is not 0, locked(succ) := 0, else flag := 1; low + 1
#[tactic(auto, using(refusals::specs::Laws::behind))]
pub fn pass_on(b: &mut [u8], row: Row, t: ThreadNo, n: NodeNo) -> Result<(), Refusal>
    requires { Ready b.old t }
    ensures { Gives b.old b.new (answer_of result) (λ s. passed_on row s t n) }
{
    let low = cells::low(b);
    let k = refusals::follow(b, row, t, n)?;
    refusals::place_stop(low)?;
    free(b, k);
    cells::set_low(b, low.behind());
    cells::set_line(b, t, row.2);
    Ok(())
}
