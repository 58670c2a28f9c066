// One event of a saved state, executed in place: one match on the line, nineteen arms in document 01's
// order, each naming what the line does (crates `acts` and `follows`) and asking the constant table for its
// row by the line itself. Nothing is judged here. Rests on `acts`, `follows` and `lines`.
#![tactic(auto)]

ghost use Rattle.std.specs.Prelude.{true, ◌≡◌};
ghost use Rattle.refusals.specs.Lines.{Gives, Ready};
ghost use Rattle.cells.specs.Cells.{Laid, Shows};
ghost use Rattle.event.specs.Event.{Advanced};
ghost use Rattle.figure.specs.Figure.{line as line_of};
ghost use Rattle.machine.specs.Step.{advance_by, no_thread};
ghost use Rattle.number.specs.Answer.{answer_of};
ghost use Rattle.saved.specs.Saved.{saved_good};

use number::{NodeNo, Refusal, ThreadNo};

// The line of thread t, executed: each line asks for its row by a constant, so that the compiler has the
// row and looks nothing up.
fn execute(b: &mut [u8], t: ThreadNo, n: NodeNo) -> Result<(), Refusal>
    requires { Ready b.old t }
    ensures { Gives b.old b.new (answer_of result) (λ s. advance_by (line_of s t) s t n) }
{
    let line = cells::line(b, t);
    match line {
        11 => acts::choose(b, lines::row_of(11), t, n),
        12 => follows::clear_next(b, lines::row_of(12), t, n),
        13 => follows::lock_my(b, lines::row_of(13), t, n),
        14 => acts::exchange(b, lines::row_of(14), t, n),
        15 => acts::look_prev(b, lines::row_of(15), t, n),
        16 => follows::go_on(b, lines::row_of(16), t, n),
        17 => acts::lower_flag(b, lines::row_of(17), t, n),
        18 => follows::link_prev(b, lines::row_of(18), t, n),
        19 => follows::go_on(b, lines::row_of(19), t, n),
        20 => follows::read_next(b, lines::row_of(20), t, n),
        21 => acts::look_succ(b, lines::row_of(21), t, n),
        22 => acts::close_tail(b, lines::row_of(22), t, n),
        23 => follows::go_on(b, lines::row_of(23), t, n),
        24 => follows::read_next(b, lines::row_of(24), t, n),
        25 => acts::send_mess(b, lines::row_of(25), t, n),
        26 => follows::release(b, lines::row_of(26), t, n),
        27 => follows::go_on(b, lines::row_of(27), t, n),
        28 => acts::take_mess(b, lines::row_of(28), t, n),
        _ => follows::pass_on(b, lines::row_of(29), t, n),
    }
}

// 5: there is no thread t in the saved state.
pub fn no_thread(b: &[u8], t: ThreadNo) -> bool
    requires { Laid b.now }
    ensures { Shows b.now result (λ s. no_thread s.shared.threads t) }
{
    !number::one_to(cells::threads(b), t.0)
}

// One event of a saved state that was judged before: 5 to 12, the first that applies, or the line's changes,
// in the bytes where they stand. A refusal changes no byte.
pub fn event(b: &mut [u8], t: ThreadNo, n: NodeNo) -> Result<(), Refusal>
    requires { saved_good b.old ≡ true }
    ensures { Advanced b.old b.new t n (answer_of result) }
{
    number::refuse(no_thread(b, t), Refusal::NoSuchThread)?;
    execute(b, t, n)
}
