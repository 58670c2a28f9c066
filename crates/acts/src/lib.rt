// What the lines do that follow no node, in place on the bytes of a saved state: one function for each thing
// that is done, in the order of the lines. It gives the first refusal that stops the line and changes
// nothing, or stores only what document 01 says that the line changes, and goes on to the follow-on line of
// its row. (The lines that follow a node are crate `follows`.) Rests on `refusals`, and on `cells` for the
// bytes.
// A row, a thread and a node are three arguments, since each is handed on by itself.
#![tactic(auto)]

ghost use Rattle.number.specs.Answer.{answer_of};
ghost use Rattle.refusals.specs.Lines.{Gives, Ready, chosen, exchanged, flag_lowered, looked, mess_sent, mess_taken, prev_looked, succ_looked, tail_closed};

use lines::Row;
use number::{NodeNo, Refusal, ThreadNo};

// 11 | my := the event's node, put in use; entered + 1
pub fn choose(b: &mut [u8], row: Row, t: ThreadNo, n: NodeNo) -> Result<(), Refusal>
    requires { Ready b.old t }
    ensures { Gives b.old b.new (answer_of result) (λ s. chosen row s t n) }
{
    refusals::choose_stop(b, n)?;
    let used = word::put_in(cells::local(b), n);
    let entered = cells::entered(b);
    cells::set_my(b, t, n);
    cells::set_local(b, used);
    cells::set_entered(b, entered + 1);
    cells::set_line(b, t, row.2);
    Ok(())
}

// 14 | prev := tail; tail := my; slot := high; high + 1
#[tactic(auto, using(refusals::specs::Laws::behind))]
pub fn exchange(b: &mut [u8], row: Row, t: ThreadNo, n: NodeNo) -> Result<(), Refusal>
    requires { Ready b.old t }
    ensures { Gives b.old b.new (answer_of result) (λ s. exchanged row s t n) }
{
    let tail = cells::tail(b);
    let my = cells::my(b, t);
    let high = cells::high(b);
    refusals::follow(b, row, t, n)?;
    refusals::place_stop(high)?;
    cells::set_prev(b, t, tail);
    cells::set_tail(b, my);
    cells::set_slot(b, t, high);
    cells::set_high(b, high.behind());
    cells::set_line(b, t, row.2);
    Ok(())
}

// The line that looks at node k: on to its next line if k is 0, else to the other one.
fn look(b: &mut [u8], row: Row, t: ThreadNo, n: NodeNo, k: NodeNo) -> Result<(), Refusal>
    requires { Ready b.old t }
    ensures { Gives b.old b.new (answer_of result) (λ s. looked row s t n k) }
{
    refusals::follow(b, row, t, n)?;
    cells::set_line(b, t, if k.is_bottom() { row.2 } else { row.3 });
    Ok(())
}

// 15 | looks at prev
pub fn look_prev(b: &mut [u8], row: Row, t: ThreadNo, n: NodeNo) -> Result<(), Refusal>
    requires { Ready b.old t }
    ensures { Gives b.old b.new (answer_of result) (λ s. prev_looked row s t n) }
{
    let prev = cells::prev(b, t);
    look(b, row, t, n, prev)
}

// 17 | flag := 0
pub fn lower_flag(b: &mut [u8], row: Row, t: ThreadNo, n: NodeNo) -> Result<(), Refusal>
    requires { Ready b.old t }
    ensures { Gives b.old b.new (answer_of result) (λ s. flag_lowered row s t n) }
{
    refusals::follow(b, row, t, n)?;
    cells::set_flag(b, 0);
    cells::set_line(b, t, row.2);
    Ok(())
}

// 21 | looks at succ
pub fn look_succ(b: &mut [u8], row: Row, t: ThreadNo, n: NodeNo) -> Result<(), Refusal>
    requires { Ready b.old t }
    ensures { Gives b.old b.new (answer_of result) (λ s. succ_looked row s t n) }
{
    let succ = cells::succ(b, t);
    look(b, row, t, n, succ)
}

// 22 | if tail = my then tail := 0
pub fn close_tail(b: &mut [u8], row: Row, t: ThreadNo, n: NodeNo) -> Result<(), Refusal>
    requires { Ready b.old t }
    ensures { Gives b.old b.new (answer_of result) (λ s. tail_closed row s t n) }
{
    refusals::follow(b, row, t, n)?;
    let tail = cells::tail(b);
    let my = cells::my(b, t);
    if tail == my {
        cells::set_tail(b, NodeNo::BOTTOM);
        cells::set_line(b, t, row.2);
    } else {
        cells::set_line(b, t, row.3);
    }
    Ok(())
}

// 25 | mess := succ
pub fn send_mess(b: &mut [u8], row: Row, t: ThreadNo, n: NodeNo) -> Result<(), Refusal>
    requires { Ready b.old t }
    ensures { Gives b.old b.new (answer_of result) (λ s. mess_sent row s t n) }
{
    refusals::follow(b, row, t, n)?;
    let succ = cells::succ(b, t);
    cells::set_mess(b, succ);
    cells::set_line(b, t, row.2);
    Ok(())
}

// 28 | succ := mess
pub fn take_mess(b: &mut [u8], row: Row, t: ThreadNo, n: NodeNo) -> Result<(), Refusal>
    requires { Ready b.old t }
    ensures { Gives b.old b.new (answer_of result) (λ s. mess_taken row s t n) }
{
    refusals::follow(b, row, t, n)?;
    let mess = cells::mess(b);
    cells::set_succ(b, t, mess);
    cells::set_line(b, t, row.2);
    Ok(())
}
