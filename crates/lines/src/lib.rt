// The constant table of the nineteen lines of Figure 1: for each line the node that it follows, what it
// waits for, and its follow-on lines. The step, its refusals and the waiting question go by it. What a line
// does is said where it is done (crate `event`). Rests on `number`.
#![tactic(auto)]

ghost use Rattle.std.specs.Prelude.{◌≤◌, ◌≡◌};
ghost use Rattle.number.specs.Sizes.{first_line, last_line};
ghost use Rattle.lines.specs.Lines.{line_at, row_of};

use Follow::{My, NoNode, Prev, Succ};
use Wait::{ForFlag, ForLink, ForUnlock, NoWait};
use number::FIRST_LINE;

// The node that a line follows; succ only where it is not 0.
#[derive(Clone, Copy)]
pub enum Follow {
    NoNode,
    My,
    Prev,
    Succ,
}

// What a line waits for: the flag, the unlock of my, or the link from my.
#[derive(Clone, Copy)]
pub enum Wait {
    NoWait,
    ForFlag,
    ForUnlock,
    ForLink,
}

// A row: the node that its line follows, what it waits for, the line that it goes on to, and the other one
// where it looks at a number that is not so.
#[derive(Clone, Copy)]
pub struct Row(pub Follow, pub Wait, pub u8, pub u8);

// Lines 11 to 29.
const LINES: [Row; 19] = [
    Row(NoNode, NoWait, 12, 12), // 11 | my := the event's node, put in use; entered + 1
    Row(My, NoWait, 13, 13), // 12 | next(my) := 0
    Row(My, NoWait, 14, 14), // 13 | locked(my) := 1
    Row(NoNode, NoWait, 15, 15), // 14 | prev := tail; tail := my; slot := high; high + 1
    Row(NoNode, NoWait, 16, 18), // 15 | looks at prev
    Row(NoNode, ForFlag, 17, 17), // 16 | waits until flag is 1
    Row(NoNode, NoWait, 20, 20), // 17 | flag := 0
    Row(Prev, NoWait, 19, 19), // 18 | next(prev) := my
    Row(My, ForUnlock, 20, 20), // 19 | waits until locked(my) is 0
    Row(My, NoWait, 21, 21), // 20 | nxmy and succ := next(my)
    Row(NoNode, NoWait, 22, 25), // 21 | looks at succ
    Row(NoNode, NoWait, 25, 23), // 22 | if tail = my then tail := 0
    Row(My, ForLink, 24, 24), // 23 | waits until next(my) is not 0
    Row(My, NoWait, 25, 25), // 24 | nxmy and succ := next(my)
    Row(NoNode, NoWait, 26, 26), // 25 | mess := succ
    Row(My, NoWait, 27, 27), // 26 | succ := 0; my is no longer in use
    Row(NoNode, NoWait, 28, 28), // 27 | the critical section
    Row(NoNode, NoWait, 29, 29), // 28 | succ := mess
    Row(Succ, NoWait, 11, 11), // 29 | if succ is not 0, locked(succ) := 0, else flag := 1; low + 1
];

// The row of a line, at line minus 11. An event asks by a constant, so that the compiler has the row and
// looks nothing up.
#[tactic(auto, unfolding(crate::specs::Lines::line_at))]
pub fn row_of(line: u8) -> Row
    requires { (first_line ≤ line) × (line ≤ last_line) }
    ensures { result ≡ row_of (line_at line) }
{
    let at = (line - FIRST_LINE) as usize;
    LINES[at]
}
