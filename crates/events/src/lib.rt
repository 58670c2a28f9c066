// An event, as a schedule names it: "One event executes one line of one thread." No other code: rows of events, answered one after the
// other, are theorems of specs/. Rests on `number`, and in specs/ on the step.
#![tactic(auto)]

use number::{NodeNo, ThreadNo};

// Document 01's (t,n): thread t executes its line, with node n where the line chooses one.
#[derive(Clone, Copy)]
pub struct Event {
    pub thread: ThreadNo,
    pub node: NodeNo,
}
