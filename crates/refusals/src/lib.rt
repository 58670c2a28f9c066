// What a line follows, what stops its event and what it waits for, by its row of the constant table, on the
// bytes of a saved state. Refusals 6 to 11 and the waits come in the order of document 01, the first that
// applies; every line's event asks here, and nothing else knows a wait's test or its number. Rests on `lines`
// for the rows and on `cells` for the bytes.
#![tactic(auto)]

ghost use Rattle.std.specs.Prelude.{◌≡◌};
ghost use Rattle.cells.specs.Cells.{HasNode, HasThread, Laid, Shows};
ghost use Rattle.figure.specs.Figure.{local as local_of};
ghost use Rattle.lock.specs.State.{thread_at};
ghost use Rattle.machine.specs.Acts.{followed_by};
ghost use Rattle.machine.specs.Refusals.{follows_empty, follows_unused};
ghost use Rattle.number.specs.Answer.{answer_of};
ghost use Rattle.number.specs.Refused.{done};
ghost use Rattle.refusals.specs.Lines.{Followed};
ghost use Rattle.refusals.specs.Stops.{AtNode, choose_stop, place_stop, stop_by, wait_stop};

use lines::{Follow, Row, Wait};
use number::{LAST_PLACE, MOST_ENTRIES, NodeNo, Place, Refusal, ThreadNo};

// ---- the followed node

// The node that thread t's line follows; 0 where it follows none.
pub fn followed(b: &[u8], follow: Follow, t: ThreadNo) -> NodeNo
    requires { HasThread b.now t }
    ensures { Shows b.now result (λ s. followed_by follow (thread_at s t)) }
{
    match follow {
        Follow::NoNode => NodeNo::BOTTOM,
        Follow::My => cells::my(b, t),
        Follow::Prev => cells::prev(b, t),
        Follow::Succ => cells::succ(b, t),
    }
}

// 9: the followed node is 0. (Succ is followed only where it is not.)
fn follows_empty(follow: Follow, k: NodeNo) -> bool
    ensures { result ≡ follows_empty follow k }
{
    match follow {
        Follow::NoNode | Follow::Succ => false,
        Follow::My | Follow::Prev => k.is_bottom(),
    }
}

// 10: the followed node is not in use.
fn follows_unused(b: &[u8], k: NodeNo) -> bool
    requires { Laid b.now }
    ensures { Shows b.now result (λ s. follows_unused (local_of s) k) }
{
    !k.is_bottom() & !word::in_use(cells::local(b), k)
}

// ---- refusals

// 6, 9 and 10, the first that applies, of a line that follows node k and is given node n but chooses none.
pub fn follow_stop(b: &[u8], follow: Follow, k: NodeNo, n: NodeNo) -> Result<(), Refusal>
    requires { Laid b.now }
    ensures { Shows b.now (answer_of result) (λ s. stop_by follow s k n done) }
{
    number::refuse(!n.is_bottom(), Refusal::WrongNode)?;
    number::refuse(follows_empty(follow, k), Refusal::FollowedEmpty)?;
    number::refuse(follows_unused(b, k), Refusal::FollowedUnused)
}

// The node that thread t's line follows, where none of 6, 9 and 10 stops the event.
pub fn follow(b: &[u8], row: Row, t: ThreadNo, n: NodeNo) -> Result<NodeNo, Refusal>
    requires { HasThread b.now t }
    ensures { Followed b.now row t n result }
{
    let k = followed(b, row.0, t);
    follow_stop(b, row.0, k, n)?;
    Ok(k)
}

// 6, 7 and 8, the first that applies, of the line that chooses node n.
pub fn choose_stop(b: &[u8], n: NodeNo) -> Result<(), Refusal>
    requires { Laid b.now }
    ensures { Shows b.now (answer_of result) (λ s. choose_stop s n) }
{
    number::refuse(!number::one_to(cells::nodes(b), n.0), Refusal::WrongNode)?;
    number::refuse(MOST_ENTRIES <= cells::entered(b), Refusal::NoEntryLeft)?;
    number::refuse(word::in_use(cells::local(b), n), Refusal::NodeTaken)
}

// 11: there is no place behind p to count up to.
pub fn place_stop(p: Place) -> Result<(), Refusal>
    ensures { answer_of result ≡ place_stop p }
{
    number::refuse(LAST_PLACE <= p.0, Refusal::NoPlaceLeft)
}

// 12: what the line waits for is not so. Where it waits for a number of a node, k is the node that it
// follows.
pub fn wait_stop(b: &[u8], wait: Wait, k: NodeNo) -> Result<(), Refusal>
    requires { Laid b.now × AtNode wait (HasNode b.now k) }
    ensures { Shows b.now (answer_of result) (λ s. wait_stop wait s k) }
{
    let must_wait = match wait {
        Wait::NoWait => false,
        Wait::ForFlag => cells::flag(b) != 1,
        Wait::ForUnlock => cells::locked(b, k) != 0,
        Wait::ForLink => cells::next(b, k).is_bottom(),
    };
    number::refuse(must_wait, Refusal::MustWait)
}
