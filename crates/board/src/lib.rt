// The calls for C and Rust, on saved states in bytes. Each is thin: it hands the bytes to the call of a
// crate below, which works on them where they stand, and no call has a state by value. A number behind a
// `&mut` is a result, and is written in every case. Rests on `saved`, `lent`, `run` and `ask`.
#![tactic(auto)]

ghost use Rattle.std.specs.Prelude.{◌≡◌};
ghost use Rattle.ask.specs.Asked.{asked_of};
ghost use Rattle.board.specs.Board.{RunGives, ask_chain, ask_chain_bytes, ask_in_use, ask_status, ask_waiting, check_number, fresh_bytes, fresh_number};
ghost use Rattle.board.specs.Board.{step_bytes, step_number};
ghost use Rattle.number.specs.Answer.{answer_of};
ghost use Rattle.run.specs.Run.{unread_from};

use number::{NodeNo, Refusal, ThreadNo};
use run::Report;

// ---- a saved state

// 3 if T or K is not 1 to 32, and then 4 if `out` is too short.
#[tactic(auto, unfolding(crate::specs::Board::fresh_number, crate::specs::Board::fresh_bytes))]
fn put_fresh(threads: u8, nodes: u8, out: &mut [u8]) -> Result<(), Refusal>
    ensures number { answer_of result ≡ fresh_number threads nodes out.old }
    ensures bytes { out.new ≡ fresh_bytes threads nodes out.old }
{
    number::refuse(!lock::in_size(threads, nodes), Refusal::BadSize)?;
    number::refuse(out.len() < saved::size(threads, nodes), Refusal::TooShort)?;
    saved::put_fresh(threads, nodes, out);
    Ok(())
}

// The fresh state of T threads and K nodes, saved at the start of `out`: 3 if T or K is not 1 to 32, and
// then 4 if `out` is too short.
#[unsafe(no_mangle)]
pub extern "C" fn sedge_fresh(threads: u8, nodes: u8, out: &mut [u8]) -> u8
    ensures number { result ≡ fresh_number threads nodes out.old }
    ensures bytes { out.new ≡ fresh_bytes threads nodes out.old }
{
    number::answer_number(put_fresh(threads, nodes, out))
}

// 0 if the bytes are a saved state, and else 1.
#[unsafe(no_mangle)]
#[tactic(auto, unfolding(saved::specs::Saved::read))]
pub extern "C" fn sedge_check(bytes: &[u8]) -> u8
    ensures { result ≡ check_number bytes.now }
{
    number::answer_number(number::refuse(!saved::good(bytes), Refusal::BadState))
}

// ---- one event, and a run

// One event of the saved state: 1, and then 5 to 12, the first that applies. A refusal changes no byte.
#[unsafe(no_mangle)]
pub extern "C" fn sedge_step(bytes: &mut [u8], thread: u8, node: u8) -> u8
    ensures { (result ≡ step_number bytes.old thread node) × (bytes.new ≡ step_bytes bytes.old thread node) }
{
    number::answer_number(lent::step_saved(bytes, ThreadNo(thread), NodeNo(node)))
}

// The place in the schedule where the part begins that the run of this report left unread.
fn unread_from(schedule: &[u8], report: Report) -> usize
    ensures { result ≡ unread_from schedule.now report }
{
    let part = run::unread(schedule, report);
    schedule.len() - part.len()
}

// A run from the saved state: its stopping number, or 0; 1 to 4 come before the first event and change
// nothing.
#[unsafe(no_mangle)]
#[tactic(auto, using(crate::proofs::RunLeft::left_is))]
pub extern "C" fn sedge_run(
    bytes: &mut [u8],
    schedule: &[u8],
    answers: &mut [u8],
    executed: &mut u32,
    waited: &mut u32,
    unread: &mut usize,
) -> u8
    ensures { RunGives bytes.old schedule.now answers.old result executed.new waited.new
        unread.new bytes.new answers.new }
{
    let report = run::run_saved(bytes, schedule, answers);
    *executed = report.executed;
    *waited = report.waited;
    *unread = unread_from(schedule, report);
    report.stop
}

// ---- questions

// The number of a question's answer, and the value behind it; a refused question gives value 0.
fn tell(answer: Result<u8, Refusal>, value: &mut u8) -> u8
    ensures number { result ≡ (asked_of answer).number }
    ensures value { value.new ≡ (asked_of answer).value }
{
    *value = answer.unwrap_or(0);
    number::answer_number(answer)
}

// Status: 1 free, 2 held, 3 passing. A refused question, here and below, gives 1 and value 0.
#[unsafe(no_mangle)]
pub extern "C" fn sedge_status(bytes: &[u8], status: &mut u8) -> u8
    ensures { (result ≡ (ask_status bytes.now).number) × (status.new ≡ (ask_status bytes.now).value) }
{
    tell(ask::status_saved(bytes).map(u8::from), status)
}

// The number of threads at line 16 or 19.
#[unsafe(no_mangle)]
pub extern "C" fn sedge_waiting(bytes: &[u8], waiting: &mut u8) -> u8
    ensures { (result ≡ (ask_waiting bytes.now).number) × (waiting.new ≡ (ask_waiting bytes.now).value) }
{
    tell(ask::waiting_saved(bytes), waiting)
}

// How many nodes are in use.
#[unsafe(no_mangle)]
pub extern "C" fn sedge_in_use(bytes: &[u8], in_use: &mut u8) -> u8
    ensures { (result ≡ (ask_in_use bytes.now).number) × (in_use.new ≡ (ask_in_use bytes.now).value) }
{
    tell(ask::in_use_saved(bytes), in_use)
}

// The chain of nodes that starts at `from`, at the start of `out`, and its length: 1, 4 and 6, the first
// that applies.
#[unsafe(no_mangle)]
pub extern "C" fn sedge_chain(bytes: &[u8], from: u8, out: &mut [u8], listed: &mut u8) -> u8
    ensures number { result ≡ (ask_chain bytes.now from out.old).number }
    ensures value { listed.new ≡ (ask_chain bytes.now from out.old).value }
    ensures list { out.new ≡ ask_chain_bytes bytes.now from out.old }
{
    tell(ask::chain_saved(bytes, NodeNo(from), out), listed)
}
