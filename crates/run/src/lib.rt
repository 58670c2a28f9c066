// A run: the events of a schedule, one after the other, in the bytes of a saved state that is judged once;
// and the unread part of its schedule. A run by value is made in the bytes of its state. Rests on
// `schedule`, `saved` and `event`, and in specs/ on `events` and `rows`.
#![tactic(auto)]

ghost use Rattle.std.specs.Prelude.{IfOk, ◌≤◌, true, ◌≡◌, length};
ghost use Rattle.events.specs.Row.{goes_on, waits as is_wait};
ghost use Rattle.number.specs.Answer.{answer_of, number_of};
ghost use Rattle.number.specs.Refused.{first_of};
ghost use Rattle.rows.specs.Rows.{over};
ghost use Rattle.run.specs.Run.{answers_of, onward, ran_over, refusal as refusal_of, reported, run as run_of};
ghost use Rattle.run.specs.Run.{run_bytes, schedule_refusals, unread as unread_of, unread_from};
ghost use Rattle.run.specs.Saved.{run_left};
ghost use Rattle.saved.specs.Saved.{bytes_of, read, saved_good, state_in};
ghost use Rattle.schedule.specs.Schedule.{events_in, good};

use lock::State;
use number::{DONE, Refusal, answer_number, refuse};
use schedule::{Heading, Schedule, WIDTH};

// Events executed, events waited, and the stopping number, or 0. It is a number and no `Refusal`, since
// `unread` takes any report that its caller makes.
#[derive(Clone, Copy)]
pub struct Report {
    pub executed: u32,
    pub waited: u32,
    pub stop: u8,
}

// What a run reports, and the state that it ends in.
#[derive(Clone, Copy)]
pub struct Ran {
    pub report: Report,
    pub state: State,
}

// ---- refusals 1 to 4

// The schedule, judged, or the first of 2 to 4 that applies to its run from a state of this size, with so
// much room for its answers.
fn judged<'a>(size: Heading, schedule: &'a [u8], room: usize) -> Result<Schedule<'a>, Refusal>
    ensures refusal { answer_of result ≡ first_of (schedule_refusals size.threads size.nodes schedule.now room) }
    ensures same { IfOk result (λ judged. judged.bytes ≡ schedule.entry) }
{
    let judged = Schedule::judge(schedule)?;
    refuse(judged.heading() != size, Refusal::BadSize)?;
    refuse(room < judged.len(), Refusal::TooShort)?;
    Ok(judged)
}

// The schedule, or the first of 1 to 4 that applies to a run from s.
#[tactic(auto, unfolding(crate::specs::Run::refusal))]
fn judged_with<'a>(s: State, schedule: &'a [u8], room: usize) -> Result<Schedule<'a>, Refusal>
    ensures refusal { answer_of result ≡ refusal_of s schedule.now room }
    ensures same { IfOk result (λ judged. judged.bytes ≡ schedule.entry) }
{
    refuse(!lock::valid(s), Refusal::BadState)?;
    let size = Heading {
        threads: s.shared.threads,
        nodes: s.shared.nodes,
    };
    judged(size, schedule, room)
}

// The schedule, or the first of 1 to 4 that applies to a run from the state that the bytes hold.
#[tactic(auto, using(cells::specs::Proof::Good::laid, saved::specs::Proof::Held::bad_valid), unfolding(crate::specs::Run::refusal))]
fn judged_with_saved<'a>(
    bytes: &[u8],
    schedule: &'a [u8],
    room: usize,
) -> Result<Schedule<'a>, Refusal>
    ensures refusal { answer_of result ≡ refusal_of (read bytes.now).state schedule.now room }
    ensures same { IfOk result (λ judged. judged.bytes ≡ schedule.entry) }
{
    refuse(!saved::good(bytes), Refusal::BadState)?;
    let size = Heading {
        threads: cells::threads(bytes),
        nodes: cells::nodes(bytes),
    };
    judged(size, schedule, room)
}

// ---- the report

// The answer is that of an event that waited.
fn waits(answer: u8) -> bool
    ensures { result ≡ is_wait answer }
{
    answer == u8::from(Refusal::MustWait)
}

// After 0 or a wait the run goes on. Public for other rows of steps.
pub fn goes_on(answer: u8) -> bool
    ensures { result ≡ goes_on answer }
{
    answer == DONE || waits(answer)
}

// No event was executed, since one of 1 to 4 came before the first.
fn refused(refusal: Refusal) -> Report
    ensures { result ≡ reported 0 0 (number_of refusal) }
{
    Report {
        executed: 0,
        waited: 0,
        stop: u8::from(refusal),
    }
}

// ---- the run

// The events of a good schedule, on the bytes of a saved state that was judged before, with room for each
// answer. They are taken from a `Schedule`, so that nothing is judged again, and each is executed in the
// bytes where they stand. (By number: of a `zip` with the answers the proof loses what was stored.)
pub fn run_events(b: &mut [u8], schedule: &[u8], answers: &mut [u8]) -> Report
    requires { (saved_good b.old ≡ true) × (good schedule.now ≡ true) × (events_in schedule.now ≤ length answers.old) }
    ensures gives { result ≡ (ran_over (state_in b.old) schedule.now).report }
    ensures leaves { b.new ≡ bytes_of (ran_over (state_in b.old) schedule.now).state }
    ensures stores { answers.new ≡ over (answers_of (state_in b.old) schedule.now) answers.old }
{
    let judged = Schedule { bytes: schedule };
    let mut report = Report {
        executed: 0,
        waited: 0,
        stop: DONE,
    };
    for i in 0..judged.len() {
        let e = judged.event(i);
        let answer = event::event(b, e.thread, e.node);
        answers[i] = answer_number(answer);
        match answer {
            Ok(()) => report.executed += 1,
            Err(Refusal::MustWait) => report.waited += 1,
            Err(refusal) => {
                report.stop = u8::from(refusal);
                return report;
            }
        }
    }
    report
}

// The run from the state that the bytes hold, in these bytes. Refusals 1 to 4 change nothing.
pub fn run_saved(bytes: &mut [u8], schedule: &[u8], answers: &mut [u8]) -> Report
    ensures reports { result ≡ (run_of (read bytes.old).state schedule.now answers.old).report }
    ensures leaves { bytes.new ≡ run_left bytes.old schedule.now answers.old }
    ensures stores { answers.new ≡ run_bytes (read bytes.old).state schedule.now answers.old }
{
    match judged_with_saved(bytes, schedule, answers.len()) {
        Ok(schedule) => run_events(bytes, schedule.bytes, answers),
        Err(refusal) => refused(refusal),
    }
}

// The events, and the state that they end in, taken up from the bytes.
fn run_laid(b: &mut [u8], schedule: Schedule, answers: &mut [u8]) -> Ran
    requires { (saved_good b.old ≡ true) × (events_in schedule.bytes.now ≤ length answers.old) }
    ensures gives { result ≡ ran_over (state_in b.old) schedule.entry.bytes.now }
    ensures stores { answers.new ≡ over (answers_of (state_in b.old) schedule.entry.bytes.now) answers.old }
{
    let report = run_events(b, schedule.bytes, answers);
    let state = saved::state_in(b);
    Ran { report, state }
}

// Refusals 1 to 4 change nothing and give the state as it came; then each event's answer is stored at its
// place, up to the stop.
#[tactic(auto, using(saved::specs::Proof::Held::laid_good, crate::specs::Proof::Refused::passed), unfolding(crate::specs::Run::run, crate::specs::Run::run_bytes))]
pub fn run(s: State, schedule: &[u8], answers: &mut [u8]) -> Ran
    ensures gives { result ≡ run_of s schedule.now answers.old }
    ensures stores { answers.new ≡ run_bytes s schedule.now answers.old }
{
    match judged_with(s, schedule, answers.len()) {
        Ok(schedule) => {
            let mut laid = saved::laid(s);
            let size = laid.size;
            run_laid(&mut laid.bytes[..size], schedule, answers)
        }
        Err(refusal) => Ran {
            report: refused(refusal),
            state: s,
        },
    }
}

// ---- the unread part

// The unread part of the caller's own schedule: what follows the stopping event, nothing if none stopped
// the run, the whole of it after refusals 1 to 4, which come before the first event. Whatever the report
// says, it is a part of this schedule, and no copy.
#[tactic(auto, unfolding(crate::specs::Run::unread_from))]
pub fn unread<'a>(schedule: &'a [u8], report: Report) -> &'a [u8]
    ensures bytes { result.now ≡ unread_of schedule.now report }
    ensures own { result.ref_ptr ≡ onward schedule.entry.ref_ptr (unread_from schedule.now report) }
{
    let from = match report.stop {
        DONE => schedule.len(),
        1..=4 => 0,
        _ => WIDTH + WIDTH * (report.executed as usize + report.waited as usize + 1),
    };
    &schedule[from.min(schedule.len())..]
}
