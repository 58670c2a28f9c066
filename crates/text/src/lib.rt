// The text of a run: a schedule's run from fresh, as document 01's lines, in a lent buffer. Rests on `run`,
// `ask` and `schedule`, and for each event and its numbers on `event` and `cells`. The machine is run anew,
// on the bytes of a fresh saved state, for each pass over the events: once for the end line, once to learn
// how long the text is, so that a buffer that is too short stays as it was, and once to write.
#![tactic(auto)]

ghost use Rattle.std.specs.Prelude.{◌+◌, ◌≤◌, cond, true, [], ◌++◌, ◌∷◌, ◌≡◌, length, take};
ghost use Rattle.std.proofs.lemmas.List.Edits.{sets};
ghost use Rattle.lock.specs.declared.State.{State};
ghost use Rattle.machine.specs.Step.{stepped};
ghost use Rattle.rows.specs.Rows.{over};
ghost use Rattle.saved.specs.Saved.{bytes_of, saved_good, state_in};
ghost use Rattle.text.specs.Decimal.{decimal};
ghost use Rattle.text.specs.Inner.{LineFits, LinesFit, Passed, TextFits, placed};
ghost use Rattle.text.specs.Text.{begin as begin_of, event_line, last_of, line_before, line_end, numbers, space};
ghost use Rattle.text.specs.Text.{refused_text, text as given, text_bytes, text_of};
ghost use Rattle.text.specs.Written.{written_of};

use events::Event;
use number::{Refusal, answer_number, refuse};
use rows::Buffer;
use saved::MOST_SAVED;
use schedule::Schedule;

// No text is longer.
pub const MOST_TEXT: usize = 606_235;

// The heading, with its line end.
const HEADING: [u8; 40] = *b"n thread line answer tail flag low high\n";
// Where the first event's line begins.
const HEADING_LENGTH: usize = HEADING.len();
// No line is longer: eight numbers of at most ten digits, and a byte behind each.
const LINE_ROOM: usize = 88;
// No schedule has more events.
const MOST_EVENTS: usize = 16_383;

// ---- numbers

// The decimal digits of n from a place on; gives the place behind them. (By hand: the library's `itoa` was
// slower, and so was a vector of fixed room in place of a buffer and a place; docs/DESIGN-PASS.md.)
#[tactic(auto, using(crate::specs::Proof::Digits::decimal_one, crate::specs::Proof::Digits::decimal_more, crate::specs::Proof::Digits::longer, rows::specs::Stored::sets_append))]
fn put_number(out: &mut [u8], at: usize, n: u32) -> usize
    requires { at + length (decimal n) ≤ length out.old }
    ensures place { result ≡ at + length (decimal n) }
    ensures digits { out.new ≡ sets out.old at (decimal n) }
{
    if n < 10 {
        out[at] = b'0' + n as u8;
        return at + 1;
    }
    let behind = put_number(out, at, n / 10);
    out[behind] = b'0' + (n % 10) as u8;
    behind + 1
}

// A space between fields, and a line end behind the last.
fn separator(more: bool) -> u8
    ensures { result ≡ cond more space line_end }
{
    if more { b' ' } else { b'\n' }
}

// The digits of n and the byte behind them; gives the place behind both.
#[tactic(auto, using(rows::specs::Stored::sets_append))]
fn put_field(out: &mut [u8], at: usize, n: u32, behind: u8) -> usize
    requires { at + length (decimal n) + 1 ≤ length out.old }
    ensures place { result ≡ at + length (decimal n) + 1 }
    ensures field { out.new ≡ sets out.old at (decimal n ++ behind ∷ []) }
{
    let place = put_number(out, at, n);
    out[place] = behind;
    place + 1
}

// Numbers as the fields of a line, to its end; gives the place behind it.
fn put_numbers(out: &mut [u8], at: usize, fields: &[u32]) -> usize
    requires { at + length (numbers fields.now) ≤ length out.old }
    ensures place { result ≡ at + length (numbers fields.now) }
    ensures fields { out.new ≡ sets out.old at (numbers fields.now) }
{
    let mut place = at;
    for (i, n) in fields.iter().enumerate() {
        place = put_field(out, place, *n, separator(i + 1 < fields.len()));
    }
    place
}

// ---- lines

// The line that the event's thread is at in a saved state; 0 if there is no such thread.
#[tactic(auto, using(cells::specs::Proof::Good::laid, cells::specs::Proof::Good::held), unfolding(crate::specs::Text::line_before))]
fn line_before(b: &[u8], e: Event) -> u8
    requires { saved_good b.now ≡ true }
    ensures { result ≡ line_before (state_in b.now) e }
{
    if event::no_thread(b, e.thread) {
        return 0;
    }
    cells::line(b, e.thread)
}

// The line of event e, the n-th: its thread was at `before`, and b is the saved state after it.
#[tactic(auto, using(cells::specs::Proof::Good::laid, crate::specs::Proof::Lines::numbers_fit))]
fn event_line(n: u32, e: Event, before: u8, answer: u8, b: &[u8]) -> Buffer<LINE_ROOM>
    requires { saved_good b.now ≡ true }
    ensures { (s : State) → before ≡ line_before s e
        → take result.size result.bytes ≡ event_line n s e (stepped answer (state_in b.now)) }
{
    let fields = [
        n,
        e.thread.0 as u32,
        before as u32,
        answer as u32,
        cells::tail(b).0 as u32,
        cells::flag(b) as u32,
        cells::low(b).0,
        cells::high(b).0,
    ];
    let mut bytes = [0; LINE_ROOM];
    let size = put_numbers(&mut bytes, 0, &fields);
    Buffer { bytes, size }
}

// A line from a place on, where it is to be written; gives the place behind it.
#[tactic(auto, unfolding(crate::specs::Inner::placed))]
fn put_line(out: &mut [u8], at: usize, line: &[u8], write: bool) -> usize
    requires { LineFits write line.now at out.old }
    ensures place { result ≡ at + length line.now }
    ensures bytes { out.new ≡ placed write out.old at line.now }
{
    if write {
        rows::put(out, at, line);
    }
    at + line.len()
}

// ---- the text

// The state that a schedule is run from, in its bytes.
#[tactic(auto, using(crate::specs::Proof::Begun::begin_size, crate::specs::Proof::Begun::begin_within, crate::specs::Proof::Begun::begin_stored))]
fn begin(schedule: Schedule) -> Buffer<MOST_SAVED>
    ensures { take result.size result.bytes ≡ bytes_of (begin_of schedule.entry.bytes.now) }
{
    let h = schedule.heading();
    let size = saved::size(h.threads, h.nodes);
    let mut bytes = [0; MOST_SAVED];
    saved::put_fresh(h.threads, h.nodes, &mut bytes);
    Buffer { bytes, size }
}

// One pass over the events, on the bytes of the state that they are run from: their lines from behind the
// heading on, where they are to be written. Gives the place behind the last.
fn pass(b: &mut [u8], schedule: Schedule, out: &mut [u8], write: bool) -> usize
    requires { (b.old ≡ bytes_of (begin_of schedule.bytes.now)) × LinesFit write schedule.bytes.now out.old }
    ensures { Passed write schedule.entry.bytes.now out.old out.new result }
{
    let mut place = HEADING_LENGTH;
    for i in 0..schedule.len() {
        let e = schedule.event(i);
        let before = line_before(b, e);
        let answer = answer_number(event::event(b, e.thread, e.node));
        let line = event_line((i + 1) as u32, e, before, answer, b);
        place = put_line(out, place, line.part(), write);
        if !run::goes_on(answer) {
            return place;
        }
    }
    place
}

// The same, from a fresh state.
fn event_lines(schedule: Schedule, out: &mut [u8], write: bool) -> usize
    requires { LinesFit write schedule.bytes.now out.old }
    ensures { Passed write schedule.entry.bytes.now out.old out.new result }
{
    let mut fresh = begin(schedule);
    let size = fresh.size;
    pass(&mut fresh.bytes[..size], schedule, out, write)
}

// The run of a schedule's events on the bytes of the state that they are run from, and the last line:
// what the run reports, and what can be asked of the state that it ends in.
#[tactic(auto, using(crate::specs::Proof::Begun::first_good, schedule::specs::Theorems::few_events, crate::specs::Proof::Lines::numbers_fit))]
fn end_line(b: &mut [u8], schedule: Schedule) -> Buffer<LINE_ROOM>
    requires { b.old ≡ bytes_of (begin_of schedule.bytes.now) }
    ensures { take result.size result.bytes ≡ last_of schedule.entry.bytes.now }
{
    let mut answers = [0u8; MOST_EVENTS];
    let report = run::run_events(b, schedule.bytes, &mut answers);
    let fields = [
        report.executed,
        report.waited,
        report.stop as u32,
        u8::from(ask::status_of(b)) as u32,
        ask::waiting_of(b) as u32,
    ];
    let mut bytes = [0; LINE_ROOM];
    rows::put(&mut bytes, 0, b"end ");
    let size = put_numbers(&mut bytes, 4, &fields);
    Buffer { bytes, size }
}

// The last line of a schedule's text.
fn last_line(schedule: Schedule) -> Buffer<LINE_ROOM>
    ensures { take result.size result.bytes ≡ last_of schedule.entry.bytes.now }
{
    let mut fresh = begin(schedule);
    let size = fresh.size;
    end_line(&mut fresh.bytes[..size], schedule)
}

// The whole text of a schedule at the start of `out`, with its last line.
fn put_text(schedule: Schedule, out: &mut [u8], last: &[u8])
    requires { TextFits schedule.bytes.now last.now out.old }
    ensures { out.new ≡ over (text_of schedule.entry.bytes.now) out.old }
{
    rows::put(out, 0, &HEADING);
    let place = event_lines(schedule, out, true);
    put_line(out, place, last, true);
}

// What is printed for an input that is no schedule.
#[tactic(auto, unfolding(crate::specs::Decimal::letters_from))]
pub fn refused_text() -> [u8; 10]
    ensures { result ≡ refused_text }
{
    *b"refused 2\n"
}

// The text of the schedule's run from fresh, at the start of `out`: 2 if the schedule is bad, then 4 if
// `out` is too short. Gives how many bytes it has.
pub fn text(schedule: &[u8], out: &mut [u8]) -> Result<usize, Refusal>
    ensures gives { written_of result ≡ given schedule.now out.old }
    ensures stores { out.new ≡ text_bytes schedule.now out.old }
{
    let judged = Schedule::judge(schedule)?;
    let last = last_line(judged);
    let line = last.part();
    let size = event_lines(judged, out, false) + line.len();
    refuse(out.len() < size, Refusal::TooShort)?;
    put_text(judged, out, line);
    Ok(size)
}
