// Schedules: which bytes are one, and what stands at a place of one. The functions take any bytes, and
// `good`, `given_at` and `Schedule::judge` judge them; a `Schedule` was judged, and is for a run, which reads
// one event after the other. Rests on `number`, `lock` and `events`, and in specs/ on `rows`.
#![tactic(auto)]

ghost use Rattle.std.specs.Prelude.{IfOk, cond, true, ◌≤◌, ◌≡◌, get_or, length};
ghost use Rattle.number.specs.Answer.{answer_of};
ghost use Rattle.number.specs.Refused.{bad_schedule, done};
ghost use Rattle.schedule.specs.Given.{given_from};
ghost use Rattle.schedule.specs.Schedule.{event_at, events_good, events_in, given, good as good_of};
ghost use Rattle.schedule.specs.Schedule.{heading_good, heading_of, starts_event, width};

use events::Event;
use number::{NodeNo, Refusal, ThreadNo, refuse};

// A heading and an event have four bytes each.
pub const WIDTH: usize = 4;
// A schedule has at most 65,536 bytes in all.
pub const MOST_BYTES: usize = 65_536;

// `threads` is T and `nodes` is K.
#[derive(Clone, Copy, PartialEq, Eq)]
pub struct Heading {
    pub threads: u8,
    pub nodes: u8,
}

// ---- what the bytes say; 0 where there is no such byte, and zeros where there is no such event

fn byte_at(schedule: &[u8], at: usize) -> u8
    ensures { result ≡ get_or schedule.now at 0 }
{
    schedule.get(at).copied().unwrap_or(0)
}

// T and K.
pub fn heading_of(schedule: &[u8]) -> Heading
    ensures { result ≡ heading_of schedule.now }
{
    Heading {
        threads: byte_at(schedule, 2),
        nodes: byte_at(schedule, 3),
    }
}

// How many events follow the heading.
pub fn events_in(schedule: &[u8]) -> usize
    ensures { result ≡ events_in schedule.now }
{
    schedule.len().saturating_sub(WIDTH) / WIDTH
}

// Event i, counted from 0.
#[tactic(auto, using(crate::specs::Proof::Events::event_there, crate::specs::Proof::Events::event_none))]
pub fn event_at(schedule: &[u8], i: usize) -> Event
    ensures { result ≡ event_at schedule.now i }
{
    if events_in(schedule) <= i {
        return Event {
            thread: ThreadNo(0),
            node: NodeNo::BOTTOM,
        };
    }
    let at = WIDTH + WIDTH * i;
    Event {
        thread: ThreadNo(schedule[at + 2]),
        node: NodeNo(schedule[at + 3]),
    }
}

// ---- the rule

// The mark `SH`, and T and K 1 to 32.
fn heading_good(schedule: &[u8]) -> bool
    ensures { result ≡ heading_good schedule.now }
{
    let h = heading_of(schedule);
    schedule.starts_with(b"SH") && lock::in_size(h.threads, h.nodes)
}

// The mark `SE` at each event behind the heading. `fold` reads all of them: with `all`, which leaves at the
// first bad one, the compiler tests one mark at a time.
fn events_good(schedule: &[u8]) -> bool
    requires { width ≤ length schedule.now }
    ensures { result ≡ events_good schedule.now }
{
    schedule[WIDTH..]
        .chunks_exact(WIDTH)
        .fold(true, |ok, record| ok & record.starts_with(b"SE"))
}

// The bytes are a schedule: not too many, a heading and whole events.
#[tactic(auto, unfolding(crate::specs::Schedule::good))]
pub fn good(schedule: &[u8]) -> bool
    ensures { result ≡ good_of schedule.now }
{
    let long = schedule.len();
    long <= MOST_BYTES
        && WIDTH <= long
        && long % WIDTH == 0
        && heading_good(schedule)
        && events_good(schedule)
}

// A schedule that was judged: a run reads it event by event, and judges nothing again.
#[derive(Clone, Copy)]
pub struct Schedule<'a> {
    pub bytes: &'a [u8],
    pub ghost judged: { good_of bytes.now ≡ true },
}

impl<'a> Schedule<'a> {
    // The schedule that these bytes are; refusal 2 where they are none.
    pub fn judge(bytes: &'a [u8]) -> Result<Schedule<'a>, Refusal>
        ensures judged { answer_of result ≡ cond (good_of bytes.now) done bad_schedule }
        ensures same { IfOk result (λ schedule. schedule.bytes ≡ bytes.entry) }
    {
        refuse(!good(bytes), Refusal::BadSchedule)?;
        Ok(Schedule { bytes })
    }

    // T and K.
    pub fn heading(self) -> Heading
        ensures { result ≡ heading_of self.entry.bytes.now }
    {
        heading_of(self.bytes)
    }

    // How many events it has.
    pub fn len(self) -> usize
        ensures { result ≡ events_in self.entry.bytes.now }
    {
        events_in(self.bytes)
    }

    // Event i, counted from 0; zeros where there is no such event.
    pub fn event(self, i: usize) -> Event
        ensures { result ≡ event_at self.entry.bytes.now i }
    {
        event_at(self.bytes, i)
    }
}

// ---- what stands at a place

// The place is an event's start: behind the heading, a whole number of events on, and before the end.
fn starts_event(schedule: &[u8], place: usize) -> bool
    ensures { result ≡ starts_event schedule.now place }
{
    WIDTH <= place && place % WIDTH == 0 && place < schedule.len()
}

// One event and the place to go on from, or none at the end; refusal 2 for a bad schedule, and for a place
// that is neither an event's start nor the end. Where no event is given, the place stays.
#[tactic(auto, unfolding(crate::specs::Schedule::given))]
pub fn given_at(schedule: &[u8], place: usize) -> Result<Option<(Event, usize)>, Refusal>
    ensures { given_from place result ≡ given schedule.now place }
{
    let judged = Schedule::judge(schedule)?;
    if starts_event(schedule, place) {
        let event = judged.event((place - WIDTH) / WIDTH);
        return Ok(Some((event, place + WIDTH)));
    }
    refuse(place != schedule.len(), Refusal::BadSchedule)?;
    Ok(None)
}
