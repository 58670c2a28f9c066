// The schedule reader: it keeps its schedule and its place, and gives one event at a time. Rests on
// `schedule`, whose `given_at` does the work.
#![tactic(auto)]

ghost use Rattle.std.specs.Prelude.{◌≡◌};
ghost use Rattle.schedule.specs.Given.{given_from};
ghost use Rattle.schedule.specs.Schedule.{given};
ghost use Rattle.reader.specs.Reader.{after, answered, gives, started};

use events::Event;
use number::Refusal;
use schedule::WIDTH;

#[derive(Clone, Copy)]
pub struct Reader<'a> {
    pub schedule: &'a [u8],
    pub place: usize,
}

impl<'a> Reader<'a> {
    // A reader of this schedule, at its first event. The schedule is judged when the reader is asked.
    pub fn start(schedule: &'a [u8]) -> Reader<'a>
        ensures { result ≡ started schedule.entry }
    {
        Reader {
            schedule,
            place: WIDTH,
        }
    }

    // The event at the reader's place, or none at the end. The reader goes to the next place, where there is
    // one, and keeps its schedule.
    pub fn next(&mut self) -> Result<Option<Event>, Refusal>
        ensures gives { answered self.new.place result ≡ gives self.old }
        ensures goes { self.new ≡ after self.old }
    {
        match schedule::given_at(self.schedule, self.place)? {
            Some((event, place)) => {
                self.place = place;
                Ok(Some(event))
            }
            None => Ok(None),
        }
    }
}

// A reader of this schedule at this place, asked once: what stands there, and the place that it goes to.
#[tactic(auto, using(schedule::specs::Theorems::none_stays))]
pub fn next_from(schedule: &[u8], place: usize) -> Result<Option<(Event, usize)>, Refusal>
    ensures { given_from place result ≡ given schedule.now place }
{
    let mut reader = Reader { schedule, place };
    let event = reader.next()?;
    Ok(event.map(|event| (event, reader.place)))
}
