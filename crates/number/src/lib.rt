// The numbers that document 01 introduces: the sizes of "What the tool covers", the refusals with their
// numbers, and the three quantities that stay separate. Every other crate names them from here. Rests on
// nothing.
#![tactic(auto)]

ghost use Rattle.std.specs.Prelude.{◌+◌, ◌<◌, ◌^◌, ◌≡◌};
ghost use Rattle.number.specs.Numbers.{behind, is_bottom, one_to};
ghost use Rattle.number.specs.Answer.{answer_of, number_of, refused_if};

// T threads, 1 to 32, numbered from 1.
pub const MOST_THREADS: u8 = 32;
// K nodes, 1 to 32, numbered from 1.
pub const MOST_NODES: u8 = 32;
// At most 1,000,000 entries in a state's life.
pub const MOST_ENTRIES: u32 = 1_000_000;
// Low and high are 1 to 1,000,001.
pub const LAST_PLACE: u32 = 1_000_001;

// The lines of Figure 1 are numbered 11 to 29.
pub const FIRST_LINE: u8 = 11;

pub const LAST_LINE: u8 = 29;

// Success is 0.
pub const DONE: u8 = 0;

// Why a call is refused, in the order of document 01's table; the number of each is the table's.
#[derive(Clone, Copy, Debug, PartialEq, Eq)]
pub enum Refusal {
    BadState = 1,
    BadSchedule = 2,
    BadSize = 3,
    TooShort = 4,
    NoSuchThread = 5,
    WrongNode = 6,
    NoEntryLeft = 7,
    NodeTaken = 8,
    FollowedEmpty = 9,
    FollowedUnused = 10,
    NoPlaceLeft = 11,
    MustWait = 12,
}

impl From<Refusal> for u8 {
    ghost from_gives = { λ refusal number. number ≡ number_of refusal };

    fn from(refusal: Refusal) -> u8 {
        refusal as u8
    }
}

// The number that an answer is told by: success is 0.
pub fn answer_number<T: Copy>(answer: Result<T, Refusal>) -> u8
    ensures { result ≡ answer_of answer }
{
    match answer {
        Ok(_) => DONE,
        Err(refusal) => u8::from(refusal),
    }
}

// "The first that applies, in this order, is given": the refusal where its test holds; `?` goes on to the
// later tests.
pub fn refuse(test: bool, refusal: Refusal) -> Result<(), Refusal>
    ensures { result ≡ refused_if test refusal }
{
    if test { Err(refusal) } else { Ok(()) }
}

// The number is 1 to `most`, as threads are numbered up to T and nodes up to K.
pub fn one_to(most: u8, number: u8) -> bool
    ensures { result ≡ one_to most number }
{
    (1..=most).contains(&number)
}

// A thread number, a node number and a place in the queue: a 3 in one is never read as a 3 in another.
#[derive(Clone, Copy, Debug, PartialEq, Eq)]
pub struct ThreadNo(pub u8);

#[derive(Clone, Copy, Debug, PartialEq, Eq)]
pub struct NodeNo(pub u8);

#[derive(Clone, Copy, Debug, PartialEq, Eq)]
pub struct Place(pub u32);

impl Place {
    // The place behind this one.
    pub fn behind(self) -> Place
        requires { self.0 + 1 < 2 ^ 32 }
        ensures { result ≡ behind self }
    {
        Place(self.0 + 1)
    }
}

impl NodeNo {
    // "Node 0 is the figure's ⊥."
    pub const BOTTOM: NodeNo = NodeNo(0);

    pub fn is_bottom(self) -> bool
        ensures { result ≡ is_bottom self }
    {
        self == NodeNo::BOTTOM
    }
}
