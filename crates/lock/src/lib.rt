// The state of the lock, the fresh state, and the rule that a state is held to. What a fresh state is made
// of is `pub`, for the crate that writes one in bytes (`saved`). Rests on `number` and `word`.
#![tactic(auto)]

ghost use Rattle.std.specs.Prelude.{Bool, true, ◌≡◌, ℕ, ◌≤◌, length};
ghost use Rattle.std.specs.List.{list_all};
ghost use Rattle.lock.specs.Fresh.{fresh as fresh_of, fresh_shared, fresh_state, idle, in_size, opened_of};
ghost use Rattle.lock.specs.State.{◌⟨line≔◌⟩, zero_node, zero_state, zero_thread};
ghost use Rattle.lock.specs.Valid.{node_in_range, node_is_zero, nodes_valid, shared_valid, thread_in_range, thread_is_zero};
ghost use Rattle.lock.specs.Valid.{threads_valid, up_to, valid as valid_of};

use number::{
    FIRST_LINE, LAST_LINE, LAST_PLACE, MOST_ENTRIES, MOST_NODES, MOST_THREADS, NodeNo, Place,
    Refusal, one_to,
};

// A queue node.
#[derive(Clone, Copy, Debug, PartialEq, Eq)]
pub struct Node {
    pub next: NodeNo,
    pub locked: u8,
}

// A thread: the line that it is to execute next, and its own variables.
#[derive(Clone, Copy, Debug, PartialEq, Eq)]
pub struct Thread {
    pub line: u8,
    pub my: NodeNo,
    pub prev: NodeNo,
    pub succ: NodeNo,
    pub nxmy: NodeNo,
    pub slot: Place,
}

// The shared numbers: `threads` is T and `nodes` is K; `used` is the word of the nodes in use, the set
// `local` without ⊥.
#[derive(Clone, Copy)]
pub struct Shared {
    pub threads: u8,
    pub nodes: u8,
    pub flag: u8,
    pub tail: NodeNo,
    pub mess: NodeNo,
    pub low: Place,
    pub high: Place,
    pub entered: u32,
    pub used: u32,
}

// Node k stands at place k - 1 of `node`, and thread t at place t - 1 of `thread`.
#[derive(Clone, Copy)]
pub struct State {
    pub shared: Shared,
    pub node: [Node; MOST_NODES as usize],
    pub thread: [Thread; MOST_THREADS as usize],
}

// ---- zeros

pub fn zero_node() -> Node
    ensures { result ≡ zero_node }
{
    Node {
        next: NodeNo::BOTTOM,
        locked: 0,
    }
}

// A thread at a line, with every other number 0.
fn thread_at_line(line: u8) -> Thread
    ensures { result ≡ zero_thread ⟨line≔ line ⟩ }
{
    Thread {
        line,
        my: NodeNo::BOTTOM,
        prev: NodeNo::BOTTOM,
        succ: NodeNo::BOTTOM,
        nxmy: NodeNo::BOTTOM,
        slot: Place(0),
    }
}

fn zero_thread() -> Thread
    ensures { result ≡ zero_thread }
{
    thread_at_line(0)
}

// The shared numbers, each 0.
fn zero_shared() -> Shared
    ensures { result ≡ zero_state.shared }
{
    Shared {
        threads: 0,
        nodes: 0,
        flag: 0,
        tail: NodeNo::BOTTOM,
        mess: NodeNo::BOTTOM,
        low: Place(0),
        high: Place(0),
        entered: 0,
        used: 0,
    }
}

pub fn zero_state() -> State
    ensures { result ≡ zero_state }
{
    State {
        shared: zero_shared(),
        node: [zero_node(); MOST_NODES as usize],
        thread: [zero_thread(); MOST_THREADS as usize],
    }
}

// ---- the fresh state

// T and K are 1 to 32.
pub fn in_size(threads: u8, nodes: u8) -> bool
    ensures { result ≡ in_size threads nodes }
{
    one_to(MOST_THREADS, threads) & one_to(MOST_NODES, nodes)
}

// A thread of a fresh state.
pub fn idle_thread() -> Thread
    ensures { result ≡ idle }
{
    thread_at_line(FIRST_LINE)
}

// The shared numbers of a fresh state: "every other number 0".
pub fn fresh_shared(threads: u8, nodes: u8) -> Shared
    ensures { result ≡ fresh_shared threads nodes }
{
    Shared {
        threads,
        nodes,
        flag: 1,
        low: Place(1),
        high: Place(1),
        ..zero_shared()
    }
}

// The first `threads` threads are at line 11, and 0 is in every other place.
#[tactic(auto, using(crate::proofs::Laws::fill_more), unfolding(crate::specs::Fresh::idle_to))]
fn fresh_state(threads: u8, nodes: u8) -> State
    requires { in_size threads nodes ≡ true }
    ensures { result ≡ fresh_state threads nodes }
{
    let mut thread = [zero_thread(); MOST_THREADS as usize];
    let idle = idle_thread();
    for i in 0..threads as usize {
        thread[i] = idle;
    }
    State {
        shared: fresh_shared(threads, nodes),
        node: [zero_node(); MOST_NODES as usize],
        thread,
    }
}

#[tactic(auto, unfolding(crate::specs::Fresh::fresh))]
pub fn fresh(threads: u8, nodes: u8) -> Result<State, Refusal>
    ensures { opened_of result ≡ fresh_of threads nodes }
{
    if in_size(threads, nodes) {
        Ok(fresh_state(threads, nodes))
    } else {
        Err(Refusal::BadSize)
    }
}

// ---- the rule of a state that is not in bytes

// What the rule asks of an entry of a table, a node or a thread: within T or K its numbers are in their
// ranges, and past it each is 0.
pub trait Ranged: Copy {
    ghost in_range_of: { ℕ → Self → Bool };

    ghost is_zero_of: { Self → Bool };

    fn in_range(self, nodes: u8) -> bool
        ensures { result ≡ in_range_of nodes self };

    fn is_zero(self) -> bool
        ensures { result ≡ is_zero_of self };
}

// Next is 0 to K, and locked is 0 or 1.
impl Ranged for Node {
    ghost in_range_of = { node_in_range };

    ghost is_zero_of = { node_is_zero };

    fn in_range(self, nodes: u8) -> bool {
        (self.next.0 <= nodes) & (self.locked <= 1)
    }

    fn is_zero(self) -> bool {
        self == zero_node()
    }
}

// The line is 11 to 29, the nodes that the thread names are 0 to K, and its slot is at most 1,000,000.
impl Ranged for Thread {
    ghost in_range_of = { thread_in_range };

    ghost is_zero_of = { thread_is_zero };

    fn in_range(self, nodes: u8) -> bool {
        (FIRST_LINE..=LAST_LINE).contains(&self.line)
            & (self.my.0 <= nodes)
            & (self.prev.0 <= nodes)
            & (self.succ.0 <= nodes)
            & (self.nxmy.0 <= nodes)
            & (self.slot.0 <= MOST_ENTRIES)
    }

    fn is_zero(self) -> bool {
        self == zero_thread()
    }
}

fn all_in_range<E: Ranged>(table: &[E], nodes: u8) -> bool
    ensures { result ≡ list_all (E.in_range_of nodes) table.now }
{
    table.iter().all(|entry| entry.in_range(nodes))
}

fn all_zero<E: Ranged>(table: &[E]) -> bool
    ensures { result ≡ list_all E.is_zero_of table.now }
{
    table.iter().all(|entry| entry.is_zero())
}

// The first `used` entries are in range, and the others are 0.
#[tactic(auto, using(crate::proofs::Laws::up_to_parts))]
fn table_valid<E: Ranged>(table: &[E], used: u8, nodes: u8) -> bool
    requires { used ≤ length table.now }
    ensures { result ≡ up_to (E.in_range_of nodes) E.is_zero_of used table.now }
{
    let (within, past) = table.split_at(used as usize);
    all_in_range(within, nodes) && all_zero(past)
}

// The ranges of the shared numbers, in the order of a saved state.
#[tactic(auto, unfolding(crate::specs::Valid::shared_valid))]
pub fn shared_valid(sh: Shared) -> bool
    ensures { result ≡ shared_valid sh }
{
    in_size(sh.threads, sh.nodes)
        & (sh.flag <= 1)
        & (sh.tail.0 <= sh.nodes)
        & (sh.mess.0 <= sh.nodes)
        & (1 <= sh.low.0)
        & (sh.low.0 <= LAST_PLACE)
        & (1 <= sh.high.0)
        & (sh.high.0 <= LAST_PLACE)
        & (sh.entered <= MOST_ENTRIES)
        & word::none_from(sh.used, sh.nodes)
}

// The state is in the ranges of document 01, with 0 in every place past T or K.
#[tactic(auto, using(crate::proofs::Laws::few_nodes, crate::proofs::Laws::few_threads, crate::specs::Laws::length_mapped), unfolding(crate::specs::Valid::valid, crate::specs::Valid::nodes_valid, crate::specs::Valid::threads_valid))]
pub fn valid(s: State) -> bool
    ensures { result ≡ valid_of s }
{
    let sh = s.shared;
    shared_valid(sh)
        && table_valid(&s.node, sh.nodes, sh.nodes)
        && table_valid(&s.thread, sh.threads, sh.nodes)
}
