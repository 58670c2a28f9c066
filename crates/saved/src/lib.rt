// Saved states: `read` and `save`. In this order: places, the header, the records behind it, judging,
// reading, writing. A saved state is a header, a record for each node and a record for each thread, one
// after the other. What reads a record works on the start of a slice, and what encodes one gives an array,
// so that neither knows a place; judging, reading and writing are said once, for nodes and for threads
// (`Record`). Calls by value that work on bytes lay their state into a buffer by `laid` and take it up again
// by `state_in`; `put_fresh` writes the fresh state with no state by value. Rests on `number`, `lock` and
// `rows`.
#![tactic(auto)]

ghost use Rattle.std.specs.Prelude.{ℕ, ◌*◌, ◌+◌, ◌++◌, ◌≤◌, true, ◌≡◌, drop, length};
ghost use Rattle.std.proofs.lemmas.List.Edits.{sets};
ghost use Rattle.lock.specs.Fresh.{fresh_state, in_size, opened_of};
ghost use Rattle.lock.specs.Valid.{valid};
ghost use Rattle.number.specs.Answer.{answer_of};
ghost use Rattle.rows.specs.Rows.{Kind, all_good, good as good_record, laid as laid_of, letter_l, letter_n, letter_t, marked as marked_by, over, values};
ghost use Rattle.saved.specs.Inner.{IsRecord, LaidIn, Room};
ghost use Rattle.saved.specs.Proof.Kinds.{node_is_record, thread_is_record};
ghost use Rattle.saved.specs.Saved.{bytes_of, four_at, header_bytes, header_in, header_width};
ghost use Rattle.saved.specs.Saved.{node_record, read as read_of, save_number, saved_good, saved_over};
ghost use Rattle.saved.specs.Saved.{size as size_for, size_of, state_in, thread_record, threads_place};

use lock::{Node, Ranged, Shared, State, Thread};
use number::{NodeNo, Place, Refusal};
use rows::Buffer;

// How many bytes each kind of record has.
pub const HEADER_WIDTH: usize = 23;

pub const NODE_WIDTH: usize = 4;

pub const THREAD_WIDTH: usize = 11;

// No saved state has more bytes (`saved_size`).
pub const MOST_SAVED: usize = 503;

// ---- places

// Where the records of threads begin.
pub fn threads_place(nodes: u8) -> usize
    ensures { result ≡ threads_place nodes }
{
    HEADER_WIDTH + NODE_WIDTH * (nodes as usize)
}

// How many bytes a saved state has.
pub fn size(threads: u8, nodes: u8) -> usize
    ensures { result ≡ size_for threads nodes }
{
    threads_place(nodes) + THREAD_WIDTH * (threads as usize)
}

// ---- the header

// The number of four bytes, the lowest first, from a place on.
pub fn four_at(b: &[u8], at: usize) -> u32
    requires { at + 4 ≤ length b.now }
    ensures { result ≡ four_at b.now at }
{
    u32::from_le_bytes([b[at], b[at + 1], b[at + 2], b[at + 3]])
}

// What the header at the start of b says.
fn header_in(b: &[u8]) -> Shared
    requires { header_width ≤ length b.now }
    ensures { result ≡ header_in b.now }
{
    Shared {
        threads: b[2],
        nodes: b[3],
        flag: b[4],
        tail: NodeNo(b[5]),
        mess: NodeNo(b[6]),
        low: Place(four_at(b, 7)),
        high: Place(four_at(b, 11)),
        entered: four_at(b, 15),
        used: four_at(b, 19),
    }
}

fn header_bytes(sh: Shared) -> [u8; HEADER_WIDTH]
    ensures { result ≡ header_bytes sh }
{
    let low = sh.low.0.to_le_bytes();
    let high = sh.high.0.to_le_bytes();
    let entered = sh.entered.to_le_bytes();
    let used = sh.used.to_le_bytes();
    [
        b'L', b'H', sh.threads, sh.nodes, sh.flag, sh.tail.0, sh.mess.0, low[0], low[1], low[2],
        low[3], high[0], high[1], high[2], high[3], entered[0], entered[1], entered[2], entered[3],
        used[0], used[1], used[2], used[3],
    ]
}

// ---- the records behind the header

// A kind of record: WIDTH bytes, which begin with the mark of L and LETTER.
trait Record<const WIDTH: usize>: Ranged {
    ghost LETTER: { ℕ };

    const LETTER: u8;

    // The records of this kind where there are K nodes.
    ghost kind: { ℕ → Kind Self };

    // What the record at the start of b says.
    fn from_bytes(b: &[u8]) -> Self
        requires { WIDTH ≤ length b.now }
        ensures { (K : ℕ) → result ≡ (kind K).value b.now };

    fn to_bytes(self) -> [u8; WIDTH]
        ensures { (K : ℕ) → result ≡ (kind K).bytes self };

    // Reading and writing undo each other.
    ghost laws: { (K : ℕ) → IsRecord WIDTH LETTER (Self.in_range_of K) (kind K) };
}

impl Record<NODE_WIDTH> for Node {
    ghost LETTER = { letter_n };

    const LETTER: u8 = b'N';

    ghost kind = { node_record };

    fn from_bytes(b: &[u8]) -> Node {
        Node {
            next: NodeNo(b[2]),
            locked: b[3],
        }
    }

    fn to_bytes(self) -> [u8; NODE_WIDTH] {
        [b'L', b'N', self.next.0, self.locked]
    }

    ghost laws = { node_is_record };
}

impl Record<THREAD_WIDTH> for Thread {
    ghost LETTER = { letter_t };

    const LETTER: u8 = b'T';

    ghost kind = { thread_record };

    fn from_bytes(b: &[u8]) -> Thread {
        Thread {
            line: b[2],
            my: NodeNo(b[3]),
            prev: NodeNo(b[4]),
            succ: NodeNo(b[5]),
            nxmy: NodeNo(b[6]),
            slot: Place(four_at(b, 7)),
        }
    }

    fn to_bytes(self) -> [u8; THREAD_WIDTH] {
        let slot = self.slot.0.to_le_bytes();
        [
            b'L',
            b'T',
            self.line,
            self.my.0,
            self.prev.0,
            self.succ.0,
            self.nxmy.0,
            slot[0],
            slot[1],
            slot[2],
            slot[3],
        ]
    }

    ghost laws = { thread_is_record };
}

// ---- judging

// b begins with L and then this letter.
fn marked(b: &[u8], letter: u8) -> bool
    requires { 2 ≤ length b.now }
    ensures { result ≡ marked_by letter_l letter b.now }
{
    (b[0] == b'L') & (b[1] == letter)
}

// The record at the start of b has its mark, and its numbers are in the ranges of K = `nodes`.
fn is_good<const WIDTH: usize, R: Record<WIDTH>>(b: &[u8], nodes: u8) -> bool
    requires { WIDTH ≤ length b.now }
    ensures { result ≡ good_record (R.kind nodes) b.now }
{
    marked(b, R::LETTER) & R::from_bytes(b).in_range(nodes)
}

// The first `count` records of b are good. The loop reads all of them: a branch out of it at the first bad
// one makes the judging of good files slower.
#[tactic(auto, unfolding(rows::specs::Rows::all_good))]
fn all_good<const WIDTH: usize, R: Record<WIDTH>>(b: &[u8], count: u8, nodes: u8) -> bool
    requires { WIDTH * count ≤ length b.now }
    ensures { result ≡ all_good (R.kind nodes) count b.now }
{
    let mut ok = true;
    for i in 0..count as usize {
        ok &= is_good::<WIDTH, R>(&b[WIDTH * i..], nodes);
    }
    ok
}

// The bytes are a saved state: their length is exact, each record has its mark, and each number is in its
// range.
#[tactic(auto, unfolding(crate::specs::Saved::good_by))]
pub fn good(bytes: &[u8]) -> bool
    ensures { result ≡ saved_good bytes.now }
{
    if bytes.len() < HEADER_WIDTH {
        return false;
    }
    let sh = header_in(bytes);
    if bytes.len() != size(sh.threads, sh.nodes) {
        return false;
    }
    marked(bytes, b'H')
        & lock::shared_valid(sh)
        & all_good::<NODE_WIDTH, Node>(&bytes[HEADER_WIDTH..], sh.nodes, sh.nodes)
        & all_good::<THREAD_WIDTH, Thread>(&bytes[threads_place(sh.nodes)..], sh.threads, sh.nodes)
}

// ---- reading

// In the first places of a table, as many as `count`, what the records of b say.
#[tactic(auto, unfolding(rows::specs::Rows::values))]
fn fill<const WIDTH: usize, R: Record<WIDTH>>(table: &mut [R], count: u8, b: &[u8])
    requires { (count ≤ length table.old) × (WIDTH * count ≤ length b.now) }
    ensures { (K : ℕ) → table.new ≡ values (R.kind K) count b.now ++ drop count table.old }
{
    for i in 0..count as usize {
        table[i] = R::from_bytes(&b[WIDTH * i..]);
    }
}

// The state that a good file holds; 0 in every place past T or K.
#[tactic(auto, using(crate::specs::Proof::File::header_fits))]
pub fn state_in(b: &[u8]) -> State
    requires { saved_good b.now ≡ true }
    ensures { result ≡ state_in b.now }
{
    let shared = header_in(b);
    let mut s = lock::zero_state();
    s.shared = shared;
    let behind = threads_place(shared.nodes);
    fill(&mut s.node, shared.nodes, &b[HEADER_WIDTH..]);
    fill(&mut s.thread, shared.threads, &b[behind..]);
    s
}

// The state that the bytes hold: refused if they break a rule.
#[tactic(auto, unfolding(crate::specs::Saved::read))]
pub fn read(bytes: &[u8]) -> Result<State, Refusal>
    ensures { opened_of result ≡ read_of bytes.now }
{
    number::refuse(!good(bytes), Refusal::BadState)?;
    Ok(state_in(bytes))
}

// ---- writing

// The records that say what the places of a table hold, from a place of out on.
fn put_all<const WIDTH: usize, R: Record<WIDTH>>(table: &[R], out: &mut [u8], at: usize)
    requires { at + WIDTH * length table.now ≤ length out.old }
    ensures { (K : ℕ) → out.new ≡ sets out.old at (laid_of (R.kind K) table.now) }
{
    for (i, v) in table.iter().enumerate() {
        rows::put(out, at + WIDTH * i, &v.to_bytes());
    }
}

// The bytes of s at the start of out.
pub fn put_state(s: State, out: &mut [u8])
    requires { Room s out.old }
    ensures { out.new ≡ over (bytes_of s) out.old }
{
    let nodes = &s.node[..s.shared.nodes as usize];
    let threads = &s.thread[..s.shared.threads as usize];
    rows::put(out, 0, &header_bytes(s.shared));
    put_all(nodes, out, HEADER_WIDTH);
    put_all(threads, out, threads_place(s.shared.nodes));
}

// The saved state of s at the start of out: refused if s breaks a rule, then if out is too short.
#[tactic(auto, using(crate::specs::Proof::Save::room), unfolding(crate::specs::Saved::save_number, crate::specs::Saved::saved_over))]
pub fn save(s: State, out: &mut [u8]) -> Result<(), Refusal>
    ensures { (answer_of result ≡ save_number s out.old) × (out.new ≡ saved_over s out.old) }
{
    let short = out.len() < size(s.shared.threads, s.shared.nodes);
    number::refuse(!lock::valid(s), Refusal::BadState)?;
    number::refuse(short, Refusal::TooShort)?;
    put_state(s, out);
    Ok(())
}

// The bytes of s at the start of a buffer with room for any saved state.
#[tactic(auto, using(crate::specs::Theorems::saved_size, lock::specs::Judged::valid_rule, lock::specs::Laws::length_mapped))]
pub fn laid(s: State) -> Buffer<MOST_SAVED>
    requires { valid s ≡ true }
    ensures size { result.size ≡ size_of s }
    ensures laid { LaidIn s result.bytes }
{
    let size = size(s.shared.threads, s.shared.nodes);
    let mut bytes = [0; MOST_SAVED];
    put_state(s, &mut bytes);
    Buffer { bytes, size }
}

// The saved fresh state of T threads and K nodes at the start of out.
pub fn put_fresh(threads: u8, nodes: u8, out: &mut [u8])
    requires { (in_size threads nodes ≡ true) × (size_for threads nodes ≤ length out.old) }
    ensures { out.new ≡ over (bytes_of (fresh_state threads nodes)) out.old }
{
    let header = header_bytes(lock::fresh_shared(threads, nodes));
    let node = lock::zero_node().to_bytes();
    let thread = lock::idle_thread().to_bytes();
    rows::put(out, 0, &header);
    rows::put_times(out, HEADER_WIDTH, &node, nodes);
    rows::put_times(out, threads_place(nodes), &thread, threads);
}
