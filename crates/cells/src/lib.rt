// The numbers of a saved state, read and stored where they stand in its bytes: each call touches the bytes
// of one number. In this order: bytes, where a record begins, a number by its place in a record, and then,
// by name, the shared numbers, those of a node and those of a thread. Every place is known here and nowhere
// above, and a thread's number never finds a node, nor a node's a thread. Rests on `number` for the kinds
// of number, and on `saved` for the layout.
// The calls take bytes and say that they are laid out, and no struct that holds them does: each setter would
// have to say that the struct still holds the same reference (docs/DESIGN-PASS.md).
#![tactic(auto)]

ghost use Rattle.std.specs.Prelude.{◌+◌, ◌<◌, ◌≤◌, ◌≡◌, get_or, length};
ghost use Rattle.std.proofs.lemmas.List.Edits.{sets};
ghost use Rattle.cells.specs.Cells.{HasNode, HasThread, Laid, Leaves, Shows, node_place, thread_place};
ghost use Rattle.cells.specs.Inner.{ShowsAs, four_of, node_with, shared_with, shared_with_four, thread_with};
ghost use Rattle.figure.specs.Figure.{◌⟪entered≔◌⟫, ◌⟪flag≔◌⟫, ◌⟪high≔◌⟫, ◌⟪line◌≔◌⟫, ◌⟪local≔◌⟫, ◌⟪locked◌≔◌⟫, ◌⟪low≔◌⟫, ◌⟪mess≔◌⟫};
ghost use Rattle.figure.specs.Figure.{◌⟪my◌≔◌⟫, ◌⟪next◌≔◌⟫, ◌⟪nxmy◌≔◌⟫, ◌⟪prev◌≔◌⟫, ◌⟪slot◌≔◌⟫, ◌⟪succ◌≔◌⟫, ◌⟪tail≔◌⟫};
ghost use Rattle.figure.specs.Figure.{entered as entered_of, flag as flag_of, high as high_of, line as line_of, local as local_of, locked as locked_of};
ghost use Rattle.figure.specs.Figure.{low as low_of, mess as mess_of, my as my_of, next as next_of, prev as prev_of, succ as succ_of, tail as tail_of};
ghost use Rattle.lock.specs.State.{◌⟨node◌≔◌⟩, ◌⟨shared≔◌⟩, ◌⟨thread◌≔◌⟩, node_at, thread_at};
ghost use Rattle.number.specs.Numbers.{node, place};
ghost use Rattle.saved.specs.Saved.{four_bytes, header_bytes, header_width, node_bytes, node_width, thread_bytes, thread_width};

use number::{NodeNo, Place, ThreadNo};
use saved::{HEADER_WIDTH, NODE_WIDTH, THREAD_WIDTH};

// ---- four bytes

// A number in four bytes, the lowest first, from a place on.
fn put_four(b: &mut [u8], at: usize, n: u32)
    requires { at + 4 ≤ length b.old }
    ensures { b.new ≡ sets b.old at (four_bytes n) }
{
    rows::put(b, at, &n.to_le_bytes());
}

// ---- where the record of a node, and that of a thread, begins

fn node_place(k: NodeNo) -> usize
    requires { 1 ≤ k.0 }
    ensures { result ≡ node_place k }
{
    HEADER_WIDTH + NODE_WIDTH * (k.0 - 1) as usize
}

fn thread_place(b: &[u8], t: ThreadNo) -> usize
    requires { HasThread b.now t }
    ensures { result ≡ thread_place b.now t }
{
    saved::threads_place(b[3]) + THREAD_WIDTH * (t.0 - 1) as usize
}

// ---- byte j of a record, and number i of the header's numbers of four bytes; a getter is one at a numeral

fn of_header(b: &[u8], j: usize) -> u8
    requires { Laid b.now × (j < header_width) }
    ensures { ShowsAs node b.now result (λ s. get_or (header_bytes s.shared) j 0) }
{
    b[j]
}

fn of_node(b: &[u8], k: NodeNo, j: usize) -> u8
    requires { HasNode b.now k × (j < node_width) }
    ensures { ShowsAs node b.now result (λ s. get_or (node_bytes (node_at s k)) j 0) }
{
    b[node_place(k) + j]
}

fn of_thread(b: &[u8], t: ThreadNo, j: usize) -> u8
    requires { HasThread b.now t × (j < thread_width) }
    ensures { ShowsAs node b.now result (λ s. get_or (thread_bytes (thread_at s t)) j 0) }
{
    b[thread_place(b, t) + j]
}

fn four_of_header(b: &[u8], i: usize) -> u32
    requires { Laid b.now × (i ≤ 3) }
    ensures { ShowsAs place b.now result (λ s. four_of i s.shared) }
{
    saved::four_at(b, 7 + 4 * i)
}

// ---- the same stored, past the mark, T and K. A setter is one of these at a numeral.

fn put_of_header(b: &mut [u8], j: usize, x: u8)
    requires { Laid b.old × (4 ≤ j) × (j ≤ 6) }
    ensures { Leaves b.old b.new (λ s. s ⟨shared≔ shared_with j x s.shared ⟩) }
{
    b[j] = x;
}

fn put_of_node(b: &mut [u8], k: NodeNo, j: usize, x: u8)
    requires { HasNode b.old k × (2 ≤ j) × (j ≤ 3) }
    ensures { Leaves b.old b.new (λ s. s ⟨node k ≔ node_with j x (node_at s k) ⟩) }
{
    let at = node_place(k) + j;
    b[at] = x;
}

fn put_of_thread(b: &mut [u8], t: ThreadNo, j: usize, x: u8)
    requires { HasThread b.old t × (2 ≤ j) × (j ≤ 6) }
    ensures { Leaves b.old b.new (λ s. s ⟨thread t ≔ thread_with j x (thread_at s t) ⟩) }
{
    let at = thread_place(b, t) + j;
    b[at] = x;
}

fn put_four_of_header(b: &mut [u8], i: usize, n: u32)
    requires { Laid b.old × (i ≤ 3) }
    ensures { Leaves b.old b.new (λ s. s ⟨shared≔ shared_with_four i n s.shared ⟩) }
{
    put_four(b, 7 + 4 * i, n);
}

// ---- the shared numbers: `LH`, T, K, flag, tail, mess, low (4), high (4), entered (4), nodes in use (4)

pub fn threads(b: &[u8]) -> u8
    requires { Laid b.now }
    ensures { Shows b.now result (λ s. s.shared.threads) }
{
    of_header(b, 2)
}

pub fn nodes(b: &[u8]) -> u8
    requires { Laid b.now }
    ensures { Shows b.now result (λ s. s.shared.nodes) }
{
    of_header(b, 3)
}

pub fn flag(b: &[u8]) -> u8
    requires { Laid b.now }
    ensures { Shows b.now result flag_of }
{
    of_header(b, 4)
}

pub fn tail(b: &[u8]) -> NodeNo
    requires { Laid b.now }
    ensures { Shows b.now result tail_of }
{
    NodeNo(of_header(b, 5))
}

pub fn mess(b: &[u8]) -> NodeNo
    requires { Laid b.now }
    ensures { Shows b.now result mess_of }
{
    NodeNo(of_header(b, 6))
}

pub fn low(b: &[u8]) -> Place
    requires { Laid b.now }
    ensures { Shows b.now result low_of }
{
    Place(four_of_header(b, 0))
}

pub fn high(b: &[u8]) -> Place
    requires { Laid b.now }
    ensures { Shows b.now result high_of }
{
    Place(four_of_header(b, 1))
}

pub fn entered(b: &[u8]) -> u32
    requires { Laid b.now }
    ensures { Shows b.now result entered_of }
{
    four_of_header(b, 2)
}

pub fn local(b: &[u8]) -> u32
    requires { Laid b.now }
    ensures { Shows b.now result local_of }
{
    four_of_header(b, 3)
}

pub fn set_flag(b: &mut [u8], x: u8)
    requires { Laid b.old }
    ensures { Leaves b.old b.new (λ s. s ⟪flag≔ x ⟫) }
{
    put_of_header(b, 4, x);
}

pub fn set_tail(b: &mut [u8], n: NodeNo)
    requires { Laid b.old }
    ensures { Leaves b.old b.new (λ s. s ⟪tail≔ n ⟫) }
{
    put_of_header(b, 5, n.0);
}

pub fn set_mess(b: &mut [u8], n: NodeNo)
    requires { Laid b.old }
    ensures { Leaves b.old b.new (λ s. s ⟪mess≔ n ⟫) }
{
    put_of_header(b, 6, n.0);
}

pub fn set_low(b: &mut [u8], x: Place)
    requires { Laid b.old }
    ensures { Leaves b.old b.new (λ s. s ⟪low≔ x ⟫) }
{
    put_four_of_header(b, 0, x.0);
}

pub fn set_high(b: &mut [u8], x: Place)
    requires { Laid b.old }
    ensures { Leaves b.old b.new (λ s. s ⟪high≔ x ⟫) }
{
    put_four_of_header(b, 1, x.0);
}

pub fn set_entered(b: &mut [u8], x: u32)
    requires { Laid b.old }
    ensures { Leaves b.old b.new (λ s. s ⟪entered≔ x ⟫) }
{
    put_four_of_header(b, 2, x);
}

pub fn set_local(b: &mut [u8], x: u32)
    requires { Laid b.old }
    ensures { Leaves b.old b.new (λ s. s ⟪local≔ x ⟫) }
{
    put_four_of_header(b, 3, x);
}

// ---- the variables of a node: `LN`, next, locked

pub fn next(b: &[u8], k: NodeNo) -> NodeNo
    requires { HasNode b.now k }
    ensures { Shows b.now result (λ s. next_of s k) }
{
    NodeNo(of_node(b, k, 2))
}

pub fn locked(b: &[u8], k: NodeNo) -> u8
    requires { HasNode b.now k }
    ensures { Shows b.now result (λ s. locked_of s k) }
{
    of_node(b, k, 3)
}

pub fn set_next(b: &mut [u8], k: NodeNo, n: NodeNo)
    requires { HasNode b.old k }
    ensures { Leaves b.old b.new (λ s. s ⟪next k ≔ n ⟫) }
{
    put_of_node(b, k, 2, n.0);
}

pub fn set_locked(b: &mut [u8], k: NodeNo, x: u8)
    requires { HasNode b.old k }
    ensures { Leaves b.old b.new (λ s. s ⟪locked k ≔ x ⟫) }
{
    put_of_node(b, k, 3, x);
}

// ---- the variables of a thread: `LT`, line, my, prev, succ, nxmy, slot (4)

pub fn line(b: &[u8], t: ThreadNo) -> u8
    requires { HasThread b.now t }
    ensures { Shows b.now result (λ s. line_of s t) }
{
    of_thread(b, t, 2)
}

pub fn my(b: &[u8], t: ThreadNo) -> NodeNo
    requires { HasThread b.now t }
    ensures { Shows b.now result (λ s. my_of s t) }
{
    NodeNo(of_thread(b, t, 3))
}

pub fn prev(b: &[u8], t: ThreadNo) -> NodeNo
    requires { HasThread b.now t }
    ensures { Shows b.now result (λ s. prev_of s t) }
{
    NodeNo(of_thread(b, t, 4))
}

pub fn succ(b: &[u8], t: ThreadNo) -> NodeNo
    requires { HasThread b.now t }
    ensures { Shows b.now result (λ s. succ_of s t) }
{
    NodeNo(of_thread(b, t, 5))
}

pub fn set_line(b: &mut [u8], t: ThreadNo, x: u8)
    requires { HasThread b.old t }
    ensures { Leaves b.old b.new (λ s. s ⟪line t ≔ x ⟫) }
{
    put_of_thread(b, t, 2, x);
}

pub fn set_my(b: &mut [u8], t: ThreadNo, n: NodeNo)
    requires { HasThread b.old t }
    ensures { Leaves b.old b.new (λ s. s ⟪my t ≔ n ⟫) }
{
    put_of_thread(b, t, 3, n.0);
}

pub fn set_prev(b: &mut [u8], t: ThreadNo, n: NodeNo)
    requires { HasThread b.old t }
    ensures { Leaves b.old b.new (λ s. s ⟪prev t ≔ n ⟫) }
{
    put_of_thread(b, t, 4, n.0);
}

pub fn set_succ(b: &mut [u8], t: ThreadNo, n: NodeNo)
    requires { HasThread b.old t }
    ensures { Leaves b.old b.new (λ s. s ⟪succ t ≔ n ⟫) }
{
    put_of_thread(b, t, 5, n.0);
}

pub fn set_nxmy(b: &mut [u8], t: ThreadNo, n: NodeNo)
    requires { HasThread b.old t }
    ensures { Leaves b.old b.new (λ s. s ⟪nxmy t ≔ n ⟫) }
{
    put_of_thread(b, t, 6, n.0);
}

pub fn set_slot(b: &mut [u8], t: ThreadNo, x: Place)
    requires { HasThread b.old t }
    ensures { Leaves b.old b.new (λ s. s ⟪slot t ≔ x ⟫) }
{
    let at = thread_place(b, t) + 7;
    put_four(b, at, x.0);
}
