// Questions about a state: its status, how many threads wait, how many nodes are in use, and the chain of
// nodes that starts at one. Each is answered on the bytes of a saved state, which are read where they stand
// and judged first; a state by value is judged, laid into a buffer, and answered there. Rests on `cells`
// for the bytes, on `saved` and `lock` for judging, and on `lines` for the table.
#![tactic(auto)]

ghost use Rattle.std.specs.Prelude.{Bool, false, true, MatchResult, ℕ, ◌≡◌, ◌≤◌, length, take};
ghost use Rattle.ask.specs.Ask.{asked_status, chain as chain_asked, chain_bytes, chain_from, how_many_threads};
ghost use Rattle.ask.specs.Ask.{is_counted, is_waiting, nodes_in_use, number_of_status};
ghost use Rattle.ask.specs.Ask.{status as status_asked, status_of, waiting as waiting_asked};
ghost use Rattle.ask.specs.Asked.{asked_of};
ghost use Rattle.ask.specs.Inner.{Holds, OfLine};
ghost use Rattle.cells.specs.Cells.{Held, Laid};
ghost use Rattle.lock.specs.Valid.{Between, Valid, valid};
ghost use Rattle.number.specs.Sizes.{first_line, last_line};
ghost use Rattle.rows.specs.Rows.{over};
ghost use Rattle.saved.specs.Saved.{read, saved_good, state_in};
ghost use Rattle.word.specs.Word.{how_many};

use lines::Wait;
use lock::State;
use number::{LAST_LINE, NodeNo, Refusal, ThreadNo, one_to, refuse};
use rows::Buffer;
use saved::MOST_SAVED;

// The lock is held by a thread at 20 to 29.
const FIRST_HELD: u8 = 20;

// What status says of the lock, each with its number.
#[derive(Clone, Copy, Debug, PartialEq, Eq)]
pub enum LockStatus {
    Free = 1,
    Held = 2,
    Passing = 3,
}

impl From<LockStatus> for u8 {
    ghost from_gives = { λ status number. number ≡ number_of_status status };

    fn from(status: LockStatus) -> u8 {
        status as u8
    }
}

// Waiting for the flag or the unlock counts; waiting for the link, inside the lock, does not.
fn is_counted(w: Wait) -> bool
    ensures { result ≡ is_counted w }
{
    matches!(w, Wait::ForFlag | Wait::ForUnlock)
}

// The bytes of a saved state that was judged: they hold a state that keeps its rules. Only these are asked.
#[derive(Clone, Copy)]
struct Judged<'a> {
    bytes: &'a [u8],
    ghost laid: { Laid bytes.now },
    ghost held: { Held bytes.now (state_in bytes.now) },
    ghost rule: { Valid (state_in bytes.now) },
}

impl<'a> Judged<'a> {
    fn new(bytes: &'a [u8]) -> Judged<'a>
        requires { saved_good bytes.now ≡ true }
        ensures { result.bytes.now ≡ bytes.now }
    {
        Judged { bytes }
    }

    // How many of the threads 1 to T are at a line that passes the test.
    fn how_many_threads<F: Fn(u8) -> bool>(self, passes: F) -> u8
        requires { (line : ℕ) → Between first_line line last_line → F.pre passes line }
        ensures { (test : ℕ → Bool) → OfLine (F.post passes) test
            → result ≡ how_many_threads (λ v. test v.line) (state_in self.entry.bytes.now) }
    {
        let mut n = 0;
        for t in 1..=cells::threads(self.bytes) {
            n += u8::from(passes(cells::line(self.bytes, ThreadNo(t))));
        }
        n
    }

    // Free, if tail is 0 and flag is 1; else held, if some thread is at 20 to 29; else passing.
    #[tactic(auto, unfolding(crate::specs::Ask::status_of))]
    fn status(self) -> LockStatus
        ensures { number_of_status result ≡ status_of (state_in self.entry.bytes.now) }
    {
        let holders = self.how_many_threads(|line| (FIRST_HELD..=LAST_LINE).contains(&line));
        if cells::tail(self.bytes).is_bottom() & (cells::flag(self.bytes) == 1) {
            LockStatus::Free
        } else if holders != 0 {
            LockStatus::Held
        } else {
            LockStatus::Passing
        }
    }

    // The number of threads at line 16 or 19.
    fn waiting(self) -> u8
        ensures { result ≡ how_many_threads is_waiting (state_in self.entry.bytes.now) }
    {
        self.how_many_threads(|line| is_counted(lines::row_of(line).1))
    }

    // How many nodes are in use.
    #[tactic(auto, using(crate::specs::Proof::InUse::nodes_at_most))]
    fn in_use(self) -> u8
        ensures { result ≡ how_many (state_in self.entry.bytes.now).shared.used }
    {
        word::how_many(cells::local(self.bytes)) as u8
    }

    // Writes node k, its next, and so on to the start of `out`: at most `left` of them, ending before 0.
    // Gives how many.
    fn chain_from(self, k: NodeNo, left: u8, out: &mut [u8]) -> u8
        requires { (k.0 ≤ (state_in self.bytes.now).shared.nodes) × (left ≤ length out.old) }
        ensures { (result ≡ length (chain_from left (state_in self.entry.bytes.now) k))
            × (out.new ≡ over (chain_from left (state_in self.entry.bytes.now) k) out.old) }
    {
        if (left == 0) | k.is_bottom() {
            return 0;
        }
        out[0] = k.0;
        let next = cells::next(self.bytes, k);
        1 + self.chain_from(next, left - 1, &mut out[1..])
    }

    // The node `from`, its next, and so on, ending before 0 or after K nodes, at the start of `out`. Gives
    // how many: 4 and 6, the first that applies.
    fn chain(self, from: NodeNo, out: &mut [u8]) -> Result<u8, Refusal>
        ensures { (asked_of result ≡ chain_asked (state_in self.entry.bytes.now) from out.old)
            × (out.new ≡ chain_bytes (state_in self.entry.bytes.now) from out.old) }
    {
        let nodes = cells::nodes(self.bytes);
        refuse(out.len() < nodes as usize, Refusal::TooShort)?;
        refuse(!one_to(nodes, from.0), Refusal::WrongNode)?;
        Ok(self.chain_from(from, nodes, out))
    }
}

// ---- of a saved state that was judged before

// Free, if tail is 0 and flag is 1; else held, if some thread is at 20 to 29; else passing.
pub fn status_of(b: &[u8]) -> LockStatus
    requires { saved_good b.now ≡ true }
    ensures { number_of_status result ≡ status_of (state_in b.now) }
{
    Judged::new(b).status()
}

// The number of threads at line 16 or 19.
pub fn waiting_of(b: &[u8]) -> u8
    requires { saved_good b.now ≡ true }
    ensures { result ≡ how_many_threads is_waiting (state_in b.now) }
{
    Judged::new(b).waiting()
}

// ---- the calls on the bytes of a saved state: refused by 1 if they break a rule

#[tactic(auto, using(saved::specs::Proof::Held::good_valid, saved::specs::Proof::Held::good_state, saved::specs::Proof::Held::bad_valid))]
fn judge(bytes: &[u8]) -> Result<Judged, Refusal>
    ensures { let s = (read bytes.now).state in
        MatchResult result (λ j. (valid s ≡ true) × (state_in j.bytes.now ≡ s))
        (λ r. (valid s ≡ false) × (r ≡ Refusal.BadState)) }
{
    if saved::good(bytes) {
        Ok(Judged::new(bytes))
    } else {
        Err(Refusal::BadState)
    }
}

#[tactic(auto, unfolding(crate::specs::Ask::status))]
pub fn status_saved(bytes: &[u8]) -> Result<LockStatus, Refusal>
    ensures { asked_status result ≡ status_asked (read bytes.now).state }
{
    Ok(judge(bytes)?.status())
}

#[tactic(auto, unfolding(crate::specs::Ask::waiting))]
pub fn waiting_saved(bytes: &[u8]) -> Result<u8, Refusal>
    ensures { asked_of result ≡ waiting_asked (read bytes.now).state }
{
    Ok(judge(bytes)?.waiting())
}

#[tactic(auto, unfolding(crate::specs::Ask::nodes_in_use))]
pub fn in_use_saved(bytes: &[u8]) -> Result<u8, Refusal>
    ensures { asked_of result ≡ nodes_in_use (read bytes.now).state }
{
    Ok(judge(bytes)?.in_use())
}

#[tactic(auto, unfolding(crate::specs::Ask::chain, crate::specs::Ask::chain_bytes, crate::specs::Ask::chain_list, crate::specs::Ask::chain_number))]
pub fn chain_saved(bytes: &[u8], from: NodeNo, out: &mut [u8]) -> Result<u8, Refusal>
    ensures { (asked_of result ≡ chain_asked (read bytes.now).state from out.old)
        × (out.new ≡ chain_bytes (read bytes.now).state from out.old) }
{
    judge(bytes)?.chain(from, out)
}

// ---- the calls on a state by value: refused by 1 if it breaks a rule

// The bytes of the state, in a buffer.
fn laid(s: State) -> Result<Buffer<MOST_SAVED>, Refusal>
    ensures { MatchResult result (λ laid. (valid s ≡ true) × Holds s (take laid.size laid.bytes))
        (λ r. (valid s ≡ false) × (r ≡ Refusal.BadState)) }
{
    refuse(!lock::valid(s), Refusal::BadState)?;
    Ok(saved::laid(s))
}

// Whether the lock is free, held or passing.
#[tactic(auto, unfolding(crate::specs::Ask::status))]
pub fn status(s: State) -> Result<LockStatus, Refusal>
    ensures { asked_status result ≡ status_asked s }
{
    let laid = laid(s)?;
    Ok(Judged::new(laid.part()).status())
}

// The number of threads at line 16 or 19.
#[tactic(auto, unfolding(crate::specs::Ask::waiting))]
pub fn waiting(s: State) -> Result<u8, Refusal>
    ensures { asked_of result ≡ waiting_asked s }
{
    let laid = laid(s)?;
    Ok(Judged::new(laid.part()).waiting())
}

// How many nodes are in use.
#[tactic(auto, unfolding(crate::specs::Ask::nodes_in_use))]
pub fn in_use(s: State) -> Result<u8, Refusal>
    ensures { asked_of result ≡ nodes_in_use s }
{
    let laid = laid(s)?;
    Ok(Judged::new(laid.part()).in_use())
}

// The node `from`, its next, and so on, ending before 0 or after K nodes, at the start of `out`. Gives how
// many.
#[tactic(auto, unfolding(crate::specs::Ask::chain, crate::specs::Ask::chain_bytes, crate::specs::Ask::chain_list, crate::specs::Ask::chain_number))]
pub fn chain(s: State, from: NodeNo, out: &mut [u8]) -> Result<u8, Refusal>
    ensures { (asked_of result ≡ chain_asked s from out.old) × (out.new ≡ chain_bytes s from out.old) }
{
    let laid = laid(s)?;
    Judged::new(laid.part()).chain(from, out)
}
