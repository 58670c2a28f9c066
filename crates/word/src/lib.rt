// The nodes in use as one 32-bit word, bit k - 1 for node k. A number that is not 1 to 32 has no bit: it is never in use, and
// putting it in or taking it out leaves the word alone. Rests on `number`.
#![tactic(auto)]

ghost use Rattle.std.specs.Prelude.{◌≡◌};
ghost use Rattle.word.specs.Word.{alone_in, has_bit, how_many, in_use, none_from, put_in, take_out};

use number::{MOST_NODES, NodeNo, one_to};

// Nodes 1 to 32 have a bit.
fn has_bit(k: NodeNo) -> bool
    ensures { result ≡ has_bit k }
{
    one_to(MOST_NODES, k.0)
}

// The word in which node k alone is in use.
#[tactic(auto, unfolding(crate::specs::Word::alone_in))]
fn alone(k: NodeNo) -> u32
    ensures { result ≡ alone_in k }
{
    if has_bit(k) { 1 << (k.0 - 1) as u32 } else { 0 }
}

#[tactic(auto, unfolding(crate::specs::Word::in_use))]
pub fn in_use(w: u32, k: NodeNo) -> bool
    ensures { result ≡ in_use w k }
{
    has_bit(k) && (w >> (k.0 - 1) as u32) % 2 == 1
}

#[tactic(auto, unfolding(crate::specs::Word::put_in))]
pub fn put_in(w: u32, k: NodeNo) -> u32
    ensures { result ≡ put_in w k }
{
    w | alone(k)
}

#[tactic(auto, unfolding(crate::specs::Word::take_out))]
pub fn take_out(w: u32, k: NodeNo) -> u32
    ensures { result ≡ take_out w k }
{
    w & !alone(k)
}

// How many nodes are in use: the number of ones.
#[tactic(auto, using(crate::proofs::Laws::ones_how_many))]
pub fn how_many(w: u32) -> u32
    ensures { result ≡ how_many w }
{
    w.count_ones()
}

// No bit of w is set from bit `nodes` up. (A word has no bit from 32 up, so a larger number is met by every word.)
#[tactic(auto, using(crate::proofs::Laws::none_from_most))]
pub fn none_from(w: u32, nodes: u8) -> bool
    ensures { result ≡ none_from w nodes }
{
    MOST_NODES < nodes || (w as u64) >> (nodes as u64) == 0
}
