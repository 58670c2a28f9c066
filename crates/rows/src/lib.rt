// Records of one width, laid end to end, as saved states and schedules have them: definitions and laws are
// in specs/. The only code is `put`, by which records are stored in a lent buffer, and `put_times`, which
// stores copies of one record by it; and a buffer with how many of its bytes are in use.
#![tactic(auto)]

ghost use Rattle.std.specs.Prelude.{◌*◌, ◌+◌, ◌≤◌, ◌≡◌, length, take};
ghost use Rattle.std.proofs.lemmas.List.Edits.{sets};
ghost use Rattle.rows.specs.Rows.{times};

// r in out from a place on. (By its bytes: with the library's `copy_from_slice` the built code asked, copy
// by copy, whether r lies in out, and storing the nodes of a fresh state took three times as long.)
#[tactic(auto, using(crate::specs::Stored::byte_more))]
pub fn put(out: &mut [u8], at: usize, r: &[u8])
    requires { at + length r.now ≤ length out.old }
    ensures { out.new ≡ sets out.old at r.now }
{
    for i in 0..r.len() {
        out[at + i] = r[i];
    }
}

// n copies of r in out, one behind the other, from a place on.
#[tactic(auto, using(crate::specs::Stored::copy_fits, crate::specs::Stored::copy_more), unfolding(crate::specs::Rows::times))]
pub fn put_times(out: &mut [u8], at: usize, r: &[u8], n: u8)
    requires { at + length r.now * n ≤ length out.old }
    ensures { out.new ≡ sets out.old at (times n r.now) }
{
    for i in 0..n as usize {
        put(out, at + r.len() * i, r);
    }
}

// Bytes in a buffer with room for N: the first `size` of it.
#[derive(Clone, Copy)]
pub struct Buffer<const N: usize> {
    pub bytes: [u8; N],
    pub size: usize,
    pub ghost within: { size ≤ N },
}

impl<const N: usize> Buffer<N> {
    pub fn part(&self) -> &[u8]
        ensures value { result.now ≡ take self.now.size self.now.bytes }
        ensures fits { length result.now ≤ N }
    {
        &self.bytes[..self.size]
    }
}
