// The printing program: it reads a schedule from standard input, and writes the text of its run from fresh,
// or `refused 2`. It only reads, calls and writes: what is written is what `text` promises. Rests on `text`.
#![tactic(auto)]

ghost use Rattle.std.specs.Prelude.{IfOk, ◌+◌, ◌≡◌, ◌≤◌, length, take};
ghost use Rattle.schedule.specs.Schedule.{most_bytes};
ghost use Rattle.text.specs.Text.{most_text};

use std::io::{self, Print, Read, Stdin};
use text::MOST_TEXT;

// One byte more than a schedule may have, so that a longer input is seen to be longer.
const MOST_READ: usize = 65_537;

// Room for any schedule, and a byte more. (This and `text_room` say which number of document 01 theirs is.)
fn input_room() -> [u8; MOST_READ]
    ensures { most_bytes + 1 ≡ length result }
{
    [0; MOST_READ]
}

// Room for any text.
fn text_room() -> [u8; MOST_TEXT]
    ensures { most_text ≡ length result }
{
    [0; MOST_TEXT]
}

// Reads until the input ends or `input` is full, in pieces of any size, and gives how many bytes it read.
// (The library's `read_to_end` would need a heap.)
fn read_all(source: &mut Stdin, input: &mut [u8]) -> io::Result<usize>
    ensures { IfOk result (λ n. (n ≤ length input.new) × (n ≡ length (take n input.new))) }
{
    let mut filled = 0;
    while filled < input.len() {
        let more = source.read(&mut input[filled..])?;
        if more == 0 {
            return Ok(filled);
        }
        filled += more;
    }
    Ok(filled)
}

// Writes the text of the schedule, by way of `out`, or that it is refused. `out` has room for any text, so
// that this is what document 01 says is printed (`prints` of crate `text`).
fn print(rt: HostRuntime, schedule: &[u8], out: &mut [u8]) {
    match text::text(schedule, out) {
        Ok(size) => write(rt, &out[..size]),
        Err(_) => write(rt, &text::refused_text()),
    }
}

// Writes to standard output. Where that is closed or full, the program ends quietly.
fn write(rt: HostRuntime, bytes: &[u8]) {
    let _ = rt.write_all(bytes);
}

fn main(rt: HostRuntime) {
    let mut input = input_room();
    let mut source = rt.stdin();
    // Where a read fails, what was read before is no schedule, as an empty input is none.
    let n = read_all(&mut source, &mut input).unwrap_or(0);
    let mut out = text_room();
    print(rt, &input[..n], &mut out);
}
