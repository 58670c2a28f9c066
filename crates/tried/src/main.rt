// Runs what document 01 asks to be run and not proved: "Run: a byte too many or too few, lines 10 and 30: 1." Each line of the output says
// what was read, and the number that reading it gave. The file is P1's, written here from "Saved state"; its neighbours that must
// be read stand beside those that must not. Rests on `saved`, and on `number` for the number of an answer.
#![tactic(auto)]

use std::io;

// P1: fresh, T = K = 2, with one byte more behind it: the header (T, K, flag, tail, mess, low, high, entered, nodes in use), two nodes (next,
// locked), two threads (line, my, prev, succ, nxmy, slot).
const FILE: [u8; 54] =
    *b"LH\x02\x02\x01\0\0\x01\0\0\0\x01\0\0\0\0\0\0\0\0\0\0\0LN\0\0LN\0\0LT\x0b\0\0\0\0\0\0\0\0LT\x0b\0\0\0\0\0\0\0\0\0";

// The place of thread 1's line.
const LINE: usize = 33;

// Writes what is read, and the number that reading gives.
fn show(rt: HostRuntime, what: &str, file: &[u8]) -> io::Result<()> {
    let number = number::answer_number(saved::read(file));
    println!(rt; "{what}{number}")
}

// The file with thread 1 at this line.
fn show_line(rt: HostRuntime, what: &str, line: u8) -> io::Result<()> {
    let mut file = FILE;
    file[LINE] = line;
    show(rt, what, &file[..53])
}

fn main(rt: HostRuntime) -> io::Result<()> {
    let file = FILE;
    show(rt, "53 bytes: ", &file[..53])?;
    show(rt, "a byte too few: ", &file[..52])?;
    show(rt, "a byte too many: ", &file)?;
    show_line(rt, "line 10: ", 10)?;
    show_line(rt, "line 11: ", 11)?;
    show_line(rt, "line 29: ", 29)?;
    show_line(rt, "line 30: ", 30)
}
