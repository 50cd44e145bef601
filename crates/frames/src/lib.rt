//! Many cases in one text: for each a row with its length in bytes as a decimal number, then exactly that many bytes.
#![tactic(auto)]

ghost use Rattle.std.specs.Prelude.{◌≡◌, ◌<◌, ◌≤◌, length, IfSome};

use std::io::{Read, Write};
use std::ops::Range;
use streams::Failure;

// Bytes of all cases: 2 MiB.
const ROOM: usize = 2097152;

// Room for all cases. A function of its own keeps the zeros out of what is to be proved of its caller.
pub fn room() -> [u8; ROOM] {
    [0; ROOM]
}

// Where the row that begins at `at` ends; at the end of the bytes, where no 0A ends it.
pub fn row_end(input: &[u8], at: usize) -> usize
    requires { at ≤ length input.now }
    ensures { (at ≤ result) × (result ≤ length input.now) }
{
    text::row_end(input, at)
}

// Where the case begins and ends whose frame begins at `at`; none, where the frame is broken.
pub fn next(input: &[u8], at: usize) -> Option<Range<usize>>
    requires { at < length input.now }
    ensures { IfSome result (λ case. (at < case.start) × (case.start ≤ case.end) × (case.end ≤ length input.now)) }
{
    let end = row_end(input, at);
    if end == input.len() {
        return None;
    }
    let from = end + 1;
    let size = text::decimal(&input[at..end])?;
    if input.len() - from < size {
        return None;
    }
    Some(from..from + size)
}

// Every case in turn: its row, and what the work on it prints; a broken frame ends the run.
fn each_case<W, F>(output: &mut W, input: &mut [u8], work: F) -> Result<(), Failure>
where
    W: Write,
    F: Fn(&mut W, &mut [u8]) -> Result<(), Failure>,
    requires { F.IsAlwaysCallable work }
{
    // Counted by hand, since each case says how far the next one is.
    let mut at: usize = 0;
    let mut k: usize = 0;
    while at < input.len() {
        let Some(case) = next(input, at) else {
            return answers::say_broken(output).map_err(Failure::Unwritten);
        };
        answers::say_count(output, b"case,", k).map_err(Failure::Unwritten)?;
        at = case.end;
        work(output, &mut input[case.start..at])?;
        k += 1;
    }
    Ok(())
}

// Reads the cases, and does the work on each.
pub fn run<R, W, F>(input: &mut R, output: &mut W, work: F) -> Result<(), Failure>
where
    R: Read,
    W: Write,
    F: Fn(&mut W, &mut [u8]) -> Result<(), Failure>,
    requires { F.IsAlwaysCallable work }
{
    let mut buffer = room();
    let n = streams::read_full(input, &mut buffer)?;
    each_case(output, &mut buffer[..n], work)
}
