//! Runs an engine script from the file that its argument names or from standard input: net rows, a row `.`, estimate rows, a row `.`
//! and commands; one row for each command as soon as it is there, and at the end the state, on standard output.
#![tactic(auto)]

use script_rows::Incoming;
use std::io::{Read, Write};
use streams::{Failure, Program};

const PROGRAM: Program = Program {
    name: b"lotrun",
    help: b"usage: lotrun [FILE]\n\
    Runs a net in the engine. FILE, or else standard input, has the rows of the\n\
    net, a row `.`, the rows of the estimate, a row `.`, and then commands, each\n\
    answered as soon as it is there:\n\
    step,K,M,R  guarded,K,M,R  ready  door,R,L,D  withdraw\n\
    bring, and in rows of their own the arrival's rows and a row `.`\n\
    At the end of the input the state is printed.\n",
};

// A function of its own keeps the million zeros out of what is to be proved of its caller.
fn room() -> [u8; scripts::ROOM] {
    [0; scripts::ROOM]
}

fn run<R: Read, W: Write>(input: &mut R, output: &mut W) -> Result<(), Failure> {
    let mut buffer = room();
    scripts::run(&mut Incoming::fresh(input, &mut buffer), output)
}

fn main(rt: HostRuntime) {
    PROGRAM.run(&rt, |input, output| run(input, output));
}
