//! What a program reads and writes: the file that its argument names, or else standard input, and standard output.
//! A failed call is told apart from the end of the input. A call that a signal interrupted is made again.
//! Nothing here allocates.
#![tactic(auto)]

ghost use Rattle.std.specs.Prelude.{◌≡◌, ℕ, ◌<◌, ◌≤◌, length, take, IfOk, OnOk};
ghost use Rattle.std.specs.Io.{ReadsAtMost, WritesAtMost};
ghost use Rattle.std.specs.Io.KnownBytes.{Appends, Consumes, IsAtEnd, ReadConsumes, WriteAppends};
ghost use Rattle.streams.specs.declared.Failure.TheVariants.{Unread};
ghost use Rattle.streams.specs.Came.{came};

use std::env::{Env, FillError};
use std::fs::File;
use std::io;
use std::io::{ErrorKind, Read, Stdin, Stdout, Write};

// Room for the longest name of a file.
pub const NAME: usize = 4096;

// Room for the name of a program, what it could not do, and the longest name of a file.
const MESSAGE: usize = 4160;

// Room for why a call failed, in the system's words.
const REASON: usize = 256;

// What std puts behind the system's words for an error, in front of its number.
const NUMBER: &[u8] = b" (os error ";

// The numbers of two of the system's errors: a name that is too long, and one that is no text.
const NAME_TOO_LONG: i32 = 36;

const NOT_TEXT: i32 = 84;

// No error of the system's: a write failed that took nothing and told no reason.
const NO_ERROR: i32 = 0;

// A reading that failed: how many bytes came before, and why.
#[derive(Clone, Copy)]
pub struct Broken {
    pub count: usize,
    pub why: io::Error,
}

// Why a program could not do its work: a read of its input failed, or a write of its output did.
#[derive(Clone, Copy)]
pub enum Failure {
    Unread(io::Error),
    Unwritten(io::Error),
}

impl From<Broken> for Failure {
    ghost from_gives = { λ broken failure. failure ≡ Unread broken.why };

    fn from(broken: Broken) -> Failure {
        Failure::Unread(broken.why)
    }
}

// What a program reads from, open.
#[derive(Drop)]
pub enum Input {
    Stdin(Stdin),
    File(File),
}

impl Read for Input {
    fn read(&mut self, buf: &mut [u8]) -> io::Result<usize> {
        match self {
            Input::Stdin(stdin) => stdin.read(buf),
            Input::File(file) => file.read(buf),
        }
    }
}

// Where a program reads from, and what its messages call that.
#[derive(Drop)]
pub struct Source<'a> {
    pub input: Input,
    pub name: &'a [u8],
}

// A program: its name, and what `--help` prints.
#[derive(Clone, Copy)]
pub struct Program {
    pub name: &'static [u8],
    pub help: &'static [u8],
}

// One read into a buffer. The turns count the interruptions: no run uses them up.
pub fn read<R: Read>(input: &mut R, buf: &mut [u8]) -> io::Result<usize>
    ensures within { ReadsAtMost result buf.new }
    ensures taken { ReadConsumes (R.remaining input.old) (R.remaining input.new) result buf.new }
{
    for _ in 0..u64::MAX {
        match input.read(buf) {
            Err(why) if why.kind() == ErrorKind::Interrupted => {}
            got => return got,
        }
    }
    input.read(buf)
}

// Reads until the buffer is full, the input ends or a read fails.
pub fn read_full<R: Read>(input: &mut R, buf: &mut [u8]) -> Result<usize, Broken>
    ensures within { came result ≤ length buf.new }
    ensures taken { Consumes (R.remaining input.old) (R.remaining input.new) (take (came result) buf.new) }
    ensures end { IfOk result (λ n. n < length buf.new → IsAtEnd (R.remaining input.new)) }
{
    // Counted, since how far it came is told also where it failed.
    let mut done: usize = 0;
    while done < buf.len() {
        match read(input, &mut buf[done..]) {
            Ok(0) => return Ok(done),
            Ok(count) => done += count,
            Err(why) => return Err(Broken { count: done, why }),
        }
    }
    Ok(done)
}

// One write: how many bytes were taken. The loop is that of `read`, not shared over a closure: of the calls that a closure makes before
// the last one nothing is known, so that neither promise could be proved.
fn write_some<W: Write>(output: &mut W, bytes: &[u8]) -> io::Result<usize>
    ensures within { WritesAtMost result bytes.now }
    ensures put { WriteAppends (W.contents output.old) (W.contents output.new) result bytes.now }
{
    for _ in 0..u64::MAX {
        match output.write(bytes) {
            Err(why) if why.kind() == ErrorKind::Interrupted => {}
            put => return put,
        }
    }
    output.write(bytes)
}

// Writes all of the bytes; where a write failed, the first of them may have been written. Of a failure std's `write_all` promises
// nothing.
pub fn write<W: Write>(output: &mut W, bytes: &[u8]) -> io::Result<()>
    ensures all { OnOk result (Appends (W.contents output.old) (W.contents output.new) bytes.now) }
    ensures first { (n : ℕ) × Appends (W.contents output.old) (W.contents output.new) (take n bytes.now) }
{
    let mut rest = bytes;
    while !rest.is_empty() {
        let put = write_some(output, rest)?;
        if put == 0 {
            return Err(io::Error::from_raw_os_error(NO_ERROR));
        }
        rest = &rest[put..];
    }
    Ok(())
}

// The system's words at the start of a buffer of zeros, without the number that std puts behind them.
fn words(text: &[u8]) -> &[u8] {
    for (i, byte) in text.iter().enumerate() {
        if *byte == 0 || text[i..].starts_with(NUMBER) {
            return &text[..i];
        }
    }
    text
}

// Puts bytes on standard error. Where they cannot be written, there is nowhere to tell it.
fn mention<W: Write>(errors: &mut W, bytes: &[u8]) {
    let _ = write(errors, bytes);
}

// Opens the file with this name. std names files by text alone.
fn open_file(rt: &HostRuntime, name: &[u8]) -> io::Result<File> {
    match std::str::from_utf8(name) {
        Ok(path) => File::open(rt, path),
        Err(_) => Err(io::Error::from_raw_os_error(NOT_TEXT)),
    }
}

// Whether a program has an argument of this number.
fn has_argument(rt: &HostRuntime, number: usize) -> bool {
    let mut room = [0u8; 1];
    !matches!(rt.arg(number, &mut room), Err(FillError::NotPresent))
}

impl Program {
    // What is in front of the reason in a message, part by part.
    fn tell_parts<W: Write>(self, errors: &mut W, what: &[u8], name: &[u8]) {
        mention(errors, self.name);
        mention(errors, b": cannot ");
        mention(errors, what);
        mention(errors, b" ");
        mention(errors, name);
    }

    // A row on standard error: the program, what it could not do, with what, and why. What is in front of the reason is one write where
    // there is room for it, as there is with every name of a file.
    fn tell<W: Write>(self, errors: &mut W, what: &[u8], name: &[u8], why: io::Error) {
        let mut row = [0u8; MESSAGE];
        let mut rest = &mut row[..];
        let _ = rest.write(self.name);
        let _ = rest.write(b": cannot ");
        let _ = rest.write(what);
        let _ = rest.write(b" ");
        let _ = rest.write(name);
        let n = MESSAGE - rest.len();
        let mut reason = [0u8; REASON];
        let mut room = &mut reason[..];
        let _ = write!(room, "{why}");
        if n < MESSAGE {
            mention(errors, &row[..n]);
        } else {
            self.tell_parts(errors, what, name);
        }
        mention(errors, b": ");
        mention(errors, words(&reason));
        mention(errors, b"\n");
    }

    // Tells on standard error why the program could not do its work; `name` is what it read from.
    pub fn tell_failure<W: Write>(self, errors: &mut W, name: &[u8], failure: Failure) {
        match failure {
            Failure::Unread(why) => self.tell(errors, b"read", name, why),
            Failure::Unwritten(why) => self.tell(errors, b"write", b"standard output", why),
        }
    }

    // The program was given more than one argument.
    fn tell_usage<W: Write>(self, errors: &mut W) {
        for part in [
            self.name,
            b": more than one argument: see ",
            self.name,
            b" --help\n",
        ] {
            mention(errors, part);
        }
    }

    // Prints the help.
    fn print_help(self, rt: &HostRuntime, output: &mut Stdout) {
        if let Err(why) = write(output, self.help) {
            self.tell_failure(&mut rt.stderr(), b"", Failure::Unwritten(why));
        }
    }

    // The file with this name, to be read.
    fn opened<'a>(self, rt: &HostRuntime, name: &'a [u8]) -> Option<Source<'a>> {
        match open_file(rt, name) {
            Ok(file) => Some(Source {
                input: Input::File(file),
                name,
            }),
            Err(why) => {
                self.tell(&mut rt.stderr(), b"open", name, why);
                None
            }
        }
    }

    // What the program reads from with one argument or more, of which this is the first.
    fn asked<'a>(
        self,
        rt: &HostRuntime,
        output: &mut Stdout,
        name: &'a [u8],
    ) -> Option<Source<'a>> {
        if name == b"--help".as_slice() {
            self.print_help(rt, output);
            return None;
        }
        if has_argument(rt, 2) {
            self.tell_usage(&mut rt.stderr());
            return None;
        }
        self.opened(rt, name)
    }

    // What the program reads from: standard input where it has no argument, else the file that its argument names, whose name is
    // put at the start of `room`. None, where there is nothing to read: the help was printed, or a message told why.
    pub fn open<'a>(
        self,
        rt: &HostRuntime,
        output: &mut Stdout,
        room: &'a mut [u8],
    ) -> Option<Source<'a>> {
        match rt.arg(1, room) {
            Ok(n) => self.asked(rt, output, &room[..n]),
            Err(FillError::TooLong) => {
                let why = io::Error::from_raw_os_error(NAME_TOO_LONG);
                self.tell(&mut rt.stderr(), b"open", b"the file", why);
                None
            }
            Err(FillError::NotPresent) => Some(Source {
                input: Input::Stdin(rt.stdin()),
                name: b"standard input",
            }),
        }
    }

    // Does the program's work with what it reads from and standard output, and tells why, where that could not be done.
    pub fn run<F>(self, rt: &HostRuntime, work: F)
    where
        F: FnOnce(&mut Input, &mut Stdout) -> Result<(), Failure>,
        requires { F.IsAlwaysCallable work }
    {
        let mut room = [0u8; NAME];
        let mut output = rt.stdout();
        if let Some(mut source) = self.open(rt, &mut output, &mut room) {
            if let Err(failure) = work(&mut source.input, &mut output) {
                self.tell_failure(&mut rt.stderr(), source.name, failure);
            }
        }
    }
}

#[cfg(test)]
mod tests {
    use super::*;

    // A name for which a message has no room in one write is told whole.
    #[test]
    fn tells_long_name(rt: HostRuntime) {
        let program = Program {
            name: b"lotcheck",
            help: b"",
        };
        let mut room = [0u8; 6000];
        let mut rest = &mut room[..];
        let why = io::Error::from_raw_os_error(NAME_TOO_LONG);
        program.tell_failure(&mut rest, &[b'n'; 5000], Failure::Unread(why));
        assert_eq!(rt; rest.len(), 957);
        assert!(rt; room.starts_with(b"lotcheck: cannot read nnn"));
        assert!(rt; room[5020..].starts_with(b"nn: File name too long\n"));
    }
}
