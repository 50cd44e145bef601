//! The rows that an engine script prints, each put together in a buffer and written to standard output as a whole.
#![tactic(auto)]

ghost use Rattle.std.specs.Prelude.{◌≡◌, [], ◌∷◌, ◌+◌, ◌<◌, ◌≤◌, length, min, take, codes, OnOk};
ghost use Rattle.std.specs.Io.KnownBytes.{Appends};
ghost use Rattle.klaim.specs.Listing.{letters};
ghost use Rattle.writer.specs.Wrote.{Wrote};
ghost use Rattle.answers.specs.Printed.{shown, count_row, refused_row, performed_row};
ghost use Rattle.sets.specs.Bits.{right_count};

use std::io;
use std::io::Write;

// A number of 32 bits; one that does not fit is as good as the largest. No row of a text of 1 MiB has such a number.
fn narrow(n: usize) -> u32
    ensures bound { result ≤ 4294967295 }
    ensures value { result ≡ min n 4294967295 }
{
    u32::try_from(n).unwrap_or(u32::MAX)
}

// A number in decimal. A format, `{n}`, could fail for want of room, and says nothing of what stays as it was.
pub fn put_count(out: &mut [u8], at: usize, n: usize) -> usize
    requires { at + 10 ≤ length out.old }
    ensures place { (at ≤ result) × (result ≤ at + 10) }
    ensures wrote { Wrote out.old out.new at (shown n) result }
{
    writer::put_number(out, at, narrow(n))
}

// The letters of a set of rights.
fn put_rights(out: &mut [u8], at: usize, rights: u8) -> usize
    requires { at + right_count ≤ length out.old }
    ensures place { (at ≤ result) × (result ≤ at + right_count) }
    ensures wrote { Wrote out.old out.new at (letters rights) result }
{
    writer::put_letters(out, at, rights)
}

// A text as it stands.
pub fn say<W: Write>(output: &mut W, text: &[u8]) -> io::Result<()>
    ensures { OnOk result (Appends (W.contents output.old) (W.contents output.new) text.now) }
{
    streams::write(output, text)
}

// The first n bytes of a buffer.
pub fn say_first<W: Write>(output: &mut W, out: &[u8], n: usize) -> io::Result<()>
    requires { n ≤ length out.now }
    ensures { OnOk result (Appends (W.contents output.old) (W.contents output.new) (take n out.now)) }
{
    streams::write(output, &out[..n])
}

// A row that is put together: its bytes up to `end` are there.
#[derive(Clone, Copy)]
pub struct Row<const N: usize> {
    bytes: [u8; N],
    end: usize,
    pub ghost within: { end ≤ N },
}

impl<const N: usize> Row<N> {
    ghost use Rattle.answers.specs.Made.{made, Adds};

    pub fn new() -> Self
        ensures empty { made result ≡ [] }
        ensures start { result.end ≡ 0 }
    {
        Row {
            bytes: [0; N],
            end: 0,
        }
    }

    // How many bytes are there.
    pub fn len(&self) -> usize
        ensures { result ≡ self.now.end }
    {
        self.end
    }

    // A byte.
    pub fn byte(&mut self, byte: u8)
        requires { self.old.end + 1 ≤ N }
        ensures { Adds self.old self.new (byte ∷ []) }
    {
        self.end = writer::put_byte(&mut self.bytes, self.end, byte);
    }

    // A text.
    pub fn text(&mut self, text: &[u8])
        requires { self.old.end + length text.now ≤ N }
        ensures { Adds self.old self.new text.now }
    {
        self.end = writer::put_text(&mut self.bytes, self.end, text);
    }

    // A number in decimal.
    pub fn count(&mut self, n: usize)
        requires { self.old.end + 10 ≤ N }
        ensures short { self.new.end ≤ self.old.end + 10 }
        ensures adds { Adds self.old self.new (shown n) }
    {
        self.end = put_count(&mut self.bytes, self.end, n);
    }

    // The letters of a set of rights.
    fn rights(&mut self, rights: u8)
        requires { self.old.end + right_count ≤ N }
        ensures short { self.new.end ≤ self.old.end + right_count }
        ensures adds { Adds self.old self.new (letters rights) }
    {
        self.end = put_rights(&mut self.bytes, self.end, rights);
    }

    // Prints the row.
    pub fn say<W: Write>(&self, output: &mut W) -> io::Result<()>
        ensures { OnOk result (Appends (W.contents output.old) (W.contents output.new) (made self.now)) }
    {
        say_first(output, &self.bytes, self.end)
    }
}

// A word with its comma, and a number.
pub fn say_count<W: Write>(output: &mut W, word: &[u8], n: usize) -> io::Result<()>
    requires { length word.now ≤ 16 }
    ensures { OnOk result (Appends (W.contents output.old) (W.contents output.new) (count_row word.now n)) }
{
    let mut row = Row::<32>::new();
    row.text(word);
    row.count(n);
    row.byte(b'\n');
    row.say(output)
}

// `refused`, the number, and the row.
pub fn say_refused<W: Write>(output: &mut W, number: u8, line: usize) -> io::Result<()>
    ensures { OnOk result (Appends (W.contents output.old) (W.contents output.new) (refused_row number line)) }
{
    let mut row = Row::<32>::new();
    row.text(b"refused,");
    row.count(usize::from(number));
    row.byte(b',');
    row.count(line);
    row.byte(b'\n');
    row.say(output)
}

// `performed`, the site of the thread, the target, and the right.
pub fn say_performed<W: Write>(output: &mut W, site: u8, target: u8, right: u8) -> io::Result<()>
    ensures { OnOk result (Appends (W.contents output.old) (W.contents output.new) (performed_row site target right)) }
{
    let mut row = Row::<48>::new();
    row.text(b"performed,s");
    row.count(usize::from(site));
    row.text(b",s");
    row.count(usize::from(target));
    row.byte(b',');
    row.rights(right);
    row.byte(b'\n');
    row.say(output)
}

// The row of a broken frame.
pub fn say_broken<W: Write>(output: &mut W) -> io::Result<()>
    ensures { OnOk result (Appends (W.contents output.old) (W.contents output.new) (codes "bad frame\n")) }
{
    say(output, b"bad frame\n")
}
