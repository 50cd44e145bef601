//! The rows of an input that comes in pieces: a buffer holds what has come and is not done with, a window says where it stands.
#![tactic(auto)]

ghost use Rattle.std.specs.Prelude.{◌≡◌, true, false, not, ◌+◌, ◌<◌, ◌-◌, ◌≤◌, length, take, slice_range, IfOk};
ghost use Rattle.klaim.specs.Rows.{newline};
ghost use Rattle.text.specs.Pieces.{end_of};
ghost use Rattle.script_rows.specs.Window.{Within, Found, Alone, dot_row, Dotted, LongRow, Seeks, Turned, Roomy, Given, Read};

use std::io;
use std::io::Read;

// What was found of the row that was asked for.
#[derive(Clone, Copy)]
pub enum Find {
    // It is there, with its 0A.
    Row,
    // The input ended before a 0A: what is left of it stands from `from` to `row`.
    End,
    // What is kept, from `from` on, fills the buffer, and no 0A has come.
    Full,
    // It did not fit into the buffer, and was passed over.
    Long,
    // A read failed.
    Failed(io::Error),
    // No 0A has come yet; more may come.
    More,
}

// The bytes of the input from `from` to `to` are in the buffer; those before are done with. The row that was asked for begins
// at `row` and ends at `next`, its 0A included. While its end is looked for, `next` says how far.
#[derive(Clone, Copy)]
pub struct Window {
    // Whether more may come from the input.
    pub more: bool,
    pub found: Find,
    pub from: usize,
    pub row: usize,
    pub next: usize,
    pub to: usize,
}

impl Window {
    // An input of which nothing has come yet.
    pub fn fresh() -> Window
        ensures places { (result.from ≡ 0) × (result.row ≡ 0) × (result.next ≡ 0) × (result.to ≡ 0) }
        ensures more { result.more ≡ true }
    {
        Window {
            more: true,
            ..Window::whole(0)
        }
    }

    // An input of n bytes that is in the buffer as a whole.
    pub fn whole(n: usize) -> Window
        ensures places { (result.from ≡ 0) × (result.row ≡ 0) × (result.next ≡ 0) × (result.to ≡ n) }
        ensures more { result.more ≡ false }
    {
        Window {
            more: false,
            found: Find::Row,
            from: 0,
            row: 0,
            next: 0,
            to: n,
        }
    }

    // The window from the next row on: what stands before is done with.
    pub fn passed(self) -> Window
        ensures { (result.from ≡ self.next) × (result.row ≡ self.next) × (result.next ≡ self.next) × (result.to ≡ self.to) × (result.more ≡ self.more) }
    {
        Window {
            from: self.next,
            row: self.next,
            ..self
        }
    }

    // The window at the end of the input.
    fn at_end(self) -> Window
        ensures { (result.found ≡ Find.End) × (result.from ≡ self.from) × (result.row ≡ self.to) × (result.next ≡ self.to) × (result.to ≡ self.to) }
    {
        Window {
            more: false,
            found: Find::End,
            row: self.to,
            next: self.to,
            ..self
        }
    }

    // The window with something else found.
    fn with(self, found: Find) -> Window
        ensures { (result.found ≡ found) × (result.from ≡ self.from) × (result.row ≡ self.row) × (result.next ≡ self.next) × (result.to ≡ self.to) × (result.more ≡ self.more) }
    {
        Window { found, ..self }
    }

    // The window with the row found that ends at `end`.
    fn ended(self, end: usize) -> Window
        requires { end < self.to }
        ensures { (result.found ≡ Find.Row) × (result.from ≡ self.from) × (result.row ≡ self.row) × (result.next ≡ end + 1) × (result.to ≡ self.to) × (result.more ≡ self.more) }
    {
        Window {
            found: Find::Row,
            next: end + 1,
            ..self
        }
    }

    // The window with n bytes more, and the end of the row to be looked for in them.
    fn extended(self, n: usize) -> Window
        requires { self.to + n ≤ usize.MAX }
        ensures { (result.found ≡ Find.More) × (result.from ≡ self.from) × (result.row ≡ self.row) × (result.next ≡ self.next) × (result.to ≡ self.to + n) × (result.more ≡ self.more) }
    {
        Window {
            found: Find::More,
            to: self.to + n,
            ..self
        }
    }

    // The window behind a read.
    fn behind(self, read: io::Result<usize>) -> Window
        requires { IfOk read (λ n. self.to + n ≤ usize.MAX) }
        ensures { Given self read result }
    {
        match read {
            Ok(0) => self.at_end(),
            Ok(n) => self.extended(n),
            Err(why) => self.with(Find::Failed(why)),
        }
    }

    // The window behind a row that was passed over, unless a read failed there.
    fn long_row(self) -> Window
        ensures { LongRow self result }
    {
        match self.found {
            Find::Failed(_) => self,
            _ => self.with(Find::Long),
        }
    }
}

// The rows of an input, the buffer that they come into, and where it stands.
#[derive(Drop)]
pub struct Incoming<'a, R> {
    input: &'a mut R,
    buf: &'a mut [u8],
    pub window: Window,
    pub ghost within: { Within window buf.now },
}

impl<'a, R: Read> Incoming<'a, R> {
    // An input of which nothing has come yet.
    pub fn fresh(input: &'a mut R, buf: &'a mut [u8]) -> Incoming<'a, R>
        ensures places { (result.window.from ≡ 0) × (result.window.row ≡ 0) × (result.window.next ≡ 0) × (result.window.to ≡ 0) }
        ensures more { result.window.more ≡ true }
        ensures kept { result.buf.now ≡ buf.old }
    {
        Incoming {
            input,
            buf,
            window: Window::fresh(),
        }
    }

    // An input that is in the buffer as a whole: nothing is read.
    pub fn whole(input: &'a mut R, buf: &'a mut [u8]) -> Incoming<'a, R>
        ensures places { (result.window.from ≡ 0) × (result.window.row ≡ 0) × (result.window.next ≡ 0) × (result.window.to ≡ length buf.old) }
        ensures more { result.window.more ≡ false }
        ensures kept { result.buf.now ≡ buf.old }
    {
        let n = buf.len();
        Incoming {
            input,
            buf,
            window: Window::whole(n),
        }
    }

    // What is kept in front of the row that was asked for.
    pub fn kept(&self) -> &[u8]
        ensures { result.now ≡ slice_range self.now.buf.now self.now.window.from self.now.window.row }
    {
        &self.buf[self.window.from..self.window.row]
    }

    // What is kept, with the row that was found.
    pub fn head(&self) -> &[u8]
        ensures { result.now ≡ slice_range self.now.buf.now self.now.window.from self.now.window.next }
    {
        &self.buf[self.window.from..self.window.next]
    }

    // The row that was found, without its 0A.
    pub fn row(&self) -> &[u8]
        requires { self.now.window.row < self.now.window.next }
        ensures { result.now ≡ slice_range self.now.buf.now self.now.window.row (self.now.window.next - 1) }
    {
        &self.buf[self.window.row..self.window.next - 1]
    }

    // Goes on to the next row: what stands before is done with.
    pub fn pass(&mut self)
        ensures window { (self.new.window.from ≡ self.old.window.next) × (self.new.window.row ≡ self.old.window.next) × (self.new.window.next ≡ self.old.window.next) × (self.new.window.to ≡ self.old.window.to) × (self.new.window.more ≡ self.old.window.more) }
        ensures kept { self.new.buf.now ≡ self.old.buf.now }
    {
        self.window = self.window.passed();
    }

    // Makes room behind what is kept, unless that fills the buffer.
    fn make_room(&mut self)
        ensures { Roomy self.old.window self.old.buf.now self.new.window self.new.buf.now }
    {
        let w = self.window;
        if w.to < self.buf.len() {
            return;
        }
        if w.from == 0 {
            return;
        }
        self.buf.copy_within(w.from..w.to, 0);
        self.window = Window {
            from: 0,
            row: w.row - w.from,
            next: w.next - w.from,
            to: w.to - w.from,
            ..w
        };
    }

    // Reads more behind what is there.
    fn read_more(&mut self)
        ensures { Read self.old.window self.old.buf.now self.new.window self.new.buf.now }
    {
        let to = self.window.to;
        if to == self.buf.len() {
            self.window = self.window.with(Find::Full);
            return;
        }
        let read = streams::read(self.input, &mut self.buf[to..]);
        self.window = self.window.behind(read);
    }

    // Reads more, all that is there having been looked at.
    fn look_further(&mut self)
        requires { Seeks self.old.window self.old.buf.now × (self.old.window.next ≡ self.old.window.to) }
        ensures { Turned self.old.window self.old.buf.now self.new.window self.new.buf.now }
    {
        if !self.window.more {
            self.window = self.window.at_end();
            return;
        }
        self.make_room();
        self.read_more();
    }

    // Where the row ends in what is there, looked for from `next` on; where all that is there ends, if it does not.
    fn row_end(&self) -> usize
        ensures { result ≡ end_of newline (take self.now.window.to self.now.buf.now) self.now.window.next }
    {
        let w = self.window;
        text::row_end(&self.buf[..w.to], w.next)
    }

    // Looks for the end of the row in what is there and was not looked at; reads more, where it is not there.
    fn look_on(&mut self)
        requires { Seeks self.old.window self.old.buf.now }
        ensures { Turned self.old.window self.old.buf.now self.new.window self.new.buf.now }
    {
        let w = self.window;
        let end = self.row_end();
        if end < w.to {
            self.window = w.ended(end);
            return;
        }
        self.window = Window { next: w.to, ..w };
        self.look_further();
    }

    // The next row. What stands from `from` on is kept.
    pub fn next_row(&mut self)
        ensures { Found self.old.window.from self.old.window.next self.old.window.to self.old.window.more self.old.buf.now self.new.window self.new.buf.now }
    {
        let w = self.window;
        self.window = Window { row: w.next, ..w };
        // No index to count by: a turn ends with a row, or with why there is none.
        loop {
            self.look_on();
            let Find::More = self.window.found else {
                return;
            };
        }
    }

    // Passes over a row that fills the buffer, to its end.
    fn pass_over(&mut self)
        ensures { length self.new.buf.now ≡ length self.old.buf.now }
    {
        for _ in 0..u64::MAX {
            let Find::Full = self.window.found else {
                return;
            };
            self.window.next = self.window.to;
            self.pass();
            self.next_row();
        }
    }

    // The next row, kept alone. One that does not fit into the buffer is passed over.
    pub fn row_alone(&mut self)
        ensures alone { Alone self.old.window self.old.buf.now self.new.window self.new.buf.now }
        ensures long { length self.new.buf.now ≡ length self.old.buf.now }
    {
        self.pass();
        self.next_row();
        let Find::Full = self.window.found else {
            return;
        };
        self.pass_over();
        self.window = self.window.long_row();
    }

    // Whether the row that was found is `.`.
    fn is_dot(&self) -> bool
        ensures { result ≡ dot_row self.now.window self.now.buf.now }
    {
        let w = self.window;
        w.next - w.row == 2 && self.buf[w.row] == b'.'
    }

    // The next row `.`. The rows before it are kept.
    pub fn dot(&mut self)
        ensures dotted { Dotted self.old.window self.old.buf.now self.new.window self.new.buf.now }
        ensures long { length self.new.buf.now ≡ length self.old.buf.now }
    {
        // No index to count by, as in `next_row`.
        loop {
            self.next_row();
            let Find::Row = self.window.found else {
                return;
            };
            if self.is_dot() {
                return;
            }
        }
    }

    // Whether there is a row to pass over: one that is not `.`.
    fn is_other(&self) -> bool
        ensures { self.now.window.found ≡ Find.Row → result ≡ not (dot_row self.now.window self.now.buf.now) }
    {
        match self.window.found {
            Find::Row => !self.is_dot(),
            Find::Long => true,
            _ => false,
        }
    }

    // The next row `.`, where the rows before it do not fit into the buffer: they are passed over.
    pub fn dot_alone(&mut self)
        ensures { length self.new.buf.now ≡ length self.old.buf.now }
    {
        self.window = self.window.with(Find::Long);
        self.window.next = self.window.row;
        for _ in 0..u64::MAX {
            if !self.is_other() {
                return;
            }
            self.row_alone();
        }
    }
}
