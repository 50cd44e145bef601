//! The commands of an engine script, as they come.
#![tactic(auto)]

ghost use Rattle.std.specs.Prelude.{◌≡◌, None, ◌<◌, ◌≤◌};
ghost use Rattle.commands.specs.Asked.{Stops};

use script_rows::{Find, Incoming, Window};
use std::io;
use std::io::Read;

// The most bytes of a command row.
pub const ROW_LIMIT: usize = 1048576;

// The most bytes of an arrival's rows.
pub const ARRIVAL_LIMIT: usize = 65536;

// What a step is to be made of: the thread, the tuple that it takes or reads, and the root of the arrival that it accepts.
#[derive(Clone, Copy, PartialEq, Eq)]
pub struct Choice {
    pub thread: usize,
    pub tuple: usize,
    pub root: usize,
}

// What a row of an engine script commands.
#[derive(Clone, Copy, PartialEq, Eq)]
pub enum Command {
    Step(Choice),
    Guarded(Choice),
    Door {
        root: usize,
        site: usize,
        sandbox: usize,
    },
    Ready,
    Bring,
    Withdraw,
    // A `bring` whose rows are more than the limit.
    Overlong,
    // A row that is no command.
    Bad,
}

// A command of three numbers, by its name.
fn named(name: &[u8], a: usize, b: usize, c: usize) -> Command {
    let choice = Choice {
        thread: a,
        tuple: b,
        root: c,
    };
    match name {
        b"step" => Command::Step(choice),
        b"guarded" => Command::Guarded(choice),
        b"door" => Command::Door {
            root: a,
            site: b,
            sandbox: c,
        },
        _ => Command::Bad,
    }
}

// A command of four fields, a name and three numbers; none, where a row has other fields.
fn with_numbers(row: &[u8]) -> Option<Command> {
    let mut fields = row.split(|b| *b == b',');
    let name = fields.next()?;
    let a = text::decimal(fields.next()?)?;
    let b = text::decimal(fields.next()?)?;
    let c = text::decimal(fields.next()?)?;
    match fields.next() {
        Some(_) => None,
        None => Some(named(name, a, b, c)),
    }
}

// What a row commands.
fn read(row: &[u8]) -> Command {
    match row {
        b"bring" => Command::Bring,
        b"ready" => Command::Ready,
        b"withdraw" => Command::Withdraw,
        _ => with_numbers(row).unwrap_or(Command::Bad),
    }
}

// The command at the end of the input, none where nothing is left of it: bytes that no 0A ends are no row.
fn at_end(w: Window) -> Option<Command> {
    if w.from == w.row {
        return None;
    }
    Some(Command::Bad)
}

// The command of a row that is there. Longer than the limit is none.
fn of_row(row: &[u8]) -> Command {
    if ROW_LIMIT < row.len() {
        return Command::Bad;
    }
    read(row)
}

// A command, or none at the end of the input, unless a read failed.
fn unless_failed(w: Window, command: Option<Command>) -> io::Result<Option<Command>>
    requires { command ≡ None → w.found ≡ Find.End }
    ensures { Stops w result }
{
    match w.found {
        Find::Failed(why) => Err(why),
        _ => Ok(command),
    }
}

// The command of what was found.
fn of_found<R: Read>(incoming: &Incoming<'_, R>) -> io::Result<Option<Command>>
    requires { incoming.now.window.found ≡ Find.Row → incoming.now.window.row < incoming.now.window.next }
    ensures { Stops incoming.now.window result }
{
    let command = match incoming.window.found {
        Find::Row => Some(of_row(incoming.row())),
        Find::End => at_end(incoming.window),
        _ => Some(Command::Bad),
    };
    unless_failed(incoming.window, command)
}

// A `bring` behind its rows: those that stand from `from` to `row`.
fn brought(w: Window) -> io::Result<Option<Command>>
    requires { w.from ≤ w.row }
    ensures { Stops w result }
{
    if ARRIVAL_LIMIT < w.row - w.from {
        return unless_failed(w, Some(Command::Overlong));
    }
    unless_failed(w, Some(Command::Bring))
}

// A `bring` with its rows, up to the next row `.` or the end of the input.
fn with_rows<R: Read>(incoming: &mut Incoming<'_, R>) -> io::Result<Option<Command>>
    ensures { Stops incoming.new.window result }
{
    incoming.pass();
    incoming.dot();
    let Find::Full = incoming.window.found else {
        return brought(incoming.window);
    };
    incoming.dot_alone();
    unless_failed(incoming.window, Some(Command::Overlong))
}

// What the input asks next, none at its end; the rows of a `bring` are those that are kept in front of the row `.`.
pub fn next<R: Read>(incoming: &mut Incoming<'_, R>) -> io::Result<Option<Command>>
    ensures { Stops incoming.new.window result }
{
    incoming.row_alone();
    let asked = of_found(incoming);
    if let Ok(Some(Command::Bring)) = asked {
        return with_rows(incoming);
    }
    asked
}
