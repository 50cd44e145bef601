//! An engine script, run as it comes: net, estimate and commands in, one row out for each command as soon as it is there, and
//! the state at the end.
#![tactic(auto)]

ghost use Rattle.std.specs.Prelude.{◌≡◌, false, IfOk};
ghost use Rattle.std.specs.declared.io.Error.{Error};
ghost use Rattle.script_rows.specs.Window.{HasFailed};
ghost use Rattle.state.specs.Fits.{Fits, FitsNet};
ghost use Rattle.step.specs.Stepped.{Stepped};
ghost use Rattle.scripts.specs.Obeyed.{Obeyed};

use commands::{Choice, Command};
use klaim::{Reason, Refusal};
use script_rows::{Find, Incoming};
use state::{Event, State};
use std::io;
use std::io::{Read, Write};
use streams::Failure;

// The most bytes of net, estimate and the rows `.` behind them.
const HEAD_LIMIT: usize = 1048576;

// A buffer that holds a byte more than the longest head and the longest command row, so that longer ones are seen to be longer.
pub const ROOM: usize = HEAD_LIMIT + 1;

// The row for a refusal.
fn say_refusal<W: Write>(output: &mut W, refusal: Refusal) -> io::Result<()> {
    answers::say_refused(output, refusal.why.number(), refusal.row)
}

// The row for what a bring, a withdrawal or a step did.
fn say_event<W: Write>(output: &mut W, event: Event) -> io::Result<()> {
    match event {
        Event::Brought(root) => answers::say_count(output, b"brought,", usize::from(root)),
        Event::Withdrawn(root) => answers::say_count(output, b"withdrawn,", usize::from(root)),
        Event::Silent => answers::say(output, b"silent\n"),
        Event::Performed {
            site,
            target,
            right,
        } => answers::say_performed(output, site, target, right),
    }
}

// The row for what a call on the state answered.
fn say_told<W: Write>(output: &mut W, told: Result<Event, Refusal>) -> io::Result<()> {
    match told {
        Ok(event) => say_event(output, event),
        Err(refusal) => say_refusal(output, refusal),
    }
}

// The row for the door's answer.
fn say_door<W: Write>(output: &mut W, answer: Result<bool, Refusal>) -> io::Result<()> {
    match answer {
        Ok(true) => answers::say(output, b"passes\n"),
        Ok(false) => answers::say(output, b"closed\n"),
        Err(refusal) => say_refusal(output, refusal),
    }
}

// The row for what is ready.
fn say_ready<W: Write>(output: &mut W, answer: Option<u8>) -> io::Result<()> {
    match answer {
        Some(k) => answers::say_count(output, b"ready,", usize::from(k)),
        None => answers::say(output, b"ready,none\n"),
    }
}

// A step, guarded or bare.
fn act(state: &mut State, guarded: bool, choice: Choice)
    requires { Fits state.old }
    ensures stepped { Stepped guarded state.old choice.thread choice.tuple choice.root state.new }
    ensures net { FitsNet state.old → FitsNet state.new }
{
    step::step(state, guarded, choice.thread, choice.tuple, choice.root);
}

// Does what a command says to the state; `rows` are those of a `bring`.
fn obey(state: &mut State, command: Command, rows: &[u8])
    requires { FitsNet state.old }
    ensures fits { FitsNet state.new }
    ensures obeyed { Obeyed command rows.now state.old state.new }
{
    match command {
        Command::Step(choice) => act(state, false, choice),
        Command::Guarded(choice) => act(state, true, choice),
        Command::Bring => brings::bring(state, rows),
        Command::Withdraw => withdraws::withdraw(state),
        Command::Door { .. } | Command::Ready | Command::Overlong | Command::Bad => {}
    }
}

// The row for a command, behind which the state is this one.
fn respond<W: Write>(output: &mut W, state: &State, command: Command) -> io::Result<()>
    requires { Fits state.now }
{
    match command {
        Command::Step(_) | Command::Guarded(_) | Command::Bring | Command::Withdraw => {
            say_told(output, state.told)
        }
        Command::Door {
            root,
            site,
            sandbox,
        } => say_door(output, ready::door(state, root, site, sandbox)),
        Command::Ready => say_ready(output, ready::ready(state)),
        Command::Overlong => say_refusal(output, Refusal::from(Reason::Limit)),
        Command::Bad => answers::say(output, b"bad command\n"),
    }
}

// Obeys the next command and prints its row; false, where the input has ended.
fn turn<R: Read, W: Write>(
    incoming: &mut Incoming<'_, R>,
    output: &mut W,
    state: &mut State,
) -> Result<bool, Failure>
    requires { FitsNet state.old }
    ensures fits { FitsNet state.new }
    ensures failed { (why : Error) → incoming.new.window.found ≡ Find.Failed why → result ≡ Err (Failure.Unread why) }
    ensures ended { result ≡ Ok false → incoming.new.window.found ≡ Find.End }
{
    let asked = commands::next(incoming).map_err(Failure::Unread)?;
    let Some(command) = asked else {
        return Ok(false);
    };
    obey(state, command, incoming.kept());
    respond(output, state, command).map_err(Failure::Unwritten)?;
    Ok(true)
}

// Runs the commands to the end of the input, and prints the state. They are counted, to a number that no run uses up.
fn run_all<R: Read, W: Write>(
    incoming: &mut Incoming<'_, R>,
    output: &mut W,
    begun: State,
) -> Result<(), Failure>
    requires fits { FitsNet begun }
    requires going { ¬ HasFailed incoming.old.window }
    ensures failed { (why : Error) → incoming.new.window.found ≡ Find.Failed why → result ≡ Err (Failure.Unread why) }
{
    let mut state = begun;
    for _ in 0..u64::MAX {
        if !turn(incoming, output, &mut state)? {
            break;
        }
    }
    dump::say_state(output, &state).map_err(Failure::Unwritten)
}

// Runs the commands on the state that begins, unless it was refused.
fn carry_on<R: Read, W: Write>(
    incoming: &mut Incoming<'_, R>,
    output: &mut W,
    begun: Result<State, Refusal>,
) -> Result<(), Failure>
    requires fits { IfOk begun FitsNet }
    requires going { ¬ HasFailed incoming.old.window }
    ensures failed { (why : Error) → incoming.new.window.found ≡ Find.Failed why → result ≡ Err (Failure.Unread why) }
{
    match begun {
        Ok(state) => {
            answers::say(output, b"started\n").map_err(Failure::Unwritten)?;
            run_all(incoming, output, state)
        }
        Err(refusal) => say_refusal(output, refusal).map_err(Failure::Unwritten),
    }
}

// The state that begins from a net, and an estimate up to a row `.`.
fn begin_behind(net: &[u8], rest: &[u8]) -> Result<State, Refusal>
    ensures { IfOk result FitsNet }
{
    let n = parts::before(rest);
    starts::start(net, &rest[..n])
}

// The state that begins from a head: net, a row `.`, estimate, a row `.`.
fn begin(head: &[u8]) -> Result<State, Refusal>
    ensures { IfOk result FitsNet }
{
    let n = parts::before(head);
    let from = parts::behind(head, n);
    begin_behind(&head[..n], &head[from..])
}

// Reads the head: up to the second row `.`, or all of the input.
fn read_head<R: Read>(incoming: &mut Incoming<'_, R>) {
    incoming.dot();
    if let Find::Row = incoming.window.found {
        incoming.dot();
    }
}

// Whether a head is longer than the limit.
fn is_long<R: Read>(incoming: &Incoming<'_, R>) -> bool {
    matches!(incoming.window.found, Find::Full) || HEAD_LIMIT < incoming.head().len()
}

// Runs a script: net rows, a row `.`, estimate rows, a row `.`, commands. A head longer than the limit is 2, row 0.
pub fn run<R: Read, W: Write>(incoming: &mut Incoming<'_, R>, output: &mut W) -> Result<(), Failure>
    ensures failed { (why : Error) → incoming.new.window.found ≡ Find.Failed why → result ≡ Err (Failure.Unread why) }
{
    read_head(incoming);
    if let Find::Failed(why) = incoming.window.found {
        return Err(Failure::Unread(why));
    }
    if is_long(incoming) {
        return say_refusal(output, Refusal::from(Reason::Limit)).map_err(Failure::Unwritten);
    }
    let begun = begin(incoming.head());
    carry_on(incoming, output, begun)
}
