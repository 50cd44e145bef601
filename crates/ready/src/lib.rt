//! The door called by itself, and the lowest thread that can make a bare step.
#![tactic(auto)]

ghost use Rattle.std.specs.Prelude.{◌≡◌, Bool, ℕ, ◌<◌, ◌≤◌};
ghost use Rattle.sets.specs.Lists.{◌&◌, any};
ghost use Rattle.sets.specs.Options.{option_of};
ghost use Rattle.klaim.specs.Fields.{items};
ghost use Rattle.klaim.specs.Process.{line_at, tree};
ghost use Rattle.klaim.specs.Refusals.{answer_of};
ghost use Rattle.klaim.specs.Report.{door as door_of};
ghost use Rattle.klaim.specs.Engine.{agrees as agrees_of, door_alone, ready as ready_of};
ghost use Rattle.tables.specs.Entries.{entries};
ghost use Rattle.tables.specs.View.{lines_of};
ghost use Rattle.threads.specs.View.{thread_view};
ghost use Rattle.plan.specs.Move.{Admits, SoundAt, Plannable};
ghost use Rattle.state.specs.View.{arrival_root, state_view};
ghost use Rattle.state.specs.Fits.{Fits};
ghost use Rattle.ready.specs.Runs.{standing, room as room_of, welcome, runs as runs_of};

use klaim::{Fields, Loc, Reason, Refusal, Slot};
use state::State;
use tables::{Action, Lines};
use threads::Thread;

// How many threads stand on line q when one has come to it: none on `nil`.
fn stands(lines: &Lines, q: u8) -> usize
    ensures { (result ≤ 1) × (result ≡ standing (lines_of lines.now) q) }
{
    if lines.is_nil(q) { 0 } else { 1 }
}

// Whether the thread list stays within its limit where one of its threads comes to line a, and one is appended on line b.
fn has_room(state: &State, a: u8, b: u8) -> bool
    ensures { result ≡ room_of state.now.threads.count (state_view state.now).lines a b }
{
    let stay = stands(&state.lines, a);
    let come = stands(&state.lines, b);
    state.threads.count + stay + come <= tables::THREADS + 1
}

// Whether one of the tuples agrees with a template.
fn some_agrees(state: &State, th: &Thread, target: Loc, fields: &Fields<Slot>) -> bool
    ensures { result ≡ any (agrees_of (thread_view th.now) target (items fields.now)) (state_view state.now).tuples }
{
    state
        .tuples
        .as_slice()
        .iter()
        .any(|tuple| tuples::agrees(th, target, fields, tuple))
}

// Whether arrival i passes the door at the thread's site under sandbox d, and there is room for it where the thread comes to line a.
fn welcomes(state: &State, th: &Thread, a: u8, d: u8, i: usize) -> bool
    requires { Admits state.now × SoundAt state.now th.now.site.0 × (i < state.now.arrivals.count) × (th.now.site.0 < 32) × (d < 32) }
    ensures { result ≡ welcome (state_view state.now) (thread_view th.now) a d (arrival_root state.now.arrivals i) }
{
    if has_room(state, a, state.arrivals.items[i].root) {
        return plan::admitted(state, i, th.site.0, d);
    }
    false
}

// Whether one of the arrivals does.
fn some_guest(state: &State, th: &Thread, a: u8, d: u8) -> bool
    requires { Admits state.now × SoundAt state.now th.now.site.0 × (th.now.site.0 < 32) × (d < 32) }
    ensures { result ≡ any (welcome (state_view state.now) (thread_view th.now) a d) (state_view state.now).arrivals }
{
    (0..state.arrivals.count).any(|i| welcomes(state, th, a, d, i))
}

// Whether thread th can make a bare step.
fn can_step(state: &State, th: &Thread) -> bool
    requires { Plannable state.now th.now × SoundAt state.now th.now.site.0 }
    ensures { result ≡ runs_of (state_view state.now) (thread_view th.now) (line_at (state_view state.now).lines th.now.line) }
{
    match state.lines.action(th.line) {
        Action::Nil => false,
        Action::Par { next, second: more }
        | Action::Eval {
            next,
            body: more,
            ..
        } => has_room(state, next, more),
        Action::Rep { next } => has_room(state, th.line, next),
        Action::Out { .. } => state.tuples.count < tables::TUPLES,
        Action::In { target, fields, .. } | Action::Read { target, fields, .. } => {
            some_agrees(state, th, target, &fields)
        }
        Action::Accept { next, sandbox } => some_guest(state, th, next, sandbox),
    }
}

// The lowest place of a thread of the state that can make a bare step; its threads are lent as one slice.
fn first(state: &State, threads: &[Thread]) -> Option<u8>
    requires { Fits state.now × (threads.now ≡ entries state.now.threads) }
    ensures { option_of (λ (k : ℕ). k) result ≡ ready_of (state_view state.now) }
{
    for k in 0..threads.len() {
        if can_step(state, &threads[k]) {
            return Some(k as u8);
        }
    }
    None
}

// The lowest place of a thread where some tuple and some arrival make a bare step perform.
pub fn ready(state: &State) -> Option<u8>
    requires { Fits state.now }
    ensures { option_of (λ (k : ℕ). k) result ≡ ready_of (state_view state.now) }
{
    first(state, state.threads.as_slice())
}

// The door called by itself: whether the arrival whose root is line r passes at site l under sandbox d. 24 for the root, then 4 for
// l, then 2 for a sandbox number over 31.
pub fn door(state: &State, r: usize, l: usize, d: usize) -> Result<bool, Refusal>
    requires { Fits state.now }
    ensures { answer_of (λ (b : Bool). b) result ≡ door_alone (state_view state.now) r l d }
{
    let Some(i) = plan::arrival_at(&state.arrivals, r) else {
        return Err(Refusal::from(Reason::Arrival));
    };
    if usize::from(state.net.size) <= l {
        return Err(Refusal::from(Reason::Site));
    }
    if tables::SANDBOXES <= d {
        return Err(Refusal::from(Reason::Limit));
    }
    Ok(plan::admitted(state, i, l as u8, d as u8))
}
