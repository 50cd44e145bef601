//! The call that sends the newest arrival away.
#![tactic(auto)]

ghost use Rattle.std.specs.Prelude.{◌≡◌, leb};
ghost use Rattle.sets.specs.Lists.{any};
ghost use Rattle.threads.specs.View.{threads_of};
ghost use Rattle.state.specs.Fits.{Fits, FitsNet};
ghost use Rattle.withdraws.specs.Withdrawn.{Withdrawn};

use klaim::{Reason, Refusal};
use state::{Event, State};
use threads::Threads;

// Whether a thread stands on line r or on one behind it.
fn occupied(threads: &Threads, r: u8) -> bool
    ensures { result ≡ any (λ th. leb r th.line) (threads_of threads.now) }
{
    threads.as_slice().iter().any(|th| r <= th.line)
}

// The newest arrival withdrawn: the answer is its root's line number, or a refusal. Its lines are those from the root on. Only the
// counts go back: what a table holds behind its count is no part of a state.
pub fn withdraw(state: &mut State)
    requires { Fits state.old }
    ensures withdrawn { Withdrawn state.old state.new }
    ensures net { FitsNet state.old → FitsNet state.new }
{
    if state.arrivals.count == 0 {
        state.told = Err(Refusal::from(Reason::Newest));
        return;
    }
    let left = state.arrivals.count - 1;
    let root = state.arrivals.items[left].root;
    if occupied(&state.threads, root) {
        state.told = Err(Refusal::from(Reason::Occupied));
        return;
    }
    state.lines.truncate(usize::from(root));
    state.arrivals.truncate(left);
    state.told = Ok(Event::Withdrawn(root));
}
