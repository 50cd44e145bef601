//! How the engine begins, from the bytes of a net and an estimate.
#![tactic(auto)]

ghost use Rattle.std.specs.Prelude.{◌≡◌, [], ◌<◌};
ghost use Rattle.sets.specs.Lists.{concat};
ghost use Rattle.klaim.specs.Reader.{gives};
ghost use Rattle.klaim.specs.State.{settle, root_thread, begin as begin_of};
ghost use Rattle.klaim.specs.Engine.{silent};
ghost use Rattle.klaim.specs.Invariant.{Invariant};
ghost use Rattle.tables.specs.View.{net_view, lines_of, roots_of, root_view};
ghost use Rattle.threads.specs.View.{thread_view, threads_of};
ghost use Rattle.worlds.specs.World.{world_view};
ghost use Rattle.state.specs.View.{state_view, answer_view};
ghost use Rattle.state.specs.Fits.{FitsNet};
ghost use Rattle.starts.specs.Started.{Started, RootsPlaced};

use klaim::{Refusal, Site};
use state::{Arrival, Event, State};
use tables::{Net, Root, SITES, Table, VARIABLES};
use threads::{Thread, Threads};
use worlds::World;

// The thread of a root: under the home policy of its site, nothing bound.
fn root_thread(net: &Net, root: Root) -> Thread
    requires { root.site < 32 }
    ensures { thread_view result ≡ root_thread (net_view net.now) (root_view root) }
{
    Thread {
        site: Site(root.site),
        policy: threads::home_policy(net, root.site),
        line: root.line,
        bindings: [None; VARIABLES],
    }
}

// No threads.
fn no_threads() -> Threads
    ensures list { threads_of result ≡ [] }
    ensures count { result.count ≡ 0 }
{
    Table::empty(Thread {
        site: Site(0),
        policy: [0; SITES],
        line: 0,
        bindings: [None; VARIABLES],
    })
}

// The threads of the roots, in order. Not inlined: in a body that makes a state the list, and with it the state, would be copied once
// more.
#[inline(never)]
fn root_threads(net: &Net) -> Threads
    requires { RootsPlaced net.now.roots }
    ensures { threads_of result ≡ concat (λ x. settle (lines_of net.now.lines) (root_thread (net_view net.now) x)) (roots_of net.now.roots) }
{
    let mut threads = no_threads();
    for i in 0..net.roots.count {
        let thread = root_thread(net, net.roots.items[i]);
        threads::enter(&mut threads, &net.lines, thread);
    }
    threads
}

// The state that begins from a net and an estimate.
fn begin(w: World) -> State
    requires { RootsPlaced w.net.roots }
    ensures value { state_view result ≡ begin_of (world_view w) }
    ensures fits { Invariant (state_view result) → FitsNet result }
    ensures told { answer_view result.told ≡ gives silent }
{
    let threads = root_threads(&w.net);
    State {
        net: w.net,
        estimate: w.estimate,
        lines: w.net.lines,
        arrivals: Table::empty(Arrival { root: 0, sound: 0 }),
        tuples: w.net.tuples,
        threads,
        told: Ok(Event::Silent),
    }
}

// The engine's state from the bytes of a net and an estimate: one thread for each root, in order, and the tuples.
pub fn start(net: &[u8], estimate: &[u8]) -> Result<State, Refusal>
    ensures { Started net.now estimate.now result }
{
    let world = worlds::read_both(net, estimate)?;
    Ok(begin(world))
}
