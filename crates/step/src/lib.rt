//! The bare and the guarded step of the engine.
#![tactic(auto)]

ghost use Rattle.std.specs.Prelude.{◌≡◌, List, ◌++◌, ℕ, ◌+◌, ◌-◌, ◌<◌, ◌≤◌, length};
ghost use Rattle.klaim.specs.Engine.{permits as permits_of};
ghost use Rattle.klaim.specs.State.{settle as settle_in};
ghost use Rattle.tables.specs.View.{lines_of, tuples_of, net_view};
ghost use Rattle.threads.specs.View.{thread_view, threads_of};
ghost use Rattle.state.specs.View.{state_view, event_view, gone_on};
ghost use Rattle.state.specs.Fits.{Fits, FitsNet};
ghost use Rattle.state.specs.Table.{TableAfter};
ghost use Rattle.plan.specs.Move.{IsUse, IsChange, added_after, tuples_after, state_after};
ghost use Rattle.step.specs.Stepped.{event_of, may as may_of, room, Decided, Movable, Performed, Stepped};

use klaim::{Reason, Refusal};
use plan::{Change, Move, Use};
use state::{Event, State};
use tables::{Lines, Net, Tuples};
use threads::{Thread, Threads};

// Whether the right on site t, any number, is in the thread's policy and in the home policy of its site.
fn permitted(net: &Net, th: Thread, t: u8, right: u8) -> bool
    requires { (th.site.0 < 32) × (0 < right) }
    ensures { result ≡ permits_of (net_view net.now) (thread_view th) t right }
{
    if usize::from(t) < tables::SITES {
        return th.permits(net, t, right);
    }
    false
}

// Whether a step of the thread has the right that it uses: one is asked of a guarded step that uses one.
fn may(guarded: bool, net: &Net, th: Thread, uses: Option<Use>) -> bool
    requires { (th.site.0 < 32) × IsUse uses }
    ensures { result ≡ may_of guarded (net_view net.now) (thread_view th) uses }
{
    match uses {
        None => true,
        Some(used) => {
            if guarded {
                permitted(net, th, used.target, used.right)
            } else {
                true
            }
        }
    }
}

// How many threads enter a list with thread th: none where it stands on `nil`.
fn entering(lines: &Lines, th: Thread) -> usize
    ensures { (result ≤ 1) × (result ≡ length (settle_in (lines_of lines.now) (thread_view th))) }
{
    if lines.is_nil(th.line) { 0 } else { 1 }
}

// How many threads there are behind a move of one of them.
fn threads_behind(state: &State, v: &Move) -> usize
    requires { 0 < state.now.threads.count }
    ensures { result ≡ state.now.threads.count - 1 + length (settle_in (state_view state.now).lines (thread_view v.now.thread)) + length (added_after (state_view state.now).lines v.now.added) }
{
    let left = state.threads.count - 1 + entering(&state.lines, v.thread);
    match v.added {
        Some(th) => left + entering(&state.lines, th),
        None => left,
    }
}

// How many of n tuples there are behind a change.
fn tuples_behind(n: usize, change: Change) -> usize
    requires { (n ≤ 256) × (change ≡ Change.Taken → 0 < n) }
    ensures { (m : ℕ) (ts : List (List ℕ)) → length ts ≡ n → IsChange m n change → result ≡ length (tuples_after ts m change) }
{
    match change {
        Change::Kept => n,
        Change::Appended(_) => n + 1,
        Change::Taken => n - 1,
    }
}

// Whether the lists stay within their limits behind a move.
fn has_room(state: &State, v: &Move) -> bool
    requires { Fits state.now × (0 < state.now.threads.count) × (v.now.change ≡ Change.Taken → 0 < state.now.tuples.count) }
    ensures { (k m : ℕ) → k < state.now.threads.count → IsChange m state.now.tuples.count v.now.change → result ≡ room (state_after (state_view state.now) k m v.now) }
{
    if threads_behind(state, v) <= tables::THREADS {
        return tuples_behind(state.tuples.count, v.change) <= tables::TUPLES;
    }
    false
}

// What a step of thread k comes to by all its tests.
fn decide(state: &State, guarded: bool, k: usize, m: usize, r: usize) -> Result<Move, Reason>
    requires { Fits state.now }
    ensures { Decided guarded state.now k m r result }
{
    if state.threads.count <= k {
        return Err(Reason::Thread);
    }
    let th = state.threads.items[k];
    let v = plan::plan(state, th, m, r)?;
    if !may(guarded, &state.net, th, v.uses) {
        return Err(Reason::Right);
    }
    if !has_room(state, &v) {
        return Err(Reason::Room);
    }
    Ok(v)
}

// What a step of a thread at a site answers, by what it uses.
fn event(site: u8, uses: Option<Use>) -> Event
    ensures { event_view result ≡ event_of site uses }
{
    match uses {
        None => Event::Silent,
        Some(used) => Event::Performed {
            site,
            target: used.target,
            right: used.right,
        },
    }
}

// The list with the thread that is added, if there is one.
fn add(threads: &mut Threads, lines: &Lines, added: Option<Thread>)
    requires { threads.old.count + length (added_after (lines_of lines.now) added) ≤ 64 }
    ensures list { threads_of threads.new ≡ threads_of threads.old ++ added_after (lines_of lines.now) added }
    ensures count { threads.new.count ≡ threads.old.count + length (added_after (lines_of lines.now) added) }
{
    if let Some(th) = added {
        threads::enter(threads, lines, th);
    }
}

// The tuples behind a change.
fn change_tuples(tuples: &mut Tuples, m: usize, change: Change)
    requires { IsChange m tuples.old.count change × (length (tuples_after (tuples_of tuples.old) m change) ≤ 256) }
    ensures list { tuples_of tuples.new ≡ tuples_after (tuples_of tuples.old) m change }
    ensures table { TableAfter tuples.old m tuples.new }
{
    match change {
        Change::Kept => {}
        Change::Appended(tuple) => tuples.push(tuple),
        Change::Taken => tuples.remove(m),
    }
}

// The state behind a move of thread k.
fn perform(state: &mut State, k: usize, m: usize, v: Move)
    requires { Fits state.old × Movable state.old k m v }
    ensures performed { Performed state.old k m v state.new }
    ensures table { TableAfter state.old.tuples m state.new.tuples }
{
    let site = state.threads.items[k].site.0;
    threads::settle(&mut state.threads, &state.lines, k, v.thread);
    add(&mut state.threads, &state.lines, v.added);
    change_tuples(&mut state.tuples, m, v.change);
    state.told = Ok(event(site, v.uses));
}

// Step(k, m, r), guarded or bare: of the state it changes the tuples, the threads, and what it answers. Guarded, it needs the right in
// the thread's policy and in the home policy of its site.
pub fn step(state: &mut State, guarded: bool, k: usize, m: usize, r: usize)
    requires { Fits state.old }
    ensures stepped { Stepped guarded state.old k m r state.new }
    ensures net { FitsNet state.old → FitsNet state.new }
    ensures kept { state.new ≡ gone_on state.old state.new.tuples state.new.threads state.new.told }
    ensures table { TableAfter state.old.tuples m state.new.tuples }
{
    match decide(state, guarded, k, m, r) {
        Ok(v) => perform(state, k, m, v),
        Err(why) => state.told = Err(Refusal::from(why)),
    }
}
