//! Threads of an engine's state: their bindings, their policies, and the list of them.
#![tactic(auto)]

ghost use Rattle.std.specs.Prelude.{◌≡◌, ◌++◌, ◌+◌, ◌-◌, ◌<◌, ◌≤◌, length, get_or, set};
ghost use Rattle.std.proofs.Math.Option;
ghost use Rattle.std.proofs.Math.Option.{none, some};
ghost use Rattle.sets.specs.Lists.{splice};
ghost use Rattle.sets.specs.Bits.{has};
ghost use Rattle.klaim.specs.State.{home_policy, box_policy, settle as settle_in};
ghost use Rattle.klaim.specs.Engine.{value as value_of, to as to_line, under as under_of, permits as permits_of};
ghost use Rattle.tables.specs.View.{lines_of, net_view};
ghost use Rattle.threads.specs.View.{bindings_view, thread_view, threads_of, rebound};

use klaim::{Loc, Site, Var};
use std::array;
use tables::{Lines, Net, SITES, THREADS, Table, VARIABLES};

// "A site or none for each of 32 variables".
pub type Bindings = [Option<Site>; VARIABLES];

// A thread: its site, its policy, its line, its bindings.
#[derive(Clone, Copy)]
pub struct Thread {
    pub site: Site,
    pub policy: [u8; SITES],
    pub line: u8,
    pub bindings: Bindings,
}

// The list of threads.
pub type Threads = Table<Thread, THREADS>;

impl Thread {
    // The site that variable u is bound to, or 0.
    fn bound(&self, u: u8) -> u8
        ensures { result ≡ Option.get_or (get_or (thread_view self.now).bindings u none) 0 }
    {
        match self.bindings.get(usize::from(u)) {
            Some(Some(site)) => site.0,
            _ => 0,
        }
    }

    // The site that a target or a field stands for.
    #[tactic(auto, unfolding(klaim::specs::Engine::value))]
    pub fn value(&self, x: Loc) -> u8
        ensures { result ≡ value_of (thread_view self.now).site (thread_view self.now).bindings x }
    {
        match x {
            Loc::At(s) => s.0,
            Loc::Here => self.site.0,
            Loc::Use(u) => self.bound(u.0),
        }
    }

    // The thread with variable u bound to site s.
    pub fn bind(self, u: Var, s: u8) -> Thread
        ensures { thread_view result ≡ rebound (thread_view self) (set (thread_view self).bindings u.0 (some s)) }
    {
        let mut r = self;
        let place = usize::from(u.0);
        if place < VARIABLES {
            r.bindings[place] = Some(Site(s));
        }
        r
    }

    // The thread, come to line q.
    #[tactic(auto, unfolding(klaim::specs::Engine::to))]
    pub fn to(self, q: u8) -> Thread
        ensures { thread_view result ≡ to_line (thread_view self) q }
    {
        let mut r = self;
        r.line = q;
        r
    }

    // A thread at site l on line b, under sandbox k evaluated there.
    #[tactic(auto, unfolding(klaim::specs::Engine::under))]
    pub fn under(net: &Net, k: u8, l: u8, b: u8, bindings: Bindings) -> Thread
        requires { k < 32 }
        ensures { thread_view result ≡ under_of (net_view net.now) k l b (bindings_view bindings) }
    {
        Thread {
            site: Site(l),
            policy: box_policy(net, k, l),
            line: b,
            bindings,
        }
    }

    // Whether the right on site t is in the thread's policy and in the home policy of its site.
    pub fn permits(&self, net: &Net, t: u8, right: u8) -> bool
        requires { (self.now.site.0 < 32) × (t < 32) × (0 < right) }
        ensures { result ≡ permits_of (net_view net.now) (thread_view self.now) t right }
    {
        if has_right(self.policy[usize::from(t)], right) {
            return has_right(net.home(self.site.0, t), right);
        }
        false
    }
}

// Thread k goes on as th, and is taken out where it stands on `nil`.
pub fn settle(threads: &mut Threads, lines: &Lines, k: usize, th: Thread)
    requires { k < threads.old.count }
    ensures list { threads_of threads.new ≡ splice k (settle_in (lines_of lines.now) (thread_view th)) (threads_of threads.old) }
    ensures count { threads.new.count ≡ threads.old.count - 1 + length (settle_in (lines_of lines.now) (thread_view th)) }
{
    if lines.is_nil(th.line) {
        threads.remove(k);
    } else {
        threads.replace(k, th);
    }
}

// The list with a thread more, unless that stands on `nil`.
pub fn enter(threads: &mut Threads, lines: &Lines, th: Thread)
    requires { threads.old.count + length (settle_in (lines_of lines.now) (thread_view th)) ≤ 64 }
    ensures list { threads_of threads.new ≡ threads_of threads.old ++ settle_in (lines_of lines.now) (thread_view th) }
    ensures count { threads.new.count ≡ threads.old.count + length (settle_in (lines_of lines.now) (thread_view th)) }
{
    if !lines.is_nil(th.line) {
        threads.push(th);
    }
}

// The home policy of site s.
pub fn home_policy(net: &Net, s: u8) -> [u8; SITES]
    requires { s < 32 }
    ensures { result ≡ home_policy (net_view net.now) s }
{
    array::from_fn(|t| net.home(s, t as u8))
}

// Sandbox k, evaluated at site l.
fn box_policy(net: &Net, k: u8, l: u8) -> [u8; SITES]
    requires { k < 32 }
    ensures { result ≡ box_policy (net_view net.now) k l }
{
    array::from_fn(|t| flow::box_at(net, k, l, t as u8))
}

// Whether a set has a right.
#[tactic(auto, unfolding(sets::specs::Bits::has))]
fn has_right(rights: u8, right: u8) -> bool
    requires { 0 < right }
    ensures { result ≡ has rights right }
{
    rights / right % 2 == 1
}
