//! Reach and use map: what a process may touch, by the estimate.
#![tactic(auto)]

ghost use Rattle.std.specs.Prelude.{◌≡◌, ◌<◌, get_or};
ghost use Rattle.sets.specs.Lists.{table};
ghost use Rattle.sets.specs.Bits.{accept_bit, mem, sites, join, grant, joins};
ghost use Rattle.klaim.specs.Process.{tree};
ghost use Rattle.klaim.specs.Net.{box_at};
ghost use Rattle.klaim.specs.Analysis.{reach as reach_of};
ghost use Rattle.klaim.specs.Report.{sure, uses};
ghost use Rattle.tables.specs.Low.{LowLoc};
ghost use Rattle.tables.specs.View.{lines_of, net_view, estimate_view, InForm};
ghost use Rattle.flow.specs.Part.{part_of};

use klaim::Loc;
use std::array;
use tables::{Action, Estimate, Lines, Net, SITES};

// The reach of a target or field, `places` being the place set: the sites that it may stand for.
#[tactic(auto, unfolding(klaim::specs::Analysis::reach))]
pub fn reach(x: Loc, places: u32, estimate: &Estimate) -> u32
    requires { LowLoc x }
    ensures { result ≡ reach_of (estimate_view estimate.now) places x }
{
    match x {
        Loc::At(s) => sets::single(s.0),
        Loc::Here => places,
        Loc::Use(u) => estimate.may(u.0),
    }
}

// Sandbox k evaluated at site l, towards t.
pub fn box_at(net: &Net, k: u8, l: u8, t: u8) -> u8
    requires { (k < 32) × (t < 32) }
    ensures { result ≡ box_at (net_view net.now) k l t }
{
    if t == l {
        return net.sandbox(k, t) & net.sandbox_self(k);
    }
    net.sandbox(k, t)
}

// What sandbox k gives on site t, evaluated at any of the places: only where t is the one place does `self` count.
fn box_over(net: &Net, k: u8, places: u32, t: u8) -> u8
    requires { (k < 32) × (t < 32) }
    ensures { result ≡ joins (λ l. box_at (net_view net.now) k l t) (sites places) }
{
    if places == 0 {
        return 0;
    }
    if places == sets::single(t) {
        return box_at(net, k, t, t);
    }
    net.sandbox(k, t)
}

// The rights towards t that sandbox k has evaluated at every site of a reach: `self` counts where t is one of them.
pub fn box_sure(net: &Net, k: u8, set: u32, t: u8) -> u8
    requires { (k < 32) × (t < 32) }
    ensures { result ≡ sure (net_view net.now) k set t }
{
    if set == 0 {
        return UseMap::EVERY;
    }
    if sets::has_site(set, t) {
        return box_at(net, k, t, t) & UseMap::EVERY;
    }
    net.sandbox(k, t) & UseMap::EVERY
}

// Use map: rights for each site.
#[derive(Clone, Copy)]
pub struct UseMap {
    pub rights: [u8; SITES],
}

impl UseMap {
    pub const SITES: usize = tables::SITES;

    pub const OUT: u8 = 1;

    pub const IN: u8 = 2;

    pub const READ: u8 = 4;

    pub const EVAL: u8 = 8;

    pub const ACCEPT: u8 = 16;

    pub const EVERY: u8 = sets::EVERY;

    // The empty use map: no right on any site.
    #[tactic(auto, unfolding(sets::specs::Lists::table, sets::specs::Lists::table_from))]
    pub fn empty() -> UseMap
        ensures { result.rights ≡ table 32 (λ s. 0) }
    {
        UseMap {
            rights: [0u8; UseMap::SITES],
        }
    }

    pub fn join(self, other: UseMap) -> UseMap
        ensures { result.rights ≡ table 32 (λ s. join (get_or self.rights s 0) (get_or other.rights s 0)) }
    {
        let rights = array::from_fn(|s| self.rights[s] | other.rights[s]);
        UseMap { rights }
    }

    // The right on each site of the set.
    fn over(right: u8, set: u32) -> UseMap
        ensures { result.rights ≡ table 32 (λ s. grant (mem s set) right) }
    {
        let rights = array::from_fn(|s| sets::granted(set, s as u8, right));
        UseMap { rights }
    }

    // What sandbox k gives, evaluated at any of the places.
    pub fn of_box(net: &Net, k: u8, places: u32) -> UseMap
        requires { k < 32 }
        ensures { result.rights ≡ table 32 (λ s. joins (λ l. box_at (net_view net.now) k l s) (sites places)) }
    {
        let rights = array::from_fn(|s| box_over(net, k, places, s as u8));
        UseMap { rights }
    }

    // With the right on each site of the target's reach.
    fn acting(self, right: u8, target: Loc, places: u32, estimate: &Estimate) -> UseMap
        requires { LowLoc target }
        ensures { result.rights ≡ table 32 (λ s. join (get_or self.rights s 0) (grant (mem s (reach_of (estimate_view estimate.now) places target)) right)) }
    {
        let set = reach(target, places, estimate);
        self.join(UseMap::over(right, set))
    }

    // With right a on each place, and the sandbox evaluated at each place.
    fn taking(self, net: &Net, k: u8, places: u32) -> UseMap
        requires { k < 32 }
        ensures { result.rights ≡ table 32 (λ s. join (get_or self.rights s 0) (join (grant (mem s places) accept_bit) (joins (λ l. box_at (net_view net.now) k l s) (sites places)))) }
    {
        let own = UseMap::over(UseMap::ACCEPT, places);
        let given = own.join(UseMap::of_box(net, k, places));
        self.join(given)
    }
}

// What a line adds to a use map: the lines that follow, then a right on a target, or a sandbox. A type of its own, so that the four
// actions that use a right on a target have one arm in the walk.
#[derive(Clone, Copy)]
enum Part {
    Nothing,
    Both(u8, u8),
    Same(u8),
    Acts(u8, u8, Loc),
    Accepts(u8, u8),
}

// What the line's action adds.
#[tactic(auto, unfolding(crate::specs::Part::part_of))]
fn part_of(action: Action) -> Part
    ensures { result ≡ part_of action }
{
    match action {
        Action::Nil => Part::Nothing,
        Action::Par { next, second } => Part::Both(next, second),
        Action::Rep { next } => Part::Same(next),
        Action::Out { next, target, .. } => Part::Acts(next, UseMap::OUT, target),
        Action::In { next, target, .. } => Part::Acts(next, UseMap::IN, target),
        Action::Read { next, target, .. } => Part::Acts(next, UseMap::READ, target),
        Action::Eval { next, target, .. } => Part::Acts(next, UseMap::EVAL, target),
        Action::Accept { next, sandbox } => Part::Accepts(next, sandbox),
    }
}

// The use map of line q, `places` being its place set. Children have greater numbers: 256 less q falls.
pub fn use_map(net: &Net, estimate: &Estimate, lines: &Lines, places: u32, q: u8) -> UseMap
    requires { InForm lines.now q }
    ensures { result.rights ≡ table 32 (uses (net_view net.now) (estimate_view estimate.now) places (tree (lines_of lines.now) q)) }
{
    match part_of(lines.action(q)) {
        Part::Nothing => UseMap::empty(),
        Part::Both(next, second) => {
            let a = use_map(net, estimate, lines, places, next);
            let b = use_map(net, estimate, lines, places, second);
            a.join(b)
        }
        Part::Same(next) => use_map(net, estimate, lines, places, next),
        Part::Acts(next, right, target) => {
            let a = use_map(net, estimate, lines, places, next);
            a.acting(right, target, places, estimate)
        }
        Part::Accepts(next, sandbox) => {
            let a = use_map(net, estimate, lines, places, next);
            a.taking(net, sandbox, places)
        }
    }
}
