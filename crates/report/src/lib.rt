//! The report, and whether a process adds nothing to one.
#![tactic(auto)]

ghost use Rattle.std.specs.Prelude.{◌≡◌, ◌<◌, ◌/◌, ◌%◌, eqb, get_or};
ghost use Rattle.sets.specs.Lists.{table, all, below};
ghost use Rattle.sets.specs.Bits.{mem, join, grant, less as without};
ghost use Rattle.klaim.specs.Process.{tree};
ghost use Rattle.klaim.specs.Net.{home};
ghost use Rattle.klaim.specs.Report.{sure, eval_adds, adds, adds_nothing, root_adds, hold_adds, report as report_of};
ghost use Rattle.tables.specs.View.{root_view, lines_of, net_view, estimate_view, InForm};
ghost use Rattle.report.specs.Evals.{evals_of, nowhere};
ghost use Rattle.report.specs.Given.{Rooted, RowAdded};

use flow::UseMap;
use klaim::Loc;
use std::array;
use tables::{Action, Estimate, Lines, Net, REPORT, Root, SITES};

// What a has and b lacks.
fn less(a: u8, b: u8) -> u8
    ensures { result ≡ without a b }
{
    a ^ (a & b)
}

// A use map less the rights that sandbox k has evaluated at every site of a reach.
fn less_sure(m: UseMap, net: &Net, k: u8, set: u32) -> UseMap
    requires { k < 32 }
    ensures { result.rights ≡ table 32 (λ t. without (get_or m.rights t 0) (sure (net_view net.now) k set t)) }
{
    let rights = array::from_fn(|t| less(m.rights[t], flow::box_sure(net, k, set, t as u8)));
    UseMap { rights }
}

// A use map less the home policy of a site.
fn less_home(m: UseMap, net: &Net, site: u8) -> UseMap
    requires { site < 32 }
    ensures { result.rights ≡ table 32 (λ t. without (get_or m.rights t 0) (home (net_view net.now) site t)) }
{
    let rights = array::from_fn(|t| less(m.rights[t], net.home(site, t as u8)));
    UseMap { rights }
}

// Whether a use map has no right.
fn is_empty(m: UseMap) -> bool
    ensures { result ≡ all (λ t. eqb (get_or m.rights t 0) 0) (below 32) }
{
    (0..SITES).all(|t| m.rights[t] == 0)
}

// The rights of a use map added to the report for one subject, where it is in the set.
fn add_row(bytes: &mut [u8; REPORT], set: u32, subject: u8, m: UseMap)
    requires { subject < 32 }
    ensures { RowAdded set subject m.rights bytes.old bytes.new }
{
    if sets::has_site(set, subject) {
        let at = SITES * usize::from(subject);
        for object in 0..SITES {
            bytes[at + object] |= m.rights[object];
        }
    }
}

// The rights of a use map added to the report, for each subject of the set.
fn add_uses(bytes: &mut [u8; REPORT], set: u32, m: UseMap)
    ensures { bytes.new ≡ table 1024 (λ i. join (get_or bytes.old i 0) (grant (mem (i / 32) set) (get_or m.rights (i % 32) 0))) }
{
    for subject in 0..32u8 {
        add_row(bytes, set, subject, m);
    }
}

// The E rights of each site less its home policy.
fn put_holds(bytes: &mut [u8; REPORT], net: &Net, estimate: &Estimate)
    ensures { bytes.new ≡ table 1024 (λ i. hold_adds (net_view net.now) (estimate_view estimate.now) (i / 32) (i % 32)) }
{
    for i in 0..REPORT {
        bytes[i] = less(estimate.hold[i], net.homes[i]);
    }
}

// What a line adds to the report: the lines that follow, then the target, the body and the sandbox of an eval. A type of its own, so
// that the five actions that one line follows have one arm in both walks, of the report and of the test that it is empty.
#[derive(Clone, Copy)]
enum Evals {
    Nothing,
    Both(u8, u8),
    Next(u8),
    Sends(u8, Loc, u8, u8),
}

#[tactic(auto, unfolding(crate::specs::Evals::evals_of))]
fn evals_of(action: Action) -> Evals
    ensures { result ≡ evals_of action }
{
    match action {
        Action::Nil => Evals::Nothing,
        Action::Par { next, second } => Evals::Both(next, second),
        Action::Eval {
            next,
            target,
            body,
            sandbox,
        } => Evals::Sends(next, target, body, sandbox),
        Action::Rep { next }
        | Action::Out { next, .. }
        | Action::In { next, .. }
        | Action::Read { next, .. }
        | Action::Accept { next, .. } => Evals::Next(next),
    }
}

// What the eval lines of line q add, those inside bodies too, `places` being its place set.
fn add_evals(
    bytes: &mut [u8; REPORT],
    net: &Net,
    estimate: &Estimate,
    lines: &Lines,
    places: u32,
    q: u8,
)
    requires { InForm lines.now q }
    ensures { bytes.new ≡ table 1024 (λ i. join (get_or bytes.old i 0) (adds (net_view net.now) (estimate_view estimate.now) places (tree (lines_of lines.now) q) (i / 32) (i % 32))) }
{
    match evals_of(lines.action(q)) {
        Evals::Nothing => {}
        Evals::Both(next, second) => {
            add_evals(bytes, net, estimate, lines, places, next);
            add_evals(bytes, net, estimate, lines, places, second);
        }
        Evals::Next(next) => {
            add_evals(bytes, net, estimate, lines, places, next);
        }
        Evals::Sends(next, target, body, sandbox) => {
            let set = flow::reach(target, places, estimate);
            let uses = flow::use_map(net, estimate, lines, set, body);
            add_uses(bytes, set, less_sure(uses, net, sandbox, set));
            add_evals(bytes, net, estimate, lines, set, body);
            add_evals(bytes, net, estimate, lines, places, next);
        }
    }
}

// An L row's use map less the home policy of its site, added to the report.
fn add_root(bytes: &mut [u8; REPORT], net: &Net, estimate: &Estimate, root: Root)
    requires site_bound { root.site < 32 }
    requires in_form { InForm net.now.lines root.line }
    ensures { bytes.new ≡ table 1024 (λ i. join (get_or bytes.old i 0) (root_adds (net_view net.now) (estimate_view estimate.now) (root_view root) (i / 32) (i % 32))) }
{
    let places = sets::single(root.site);
    let uses = flow::use_map(net, estimate, &net.lines, places, root.line);
    add_uses(bytes, places, less_home(uses, net, root.site));
}

// The report of a net and an estimate: byte 32 * subject + object.
pub fn report(net: &Net, estimate: &Estimate) -> [u8; REPORT]
    requires { Rooted net.now.lines net.now.roots }
    ensures { result ≡ report_of (net_view net.now) (estimate_view estimate.now) }
{
    let mut bytes = [0u8; REPORT];
    put_holds(&mut bytes, net, estimate);
    for root in net.roots.as_slice() {
        add_root(&mut bytes, net, estimate, *root);
        let places = sets::single(root.site);
        add_evals(&mut bytes, net, estimate, &net.lines, places, root.line);
    }
    bytes
}

// Whether a body sent to the sites of a reach uses no right but those that sandbox k has at each of them.
fn body_within(net: &Net, estimate: &Estimate, lines: &Lines, set: u32, body: u8, k: u8) -> bool
    requires in_form { InForm lines.now body }
    requires k_bound { k < 32 }
    ensures { result ≡ nowhere (eval_adds (net_view net.now) (estimate_view estimate.now) set k (tree (lines_of lines.now) body)) }
{
    if set == 0 {
        return true;
    }
    let uses = flow::use_map(net, estimate, lines, set, body);
    is_empty(less_sure(uses, net, k, set))
}

// Whether each eval line of line q adds nothing to a report, `places` being its place set.
pub fn adds_nothing(net: &Net, estimate: &Estimate, lines: &Lines, places: u32, q: u8) -> bool
    requires { InForm lines.now q }
    ensures { result ≡ adds_nothing (net_view net.now) (estimate_view estimate.now) places (tree (lines_of lines.now) q) }
{
    match evals_of(lines.action(q)) {
        Evals::Nothing => true,
        Evals::Both(next, second) => {
            adds_nothing(net, estimate, lines, places, next)
                && adds_nothing(net, estimate, lines, places, second)
        }
        Evals::Next(next) => adds_nothing(net, estimate, lines, places, next),
        Evals::Sends(next, target, body, sandbox) => {
            let set = flow::reach(target, places, estimate);
            body_within(net, estimate, lines, set, body, sandbox)
                && (adds_nothing(net, estimate, lines, set, body)
                    && adds_nothing(net, estimate, lines, places, next))
        }
    }
}
