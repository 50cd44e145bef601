//! The verdict on a net and an estimate.
#![tactic(auto)]

ghost use Rattle.std.specs.Prelude.{◌≡◌, true};
ghost use Rattle.sets.specs.Lists.{all, concat};
ghost use Rattle.sets.specs.Options.{option_of};
ghost use Rattle.klaim.specs.Analysis.{first_not, least, stands, broken as broken_of, place_set, process, verdict_of as verdict_by, verdict as verdict_of};
ghost use Rattle.klaim.specs.Invariant.{all_below};
ghost use Rattle.klaim.specs.Net as Spec;
ghost use Rattle.tables.specs.View.{tuples_of, roots_of, net_view, estimate_view};
ghost use Rattle.rules.specs.Masks.{IndexOf};
ghost use Rattle.report.specs.Given.{Rooted};
ghost use Rattle.verdict.specs.Verdict.{verdict_view, Judgeable};

use matching::RowIndex;
use tables::{Estimate, Net, Tuples};

// Accepted, or the first broken T row or Q line.
#[derive(Clone, Copy, PartialEq, Eq)]
pub enum Verdict {
    Accepted,
    BrokenTuple(u8),
    BrokenLine(u8),
}

// The first of the T rows whose tuple has no A row, by the index of these.
fn first_missing(tuples: &Tuples, index: &RowIndex) -> Option<u8>
    requires { all (all_below 32) (tuples_of tuples.now) ≡ true }
    ensures { (E : Spec.Estimate) → IndexOf E index.now.sets → option_of (λ i. i) result ≡ first_not (stands E) (tuples_of tuples.now) }
{
    for (i, tuple) in tuples.as_slice().iter().enumerate() {
        if !matching::has_row(index, tuple) {
            return Some(i as u8);
        }
    }
    None
}

// The least line whose rule is broken, over all roots.
fn first_line(net: &Net, estimate: &Estimate, index: &RowIndex) -> Option<u8>
    requires { Rooted net.now.lines net.now.roots }
    ensures { IndexOf (estimate_view estimate.now) index.now.sets → option_of (λ q. q) result ≡ least (concat (λ x. broken_of (net_view net.now) (estimate_view estimate.now) (place_set x.site) (process (net_view net.now) x)) (roots_of net.now.roots)) }
{
    let mut first = None;
    for root in net.roots.as_slice() {
        let places = sets::single(root.site);
        let here = broken::first_broken(net, estimate, index, &net.lines, places, root.line);
        first = broken::lesser(first, here);
    }
    first
}

// The verdict by the first T row and by the first line.
#[tactic(auto, unfolding(crate::specs::Verdict::verdict_view, klaim::specs::Analysis::verdict_of))]
fn decide(tuple: Option<u8>, line: Option<u8>) -> Verdict
    ensures { verdict_view result ≡ verdict_by (option_of (λ i. i) tuple) (option_of (λ q. q) line) }
{
    match (tuple, line) {
        (Some(i), _) => Verdict::BrokenTuple(i),
        (None, Some(q)) => Verdict::BrokenLine(q),
        (None, None) => Verdict::Accepted,
    }
}

// T rows first, then Q lines, each in order.
pub fn judge(net: &Net, estimate: &Estimate) -> Verdict
    requires { Judgeable net.now estimate.now }
    ensures { verdict_view result ≡ verdict_of (net_view net.now) (estimate_view estimate.now) }
{
    let index = RowIndex::of(&estimate.stand);
    let tuple = first_missing(&net.tuples, &index);
    let line = first_line(net, estimate, &index);
    decide(tuple, line)
}
