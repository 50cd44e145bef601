//! The door in two parts: where an arrival is sound, and whether its use map lies within a sandbox there.
#![tactic(auto)]

ghost use Rattle.std.specs.Prelude.{◌≡◌, ◌<◌, get_or};
ghost use Rattle.sets.specs.Lists.{all, below};
ghost use Rattle.sets.specs.Bits.{within as is_within};
ghost use Rattle.klaim.specs.Process.{tree};
ghost use Rattle.klaim.specs.Net.{box_at};
ghost use Rattle.tables.specs.View.{lines_of, net_view, estimate_view, InForm};
ghost use Rattle.rules.specs.Masks.{IndexOf};
ghost use Rattle.door.specs.Parts.{sound as sound_of, uses_fit};

use flow::UseMap;
use matching::RowIndex;
use tables::{Estimate, Lines, Net};

// Whether a use map lies within sandbox d evaluated at site l.
fn uses_within(m: UseMap, net: &Net, d: u8, l: u8) -> bool
    requires { d < 32 }
    ensures { result ≡ all (λ t. is_within (get_or m.rights t 0) (box_at (net_view net.now) d l t)) (below 32) }
{
    (0..32u8).all(|t| rules::within(m.rights[usize::from(t)], flow::box_at(net, d, l, t)))
}

// Whether all rules hold for the lines of the arrival whose root is line q with place set l, and none of its eval lines adds
// anything to a report.
pub fn sound(net: &Net, estimate: &Estimate, index: &RowIndex, lines: &Lines, l: u8, q: u8) -> bool
    requires { InForm lines.now q × (l < 32) }
    ensures { IndexOf (estimate_view estimate.now) index.now.sets → result ≡ sound_of (net_view net.now) (estimate_view estimate.now) l (tree (lines_of lines.now) q) }
{
    let places = sets::single(l);
    match broken::first_broken(net, estimate, index, lines, places, q) {
        Some(_) => false,
        None => report::adds_nothing(net, estimate, lines, places, q),
    }
}

// Whether the use map of the arrival whose root is line q lies within sandbox d evaluated at site l.
pub fn uses_fit(net: &Net, estimate: &Estimate, lines: &Lines, d: u8, l: u8, q: u8) -> bool
    requires { InForm lines.now q × (d < 32) × (l < 32) }
    ensures { result ≡ uses_fit (net_view net.now) (estimate_view estimate.now) d l (tree (lines_of lines.now) q) }
{
    let places = sets::single(l);
    let uses = flow::use_map(net, estimate, lines, places, q);
    uses_within(uses, net, d, l)
}
