//! The rights of a site that a root's use map there or its E rows have, and how many of its home policy they are.
#![tactic(auto)]

ghost use Rattle.std.specs.Prelude.{◌≡◌, ◌<◌, eqb, get_or};
ghost use Rattle.sets.specs.Lists.{table};
ghost use Rattle.sets.specs.Bits.{join, grant, joins};
ghost use Rattle.klaim.specs.Net.{holds};
ghost use Rattle.klaim.specs.Analysis.{place_set, process};
ghost use Rattle.klaim.specs.Report.{uses};
ghost use Rattle.klaim.specs.Listing.{usable as usable_of, used_count};
ghost use Rattle.tables.specs.View.{root_view, roots_of, net_view, estimate_view, world_of, InForm};
ghost use Rattle.report.specs.Given.{Rooted};

use flow::UseMap;
use std::array;
use tables::{Estimate, Net, Root, SITES};

// The use map of a root, if it runs at site s; else the empty one.
fn root_uses(net: &Net, estimate: &Estimate, root: Root, s: u8) -> UseMap
    requires { InForm net.now.lines root.line × (s < 32) }
    ensures { result.rights ≡ table 32 (λ t. grant (eqb root.site s) (uses (net_view net.now) (estimate_view estimate.now) (place_set s) (process (net_view net.now) (root_view root)) t)) }
{
    if root.site == s {
        let places = sets::single(s);
        return flow::use_map(net, estimate, &net.lines, places, root.line);
    }
    UseMap::empty()
}

// The use maps of the roots at site s, joined.
fn site_uses(net: &Net, estimate: &Estimate, s: u8) -> UseMap
    requires { Rooted net.now.lines net.now.roots × (s < 32) }
    ensures { result.rights ≡ table 32 (λ t. joins (λ x. grant (eqb x.site s) (uses (net_view net.now) (estimate_view estimate.now) (place_set s) (process (net_view net.now) x) t)) (roots_of net.now.roots)) }
{
    let mut joined = UseMap::empty();
    for root in net.roots.as_slice() {
        joined = joined.join(root_uses(net, estimate, *root, s));
    }
    joined
}

// The rights of a use map, each with the E rights of site s.
fn with_holds(m: UseMap, estimate: &Estimate, s: u8) -> [u8; SITES]
    requires { s < 32 }
    ensures { result ≡ table 32 (λ t. join (get_or m.rights t 0) (holds (estimate_view estimate.now) s t)) }
{
    array::from_fn(|t| m.rights[t] | estimate.holds(s, t as u8))
}

// The rights on each site that a root at s uses or the E rows of s have.
fn usable_at(net: &Net, estimate: &Estimate, s: u8) -> [u8; SITES]
    requires { Rooted net.now.lines net.now.roots × (s < 32) }
    ensures { result ≡ table 32 (usable_of (world_of net.now estimate.now) s) }
{
    let uses = site_uses(net, estimate, s);
    with_holds(uses, estimate, s)
}

// The rights of the home policy of site s that are also usable, counted.
fn used_at(net: &Net, estimate: &Estimate, s: u8) -> u32
    requires { Rooted net.now.lines net.now.roots × (s < 32) }
    ensures { result ≡ used_count (world_of net.now estimate.now) s }
{
    counts::used_count(net, usable_at(net, estimate, s), s)
}

// The same for each site.
pub fn used_counts(net: &Net, estimate: &Estimate) -> [u32; SITES]
    requires { Rooted net.now.lines net.now.roots }
    ensures { result ≡ table 32 (used_count (world_of net.now estimate.now)) }
{
    array::from_fn(|s| used_at(net, estimate, s as u8))
}
