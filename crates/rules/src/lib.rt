//! The rules for out, in and read, and eval, of a process line.
#![tactic(auto)]

ghost use Rattle.std.specs.Prelude.{◌≡◌, ℕ, ◌<◌, get_or};
ghost use Rattle.sets.specs.Lists.{All, imp, all, below};
ghost use Rattle.sets.specs.Bits.{mem, within as is_within};
ghost use Rattle.klaim.specs.Fields.{items};
ghost use Rattle.klaim.specs.declared.Loc.{Loc as LocT};
ghost use Rattle.klaim.specs.Net.{holds};
ghost use Rattle.klaim.specs.Analysis.{reach as reach_of, out_rule, get_rule, eval_rule};
ghost use Rattle.tables.specs.Low.{LowLoc, LowSlot, LowAction};
ghost use Rattle.tables.specs.View.{action_line, line_of, net_view, estimate_view};
ghost use Rattle.rules.specs.Masks.{wanted as wanted_of, allowed as allowed_of, IndexOf};
ghost use Rattle.rules.specs.Own.{own_rule};

use flow::UseMap;
use klaim::{Fields, Loc, Slot};
use matching::{ANY, RowIndex};
use tables::{Action, Estimate, Lines, Net};

// What a field of a template agrees with: a value's reach, `!u` and `_` any site.
#[tactic(auto, unfolding(crate::specs::Masks::wanted))]
fn wanted(slot: Slot, places: u32, estimate: &Estimate) -> u32
    requires { LowSlot slot }
    ensures { result ≡ wanted_of (estimate_view estimate.now) places slot }
{
    match slot {
        Slot::Value(x) => flow::reach(x, places, estimate),
        Slot::Bind(_) | Slot::Wildcard => ANY,
    }
}

// What the row's field may be: for `!u` what u may become, else any site.
#[tactic(auto, unfolding(crate::specs::Masks::allowed))]
fn allowed(slot: Slot, estimate: &Estimate) -> u32
    requires { LowSlot slot }
    ensures { result ≡ allowed_of (estimate_view estimate.now) slot }
{
    match slot {
        Slot::Bind(u) => estimate.may(u.0),
        Slot::Value(_) | Slot::Wildcard => ANY,
    }
}

// The rule of an out line.
fn out_rule(
    fields: &Fields<Loc>,
    target: Loc,
    places: u32,
    estimate: &Estimate,
    index: &RowIndex,
) -> bool
    requires { LowLoc target × All LowLoc (items fields.now) }
    ensures { IndexOf (estimate_view estimate.now) index.now.sets → result ≡ out_rule (estimate_view estimate.now) places target (items fields.now) }
{
    let first = flow::reach(target, places, estimate);
    let sets = matching::sets_of(fields, first, |x| flow::reach(x, places, estimate));
    matching::every_choice(index, sets, fields.as_slice().len() + 1)
}

// The rule of an in or read line.
fn get_rule(
    fields: &Fields<Slot>,
    target: Loc,
    places: u32,
    estimate: &Estimate,
    index: &RowIndex,
) -> bool
    requires { LowLoc target × All LowSlot (items fields.now) }
    ensures { IndexOf (estimate_view estimate.now) index.now.sets → result ≡ get_rule (estimate_view estimate.now) places target (items fields.now) }
{
    let first = flow::reach(target, places, estimate);
    let want = matching::sets_of(fields, first, |slot| wanted(slot, places, estimate));
    let allow = matching::sets_of(fields, ANY, |slot| allowed(slot, estimate));
    matching::every_bound(index, want, allow, fields.as_slice().len() + 1)
}

// Whether the rights of a are among those of b.
pub fn within(a: u8, b: u8) -> bool
    ensures { result ≡ is_within a b }
{
    a & b == a
}

// Whether the E rights of site l hold what is needed towards every site. All are tested: that is faster than to stop at the first.
fn row_holds(estimate: &Estimate, l: u8, need: UseMap) -> bool
    requires { l < 32 }
    ensures { result ≡ all (λ t. is_within (get_or need.rights t 0) (holds (estimate_view estimate.now) l t)) (below 32) }
{
    let mut ok = true;
    for t in 0..32u8 {
        ok &= within(need.rights[usize::from(t)], estimate.holds(l, t));
    }
    ok
}

// Whether site l is not in the set, or its E rights hold what is needed.
fn held(estimate: &Estimate, set: u32, l: u8, need: UseMap) -> bool
    requires { l < 32 }
    ensures { result ≡ imp (mem l set) (all (λ t. is_within (get_or need.rights t 0) (holds (estimate_view estimate.now) l t)) (below 32)) }
{
    if sets::has_site(set, l) {
        return row_holds(estimate, l, need);
    }
    true
}

// The rule of an eval line whose target has reach `set`, under sandbox k.
pub fn eval_rule(net: &Net, estimate: &Estimate, set: u32, k: u8) -> bool
    requires { k < 32 }
    ensures { (P : ℕ) (g : LocT) → set ≡ reach_of (estimate_view estimate.now) P g → result ≡ eval_rule (net_view net.now) (estimate_view estimate.now) P g k }
{
    let need = UseMap::of_box(net, k, set);
    (0..32u8).all(|l| held(estimate, set, l, need))
}

// Whether the rule of a line that does this holds, `places` being its place set. Only lines that act have one.
#[tactic(auto, unfolding(crate::specs::Own::own_rule, tables::specs::View::action_line))]
fn action_rule(
    action: &Action,
    net: &Net,
    estimate: &Estimate,
    index: &RowIndex,
    places: u32,
) -> bool
    requires { LowAction action.now }
    ensures { IndexOf (estimate_view estimate.now) index.now.sets → result ≡ own_rule (net_view net.now) (estimate_view estimate.now) places (action_line action.now) }
{
    match action {
        Action::Out { target, fields, .. } => { out_rule(fields, *target, places, estimate, index) }
        Action::In { target, fields, .. } | Action::Read { target, fields, .. } => {
            get_rule(fields, *target, places, estimate, index)
        }
        Action::Eval {
            target,
            sandbox,
            ..
        } => {
            let set = flow::reach(*target, places, estimate);
            eval_rule(net, estimate, set, *sandbox)
        }
        Action::Nil | Action::Par { .. } | Action::Rep { .. } | Action::Accept { .. } => true,
    }
}

// Whether the rule of line q itself holds, `places` being its place set.
pub fn own_rule(
    net: &Net,
    estimate: &Estimate,
    index: &RowIndex,
    lines: &Lines,
    places: u32,
    q: u8,
) -> bool
    ensures { IndexOf (estimate_view estimate.now) index.now.sets → result ≡ own_rule (net_view net.now) (estimate_view estimate.now) places (line_of lines.now q) }
{
    action_rule(&lines.action(q), net, estimate, index, places)
}
