//! The first line of a process whose rule is broken.
#![tactic(auto)]

ghost use Rattle.std.specs.Prelude.{◌≡◌, cond};
ghost use Rattle.std.proofs.Math.Option.{some};
ghost use Rattle.sets.specs.Options.{option_of};
ghost use Rattle.klaim.specs.Process.{tree};
ghost use Rattle.klaim.specs.Analysis.{broken, least};
ghost use Rattle.tables.specs.View.{lines_of, net_view, estimate_view, InForm};
ghost use Rattle.rules.specs.Masks.{IndexOf};
ghost use Rattle.broken.specs.Lesser.{lesser_of};

use matching::RowIndex;
use tables::{Action, Estimate, Lines, Net};

// The lesser of two lines, where there are any.
#[tactic(auto, unfolding(crate::specs::Lesser::lesser_of, klaim::specs::Analysis::lesser))]
pub fn lesser(a: Option<u8>, b: Option<u8>) -> Option<u8>
    ensures { option_of (λ q. q) result ≡ lesser_of (option_of (λ q. q) a) (option_of (λ q. q) b) }
{
    match (a, b) {
        (None, _) => b,
        (_, None) => a,
        (Some(p), Some(q)) => Some(p.min(q)),
    }
}

// Line q, if its rule fails; else what is behind it.
fn or_here(ok: bool, q: u8, rest: Option<u8>) -> Option<u8>
    ensures { option_of (λ q. q) result ≡ cond ok (option_of (λ q. q) rest) (lesser_of (some q) (option_of (λ q. q) rest)) }
{
    if ok {
        return rest;
    }
    lesser(Some(q), rest)
}

// The least line of the process of line q whose rule is broken, `places` being its place set.
// An eval body is judged with the reach of the target for its place set. 256 less q falls.
pub fn first_broken(
    net: &Net,
    estimate: &Estimate,
    index: &RowIndex,
    lines: &Lines,
    places: u32,
    q: u8,
) -> Option<u8>
    requires { InForm lines.now q }
    ensures { IndexOf (estimate_view estimate.now) index.now.sets → option_of (λ q. q) result ≡ least (broken (net_view net.now) (estimate_view estimate.now) places (tree (lines_of lines.now) q)) }
{
    let ok = rules::own_rule(net, estimate, index, lines, places, q);
    match lines.action(q) {
        Action::Nil => None,
        Action::Par { next, second } => {
            let a = first_broken(net, estimate, index, lines, places, next);
            let b = first_broken(net, estimate, index, lines, places, second);
            lesser(a, b)
        }
        Action::Eval {
            next,
            target,
            body,
            ..
        } => {
            let set = flow::reach(target, places, estimate);
            let b = first_broken(net, estimate, index, lines, set, body);
            let a = first_broken(net, estimate, index, lines, places, next);
            or_here(ok, q, lesser(b, a))
        }
        Action::Rep { next }
        | Action::Out { next, .. }
        | Action::In { next, .. }
        | Action::Read { next, .. }
        | Action::Accept { next, .. } => {
            let rest = first_broken(net, estimate, index, lines, places, next);
            or_here(ok, q, rest)
        }
    }
}
