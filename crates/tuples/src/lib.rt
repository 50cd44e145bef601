//! A line's template held against a tuple for a thread, and the tuple that a thread makes.
#![tactic(auto)]

ghost use Rattle.std.specs.Prelude.{◌≡◌, ◌∷◌, map, eqb};
ghost use Rattle.klaim.specs.Analysis.{slot_match};
ghost use Rattle.klaim.specs.Engine.{value, bind_all, agrees as agrees_of};
ghost use Rattle.klaim.specs.Fields.{items};
ghost use Rattle.tables.specs.View.{tuple_view};
ghost use Rattle.threads.specs.View.{thread_view, rebound};
ghost use Rattle.tuples.specs.Slots.{bind_slot};

use klaim::{Fields, Loc, Slot};
use tables::Tuple;
use threads::Thread;

// The thread with the variable of a slot, if it is a binder, bound to site v.
#[tactic(auto, unfolding(crate::specs::Slots::bind_slot))]
fn bind_slot(th: Thread, slot: Slot, v: u8) -> Thread
    ensures { thread_view result ≡ rebound (thread_view th) (bind_slot slot v (thread_view th).bindings) }
{
    match slot {
        Slot::Value(_) | Slot::Wildcard => th,
        Slot::Bind(u) => th.bind(u, v),
    }
}

// The thread with the fields of a template bound to those of a tuple.
pub fn bind_all(th: Thread, fields: &Fields<Slot>, tuple: &Tuple) -> Thread
    ensures { (g : Loc) → thread_view result ≡ rebound (thread_view th) (bind_all (Slot.Value g ∷ items fields.now) (tuple_view tuple.now) (thread_view th).bindings) }
{
    let mut r = th;
    for (slot, v) in fields.as_slice().iter().zip(tuple.fields.as_slice()) {
        r = bind_slot(r, *slot, *v);
    }
    r
}

// Whether a slot admits site v.
#[tactic(auto, unfolding(klaim::specs::Analysis::slot_match))]
fn slot_agrees(th: &Thread, slot: Slot, v: u8) -> bool
    ensures { result ≡ slot_match (λ x v. eqb v (value (thread_view th.now).site (thread_view th.now).bindings x)) slot v }
{
    match slot {
        Slot::Value(x) => v == th.value(x),
        Slot::Bind(_) | Slot::Wildcard => true,
    }
}

// Whether a tuple stands at the target, has as many fields as a template, and agrees in every field that binds nothing.
pub fn agrees(th: &Thread, target: Loc, fields: &Fields<Slot>, tuple: &Tuple) -> bool
    ensures { result ≡ agrees_of (thread_view th.now) target (items fields.now) (tuple_view tuple.now) }
{
    let slots = fields.as_slice();
    let sites = tuple.fields.as_slice();
    if slots.len() != sites.len() || tuple.site != th.value(target) {
        return false;
    }
    slots
        .iter()
        .zip(sites)
        .all(|(slot, v)| slot_agrees(th, *slot, *v))
}

// The tuple that an `out` of a thread makes: at its target, with what its fields stand for.
pub fn made(th: &Thread, target: Loc, fields: &Fields<Loc>) -> Tuple
    ensures { tuple_view result ≡ map (value (thread_view th.now).site (thread_view th.now).bindings) (target ∷ items fields.now) }
{
    Tuple {
        site: th.value(target),
        fields: fields.map(|x| th.value(x)),
    }
}
