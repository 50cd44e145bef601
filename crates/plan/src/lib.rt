//! What a step of a thread comes to by the tests before 26.
#![tactic(auto)]

ghost use Rattle.std.specs.Prelude.{◌≡◌, true, cond, [], ◌∷◌, ℕ, ◌<◌, IfOk};
ghost use Rattle.std.proofs.Math.ListN.{get_elem?};
ghost use Rattle.sets.specs.Lists.{splice};
ghost use Rattle.klaim.specs.Fields.{items};
ghost use Rattle.klaim.specs.Process as Process;
ghost use Rattle.klaim.specs.Process.{line_at, tree};
ghost use Rattle.klaim.specs.Report.{door as door_of};
ghost use Rattle.klaim.specs.State as Spec;
ghost use Rattle.klaim.specs.Engine.{plan as plan_of, act, after, value, bind_all, to as to_line, get_plan, accept_plan};
ghost use Rattle.tables.specs.View.{tuple_view};
ghost use Rattle.threads.specs.View.{thread_view, rebound};
ghost use Rattle.state.specs.View.{arrival_root, state_view};
ghost use Rattle.plan.specs.Move.{plan_view, move_view, Admits, SoundAt, Plannable, Possible, Placed};

use flow::UseMap;
use klaim::{Fields, Loc, Reason, Slot};
use state::{Arrivals, State};
use tables::{Action, Tuple, VARIABLES};
use threads::Thread;

// What a step uses that is not silent: a right on a target.
#[derive(Clone, Copy)]
pub struct Use {
    pub target: u8,
    pub right: u8,
}

// What becomes of the tuples: they are kept, one is appended, or the named one is taken out.
#[derive(Clone, Copy)]
pub enum Change {
    Kept,
    Appended(Tuple),
    Taken,
}

// What a step comes to that is not refused: what it uses, the thread behind it, one more thread, and the tuples.
#[derive(Clone, Copy)]
pub struct Move {
    pub uses: Option<Use>,
    pub thread: Thread,
    pub added: Option<Thread>,
    pub change: Change,
}

// par: to a; b appended.
#[tactic(auto, unfolding(klaim::specs::Engine::plan))]
fn plan_par(th: Thread, a: u8, b: u8) -> Move
    ensures value { (st : Spec.State) (k m r : ℕ) → move_view st k m result ≡ plan_of st k (thread_view th) m r (Process.Par a b) }
    ensures possible { (m n : ℕ) → Possible m n result }
{
    Move {
        uses: None,
        thread: th.to(a),
        added: Some(th.to(b)),
        change: Change::Kept,
    }
}

// rep: stays; a appended.
#[tactic(auto, unfolding(klaim::specs::Engine::plan))]
fn plan_rep(th: Thread, a: u8) -> Move
    ensures value { (st : Spec.State) (k m r : ℕ) → move_view st k m result ≡ plan_of st k (thread_view th) m r (Process.Rep a) }
    ensures possible { (m n : ℕ) → Possible m n result }
{
    Move {
        uses: None,
        thread: th,
        added: Some(th.to(a)),
        change: Change::Kept,
    }
}

// out: to a; the tuple appended at the target.
#[tactic(auto, unfolding(klaim::specs::Engine::plan))]
fn plan_out(th: Thread, a: u8, target: Loc, fields: &Fields<Loc>) -> Move
    ensures value { (st : Spec.State) (k m r : ℕ) → move_view st k m result ≡ plan_of st k (thread_view th) m r (Process.Out a target (items fields.now)) }
    ensures possible { (m n : ℕ) → Possible m n result }
{
    Move {
        uses: Some(Use {
            target: th.value(target),
            right: UseMap::OUT,
        }),
        thread: th.to(a),
        added: None,
        change: Change::Appended(tuples::made(&th, target, fields)),
    }
}

// eval: to a; b appended at the target, under sandbox d evaluated there.
#[tactic(auto, unfolding(klaim::specs::Engine::plan, state::specs::View::state_view))]
fn plan_eval(state: &State, th: Thread, a: u8, target: Loc, b: u8, d: u8) -> Move
    requires { d < 32 }
    ensures value { (k m r : ℕ) → move_view (state_view state.now) k m result ≡ plan_of (state_view state.now) k (thread_view th) m r (Process.Eval a target b d) }
    ensures possible { (m n : ℕ) → Possible m n result }
{
    let l = th.value(target);
    Move {
        uses: Some(Use {
            target: l,
            right: UseMap::EVAL,
        }),
        thread: th.to(a),
        added: Some(Thread::under(&state.net, d, l, b, th.bindings)),
        change: Change::Kept,
    }
}

// The use of a tuple that agrees: to a with the new bindings.
fn plan_taken(
    th: Thread,
    a: u8,
    target: Loc,
    fields: &Fields<Slot>,
    tuple: &Tuple,
    taken: bool,
) -> Move
    ensures value { (st : Spec.State) (k m : ℕ) → move_view st k m result ≡ act (value (thread_view th).site (thread_view th).bindings target) (cond taken 2 4) (after st k (to_line (rebound (thread_view th) (bind_all (Slot.Value target ∷ items fields.now) (tuple_view tuple.now) (thread_view th).bindings)) a) [] (cond taken (splice m [] st.tuples) st.tuples)) }
    ensures possible { (m n : ℕ) → m < n → Possible m n result }
{
    let bound = tuples::bind_all(th, fields, tuple);
    Move {
        uses: Some(Use {
            target: th.value(target),
            right: if taken { UseMap::IN } else { UseMap::READ },
        }),
        thread: bound.to(a),
        added: None,
        change: if taken { Change::Taken } else { Change::Kept },
    }
}

// in, read of tuple m: one use of a right, the tuple taken out or kept.
fn plan_get(
    state: &State,
    m: usize,
    th: Thread,
    a: u8,
    target: Loc,
    fields: &Fields<Slot>,
    taken: bool,
) -> Result<Move, Reason>
    ensures value { (k : ℕ) → plan_view (state_view state.now) k m result ≡ get_plan (state_view state.now) k (thread_view th) (cond taken 2 4) a target (items fields.now) (cond taken (splice m [] (state_view state.now).tuples) (state_view state.now).tuples) (get_elem? (state_view state.now).tuples m) }
    ensures possible { IfOk result (Possible m state.now.tuples.count) }
{
    let Some(tuple) = state.tuples.as_slice().get(m) else {
        return Err(Reason::Tuple);
    };
    if !tuples::agrees(&th, target, fields, tuple) {
        return Err(Reason::Agreement);
    }
    Ok(plan_taken(th, a, target, fields, tuple, taken))
}

// The place of root r among the roots of the arrivals, if it is one of them.
pub fn arrival_at(arrivals: &Arrivals, r: usize) -> Option<usize>
    ensures { Placed arrivals.now r result }
{
    arrivals
        .as_slice()
        .iter()
        .position(|a| usize::from(a.root) == r)
}

// The door for arrival i at site l under sandbox d: it is sound there, and its use map lies within d evaluated at l.
pub fn admitted(state: &State, i: usize, l: u8, d: u8) -> bool
    requires { Admits state.now × (i < state.now.arrivals.count) × (l < 32) × (d < 32) }
    ensures { SoundAt state.now l → result ≡ door_of (state_view state.now).net (state_view state.now).estimate d l (tree (state_view state.now).lines (arrival_root state.now.arrivals i)) }
{
    let arrival = state.arrivals.items[i];
    if sets::has_site(arrival.sound, l) {
        return door::uses_fit(
            &state.net,
            &state.estimate,
            &state.lines,
            d,
            l,
            arrival.root,
        );
    }
    false
}

// accept of the arrival whose root is line q, which the door passes: to a; q appended.
#[tactic(auto, unfolding(klaim::specs::Engine::accept_plan, state::specs::View::state_view))]
fn plan_guest(state: &State, th: Thread, a: u8, d: u8, q: u8) -> Move
    requires { d < 32 }
    ensures value { (k m : ℕ) → move_view (state_view state.now) k m result ≡ accept_plan (state_view state.now) k (thread_view th) q a d true true }
    ensures possible { (m n : ℕ) → Possible m n result }
{
    let l = th.site.0;
    let guest = Thread::under(&state.net, d, l, q, [None; VARIABLES]);
    Move {
        uses: Some(Use {
            target: l,
            right: UseMap::ACCEPT,
        }),
        thread: th.to(a),
        added: Some(guest),
        change: Change::Kept,
    }
}

// accept: r is an arrival's root and the door passes it.
fn plan_accept(state: &State, th: Thread, a: u8, d: u8, r: usize) -> Result<Move, Reason>
    requires { Admits state.now × (th.site.0 < 32) × (d < 32) }
    ensures value { SoundAt state.now th.site.0 → (k m : ℕ) → plan_view (state_view state.now) k m result ≡ plan_of (state_view state.now) k (thread_view th) m r (Process.Accept a d) }
    ensures possible { (m n : ℕ) → IfOk result (Possible m n) }
{
    let Some(i) = arrival_at(&state.arrivals, r) else {
        return Err(Reason::Arrival);
    };
    if !admitted(state, i, th.site.0, d) {
        return Err(Reason::Door);
    }
    Ok(plan_guest(state, th, a, d, state.arrivals.items[i].root))
}

// What a step of thread th comes to: m names a tuple, r an arrival's root.
pub fn plan(state: &State, th: Thread, m: usize, r: usize) -> Result<Move, Reason>
    requires { Plannable state.now th }
    ensures value { SoundAt state.now th.site.0 → (k : ℕ) → plan_view (state_view state.now) k m result ≡ plan_of (state_view state.now) k (thread_view th) m r (line_at (state_view state.now).lines th.line) }
    ensures possible { IfOk result (Possible m state.now.tuples.count) }
{
    match state.lines.action(th.line) {
        Action::Nil => Err(Reason::Thread),
        Action::Par { next, second } => Ok(plan_par(th, next, second)),
        Action::Rep { next } => Ok(plan_rep(th, next)),
        Action::Out {
            next,
            target,
            fields,
        } => Ok(plan_out(th, next, target, &fields)),
        Action::In {
            next,
            target,
            fields,
        } => plan_get(state, m, th, next, target, &fields, true),
        Action::Read {
            next,
            target,
            fields,
        } => plan_get(state, m, th, next, target, &fields, false),
        Action::Eval {
            next,
            target,
            body,
            sandbox,
        } => Ok(plan_eval(state, th, next, target, body, sandbox)),
        Action::Accept { next, sandbox } => plan_accept(state, th, next, sandbox, r),
    }
}
