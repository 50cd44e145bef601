//! Whether a row repeats one of the rows above it, read off the tables that hold them.
#![tactic(auto)]

ghost use Rattle.std.specs.Prelude.{◌≡◌, true, List, [], ◌∷◌, ◌++◌, map, ℕ, ◌+◌, ◌*◌, ◌<◌, eqb, ltb};
ghost use Rattle.sets.specs.Lists.{All, all, any};
ghost use Rattle.klaim.specs.Fields.{items};
ghost use Rattle.klaim.specs.Rows.{Row, group_l};
ghost use Rattle.klaim.specs.Reader.{in_limits, of_group, repeated, root_of};
ghost use Rattle.forms.specs.Forms.{pair_group, tuple_group, sites_of, pair_data, box_data, tuple_data, root_data, bound_data};
ghost use Rattle.tables.specs.Entries.{entries};
ghost use Rattle.tables.specs.View.{roots_of};
ghost use Rattle.stores.specs.Sets.{pairs_of, boxes_of, bounds_of};
ghost use Rattle.repeats.specs.Kept.{Kept, unsaid_boxes, root_same, tuple_key, KeysAre};

use forms::{Bound, Pair, Root, Sandbox, Tuple};
use klaim::Fields;
use tables::{BOXES, HOMES, Roots, TUPLES, Table, VARIABLES};
use text::UNSAID;

// The keys of the tuples of a group.
pub type Keys = Table<u32, TUPLES>;

// 3: whether an R or an E row repeats one above: its place in the table is taken.
pub fn pair_seen(t: &[u8; HOMES], pair: &Pair) -> bool
    requires from_low { pair.now.from < 32 }
    requires to_low { pair.now.to < 32 }
    ensures { (g : ℕ) (above : List Row) → pair_group g ≡ true → All Kept above → t.now ≡ pairs_of g above → result ≡ repeated above (pair_data g pair.now) }
{
    t[stores::pair_place(pair)] != 0
}

// 3: whether a D row repeats one above: rights, the empty set among them, are said at its place in the table.
pub fn box_seen(t: &[u8; BOXES], sandbox: &Sandbox) -> bool
    requires { in_limits (box_data sandbox.now) ≡ true }
    ensures { (above : List Row) → All Kept above → t.now ≡ boxes_of unsaid_boxes above → result ≡ repeated above (box_data sandbox.now) }
{
    t[stores::box_place(sandbox)] < UNSAID
}

// 3: whether a B row repeats one above: its site is in the set of its variable.
pub fn bound_seen(t: &[u32; VARIABLES], bound: &Bound) -> bool
    requires variable_low { bound.now.variable < 32 }
    requires site_low { bound.now.site < 32 }
    ensures { (above : List Row) → All Kept above → t.now ≡ bounds_of above → result ≡ repeated above (bound_data bound.now) }
{
    sets::has_site(t[usize::from(bound.variable)], bound.site as u8)
}

// A site in front of the key of those behind it.
fn key_step(site: u8, rest: u32) -> u32
    requires { rest < 67108864 }
    ensures { result ≡ site + 32 * rest }
{
    u32::from(site) + 32 * rest
}

// The fields of a tuple as one number.
fn fields_key(fields: &Fields<u8>) -> u32
    ensures key { result ≡ tuple_key (items fields.now) }
    ensures bound { result < 67108864 }
{
    match fields {
        Fields::One([a]) => key_step(*a, 1),
        Fields::Two([a, b]) => key_step(*a, key_step(*b, 1)),
        Fields::Three([a, b, c]) => key_step(*a, key_step(*b, key_step(*c, 1))),
        Fields::Four([a, b, c, d]) => { key_step(*a, key_step(*b, key_step(*c, key_step(*d, 1)))) }
    }
}

// The sites of a T or an A row as one number: rows have one number if they have the same sites.
fn key(tuple: &Tuple) -> u32
    requires { all (λ s. ltb s 32) (sites_of tuple.now) ≡ true }
    ensures { result ≡ tuple_key (sites_of tuple.now) }
{
    let tuple = entries::tuple(tuple);
    key_step(tuple.site, fields_key(&tuple.fields))
}

// The key of a T or an A row, put behind those that stand there.
pub fn keep_key(keys: &mut Keys, tuple: &Tuple)
    requires sites_low { all (λ s. ltb s 32) (sites_of tuple.now) ≡ true }
    requires room { keys.old.count < 256 }
    ensures count { keys.new.count ≡ keys.old.count + 1 }
    ensures keys { (g : ℕ) (above : List Row) → KeysAre g above keys.old → KeysAre g (above ++ (tuple_data g tuple.now ∷ [])) keys.new }
{
    keys.push(key(tuple));
}

// Whether k is one of the keys. All are tested: that is faster than to stop at the first.
fn has_key(keys: &Keys, k: u32) -> bool
    ensures { result ≡ any (λ x. eqb x k) (entries keys.now) }
{
    let mut found = false;
    for key in keys.as_slice() {
        found |= *key == k;
    }
    found
}

// 3: whether a T or an A row repeats one above: its key stands among theirs.
pub fn tuple_seen(keys: &Keys, tuple: &Tuple) -> bool
    requires { all (λ s. ltb s 32) (sites_of tuple.now) ≡ true }
    ensures { (g : ℕ) (above : List Row) → tuple_group g ≡ true → All Kept above → KeysAre g above keys.now → result ≡ repeated above (tuple_data g tuple.now) }
{
    has_key(keys, key(tuple))
}

// Whether line q at site s is one of the roots.
fn has_root(roots: &Roots, s: u8, q: u8) -> bool
    ensures { result ≡ any (root_same s q) (roots_of roots.now) }
{
    roots
        .as_slice()
        .iter()
        .any(|root| root.site == s && root.line == q)
}

// 3: whether an L row repeats one above: its root stands in the table.
pub fn root_seen(roots: &Roots, root: &Root) -> bool
    requires site_low { root.now.site < 32 }
    requires line_low { root.now.line < 256 }
    ensures { (above : List Row) → All Kept above → roots_of roots.now ≡ map root_of (of_group group_l above) → result ≡ repeated above (root_data root.now) }
{
    has_root(roots, root.site as u8, root.line as u8)
}
