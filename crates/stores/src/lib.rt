//! A row of good form, within limits, put into the table of sets that holds the rows of its group.
#![tactic(auto)]

ghost use Rattle.std.specs.Prelude.{◌≡◌, List, [], ◌∷◌, ◌++◌, ℕ, ◌<◌, ◌≤◌, get_or};
ghost use Rattle.klaim.specs.Rows.{Row};
ghost use Rattle.klaim.specs.Reader.{pair_place, box_place};
ghost use Rattle.text.specs.Fields.{sites_to};
ghost use Rattle.forms.specs.Forms.{pair_data, box_data, bound_data};
ghost use Rattle.stores.specs.Sets.{pairs_of, boxes_of, bounds_of};

use forms::{Bound, Pair, Sandbox};
use tables::{BOX, BOXES, HOMES, OWN, SITES, VARIABLES};
use text::Toward;

// Where the rights of an R or an E row stand in their table.
pub fn pair_place(pair: &Pair) -> usize
    requires from_low { pair.now.from < 32 }
    requires to_low { pair.now.to < 32 }
    ensures place { (g : ℕ) → result ≡ pair_place (pair_data g pair.now) }
    ensures within { result < 1024 }
{
    SITES * usize::from(pair.from) + usize::from(pair.to)
}

// The rights of an R or an E row, added to those that stand there for its two sites.
pub fn put_pair(t: &mut [u8; HOMES], pair: &Pair)
    requires from_low { pair.now.from < 32 }
    requires to_low { pair.now.to < 32 }
    ensures { (g : ℕ) (above : List Row) → t.old ≡ pairs_of g above → t.new ≡ pairs_of g (above ++ (pair_data g pair.now ∷ [])) }
{
    t[pair_place(pair)] |= pair.rights;
}

// Where the t of a D row stands in the row of its sandbox.
fn column(toward: Toward) -> usize
    ensures { result ≡ get_or (sites_to toward) 0 32 }
{
    match toward {
        Toward::Site(s) => usize::from(s),
        Toward::Own => OWN,
    }
}

// Where the rights of a D row stand in their table.
pub fn box_place(sandbox: &Sandbox) -> usize
    requires number_low { sandbox.now.number < 32 }
    requires toward_low { get_or (sites_to sandbox.now.toward) 0 32 ≤ 32 }
    ensures place { result ≡ box_place (box_data sandbox.now) }
    ensures within { result < 1056 }
{
    BOX * usize::from(sandbox.number) + column(sandbox.toward)
}

// The rights of a D row, in place of what stands there for its sandbox and its site or `self`.
pub fn put_box(t: &mut [u8; BOXES], sandbox: &Sandbox)
    requires number_low { sandbox.now.number < 32 }
    requires toward_low { get_or (sites_to sandbox.now.toward) 0 32 ≤ 32 }
    ensures { (start : List ℕ) (above : List Row) → t.old ≡ boxes_of start above → t.new ≡ boxes_of start (above ++ (box_data sandbox.now ∷ [])) }
{
    t[box_place(sandbox)] = sandbox.rights;
}

// The site of a B row, added to the set of its variable. One statement, as for R and E rows: one function over both tables, with the
// place and what is added handed to it, would be longer than both.
pub fn put_bound(t: &mut [u32; VARIABLES], bound: &Bound)
    requires variable_low { bound.now.variable < 32 }
    requires site_low { bound.now.site < 32 }
    ensures { (above : List Row) → t.old ≡ bounds_of above → t.new ≡ bounds_of (above ++ (bound_data bound.now ∷ [])) }
{
    t[usize::from(bound.variable)] |= sets::single(bound.site as u8);
}
