//! An estimate, read from its bytes.
#![tactic(auto)]

ghost use Rattle.std.specs.Prelude.{◌≡◌, List, [], ◌∷◌, ◌++◌, ◌<◌, eqb, leb};
ghost use Rattle.klaim.specs.Rows as Spec;
ghost use Rattle.klaim.specs.Rows.{group_b, group_a};
ghost use Rattle.klaim.specs.Reader.{Text, estimate_of, read_estimate};
ghost use Rattle.klaim.specs.Refusals.{answer_of};
ghost use Rattle.tables.specs.View.{estimate_view};
ghost use Rattle.forms.specs.Forms.{group_number, row_data};
ghost use Rattle.scan.specs.Reasons.{Passed};
ghost use Rattle.estimates.specs.Rows.{EstimateTables, EstimateHolds, full_of, placed_of};

mod reading;

use entries::BLANK_TUPLE;
use forms::{Group, Row};
use klaim::Refusal;
use reading::EstimateReader;
use repeats::Keys;
use scan::{Reader, Tally};
use tables::{Estimate, HOMES, TUPLES, Tuples, VARIABLES};

// Whether a group is that of the tuples, and whether it is one of an estimate's.
fn is_tuples(group: Group) -> bool
    ensures { result ≡ eqb (group_number group) group_a }
{
    group == Group::A
}

fn is_own(group: Group) -> bool
    ensures { result ≡ leb group_b (group_number group) }
{
    Group::B <= group
}

impl EstimateReader {
    // The row put into its table.
    fn keep(&mut self, row: &Row)
        requires { Passed (row_data row.now) (full_of (row_data row.now).group self.old) (placed_of (row_data row.now).group self.old.tally) }
        ensures tally_same { self.new.tally ≡ self.old.tally }
        ensures tables { (above : List Spec.Row) → EstimateTables above self.old → EstimateTables (above ++ (row_data row.now ∷ [])) self.new }
    {
        match row {
            Row::B(bound) => stores::put_bound(&mut self.binds, bound),
            Row::A(tuple) => {
                self.stand.push(entries::tuple(tuple));
                repeats::keep_key(&mut self.keys, tuple);
            }
            Row::E(pair) => stores::put_pair(&mut self.hold, pair),
            _ => {}
        }
    }

    // The estimate that is read.
    fn finish(&self) -> Estimate
        ensures { (t : Text) (rows : List Spec.Row) → EstimateHolds t rows self.now → estimate_view result ≡ estimate_of rows }
    {
        Estimate {
            binds: self.binds,
            stand: self.stand,
            hold: self.hold,
        }
    }
}

impl Reader for EstimateReader {
    ghost holds = { EstimateHolds };

    ghost full_at = { full_of };

    ghost placed_at = { λ g r. placed_of g r.tally };

    fn is_full(&self, group: Group) -> bool {
        // `&` has no branch, so that the proof has one path.
        is_tuples(group) & (TUPLES <= self.stand.count)
    }

    fn is_placed(&self, group: Group) -> bool {
        is_own(group) & self.tally.in_order(group)
    }

    fn is_seen(&self, row: &Row) -> bool {
        match row {
            Row::B(bound) => repeats::bound_seen(&self.binds, bound),
            Row::A(tuple) => repeats::tuple_seen(&self.keys, tuple),
            Row::E(pair) => repeats::pair_seen(&self.hold, pair),
            _ => false,
        }
    }

    fn size(&self) -> u16 {
        self.tally.size
    }

    fn put(&mut self, row: &Row) {
        self.keep(row);
        // No lines stand in an estimate.
        self.tally.count(row, 0);
    }
}

// An estimate from its bytes, given the n of the net.
pub fn read_estimate(n: u8, s: &[u8]) -> Result<Estimate, Refusal>
    ensures { answer_of estimate_view result ≡ read_estimate n s.now }
{
    // Made in its place, as a net's.
    let mut reader = EstimateReader {
        binds: [0; VARIABLES],
        stand: Tuples::empty(BLANK_TUPLE),
        keys: Keys::empty(0),
        hold: [0; HOMES],
        tally: Tally::start(n),
    };
    scan::read(&mut reader, s)?;
    Ok(reader.finish())
}
