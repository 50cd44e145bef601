//! A process line as it stands in its table.

ghost use Rattle.std.specs.Prelude.{◌≡◌, true};
ghost use Rattle.tables.specs.Low.{low_action};

use crate::Action;

// What it does. The sites, variables and sandboxes that it names are below their limits.
#[derive(Clone, Copy)]
pub struct Line {
    pub action: Action,
    pub ghost low: { low_action action ≡ true },
}
