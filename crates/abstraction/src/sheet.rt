ghost use Rattle.std.specs.Prelude.{◌<◌};
ghost use Rattle.std.specs.List.{All};
ghost use Rattle.lists.specs.Items.{items};
ghost use Rattle.systems.specs.Limits.{max_events};

use crate::rule::Rule;
use lists::FixedList;

// The most rules of a sheet.
pub const MAX_RULES: usize = 16;

// The rules by which an abstraction shows events, at most 16.
#[derive(Clone, Copy, Debug, PartialEq, Eq)]
pub struct Sheet {
    pub(crate) rules: FixedList<Rule, MAX_RULES>,
    ghost small: { All (λ r. (r.seen < max_events) × (r.shown < max_events)) (items rules) },
}
