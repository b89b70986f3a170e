ghost use Rattle.std.specs.Prelude.{◌≡◌, Some};
ghost use Rattle.abstraction.specs.Rules.{number_of};
ghost use Rattle.abstraction.specs.Wording.{complaint};

use std::error::Error;
use std::fmt;

// Why a rule is not added to a sheet.
#[derive(Clone, Copy, Debug, PartialEq, Eq)]
pub enum RuleRefusal {
    // The sheet holds 16 rules.
    SheetFull,
    // An event of the rule is not below 64.
    NoSuchEvent,
}

// A refusal is shown in words.
impl fmt::Display for RuleRefusal {
    ghost output = { λ e. Some (complaint e) };

    fn fmt<W: fmt::Write>(&self, f: &mut fmt::Formatter<W>) -> fmt::Result {
        f.write_str(match self {
            RuleRefusal::SheetFull => "the sheet has 16 rules already",
            RuleRefusal::NoSuchEvent => "an event of the rule is not below 64",
        })
    }
}

impl Error for RuleRefusal {}

// The number under which the refusal is told.
impl From<RuleRefusal> for u8 {
    ghost from_gives = { λ e n. n ≡ number_of e };

    fn from(refusal: RuleRefusal) -> u8 {
        match refusal {
            RuleRefusal::SheetFull => 23,
            RuleRefusal::NoSuchEvent => 24,
        }
    }
}
