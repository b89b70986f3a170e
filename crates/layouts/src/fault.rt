// What a reader says where a text leaves the layout that it reads.
ghost use Rattle.std.specs.Prelude.{◌≡◌};
ghost use Rattle.layouts.specs.declared.fault.LineFault.TheVariants.{Digits};

// A number is not well formed; `at` is the byte at which that shows.
#[derive(Clone, Copy, Debug, PartialEq, Eq)]
pub struct NumberFault {
    pub at: usize,
}

// A line leaves its layout in a number, or at the byte `at` that is not the one due there.
#[derive(Clone, Copy, Debug, PartialEq, Eq)]
pub enum LineFault {
    Digits(NumberFault),
    Other { at: usize },
}

// So that `?` carries a number's fault up, whole.
impl From<NumberFault> for LineFault {
    ghost from_gives = { λ f r. r ≡ Digits f };

    fn from(fault: NumberFault) -> LineFault {
        LineFault::Digits(fault)
    }
}
