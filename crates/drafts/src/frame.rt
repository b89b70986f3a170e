// The binders around what is read.
ghost use Rattle.std.specs.Prelude.{◌≡◌};

use text::lookup::Named;
use text::names::Name;

// A binder: the name that it binds, and its sign, whether an even number of `not` is around it.
#[derive(Clone, Copy, Debug, PartialEq, Eq)]
pub struct Frame {
    pub name: Name,
    pub sign: bool,
}

// A frame is called by the name that its binder binds.
impl Named for Frame {
    ghost called = { λ f. f.name };

    fn is_called(&self, name: &Name) -> bool {
        self.name == *name
    }
}
