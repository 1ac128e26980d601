// A filing that its figures let pass.
ghost use Rattle.std.specs.Prelude.{◌≡◌, true};
ghost use Rattle.preview.specs.Judge.{passes};

use crate::asked::Terms;

/// A filing whose quantity, amount and prices the exchange accepts.
#[derive(Clone, Copy)]
pub struct Filing {
    pub terms: Terms,
    ghost good: { passes terms ≡ true },
}
