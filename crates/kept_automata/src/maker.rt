//! Makers.

ghost use Rattle.std.specs.Prelude.{◌≡◌, IfOk, IsTrue};
ghost use Rattle.mode_expression.specs.Form.{Form, form_of, IsUsable};

use mode_expression::Expr;
use std::alloc::{AllocError, Global};

/// How something is made of an expression.
pub trait Maker: Copy {
    /// What it makes.
    type Made: Drop;

    /// Whether it can make anything.
    ghost can_make: { Self → Type 0 } = { λ _. Unit {0} };

    /// What it makes of an expression of this form.
    ghost is_made: { Self → Form → Self.Made → Type 0 };

    /// Whether this is the same maker, which makes the same.
    fn is_same(&self, other: &Self) -> bool
        ensures { IsTrue result → self.now ≡ other.now };

    /// Makes it of an expression.
    fn make(&self, alloc: Global, expr: &Expr) -> Result<Self::Made, AllocError>
        requires can { can_make self.now }
        requires usable { IsUsable (form_of expr.now) }
        ensures { IfOk result (is_made self.now (form_of expr.now)) };

    /// That it was made of an expression of this form is seen from what was made.
    ghost known: { (maker : Self) (form : Form) (made : Self.Made) → ∥ is_made maker form made ∥₁
        → is_made maker form made };
}
