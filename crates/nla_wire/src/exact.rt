//! Equality that decides equality.

ghost use Rattle.std.specs.Prelude.{◌≡◌, ◌↔◌, IsTrue};
ghost use Rattle.std.specs.Bool.{Decides};

/// A type whose `==` is true exactly where two values are equal.
pub trait Exact: PartialEq {
    ghost decides: { (x y : Self) → Decides (Self.eq x y) (x ≡ y) };
}

/// Whether two values are equal.
pub fn same<T: Exact>(a: &T, b: &T) -> bool
    ensures { IsTrue result ↔ (a.now ≡ b.now) }
{
    a == b
}
