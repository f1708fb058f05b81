ghost use Rattle.std.specs.Prelude.{◌≡◌, ◌≤◌, ℕ};
ghost use Rattle.px_vol.specs.Volume.{norm, greatest, product_of, quotient_of};

/// Laws: a volume divided by another that is no less, and at most `NORM`, is the volume again once multiplied by that one; and `NORM`
/// changes nothing. It does nothing.
pub fn dividing_is_undone()
    ensures undone { (a b : ℕ) → a ≤ b → b ≤ norm → product_of (quotient_of a b) b ≡ a }
    ensures neutral { (a : ℕ) → a ≤ greatest → product_of a norm ≡ a }
{}
