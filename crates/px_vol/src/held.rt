ghost use Rattle.std.specs.Prelude.{◌≡◌, ◌≤◌, length, take};
ghost use Rattle.px_vol.specs.Held.{IsHeld, padded};

/// These numbers, padded with zeros.
pub fn in_place(numbers: &[u32]) -> [u32; 32]
    requires { length numbers.now ≤ 32 }
    ensures held { IsHeld (length numbers.now) result }
    ensures same { take (length numbers.now) result ≡ numbers.now }
{
    let mut items = [0; 32];
    items[..numbers.len()].copy_from_slice(numbers);
    items
}
