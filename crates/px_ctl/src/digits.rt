// Decimal numbers in words.
ghost use Rattle.std.specs.Prelude.{◌≡◌};
ghost use Rattle.px_ctl.specs.Number.{number_in, in_64_bits, in_32_bits};

/// The number of 64 bits that a word of decimal digits, at least one, writes.
pub fn number(word: &[u8]) -> Option<u64>
    ensures { result ≡ in_64_bits (number_in word.now) }
{
    if word.is_empty() {
        return None;
    }
    let mut n: u64 = 0;
    for c in word {
        if *c < b'0' || *c > b'9' {
            return None;
        }
        let Some(tens) = n.checked_mul(10) else {
            return None;
        };
        let Some(next) = tens.checked_add(u64::from(*c - b'0')) else {
            return None;
        };
        n = next;
    }
    Some(n)
}

/// The same of 32 bits.
pub(crate) fn number_of_32_bits(word: &str) -> Option<u32>
    ensures { result ≡ in_32_bits (in_64_bits (number_in word.now)) }
{
    match number(word.as_bytes()) {
        Some(n) if n <= 0xFFFF_FFFF => Some(n as u32),
        _ => None,
    }
}
