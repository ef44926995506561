// A number of 64 bits from its decimal digits, for programs.
#![tactic(auto)]

ghost use Rattle.std.specs.Prelude.{◌≡◌};
ghost use Rattle.decimal.specs.Digits.{number_of};

// The number that a text is: decimal digits, at least one, of a number below 2^64.
pub fn number(s: &[u8]) -> Option<u64>
    ensures { result ≡ number_of s.now }
{
    if s.is_empty() {
        return None;
    }
    let mut n: u64 = 0;
    for &b in s {
        if !b.is_ascii_digit() {
            return None;
        }
        let digit = u64::from(b - b'0');
        n = n.checked_mul(10)?.checked_add(digit)?;
    }
    Some(n)
}
