// The lexical layer of a line: numbers, fields and words of a part of the input.
#![tactic(auto)]

ghost use Rattle.std.specs.Prelude.{◌∷◌, [], ◌≡◌, ◌+◌, ◌-◌, ◌≤◌, length, take, drop};
ghost use Rattle.lex.specs.Text.{number_of, digits_from, before, pack, scan_of};

// The number that a field is: decimal, no leading zero, at most 65,535; None where it is no such number.
pub fn number(s: &[u8]) -> Option<u16>
    ensures { result ≡ number_of s.now }
{
    let leading_zero = s.len() > 1 && s[0] == b'0';
    if s.is_empty() || leading_zero {
        return None;
    }
    let mut n = 0;
    for &x in s {
        n = with_digit(n, x)?;
    }
    Some(n)
}

// The number n with one more digit behind it; None where x is no digit, or the number would be above 65,535.
#[tactic(auto, unfolding(crate::specs::Text::digits_from))]
fn with_digit(n: u16, x: u8) -> Option<u16>
    ensures { result ≡ digits_from n (x ∷ []) }
{
    if !x.is_ascii_digit() {
        return None;
    }
    let m = u32::from(n) * 10 + u32::from(x - b'0');
    if m > 65535 {
        return None;
    }
    Some(m as u16)
}

// The field that starts at p, with the place of its end, where it is a number that does not begin with 0; None of any other, and behind
// the end.
pub fn scan(s: &[u8], p: usize) -> Option<(u16, usize)>
    ensures { result ≡ scan_of s.now p }
{
    if p >= s.len() || s[p] == b'0' || s[p] == b',' {
        return None;
    }
    let mut n = 0;
    for end in p..s.len() {
        if s[end] == b',' {
            return Some((n, end));
        }
        n = with_digit(n, s[end])?;
    }
    Some((n, s.len()))
}

// The end of the field that starts at p: the next separator, or the end; p itself where it is behind the end. Four bytes to a turn, then
// those that are left, for speed: every byte of a file is passed here (docs/DESIGN-PASS.md).
pub fn field_end(s: &[u8], p: usize, c: u8) -> usize
    ensures value { result ≡ p + before c (drop p s.now) }
    ensures within { (p ≤ result) × (result - p ≤ length s.now - p) }
{
    let mut e = p;
    let mut rest = s.get(p..).unwrap_or(&[]);
    while let [x, y, z, w, behind @ ..] = rest {
        if *x == c {
            return e;
        }
        if *y == c {
            return e + 1;
        }
        if *z == c {
            return e + 2;
        }
        if *w == c {
            return e + 3;
        }
        e += 4;
        rest = behind;
    }
    for x in rest {
        if *x == c {
            return e;
        }
        e += 1;
    }
    e
}

// A word as one number, 0 where it is too long or has a byte 0.
pub fn pack(s: &[u8]) -> u64
    ensures { result ≡ pack s.now }
{
    let mut a: u64 = 0;
    for &x in s {
        if a >= 1 << 56 || x == 0 {
            return 0;
        }
        a = a * 256 + u64::from(x);
    }
    a
}

// The word at the start of a line: where it ends, and its number.
#[derive(Clone, Copy)]
pub struct Word {
    pub end: usize,
    pub number: u64,
}

// The word before the first separator, in one pass.
pub fn word_to(s: &[u8], c: u8) -> Word
    ensures within { result.end ≤ length s.now }
    ensures end_value { (result.end ≡ before c s.now) × (result.number ≡ pack (take result.end s.now)) }
{
    let mut number: u64 = 0;
    for end in 0..s.len() {
        let x = s[end];
        if x == c {
            return Word { end, number };
        }
        if number >= 1 << 56 || x == 0 {
            return Word {
                end: field_end(s, end, c),
                number: 0,
            };
        }
        number = number * 256 + u64::from(x);
    }
    Word {
        end: s.len(),
        number,
    }
}
