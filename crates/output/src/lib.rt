// Bytes and decimal numbers into a lent output, one behind the other. The cursor is the place of the next byte; a byte without room makes it FULL,
// and so it stays. The bytes behind the text are unchanged as long as all of it has room.
#![tactic(auto)]

ghost use Rattle.std.specs.Prelude.{◌≡◌, ◌∷◌, [], ◌++◌};
ghost use Rattle.output.specs.Output.{Appends, Finishes, number_text, newline, zeros};

// The cursor behind a byte that had no room: no output is that long.
pub const FULL: usize = usize::MAX;

// A byte.
pub fn put(out: &mut [u8], c: usize, b: u8) -> usize
    ensures { Appends (b ∷ []) c out.old result out.new }
{
    if c < out.len() {
        out[c] = b;
        c + 1
    } else {
        FULL
    }
}

// Bytes.
pub fn put_all(out: &mut [u8], c: usize, s: &[u8]) -> usize
    ensures { Appends s.now c out.old result out.new }
{
    let mut d = c;
    for &b in s {
        d = put(out, d, b);
    }
    d
}

// A number in decimal digits, of which it has at most twenty: the last one first, into a room of their own.
pub fn put_number(out: &mut [u8], c: usize, n: usize) -> usize
    ensures { Appends (number_text n) c out.old result out.new }
{
    let mut digits = [0u8; 20];
    let mut rest = n;
    for at in (0..20usize).rev() {
        digits[at] = b'0' + (rest % 10) as u8;
        if rest < 10 {
            return put_all(out, c, &digits[at..]);
        }
        rest /= 10;
    }
    put_all(out, c, &digits)
}

// Bytes, and a number behind them.
pub fn put_field(out: &mut [u8], c: usize, s: &[u8], n: usize) -> usize
    ensures { Appends (s.now ++ number_text n) c out.old result out.new }
{
    let d = put_all(out, c, s);
    put_number(out, d, n)
}

// The same as a line.
pub fn put_line(out: &mut [u8], c: usize, s: &[u8], n: usize) -> usize
    ensures { Appends ((s.now ++ number_text n) ++ newline) c out.old result out.new }
{
    let d = put_field(out, c, s, n);
    put(out, d, b'\n')
}

// Zeros throughout.
fn clear(out: &mut [u8])
    ensures { out.new ≡ zeros out.old }
{
    out.fill(0);
}

// The end of a text, None where it had no room; then the output is zeros throughout.
pub fn finish(out: &mut [u8], c: usize) -> Option<usize>
    ensures { Finishes c out.old result out.new }
{
    if c == FULL {
        clear(out);
        None
    } else {
        Some(c)
    }
}
