// What programs over recorded samples share: the samples of standard input, one after the other, and what is wrong in one to standard
// output. The comment lines at the top of the program `replay`'s `stdin` say how a sample is written. The input may have any length: it
// is read in parts, and one part and one sample of it are kept. Proved safe and to end; what it answers is tested by the programs.
#![tactic(auto)]

ghost use Rattle.std.specs.Prelude.{◌≡◌, ◌<◌, ◌≤◌, true, length};

// The bytes that are read at a time.
pub const PART: usize = 65536;

pub type Part = [u8; PART];

// Room for the two lines of a sample.
pub const SAMPLE: usize = 200000;

pub type Sample = [u8; SAMPLE];

// ── samples ──

// How far the input is taken.
#[derive(Clone, Copy)]
pub struct Place {
    // Bytes of the present part.
    pub read: usize,
    // How many of them are taken.
    pub taken: usize,
}

// A line of the input, behind what a sample has of it.
#[derive(Clone, Copy)]
struct Line {
    // Bytes of the sample with the line.
    bytes: usize,
    // The input ended with it.
    last: bool,
}

// A sample, and where the input goes on.
#[derive(Clone, Copy)]
pub struct Cut {
    // Its bytes, both lines.
    pub bytes: usize,
    // Those of its first line.
    pub first: usize,
    pub place: Place,
}

// The start of the input.
pub fn start() -> Place {
    Place { read: 0, taken: 0 }
}

// The next byte of the input, if it does not end here. Where the present part is taken, the next one is read.
fn next_byte(rt: &impl Input, part: &mut Part, place: &mut Place) -> Option<u8> {
    if place.read <= place.taken {
        place.read = body_input::read_full(rt, part);
        place.taken = 0;
    }
    let byte = *part.get(place.taken..place.read)?.first()?;
    place.taken += 1;
    Some(byte)
}

// The next line of the input, behind the first bytes of a sample. Nothing says that it ends, so its bytes are counted, up to a number that
// no run uses up.
fn take_line(
    rt: &impl Input,
    part: &mut Part,
    place: &mut Place,
    sample: &mut Sample,
    from: usize,
) -> Line {
    let mut bytes = from;
    for _ in 0..u64::MAX {
        match next_byte(rt, part, place) {
            None => return Line { bytes, last: true },
            Some(b'\n') => return Line { bytes, last: false },
            Some(b) => bytes = body_text::push(sample, bytes, b),
        }
    }
    Line { bytes, last: true }
}

// The first n bytes of a sample are its first line, and neither a comment nor empty.
fn begins(s: &[u8], n: usize) -> bool {
    n <= s.len() && body_text::has_body(&s[..n])
}

// The next sample of the input, behind the comments and empty lines before it; none at the end of the input. Where the input ends with
// its first line, its second one is empty. The lines are counted as bytes are.
pub fn next_sample(rt: &impl Input, part: &mut Part, sample: &mut Sample, p: Place) -> Option<Cut> {
    let mut place = p;
    for _ in 0..u64::MAX {
        let line = take_line(rt, part, &mut place, sample, 0);
        if begins(sample, line.bytes) {
            let first = line.bytes;
            let from = body_text::push(sample, first, b'\n');
            let bytes = take_line(rt, part, &mut place, sample, from).bytes;
            return Some(Cut {
                bytes,
                first,
                place,
            });
        }
        if line.last {
            return None;
        }
    }
    None
}

// ── what is right ──

// Every byte or cell from the place f on is x.
pub fn filled<T: PartialEq>(s: &[T], f: usize, x: &T) -> bool
    ensures { length s.now ≤ f → result ≡ true }
{
    for i in f..s.len() {
        if s[i] != *x {
            return false;
        }
    }
    true
}

// Every byte from the place f on is x.
pub fn bytes_filled(s: &[u8], f: usize, x: u8) -> bool {
    filled(s, f, &x)
}

// A hash with one number more.
fn mix(h: u32, x: u16) -> u32
    ensures { result < 4294967291 }
{
    ((u64::from(h) * 31 + u64::from(x)) % 4294967291) as u32
}

// A hash with all numbers of a table: 0 stays 0 as long as there are zeros alone.
pub fn hash(h: u32, table: &[u16]) -> u32
    ensures { h < 4294967291 → result < 4294967291 }
{
    let mut hash = h;
    for x in table {
        hash = mix(hash, *x);
    }
    hash
}

// Names a sample and what is wrong in it, if it is; whether it is right. What standard output does not take is lost.
pub fn told(rt: &impl Print, name: &[u8], what: &[u8], good: bool) -> bool {
    if !good {
        let _ = rt.write_all(name);
        let _ = rt.write_all(b": ");
        let _ = rt.write_all(what);
        let _ = rt.write_all(b"\n");
    }
    good
}

// A count with one more that is right.
pub fn counted(n: u64, good: bool) -> u64 {
    n.saturating_add(u64::from(good))
}

// A line with a count. What standard output does not take is lost.
pub fn put_count(rt: &impl Print, what: &[u8], n: u64) {
    let _ = rt.write_all(what);
    let _ = println!(rt; "={n}");
}
