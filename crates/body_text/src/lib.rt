// Turns a body that stands in one line of text into its bytes: `/` is a line feed, `\hh` a byte, `{N:T}` and `{N+S:T}` a repetition.
// The comment lines at the top of the program `replay`'s `stdin` say it in full.
#![tactic(auto)]

ghost use Rattle.std.specs.Prelude.{◌≡◌, ◌+◌, ◌-◌, ◌<◌, ◌≤◌, length, drop};
ghost use Rattle.lex.specs.Text.{before};

use std::fmt;
use std::fmt::Write;

// Room for more bytes than a body may have.
pub const ROOM: usize = 65600;

pub type Room = [u8; ROOM];

// The place of the first byte b from `at` on, or the end; `at` itself where it is behind the end.
pub fn find(s: &[u8], at: usize, b: u8) -> usize
    ensures value { result ≡ at + before b (drop at s.now) }
    ensures within { (at ≤ result) × (result - at ≤ length s.now - at) }
{
    lex::field_end(s, at, b)
}

// The bytes in front of the first byte b, and those behind it: all and none where there is no such byte.
fn cut(s: &[u8], b: u8) -> (&[u8], &[u8])
    ensures { length (result.1).now ≤ length s.now - 1 }
{
    match s.split_at(find(s, 0, b)) {
        (before, [_, behind @ ..]) => (before, behind),
        (before, []) => (before, &[]),
    }
}

// A number with one digit more, at most 65,535.
fn with_digit(n: u16, digit: u8) -> u16 {
    n.saturating_mul(10)
        .saturating_add(u16::from(digit.saturating_sub(b'0')))
}

// The number behind the first k bytes of a text that are no digits; 0 where there is none.
fn number(s: &[u8], k: usize) -> u16 {
    s.split(|b| !b.is_ascii_digit())
        .nth(k)
        .unwrap_or(&[])
        .iter()
        .fold(0, |n, digit| with_digit(n, *digit))
}

// What a sign of a hexadecimal number stands for, 0 for any other byte.
fn sign(b: u8) -> u8
    ensures { result < 16 }
{
    match b {
        b'0'..=b'9' => b - b'0',
        b'a'..=b'f' => b - b'a' + 10,
        _ => 0,
    }
}

// One byte more at the place n, where there is room; the next place.
pub fn push<const N: usize>(room: &mut [u8; N], n: usize, b: u8) -> usize
    ensures { n ≤ N → result ≤ N }
{
    if n < N {
        room[n] = b;
        n + 1
    } else {
        n
    }
}

// The bytes of a body so far, at the start of a room. One that has no room is dropped.
#[derive(Drop)]
struct Body<'a> {
    room: &'a mut Room,
    len: usize,
    ghost within: { len ≤ 65600 },
}

impl Body<'_> {
    // A byte.
    fn push(&mut self, b: u8) {
        self.len = push(self.room, self.len, b);
    }

    // A text with no repetition in it, in the turn of that number: `/` is a line feed, `#` the turn, `\hh` a byte, any other byte itself.
    fn push_text(&mut self, text: &[u8], turn: u32) {
        let mut rest = text;
        while let [b, behind @ ..] = rest {
            rest = behind;
            match *b {
                b'\\' => {
                    let [high, low, behind @ ..] = rest else {
                        return;
                    };
                    self.push(sign(*high) * 16 + sign(*low));
                    rest = behind;
                }
                b'/' => self.push(b'\n'),
                b'#' => {
                    let _ = write!(self, "{turn}");
                }
                b => self.push(b),
            }
        }
    }

    // A repetition without its braces: how often, the first turn's number, 0 where none stands, and the text.
    fn push_group(&mut self, group: &[u8]) {
        let (counts, text) = cut(group, b':');
        let first = u32::from(number(counts, 1));
        let count = u32::from(number(counts, 0));
        for turn in first..first + count {
            self.push_text(text, turn);
        }
    }
}

impl fmt::Write for Body<'_> {
    fn write_str(&mut self, s: &str) -> fmt::Result {
        for b in s.as_bytes() {
            self.push(*b);
        }
        Ok(())
    }
}

// The bytes of a body, and how many they are.
pub fn expand(room: &mut Room, t: &[u8]) -> usize
    ensures { result ≤ ROOM }
{
    let mut body = Body { room, len: 0 };
    let mut rest = t;
    while !rest.is_empty() {
        let (text, behind) = cut(rest, b'{');
        body.push_text(text, 0);
        let (group, behind) = cut(behind, b'}');
        body.push_group(group);
        rest = behind;
    }
    body.len
}

// Whether a line holds a body: it is not empty, and no comment.
pub fn has_body(s: &[u8]) -> bool {
    !matches!(s, [] | [b'#', ..])
}

// The text of a line whose name ends at the place e, as the bytes of a body.
pub fn expand_line(room: &mut Room, s: &[u8], e: usize) -> usize
    ensures { result ≤ ROOM }
{
    if e < s.len() {
        expand(room, &s[e + 1..])
    } else {
        0
    }
}
