// What programs share that read standard input: the body from there, or as many bytes as a buffer takes, and text to standard output.
#![tactic(auto)]

ghost use Rattle.std.specs.Prelude.{◌≤◌, length, IfOk};

use std::io;
use std::io::Read;

// One byte more than a body may have: of a longer input so many bytes are read, which is enough to decline it, and the rest is left.
pub const INPUT: usize = 65537;

// The bytes of output that are lent.
pub const OUTPUT: usize = 65536;

// The bytes of standard input that a program over many bodies or cases reads at most.
pub const TEXT: usize = 65536;

// Fills a buffer from standard input, as far as that goes, or up to a read that fails: how many bytes that are, and how it ended.
fn fill(rt: &impl Input, buf: &mut [u8]) -> (usize, io::Result<()>)
    ensures { result.0 ≤ length buf.new }
{
    let mut stdin = rt.reader();
    let mut n = 0;
    while n < buf.len() {
        match stdin.read(&mut buf[n..]) {
            Ok(0) => break,
            Ok(k) => n += k,
            Err(e) => return (n, Err(e)),
        }
    }
    (n, Ok(()))
}

// Fills a buffer from standard input, as far as that goes; how many bytes that are.
pub fn read_input(rt: &impl Input, buf: &mut [u8]) -> io::Result<usize>
    ensures { IfOk result (λ n. n ≤ length buf.new) }
{
    let (n, end) = fill(rt, buf);
    end?;
    Ok(n)
}

// Fills a buffer from standard input, as far as that goes, or up to a read that fails; how many bytes that are.
pub fn read_full(rt: &impl Input, buf: &mut [u8]) -> usize
    ensures { result ≤ length buf.new }
{
    let (n, _) = fill(rt, buf);
    n
}

// Where a program prints: standard output, and standard error behind its name.
#[derive(Clone, Copy)]
pub struct Console<'a, O, E> {
    pub out: &'a O,
    pub err: &'a E,
    pub program: &'a [u8],
}

impl<O: Print, E: Print> Console<'_, O, E> {
    // Prints a text; where standard output cannot be written, a line on standard error.
    pub fn put(&self, s: &[u8]) {
        if self.out.write_all(s).is_err() {
            self.complain(b"standard output cannot be written\n");
        }
    }

    // Prints the first n bytes of the output.
    pub fn put_output(&self, text: &[u8], n: usize) {
        if let Some(text) = text.get(..n) {
            self.put(text);
        }
    }

    // A line on standard error, behind the program's name. Where that cannot be written, it is lost.
    pub fn complain(&self, line: &[u8]) {
        let _ = self.err.write_all(self.program);
        let _ = self.err.write_all(b": ");
        let _ = self.err.write_all(line);
    }
}
