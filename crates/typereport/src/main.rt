// Reads a body on standard input and prints its report. Of a longer input 65,537 bytes are read, which is enough to decline it, and the
// rest is left. Where standard input cannot be read, nothing is printed but a line on standard error; where standard output cannot be
// written, the same line says so. The exit status is 0 each time.
#![tactic(auto)]

use body_input::Console;

// The report of a body.
fn run<O: Print, E: Print>(console: &Console<'_, O, E>, body: &[u8]) {
    let mut text = [0u8; body_input::OUTPUT];
    let n = printed_report::put_report(body, &mut text);
    console.put_output(&text, n);
}

// The body of standard input.
fn main(rt: HostRuntime) {
    let console = Console {
        out: &rt,
        err: &rt.stderr(),
        program: b"typereport",
    };
    let mut buf = [0u8; body_input::INPUT];
    match body_input::read_input(&rt, &mut buf) {
        Ok(n) => run(&console, &buf[..n]),
        Err(_) => console.complain(b"standard input cannot be read\n"),
    }
}
