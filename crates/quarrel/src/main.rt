// Reads a body on standard input and prints the answer, its PLACE, and which of its equations already have no common solution (document
// 02 f). With the argument `where` each line has the node whose rule raised the equation and its two sides too. With any other argument,
// or more than one, nothing is printed but a line on standard error. Of a longer input 65,537 bytes are read, which is enough to decline
// it. Where standard input cannot be read or standard output cannot be written, a line on standard error says so.
#![tactic(auto)]

use body_input::Console;
use conflict_set::{Lines, Sought};
use std::env::Env;

// The lines that the arguments ask for; the program's name is one of them.
fn lines_wanted(rt: &impl Env) -> Option<Lines> {
    if !quarrel_program::has_arg(rt, 1) {
        Some(Lines::Numbers)
    } else if !quarrel_program::has_arg(rt, 2) && quarrel_program::is_where(rt, 1) {
        Some(Lines::Places)
    } else {
        None
    }
}

fn main(rt: HostRuntime) {
    let console = Console {
        out: &rt,
        err: &rt.stderr(),
        program: b"quarrel",
    };
    match lines_wanted(&rt) {
        Some(lines) => quarrel_program::run(&rt, &console, Sought::Minimal(lines)),
        None => console.complain(b"the one argument that is known is where\n"),
    }
}
