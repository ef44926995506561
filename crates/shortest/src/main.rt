// Reads a body on standard input and prints the answer, its PLACE, and a shortest set of its equations that have no common solution, as far
// as the number of subsets that may be tested allows, with the line `below=` (document 02 n). That number is the first argument, decimal
// and below 2^64; with `where` behind it each line has the node whose rule raised the equation and its two sides too. With any other
// arguments nothing is printed but a line on standard error. Of a longer input 65,537 bytes are read, which is enough to decline it. Where
// standard input cannot be read or standard output cannot be written, a line on standard error says so.
#![tactic(auto)]

use body_input::Console;
use conflict_set::{Lines, Sought};
use std::env::Env;

// Room for the longest number; an argument that is longer is read as an empty one.
const DIGITS: usize = 20;

// The number that argument i is.
fn number(rt: &impl Env, i: usize) -> Option<u64> {
    let mut a = [0u8; DIGITS];
    let n = quarrel_program::arg(rt, i, &mut a);
    decimal::number(&a[..n])
}

// The search that the arguments ask for; the program's name is one of them.
fn search_wanted(rt: &impl Env) -> Option<Sought> {
    let lines = if !quarrel_program::has_arg(rt, 2) {
        Lines::Numbers
    } else if !quarrel_program::has_arg(rt, 3) && quarrel_program::is_where(rt, 2) {
        Lines::Places
    } else {
        return None;
    };
    Some(Sought::Shortest(lines, number(rt, 1)?))
}

fn main(rt: HostRuntime) {
    let console = Console {
        out: &rt,
        err: &rt.stderr(),
        program: b"shortest",
    };
    match search_wanted(&rt) {
        Some(sought) => quarrel_program::run(&rt, &console, sought),
        None => console.complain(
            b"the arguments are a number of subsets below 2^64, and where if the places are wanted\n",
        ),
    }
}
