// What the programs over one body that print equations without a common solution share: the argument `where`, and a run.
#![tactic(auto)]

ghost use Rattle.std.specs.Prelude.{◌≤◌, length};

use body_input::Console;
use conflict_check::Quarreled;
use conflict_set::Sought;
use std::env::{Env, FillError};

// Room for the argument `where`, and one byte more.
pub const WHERE: usize = 6;

// Whether the program was started with an argument i; its own name is argument 0.
pub fn has_arg(rt: &impl Env, i: usize) -> bool {
    let mut a = [0u8; 1];
    !matches!(rt.arg(i, &mut a), Err(FillError::NotPresent))
}

// Puts argument i at the start of a buffer; its length, or 0 where it is missing or longer than the buffer.
pub fn arg(rt: &impl Env, i: usize, buf: &mut [u8]) -> usize
    ensures { result ≤ length buf.new }
{
    rt.arg(i, buf).unwrap_or(0)
}

// Whether argument i is `where`.
pub fn is_where(rt: &impl Env, i: usize) -> bool {
    let mut a = [0u8; WHERE];
    let n = arg(rt, i, &mut a);
    &a[..n] == b"where".as_slice()
}

// The answer, and the text.
fn put_answer<O: Print, E: Print>(console: &Console<'_, O, E>, r: Quarreled, text: &[u8]) {
    let mut line = [0u8; quarrel_line::LINE];
    let n = quarrel_line::answer_line(&mut line, r);
    console.put_output(&line, n);
    console.put_output(text, quarrel_line::text_length(r));
}

// What is sought in a body.
fn run_body<O: Print, E: Print>(console: &Console<'_, O, E>, body: &[u8], sought: Sought) {
    let mut rows = [0u16; body::ROWS];
    let mut cells = [0u16; body::CELLS];
    let mut nodes = [0u16; answers::NODES];
    let mut vars = [0u16; answers::VARS];
    let mut types = [0u16; answers::TYPES];
    let mut memory = [0u16; answers::MEMORY];
    let mut text = [0u8; body_input::OUTPUT];
    let quarreled = conflict_check::quarrel_tables(
        body,
        &mut rows,
        &mut cells,
        &mut nodes,
        &mut vars,
        &mut types,
        answers::ERRORS,
        &mut [],
        &mut memory,
        &mut text,
        sought,
    );
    put_answer(console, quarreled, &text);
}

// Reads a body on standard input and prints the answer, its PLACE, and the text of what is sought.
pub fn run<O: Print, E: Print>(rt: &impl Input, console: &Console<'_, O, E>, sought: Sought) {
    let mut buf = [0u8; body_input::INPUT];
    match body_input::read_input(rt, &mut buf) {
        Ok(n) => run_body(console, &buf[..n], sought),
        Err(_) => console.complain(b"standard input cannot be read\n"),
    }
}
