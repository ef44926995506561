// Runs bodies through `quarrel`, with both forms of its lines, and prints a line for each, for the programs of the gate. The comment lines at
// the top of their `stdin` say how a body is written and how its line is read. Before each run every cell of every table and every byte of
// the output is 7.
#![tactic(auto)]

use body_text::Room;
use conflict_check::Quarreled;
use conflict_set::{Lines, Sought};

// ── printing: what standard output does not take is lost ──

// The first n bytes, a slash for each line feed.
fn put_slashed(rt: &impl Print, s: &mut [u8], n: usize) {
    if let Some(text) = s.get_mut(..n) {
        for b in text.iter_mut() {
            if *b == b'\n' {
                *b = b'/';
            }
        }
        let _ = rt.write_all(text);
    }
}

// Whether what is behind the text is as it was, or on a refusal the whole output zero.
fn right_behind(r: Quarreled, out: &[u8]) -> bool {
    match r {
        Quarreled::Written(_, n) => {
            n <= out.len() && sample_input::bytes_filled(out, n, samples::BYTE_BEFORE)
        }
        _ => sample_input::bytes_filled(out, 0, 0),
    }
}

// What came of a run.
fn put_run(rt: &impl Print, r: Quarreled, out: &mut [u8]) {
    let mut line = [0u8; quarrel_line::LINE];
    let n = quarrel_line::answer_line(&mut line, r);
    let _ = rt.print(' ');
    put_slashed(rt, &mut line, n);
    if !right_behind(r, out) {
        let _ = rt.print("(behind the text)");
    }
    put_slashed(rt, out, quarrel_line::text_length(r));
}

// ── bodies ──

// A body on tables and an output that are lent as its name says.
fn run_tables(rt: &impl Print, name: &[u8], body: &[u8], sought: Sought) {
    let lent = samples::lengths_of(name);
    let mut rows = [samples::BEFORE; samples::ROWS];
    let mut cells = [samples::BEFORE; samples::CELLS];
    let mut nodes = [samples::BEFORE; samples::NODES];
    let mut vars = [samples::BEFORE; samples::VARS];
    let mut types = [samples::BEFORE; samples::TYPES];
    let mut log = [samples::BEFORE; samples::LOG];
    let mut memory = [samples::BEFORE; samples::MEMORY];
    let mut out = [samples::BYTE_BEFORE; samples::LONGEST];
    let out = &mut out[..lent.out];
    let quarreled = conflict_check::quarrel_tables(
        body,
        &mut rows[..lent.rows],
        &mut cells[..lent.cells],
        &mut nodes[..lent.nodes],
        &mut vars[..lent.vars],
        &mut types[..lent.types],
        lent.errors / 9,
        &mut log[..lent.log],
        &mut memory[..lent.memory],
        out,
        sought,
    );
    put_run(rt, quarreled, out);
}

// A body, with both forms of the lines: its minimal conflict, or with a number of subsets that may be tested a shortest one.
fn run_body(rt: &impl Print, name: &[u8], body: &[u8], subsets: Option<u64>) {
    for lines in [Lines::Numbers, Lines::Places] {
        let sought = match subsets {
            None => Sought::Minimal(lines),
            Some(n) => Sought::Shortest(lines, n),
        };
        run_tables(rt, name, body, sought);
    }
}

// What the lines of a text ask for.
#[derive(Clone, Copy)]
pub enum Cases {
    // A name and a body: its minimal conflict.
    Minimal,
    // A name, a number of subsets that may be tested and a body: a shortest one.
    Shortest,
}

// A case with its name alone.
fn run_named(rt: &impl Print, s: &[u8], room: &mut Room) {
    let e = body_text::find(s, 0, b' ');
    let name = &s[..e];
    let _ = rt.write_all(name);
    let n = body_text::expand_line(room, s, e);
    run_body(rt, name, &room[..n], None);
}

// A case with its name and a number.
fn run_numbered(rt: &impl Print, s: &[u8], room: &mut Room) {
    let e = body_text::find(s, 0, b' ');
    if e < s.len() {
        let f = body_text::find(s, e + 1, b' ');
        let _ = rt.write_all(&s[..f]);
        let n = body_text::expand_line(room, s, f);
        match decimal::number(&s[e + 1..f]) {
            Some(subsets) => run_body(rt, &s[..e], &room[..n], Some(subsets)),
            None => {
                let _ = rt.print(" (no number)");
            }
        }
    }
}

// A line: a comment, or a case.
fn run_line(rt: &impl Print, s: &[u8], room: &mut Room, k: Cases) {
    if body_text::has_body(s) {
        match k {
            Cases::Minimal => run_named(rt, s, room),
            Cases::Shortest => run_numbered(rt, s, room),
        }
        let _ = rt.print('\n');
    }
}

// The cases of standard input, up to 65,536 bytes.
pub fn run(rt: &(impl Input + Print), k: Cases) {
    let mut room = [0u8; body_text::ROOM];
    let mut text = [0u8; body_input::TEXT];
    let n = body_input::read_full(rt, &mut text);
    for line in text[..n].split(|b| *b == b'\n') {
        run_line(rt, line, &mut room, k);
    }
}
