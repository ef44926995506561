// Reads the bodies of standard input into two tables, and prints a line for each. The comment lines at the top of `stdin` say how a
// body is written and how its line is read. Before each body both tables are filled with the number 7.
#![tactic(auto)]

ghost use Rattle.std.specs.Prelude.{◌≤◌};

use body::Answer;
use body_text::Room;
use forms::Fault;
use refs::Counts;

// The two tables, five and six numbers longer than the reader needs.
type Rows = [u16; 9610];

type Cells = [u16; 94722];

// ── printing: what standard output does not take is lost ──

// A refusal, by document 01's number, and its line.
fn put_refused(rt: &impl Print, fault: Fault, line: usize) {
    let number = match fault {
        Fault::Form => 3,
        Fault::Limit => 4,
        Fault::Reference => 5,
        Fault::Levels => 6,
    };
    let _ = print!(rt; " {number},{line}");
}

// How many types, defs, insts, binds, nodes and fields there are.
fn put_counts(rt: &impl Print, n: Counts) {
    let _ = print!(rt;
        " {},{},{},{},{},{}",
        n.types, n.defs, n.insts, n.binds, n.nodes, n.fields
    );
}

// The answer and its place, and for a body the counts.
fn put_answer(rt: &impl Print, answer: Answer) {
    match answer {
        Answer::Body(n) => {
            let _ = rt.print(" 0,-");
            put_counts(rt, n);
        }
        Answer::TooLong => {
            let _ = rt.print(" 1,-");
        }
        Answer::ShortTable => {
            let _ = rt.print(" 2,-");
        }
        Answer::Refused(fault, line) => put_refused(rt, fault, line),
    }
}

// The hash of both tables.
fn put_hash(rt: &impl Print, rows: &[u16], cells: &[u16]) {
    let _ = print!(rt;
        " {}",
        sample_input::hash(sample_input::hash(0, rows), cells)
    );
}

// A row or a field: its numbers, with dots between them.
fn put_numbers(rt: &impl Print, numbers: &[u16]) {
    let mut before = ' ';
    for x in numbers {
        let _ = print!(rt; "{before}{x}");
        before = '.';
    }
}

// n rows, from the row r on: of each its form, its first field, how many fields it has, its levels and its user.
fn put_rows(rt: &impl Print, rows: &[u16], r: usize, n: u16) {
    for row in rows.chunks_exact(5).skip(r).take(usize::from(n)) {
        put_numbers(rt, row);
    }
}

// The first n fields: of each its name, its tag and its value.
fn put_fields(rt: &impl Print, cells: &[u16], n: u16) {
    for field in cells.chunks_exact(3).take(usize::from(n)) {
        put_numbers(rt, field);
    }
}

// All rows and all fields of a body.
fn put_tables(rt: &impl Print, n: Counts, rows: &[u16], cells: &[u16]) {
    put_rows(rt, rows, 0, n.types);
    put_rows(rt, rows, 512, n.defs);
    put_rows(rt, rows, 768, n.insts);
    put_rows(rt, rows, 832, n.binds);
    put_rows(rt, rows, 896, n.nodes);
    put_rows(rt, rows, 1920, 1);
    let _ = rt.print(" :");
    put_fields(rt, cells, n.fields);
}

// How many lines a body has.
fn lines(n: Counts) -> u32 {
    u32::from(n.types)
        + u32::from(n.defs)
        + u32::from(n.insts)
        + u32::from(n.binds)
        + u32::from(n.nodes)
        + 1
}

// The tables of a body of at most eight lines.
fn put_short(rt: &impl Print, answer: Answer, rows: &[u16], cells: &[u16]) {
    match answer {
        Answer::Body(n) if lines(n) < 9 => put_tables(rt, n, rows, cells),
        _ => {}
    }
}

// ── cases ──

// How many numbers of each table are lent.
#[derive(Clone, Copy)]
struct Lent {
    rows: usize,
    cells: usize,
}

// By the mark at the end of a body's name, a `!` and a letter.
fn lent_by(name: &[u8]) -> Lent
    ensures rows { result.rows ≤ 9610 }
    ensures cells { result.cells ≤ 94722 }
{
    let (rows, cells) = match name {
        [.., b'!', b'R'] => (9604, 94716),
        [.., b'!', b'C'] => (9605, 94715),
        [.., b'!', b'L'] => (9610, 94722),
        _ => (9605, 94716),
    };
    Lent { rows, cells }
}

// A body, its answer and its tables.
fn run_body(rt: &impl Print, s: &[u8], rows: &mut [u16], cells: &mut [u16]) {
    let answer = body::read_body(s, rows, cells);
    put_answer(rt, answer);
    put_hash(rt, rows, cells);
    put_short(rt, answer, rows, cells);
}

// A case: its name, and what its body gives on the parts of the tables that the name says.
fn run_case(rt: &impl Print, s: &[u8], room: &mut Room, rows: &mut Rows, cells: &mut Cells) {
    let end = body_text::find(s, 0, b' ');
    let name = &s[..end];
    let n = body_text::expand_line(room, s, end);
    let lent = lent_by(name);
    let _ = rt.write_all(name);
    run_body(
        rt,
        &room[..n],
        &mut rows[..lent.rows],
        &mut cells[..lent.cells],
    );
    let _ = rt.print("\n");
}

// A line: a comment, or a case on tables that are filled with 7.
fn run_line(rt: &impl Print, s: &[u8], room: &mut Room, rows: &mut Rows, cells: &mut Cells) {
    if body_text::has_body(s) {
        *rows = [7; 9610];
        *cells = [7; 94722];
        run_case(rt, s, room, rows, cells);
    }
}

// The cases of standard input, up to 65,536 bytes.
fn main(rt: HostRuntime) {
    let mut room = [0u8; body_text::ROOM];
    let mut rows = [0u16; 9610];
    let mut cells = [0u16; 94722];
    let mut text = [0u8; body_input::TEXT];
    let n = body_input::read_full(&rt, &mut text);
    for line in text[..n].split(|b| *b == b'\n') {
        run_line(&rt, line, &mut room, &mut rows, &mut cells);
    }
}
