// Runs unification on the cases of standard input, and prints a line for each. The comment lines at the top of `stdin` say how a case is
// written and how its line is read; each case starts from a fresh memory with the variables v, w and x (Regular), i (Integer) and
// f (Float) as rows 14 to 18.
#![tactic(auto)]

use type_table::{Counts, DefId, InputRange, InstId, Kind, Made, NodeId, Row, TypeId, VarId};
use unify::Answer;

type Memory = [u16; type_table::MEMORY];

// A word: its letter and the three numbers behind it, 0 where there is none.
#[derive(Clone, Copy)]
struct Word {
    letter: u8,
    first: u16,
    second: u16,
    third: u16,
}

// ── printing: what standard output does not take is lost ──

// A blank and a text.
fn put(rt: &impl Print, s: &str) {
    let _ = print!(rt; " {s}");
}

// A blank and a number.
fn put_number(rt: &impl Print, n: u16) {
    let _ = print!(rt; " {n}");
}

// The answer and the cause, by document 01's numbers.
fn put_answer(rt: &impl Print, answer: Answer) {
    put(
        rt,
        match answer {
            Answer::Success => "0,0",
            Answer::Mismatch => "0,1",
            Answer::Refused12 => "12,0",
            Answer::Refused13 => "13,0",
        },
    );
}

// A variable's binding, and its mark.
fn put_variable(rt: &impl Print, m: &[u16], c: Counts, v: VarId) {
    match type_table::bound_to(m, c, v) {
        Some(x) => put_number(rt, x.0),
        None => put(rt, "-"),
    }
    if type_table::is_marked(m, c, v) {
        let _ = rt.print("n");
    }
}

// What is known of v, w, x, i and f.
fn put_variables(rt: &impl Print, m: &[u16], c: Counts) {
    for v in 0..5 {
        put_variable(rt, m, c, VarId(v));
    }
}

// How many rows, variables and inputs there are.
fn put_counts(rt: &impl Print, c: Counts) {
    let _ = print!(rt; " {} {} {}", c.types, c.vars, c.inputs);
}

// The kind of a variable and the node that drew it.
fn put_drawn(rt: &impl Print, m: &[u16], c: Counts, v: VarId) {
    put(
        rt,
        match type_table::kind_of(m, c, v) {
            Kind::Regular => "any",
            Kind::Integer => "int",
            Kind::Float => "float",
        },
    );
    match type_table::origin_of(m, c, v) {
        Some(n) => put_number(rt, n.0),
        None => put(rt, "-"),
    }
}

// A node or a SPAN, an output, and the first two inputs.
fn put_parts(rt: &impl Print, m: &[u16], n: u16, output: TypeId, inputs: InputRange) {
    let first = u32::from(inputs.first);
    let x = type_table::input(m, first);
    let y = type_table::input(m, first + 1);
    let _ = print!(rt; " {n} {} {} {}", output.0, x.0, y.0);
}

// The parts of a lambda or of a type of functions.
fn put_view(rt: &impl Print, m: &[u16], c: Counts, x: TypeId) {
    match type_table::view(m, c, x) {
        Row::Lambda(n, o, r) => put_parts(rt, m, n.0, o, r),
        Row::Param(k, o, r) => put_parts(rt, m, k, o, r),
        _ => put(rt, "-"),
    }
}

// ── the start of a case ──

// The kind of the variable v.
fn kind(v: u16) -> Kind {
    match v {
        3 => Kind::Integer,
        4 => Kind::Float,
        _ => Kind::Regular,
    }
}

// The node that draws the variable v.
fn origin(v: u16) -> Option<NodeId> {
    match v {
        0..3 => Some(NodeId(v)),
        _ => None,
    }
}

// The fixed rows, and the variables v, w, x, i and f.
fn state(m: &mut [u16]) -> Made {
    let mut made = Made {
        counts: type_table::start(m),
        ty: TypeId(0),
    };
    for v in 0..5 {
        made = type_table::draw(m, made.counts, kind(v), origin(v));
    }
    made
}

// ── words ──

// An equation, its answer, and what it leaves of v, w, x, i and f.
fn raise(rt: &impl Print, m: &mut [u16], c: Counts, x: TypeId, y: TypeId) {
    let answer = unify::unify(m, c, x, y);
    put_answer(rt, answer);
    put_variables(rt, m, c);
}

// A start and an equation on the first n cells alone.
fn raise_short(rt: &impl Print, m: &mut [u16], n: u16, x: TypeId, y: TypeId) {
    if let Some(cells) = m.get_mut(..usize::from(n)) {
        let made = state(cells);
        raise(rt, cells, made.counts, x, y);
    }
}

// The last k inputs.
fn last_inputs(c: Counts, k: u16) -> InputRange {
    let count = k.min(c.inputs);
    InputRange {
        first: c.inputs - count,
        count,
    }
}

// x as an input n times.
fn push_many(m: &mut Memory, c: Counts, x: TypeId, n: u16) -> Counts {
    let mut counts = c;
    for _ in 0..n {
        counts = type_table::push_input(m, counts, x);
    }
    counts
}

// A lambda whose n inputs are all the row made last.
fn level(m: &mut Memory, made: Made, n: u16) -> Made {
    let inputs = InputRange {
        first: made.counts.inputs,
        count: n,
    };
    let counts = push_many(m, made.counts, made.ty, n);
    type_table::lambda(m, counts, NodeId(6), TypeId(0), inputs)
}

// The words that make a row or an input, or set the row made last or the counts.
fn make(rt: &impl Print, m: &mut Memory, made: Made, word: Word) -> Made {
    let Made { counts: c, ty } = made;
    let Word {
        letter,
        first: a,
        second: b,
        third: k,
    } = word;
    match letter {
        b'a' => type_table::array_of(m, c, TypeId(a)),
        b'A' => type_table::array_of(m, c, ty),
        b'r' => type_table::ref_to(m, c, TypeId(a)),
        b'd' => type_table::fn_def(m, c, DefId(a)),
        b'k' => type_table::instance(m, c, InstId(a)),
        b'v' => type_table::draw(m, c, kind(a), None),
        b'p' => Made {
            counts: type_table::push_input(m, c, TypeId(a)),
            ty,
        },
        b'l' => type_table::lambda(m, c, NodeId(a), TypeId(b), last_inputs(c, k)),
        b'g' => type_table::function(m, c, a, TypeId(b), last_inputs(c, k)),
        b't' => level(m, made, a),
        b'f' => Made {
            counts: c,
            ty: type_table::follow(m, c, TypeId(a)),
        },
        b'n' => Made {
            counts: Counts {
                types: a,
                vars: b,
                inputs: 0,
            },
            ty,
        },
        _ => {
            act(rt, m, made, word);
            made
        }
    }
}

// The words that change a mark or bindings, or print.
fn act(rt: &impl Print, m: &mut Memory, made: Made, word: Word) {
    let Made { counts: c, ty } = made;
    let Word {
        letter,
        first: a,
        second: b,
        third: k,
    } = word;
    match letter {
        b'm' => type_table::mark(m, c, VarId(a)),
        b'u' => {
            unify::unify(m, c, TypeId(a), TypeId(b));
        }
        b'=' => raise(rt, m, c, TypeId(a), TypeId(b)),
        b's' => raise_short(rt, m, a, TypeId(b), TypeId(k)),
        b'.' => put_number(rt, ty.0),
        b'c' => put_counts(rt, c),
        b'h' => put_number(rt, type_table::head(m, c, TypeId(a))),
        b'o' => put_drawn(rt, m, c, VarId(a)),
        b'x' => put_view(rt, m, c, TypeId(a)),
        _ => put(rt, "?"),
    }
}

// ── reading ──

// The first byte of a word that is no digit; 0 where there is none.
fn letter(word: &[u8]) -> u8 {
    word.iter()
        .copied()
        .find(|b| !b.is_ascii_digit())
        .unwrap_or(0)
}

// A number with one digit more, at most 65,535.
fn with_digit(n: u16, digit: u8) -> u16 {
    n.saturating_mul(10)
        .saturating_add(u16::from(digit.saturating_sub(b'0')))
}

// The number behind the first k bytes of a word that are no digits; 0 where there is none.
fn number(word: &[u8], k: usize) -> u16 {
    word.split(|b| !b.is_ascii_digit())
        .nth(k)
        .unwrap_or(&[])
        .iter()
        .fold(0, |n, digit| with_digit(n, *digit))
}

// The word of a text, as often as the number in front of it says, and at least once.
fn run_word(rt: &impl Print, m: &mut Memory, start: Made, text: &[u8]) -> Made {
    let word = Word {
        letter: letter(text),
        first: number(text, 1),
        second: number(text, 2),
        third: number(text, 3),
    };
    let mut made = start;
    for _ in 0..number(text, 0).max(1) {
        made = make(rt, m, made, word);
    }
    made
}

// A case: its name, and words behind blanks.
fn run_case(rt: &impl Print, m: &mut Memory, s: &[u8]) {
    let mut parts = s.split(|b| *b == b' ');
    let _ = rt.write_all(parts.next().unwrap_or(&[]));
    let mut made = state(m);
    for word in parts {
        made = run_word(rt, m, made, word);
    }
    let _ = rt.print("\n");
}

// A line: a comment, or a case in a memory that is zero.
fn run_line(rt: &impl Print, m: &mut Memory, s: &[u8]) {
    if !matches!(s, [] | [b'#', ..]) {
        *m = [0; type_table::MEMORY];
        run_case(rt, m, s);
    }
}

// The cases of standard input, up to 65,536 bytes.
fn main(rt: HostRuntime) {
    let mut m = [0u16; type_table::MEMORY];
    let mut text = [0u8; body_input::TEXT];
    let n = body_input::read_full(&rt, &mut text);
    for line in text[..n].split(|b| *b == b'\n') {
        run_line(&rt, &mut m, line);
    }
}
