// Whether what `report` left of a body agrees with what is recorded of it, for the program that replays the recorded samples. Proved safe
// and to end; what it answers is tested by that program.
#![tactic(auto)]

ghost use Rattle.std.specs.Prelude.{◌+◌, ◌≤◌};

use answers::{Answer, Totals};
use body::Answer as Reading;
use refs::Counts;
use report_text::Reported;
use sample_input::{filled, hash};

// The output that `typereport` lends.
const OUTPUT: u32 = 65536;

// What every cell and every byte of the output is before a body.
pub const BEFORE: u16 = 7;

pub const BYTE_BEFORE: u8 = 7;

// The tables, nine cells longer than they have to be, which is a row of errors; the log has room for the 2,048 equations that a body can raise,
// and nine cells.
pub const ROWS: usize = 9614;

pub const CELLS: usize = 94725;

pub const NODES: usize = 6153;

pub const VARS: usize = 6153;

pub const TYPES: usize = 21513;

pub const ERRORS: usize = 36873;

// The numbers of a table of errors that is not longer.
const LEAST_ERRORS: usize = 36864;

pub const LOG: usize = 6153;

pub const MEMORY: usize = 86955;

// The longest output that is lent.
pub const LONGEST: usize = 131072;

// ── recorded texts ──

// The byte that a sign of a recorded text stands for.
fn byte_of(b: u8) -> u8 {
    if b == b'/' { b'\n' } else { b }
}

// A recorded text starts with these bytes.
fn starts(t: &[u8], s: &[u8]) -> bool {
    s.len() <= t.len() && t.iter().zip(s).all(|(&b, &x)| byte_of(b) == x)
}

// A recorded text is the first n bytes of s.
fn same_text(t: &[u8], s: &[u8], n: usize) -> bool {
    t.len() == n && n <= s.len() && starts(t, &s[..n])
}

// A number with one digit more, at most 4,294,967,295; a byte that is no digit changes nothing.
fn with_digit(n: u32, b: u8) -> u32 {
    if b.is_ascii_digit() {
        n.saturating_mul(10).saturating_add(u32::from(b - b'0'))
    } else {
        n
    }
}

// The number that the digits behind the first k commas of a text are, up to the next comma.
fn number(s: &[u8], k: usize) -> u32 {
    s.split(|&b| b == b',')
        .nth(k)
        .map_or(0, |field| field.iter().fold(0, |n, &b| with_digit(n, b)))
}

// The number behind the first k commas is x.
fn is(t: &[u8], k: usize, x: u16) -> bool {
    number(t, k) == u32::from(x)
}

// ── the tables ──

// What the tables have to hold.
#[derive(Clone, Copy)]
enum Held {
    // A body.
    Body(Totals),
    // This number in every cell.
    All(u16),
}

// What the tables have to hold with an answer.
fn held_by(a: Answer) -> Held {
    match a {
        Answer::Checked(n) => Held::Body(n),
        Answer::TooLong | Answer::ShortTable => Held::All(BEFORE),
        Answer::Refused(_, _) | Answer::Declined(_, _) => Held::All(0),
    }
}

// The counts of the file's rows are those behind the first comma.
fn rows_agree(t: &[u8], n: Counts) -> bool {
    is(t, 1, n.types)
        && is(t, 2, n.defs)
        && is(t, 3, n.insts)
        && is(t, 4, n.binds)
        && is(t, 5, n.nodes)
}

// The hash, the counts of the file's rows and that of the equations are the recorded ones.
fn totals_agree(t: &[u8], h: u32, n: Totals) -> bool {
    number(t, 0) == h && rows_agree(t, n.declared) && is(t, 6, n.equations)
}

// The hash and the counts of what the tables have to hold are the recorded ones; `-` is recorded where they hold no body.
fn tables_agree(t: &[u8], x: Held, h: u32) -> bool {
    match x {
        Held::Body(n) => totals_agree(t, h, n),
        Held::All(_) => t == b"-".as_slice(),
    }
}

// How many inputs the first n made types have.
fn inputs(t: &[u16], n: u16) -> u32 {
    let mut k: u32 = 0;
    for i in 0..n {
        k += u32::from(refs::at(t, usize::from(i) * 5 + 4));
    }
    k
}

// Zeros between n rows of made types and the inputs, and behind the inputs.
fn types_rest(t: &[u16], n: u16) -> bool {
    let e = tables::INPUTS_FROM as usize;
    e <= t.len()
        && filled(&t[..e], usize::from(n) * 5, &0)
        && filled(t, e + inputs(t, n) as usize, &0)
}

// How many cells of the log the whole ones of n equations take.
fn whole(t: &[u16], n: u16) -> usize {
    usize::from(n).min(t.len() / 3) * 3
}

// Two counts of rows are the same.
fn same_counts(a: Counts, b: Counts) -> bool {
    a.types == b.types
        && a.defs == b.defs
        && a.insts == b.insts
        && a.binds == b.binds
        && a.nodes == b.nodes
        && a.fields == b.fields
}

// The reader alone leaves these two tables of the file s, with these counts, in tables of its own of the same lengths.
fn read_same(
    s: &[u8],
    n: Counts,
    rows: &[u16],
    cells: &[u16],
    own_rows: &mut [u16],
    own_cells: &mut [u16],
) -> bool {
    match body::read_body(s, own_rows, own_cells) {
        Reading::Body(k) => same_counts(k, n) && rows == own_rows && cells == own_cells,
        _ => false,
    }
}

// The two tables of the file are those that the reader alone leaves.
fn as_read(s: &[u8], n: Counts, rows: &[u16], cells: &[u16]) -> bool {
    let mut own_rows = [BEFORE; ROWS];
    let mut own_cells = [BEFORE; CELLS];
    let r = rows.len();
    let c = cells.len();
    r <= ROWS && c <= CELLS && read_same(s, n, rows, cells, &mut own_rows[..r], &mut own_cells[..c])
}

// The tables and the memory that `report` was lent, as it left them.
#[derive(Clone, Copy)]
pub struct Tables<'a> {
    pub rows: &'a [u16],
    pub cells: &'a [u16],
    pub nodes: &'a [u16],
    pub vars: &'a [u16],
    pub types: &'a [u16],
    pub errors: &'a [u16],
    pub log: &'a [u16],
    pub memory: &'a [u16],
}

impl Tables<'_> {
    // The hash of all cells of nodes, variables, made types, errors and equations.
    fn hash(&self) -> u32 {
        let h = hash(1, self.nodes);
        let h = hash(h, self.vars);
        let h = hash(h, self.types);
        let h = hash(h, self.errors);
        hash(h, self.log)
    }

    // Zeros behind the used rows of nodes, variables and made types.
    fn walk_rest(&self, n: Totals) -> bool {
        filled(self.nodes, usize::from(n.declared.nodes) * 6, &0)
            && filled(self.vars, usize::from(n.vars) * 6, &0)
            && types_rest(self.types, n.types)
    }

    // Zeros behind the used rows of errors and behind the whole equations, and in all of the memory.
    fn record_rest(&self, n: Totals) -> bool {
        filled(self.errors, usize::from(n.errors) * 9, &0)
            && filled(self.log, whole(self.log, n.equations), &0)
            && filled(self.memory, 0, &0)
    }

    // Every cell of every table is x.
    fn all_filled(&self, x: u16) -> bool {
        filled(self.rows, 0, &x)
            && filled(self.cells, 0, &x)
            && filled(self.nodes, 0, &x)
            && filled(self.vars, 0, &x)
            && filled(self.types, 0, &x)
            && filled(self.errors, 0, &x)
            && filled(self.log, 0, &x)
            && filled(self.memory, 0, &x)
    }

    // The tables are as they have to be with the body s, but for the cells that the report or the hash shows.
    fn rest_good(&self, s: &[u8], x: Held) -> bool {
        match x {
            Held::Body(n) => {
                self.walk_rest(n)
                    && self.record_rest(n)
                    && as_read(s, n.declared, self.rows, self.cells)
            }
            Held::All(k) => self.all_filled(k),
        }
    }

    // The tables agree with the hash and the counts t that are recorded.
    fn agree(&self, rt: &impl Print, name: &[u8], s: &[u8], t: &[u8], a: Answer) -> bool {
        let x = held_by(a);
        let shown = sample_input::told(rt, name, b"tables", tables_agree(t, x, self.hash()));
        let rest = sample_input::told(rt, name, b"rest", self.rest_good(s, x));
        shown && rest
    }
}

// ── the output ──

// The recorded answer line has this number and this place.
fn refusal_agrees(t: &[u8], k: usize, p: usize) -> bool {
    number(t, 0) as usize == k && number(t, 1) as usize == p
}

// The recorded answer line is that of an answer.
fn answer_agrees(t: &[u8], a: Answer) -> bool {
    match a {
        Answer::Checked(_) => starts(t, b"answer=0,-\n"),
        Answer::TooLong => starts(t, b"answer=1,-\n"),
        Answer::ShortTable => starts(t, b"answer=2,-\n"),
        Answer::Refused(f, l) => refusal_agrees(t, body::fault_number(f), l),
        Answer::Declined(k, p) => refusal_agrees(t, usize::from(k), usize::from(p.0)),
    }
}

// The text of n bytes that was written is the recorded one, and the bytes behind it are as before.
fn written_agrees(rt: &impl Print, name: &[u8], t: &[u8], a: Answer, n: usize, out: &[u8]) -> bool {
    let answer = sample_input::told(rt, name, b"answer", answer_agrees(t, a));
    let text = sample_input::told(rt, name, b"text", same_text(t, out, n));
    let as_before = sample_input::bytes_filled(out, n, BYTE_BEFORE);
    let behind = sample_input::told(rt, name, b"bytes behind the text", as_before);
    answer && text && behind
}

// 9 is recorded, and behind its line the answer line of the check; and the output is zero.
fn no_room_agrees(rt: &impl Print, name: &[u8], t: &[u8], a: Answer, out: &[u8]) -> bool {
    let k = body_text::find(t, 0, b'/');
    if t.len() <= k {
        return sample_input::told(rt, name, b"text", false);
    }
    let text = sample_input::told(rt, name, b"text", starts(t, b"answer=9,-\n"));
    let answer = sample_input::told(rt, name, b"answer", answer_agrees(&t[k + 1..], a));
    let cleared = sample_input::bytes_filled(out, 0, 0);
    let behind = sample_input::told(rt, name, b"bytes behind the text", cleared);
    text && answer && behind
}

// What was answered and written is what is recorded.
fn output_agrees(rt: &impl Print, name: &[u8], t: &[u8], r: Reported, out: &[u8]) -> bool {
    match r {
        Reported::Written(a, n) => written_agrees(rt, name, t, a, n, out),
        Reported::NoRoom(a) => no_room_agrees(rt, name, t, a, out),
    }
}

// ── all of it ──

// Whether what was answered for the body s, and what is left in its tables and its output, agrees with the second line e of its sample.
// What is wrong is printed with the name of the sample.
pub fn agree(
    rt: &impl Print,
    name: &[u8],
    s: &[u8],
    e: &[u8],
    r: Reported,
    tables: &Tables,
    out: &[u8],
) -> bool {
    let k = body_text::find(e, 0, b' ');
    if e.len() <= k {
        return sample_input::told(rt, name, b"no recorded outcome", false);
    }
    let output = output_agrees(rt, name, &e[k + 1..], r, out);
    let rest = tables.agree(rt, name, s, &e[..k], report_text::answer_of(r));
    output && rest
}

// ── what is lent ──

// The byte behind a `!` in front of the last byte, 0 where there is none.
fn mark(s: &[u8]) -> u8 {
    match s {
        [.., b'!', last] => *last,
        _ => 0,
    }
}

// The bytes of output that are lent by a name from its `@` on.
fn output_mark(s: &[u8]) -> u32 {
    if s.is_empty() { OUTPUT } else { number(s, 0) }
}

// How many cells are lent of a table that has to have n: one less if the mark l is the table's letter t, nine more if it is `L`.
fn lent(l: u8, t: u8, n: usize) -> usize
    requires { n ≤ 100000 }
    ensures { result ≤ n + 9 }
{
    if l == b'L' {
        n + 9
    } else if l == t {
        n.saturating_sub(1)
    } else {
        n
    }
}

// How many cells of the log are lent: those that the mark says, nine more if it is `L`, else room for the equations of every body.
fn log_lent(l: u8) -> usize
    ensures { result ≤ LOG }
{
    match l {
        b'0' => 0,
        b'2' => 2,
        b'3' => 3,
        b'4' => 4,
        b'L' => LOG,
        _ => 6144,
    }
}

// How many bytes of output are lent: as many as the mark says, at most the longest.
fn output_lent(n: u32) -> usize
    ensures { result ≤ LONGEST }
{
    LONGEST.min(n as usize)
}

// How many cells of each table and bytes of output are lent.
#[derive(Clone, Copy)]
pub struct Lengths {
    pub rows: usize,
    pub cells: usize,
    pub nodes: usize,
    pub vars: usize,
    pub types: usize,
    pub errors: usize,
    pub log: usize,
    pub memory: usize,
    pub out: usize,
}

// What is lent by the marks of a name.
pub fn lengths_of(name: &[u8]) -> Lengths
    ensures rows { result.rows ≤ ROWS }
    ensures cells { result.cells ≤ CELLS }
    ensures nodes { result.nodes ≤ NODES }
    ensures vars { result.vars ≤ VARS }
    ensures types { result.types ≤ TYPES }
    ensures errors { result.errors ≤ ERRORS }
    ensures log { result.log ≤ LOG }
    ensures memory { result.memory ≤ MEMORY }
    ensures out { result.out ≤ LONGEST }
{
    let k = body_text::find(name, 0, b'@');
    let l = mark(&name[..k]);
    Lengths {
        rows: lent(l, b'R', body::ROWS),
        cells: lent(l, b'C', body::CELLS),
        nodes: lent(l, b'N', answers::NODES),
        vars: lent(l, b'V', answers::VARS),
        types: lent(l, b'T', answers::TYPES),
        errors: lent(l, b'E', LEAST_ERRORS),
        log: log_lent(l),
        memory: lent(l, b'M', answers::MEMORY),
        out: output_lent(output_mark(&name[k..])),
    }
}
