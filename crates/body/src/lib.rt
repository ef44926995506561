// Reads a body file line by line into two lent tables: `rows`, a row of five numbers for each line, and `cells`, one of three for
// each field.
#![tactic(auto)]

ghost use Rattle.std.specs.Prelude.{◌≡◌, ◌+◌, ◌≤◌, ◌<◌, length};
ghost use Rattle.lex.specs.Text.{parts_from};
ghost use Rattle.body.specs.Body.{fault_number, first, in_order, limit_of, count_of, base_of, counted as counted·T, levels_over, deeper as deeper·T, is_deep, advance as advance·T, put_row, repeats as repeats·T, judged, step_of, is_ahead, first_ahead, finish_of, lines_from, body_of, held, stepped, ended, fields_in};

use forms::Fault;
use refs::Counts;

// The longest file.
pub const MOST_BYTES: usize = 65536;
// How many numbers the tables need: 1,921 rows of five, and 31,572 fields of three, no fewer than a file of that length can have.
pub const ROWS: usize = 9605;

pub const CELLS: usize = 94716;

// Where the reading stands: the key of the line before, the rows and fields so far, and whether some line has too many levels.
#[derive(Clone, Copy)]
pub struct State {
    pub key: u8,
    pub counts: Counts,
    pub deep: bool,
}

// What a file is: a body, with how many rows of each key it has, or why it is none; a fault has its line.
#[derive(Clone, Copy)]
pub enum Answer {
    Body(Counts),
    TooLong,
    ShortTable,
    Refused(Fault, usize),
}

// Document 01's number of a fault.
pub fn fault_number(f: Fault) -> usize
    ensures { result ≡ fault_number f }
{
    match f {
        Fault::Form => 3,
        Fault::Limit => 4,
        Fault::Reference => 5,
        Fault::Levels => 6,
    }
}

// The keys come in order, and nothing behind `fn`.
#[tactic(auto, unfolding(crate::specs::Body::in_order))]
fn in_order(was: u8, k: u8) -> bool
    ensures { result ≡ in_order was k }
{
    was <= k && was != forms::KEY_FN && k <= forms::KEY_FN
}

// How many rows a key may have; `fn` comes once.
#[tactic(auto, unfolding(crate::specs::Body::limit_of))]
fn limit_of(k: u8) -> u16
    ensures { result ≡ limit_of k }
{
    match k {
        forms::KEY_TYPE => 512,
        forms::KEY_DEF => 256,
        forms::KEY_INST => 64,
        forms::KEY_BIND => 64,
        forms::KEY_NODE => 1024,
        _ => 1,
    }
}

// How many it has.
#[tactic(auto, unfolding(crate::specs::Body::count_of))]
fn count_of(n: Counts, k: u8) -> u16
    ensures { result ≡ count_of n k }
{
    match k {
        forms::KEY_TYPE => n.types,
        forms::KEY_DEF => n.defs,
        forms::KEY_INST => n.insts,
        forms::KEY_BIND => n.binds,
        forms::KEY_NODE => n.nodes,
        _ => 0,
    }
}

// Where its rows begin.
#[tactic(auto, unfolding(crate::specs::Body::base_of))]
fn base_of(k: u8) -> u32
    ensures value { result ≡ base_of k }
    ensures upper_bound { result ≤ 1920 }
{
    match k {
        forms::KEY_TYPE => refs::TYPES_AT,
        forms::KEY_DEF => refs::DEFS_AT,
        forms::KEY_INST => refs::INSTS_AT,
        forms::KEY_BIND => refs::BINDS_AT,
        forms::KEY_NODE => refs::NODES_AT,
        _ => refs::FN_AT,
    }
}

// One row more of a key, with m fields.
#[tactic(auto, unfolding(crate::specs::Body::counted, crate::specs::Body::count_of, crate::specs::Body::limit_of))]
fn counted(n: Counts, k: u8, m: u16) -> Counts
    requires { (count_of n k < limit_of k) × (n.fields + m ≤ 65535) }
    ensures { result ≡ counted·T n k m }
{
    let fields = n.fields + m;
    match k {
        forms::KEY_TYPE => Counts {
            types: n.types + 1,
            fields,
            ..n
        },
        forms::KEY_DEF => Counts {
            defs: n.defs + 1,
            fields,
            ..n
        },
        forms::KEY_INST => Counts {
            insts: n.insts + 1,
            fields,
            ..n
        },
        forms::KEY_BIND => Counts {
            binds: n.binds + 1,
            fields,
            ..n
        },
        forms::KEY_NODE => Counts {
            nodes: n.nodes + 1,
            fields,
            ..n
        },
        _ => Counts { fields, ..n },
    }
}

// The levels of a line of the form f over parts of d levels: a function type and a node are a level of their own. 65 stands for all
// above 64.
#[tactic(auto, unfolding(crate::specs::Body::levels_over))]
fn levels_of(f: u16, d: u16) -> u16
    ensures { result ≡ levels_over f d }
{
    match f {
        forms::FORM_FUN | forms::FORM_BOOL..=forms::FORM_PATH => deeper(d),
        _ => d,
    }
}

// One level more.
#[tactic(auto, unfolding(crate::specs::Body::deeper))]
fn deeper(d: u16) -> u16
    ensures { result ≡ deeper·T d }
{
    if d < 65 { d + 1 } else { 65 }
}

// More levels than a line of the key k may have.
#[tactic(auto, unfolding(crate::specs::Body::is_deep))]
fn is_deep(k: u8, d: u16) -> bool
    ensures { result ≡ is_deep k d }
{
    match k {
        forms::KEY_TYPE => d > 4,
        forms::KEY_NODE => d > 64,
        _ => false,
    }
}

// A line's row.
fn put_row(rows: &mut [u16], r: u32, form: u16, first: u16, count: u16, levels: u16)
    ensures { rows.new ≡ put_row rows.old r form first count levels }
{
    refs::put(rows, r as usize * 5, form);
    refs::put(rows, r as usize * 5 + 1, first);
    refs::put(rows, r as usize * 5 + 2, count);
    refs::put(rows, r as usize * 5 + 3, levels);
}

// A type row that stands already.
#[tactic(auto, unfolding(crate::specs::Body::repeats))]
fn repeats(k: u8, f: u8, m: u16, n: Counts, cells: &[u16], rows: &[u16]) -> bool
    ensures { result ≡ repeats·T k f m n cells.now rows.now }
{
    k == forms::KEY_TYPE && refs::is_repeated(rows, cells, n.types, f as u16, n.fields, m)
}

// The state behind a line of the key k with m fields and d levels.
#[tactic(auto, unfolding(crate::specs::Body::advance))]
fn advance(st: State, k: u8, m: u16, d: u16) -> State
    requires { (count_of st.counts k < limit_of k) × (st.counts.fields + m ≤ 65535) }
    ensures { result ≡ advance·T st k m d }
{
    State {
        key: k,
        counts: counted(st.counts, k, m),
        deep: st.deep || is_deep(k, d),
    }
}

// A line of the form f with m fields: its count, its references, and its row.
fn judge(st: State, k: u8, f: u8, m: u16, cells: &[u16], rows: &mut [u16]) -> Result<State, Fault>
    requires { st.counts.fields + m ≤ 65535 }
    ensures within { fields_in result ≤ st.counts.fields + m }
    ensures rows_after { stepped result cells.now rows.new ≡ judged st k f m cells.now rows.old }
{
    let n = st.counts;
    let j = count_of(n, k);
    if j >= limit_of(k) {
        return Err(Fault::Limit);
    }
    if repeats(k, f, m, n, cells, rows) {
        return Err(Fault::Reference);
    }
    let Some(d) = refs::link_fields(n, forms::form_at(f as usize), m, cells, rows) else {
        return Err(Fault::Reference);
    };
    let levels = levels_of(f as u16, d);
    put_row(rows, base_of(k) + j as u32, f as u16, n.fields, m, levels);
    Ok(advance(st, k, m, levels))
}

// One line.
fn step_line(l: &[u8], st: State, cells: &mut [u16], rows: &mut [u16]) -> Result<State, Fault>
    requires { st.counts.fields + length l.now ≤ 65535 }
    ensures within { fields_in result ≤ st.counts.fields + length l.now }
    ensures rows_after { stepped result cells.new rows.new ≡ step_of l.now st cells.old rows.old }
{
    let key = forms::read_key(l);
    if key.end >= l.len() {
        return Err(Fault::Form);
    }
    if !in_order(st.key, key.number) {
        return Err(Fault::Form);
    }
    let (f, m) = forms::read_line(key.number, &l[key.end + 1..], cells, st.counts.fields)?;
    judge(st, key.number, f, m as u16, cells, rows)
}

// A type row whose K or D the body does not have.
#[tactic(auto, unfolding(crate::specs::Body::is_ahead))]
fn is_ahead(r: u32, n: Counts, cells: &[u16], rows: &[u16]) -> bool
    ensures { result ≡ is_ahead r n cells.now rows.now }
{
    let x = refs::value_of(cells, refs::first_of(rows, r) as u32);
    match refs::form_of(rows, r) {
        forms::FORM_INST => n.insts <= x,
        forms::FORM_FN => n.defs <= x,
        _ => false,
    }
}

// The first of them, the number of types where there is none.
fn first_ahead(n: Counts, cells: &[u16], rows: &[u16]) -> u16
    ensures { result ≡ first_ahead n.types 0 n cells.now rows.now }
{
    for r in 0..n.types {
        if is_ahead(r as u32, n, cells, rows) {
            return r;
        }
    }
    n.types
}

// What is judged behind the last line, which is before `line`: that `fn` was there, then K and D of types, then levels.
fn finish(st: State, line: usize, cells: &[u16], rows: &[u16]) -> Result<Counts, (Fault, usize)>
    requires { 0 < line }
    ensures { ended result cells.now rows.now ≡ finish_of st line cells.now rows.now }
{
    if st.key != forms::KEY_FN {
        return Err((Fault::Form, line));
    }
    let r = first_ahead(st.counts, cells, rows);
    if r < st.counts.types {
        Err((Fault::Reference, r as usize + 1))
    } else if st.deep {
        Err((Fault::Levels, line - 1))
    } else {
        Ok(st.counts)
    }
}

// Where the reading starts: no rows, and any key may come.
fn start() -> State
    ensures { result ≡ first }
{
    State {
        key: forms::KEY_TYPE,
        counts: Counts {
            types: 0,
            defs: 0,
            insts: 0,
            binds: 0,
            nodes: 0,
            fields: 0,
        },
        deep: false,
    }
}

// A whole file, line by line.
fn lines(s: &[u8], cells: &mut [u16], rows: &mut [u16]) -> Result<Counts, (Fault, usize)>
    requires { length s.now ≤ 65536 }
    ensures { ended result cells.new rows.new ≡ lines_from (parts_from 10 0 s.now) 1 first cells.old rows.old }
{
    let mut p = 0;
    let mut line = 1;
    let mut st = start();
    while p < s.len() {
        let e = lex::field_end(s, p, b'\n');
        if e >= s.len() {
            return Err((Fault::Form, line));
        }
        match step_line(&s[p..e], st, cells, rows) {
            Ok(next) => st = next,
            Err(x) => return Err((x, line)),
        }
        line += 1;
        p = e + 1;
    }
    finish(st, line, cells, rows)
}

// Reads a file into the two tables: where it is too long or a table too short, the tables are as they were; on any other fault they
// hold zeros alone, and on none the rows and the fields, with zeros behind them.
pub fn read_body(s: &[u8], rows: &mut [u16], cells: &mut [u16]) -> Answer
    ensures { held result rows.new cells.new ≡ body_of s.now rows.old cells.old }
{
    if s.len() > MOST_BYTES {
        return Answer::TooLong;
    }
    if rows.len() < ROWS {
        return Answer::ShortTable;
    }
    if cells.len() < CELLS {
        return Answer::ShortTable;
    }
    rows.fill(0);
    cells.fill(0);
    match lines(s, cells, rows) {
        Ok(n) => Answer::Body(n),
        Err((x, l)) => {
            rows.fill(0);
            cells.fill(0);
            Answer::Refused(x, l)
        }
    }
}
