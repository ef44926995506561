// The tables that a check hands back, from the memory of a walk to the caller's lent slices: nodes, variables, made types, equations.
// The used rows come first, zeros behind them to the end of the slice. A flag is 0 or 1, and a number that is not there is 0. What does
// not fit into a slice is left out.
#![tactic(auto)]

ghost use Rattle.std.specs.Prelude.{◌≡◌, ◌∷◌, [], ◌+◌, ◌-◌, ◌*◌, ◌≤◌, length, replicate, drop};
ghost use Rattle.std.proofs.lemmas.List.Edits.{sets};
ghost use Rattle.type_table.specs.Memory.{cell, inputs_from};
ghost use Rattle.type_table.specs.Made.{kind_number as kind_code};
ghost use Rattle.type_table.specs.Reads.{origin_meant, bound_meant, width_meant};
ghost use Rattle.record.specs.Own.{extra_of, extra_tag, extra_value};
ghost use Rattle.tables.specs.Rows.{padded, cells_to, flag, given, or_zero, Fills};
ghost use Rattle.tables.specs.Nodes.{node_table, node_room, option_in, extra_in, node_in};
ghost use Rattle.tables.specs.Vars.{var_table, var_room, var_in};
ghost use Rattle.tables.specs.Types.{inputs_from_lem, type_table, type_room, width_number, fields, fields_of, fields_in, fitted, type_in, type_from, inputs_in};
ghost use Rattle.tables.specs.Log.{log_table, log_room, equation_at};

use memory_cells::read;
use record::Record;
use type_table::{
    Counts, HEAD_ARRAY, HEAD_BOOL, HEAD_DIVERGES, HEAD_DOUBLE, HEAD_ERROR, HEAD_FLOAT, HEAD_FN_DEF,
    HEAD_INFER_TY, HEAD_INSTANCE, HEAD_INT, HEAD_LAMBDA, HEAD_NIL, HEAD_PARAM, HEAD_REF, HEAD_UINT,
    Kind, NodeId, Row, TypeId, VarId, Width,
};

// Where the inputs begin in the table of made types: behind 4,096 rows of five cells.
pub const INPUTS_FROM: u32 = 20480;

// Zeros from the cell i to the end.
pub fn zero_from(t: &mut [u16], i: usize)
    ensures { t.new ≡ sets t.old i (replicate (length t.old - i) 0) }
{
    table_cells::zero_cells(t, i, t.len());
}

// ── nodes ──

// A flag and its number at f: 0 and 0 where the flag is not 1.
fn option_cells(m: &[u16], f: u32, t: &mut [u16], j: u32)
    ensures { t.new ≡ sets t.old j (option_in m.now f) }
{
    let i = f as usize;
    if read(m, i) == 1 {
        table_cells::put_two(t, j, 1, read(m, i + 1));
    } else {
        table_cells::put_two(t, j, 0, 0);
    }
}

// EXTRA's tag; what is no tag counts as o.
fn extra_tag(a: u16, b: u16) -> u16
    ensures { result ≡ extra_tag (extra_of a b) }
{
    if a < 9 { a } else { 6 }
}

// EXTRA's number; 0 for none, e and o.
#[tactic(auto, unfolding(record::specs::Own::extra_of, nodes::specs::Nodes::res_of))]
fn extra_value(a: u16, b: u16) -> u16
    ensures { result ≡ extra_value (extra_of a b) }
{
    match a {
        1..=4 | 7 | 8 => b,
        _ => 0,
    }
}

// EXTRA at f.
fn extra_cells(m: &[u16], f: u32, t: &mut [u16], j: u32)
    ensures { t.new ≡ sets t.old j (extra_in m.now f) }
{
    let i = f as usize;
    let a = read(m, i);
    let b = read(m, i + 1);
    table_cells::put_two(t, j, extra_tag(a, b), extra_value(a, b));
}

// The row of the node i.
fn node_row(m: &[u16], i: u16, t: &mut [u16])
    ensures { t.new ≡ sets t.old (i * 6) (node_in m.now i) }
{
    let j = i as u32 * 6;
    let f = record::NODES_AT as u32 + j;
    option_cells(m, f, t, j);
    extra_cells(m, f + 2, t, j + 2);
    option_cells(m, f + 4, t, j + 4);
}

// The first k nodes: whether it is typed, RAW, EXTRA's tag and number, whether it is resolved, FINAL.
pub fn fill_nodes(m: &[u16], c: Record, k: u16, t: &mut [u16])
    ensures { Fills m.now c (node_room k (length t.old)) (λ s. padded (length t.old) (node_table s.own k)) t.new }
{
    for i in 0..k {
        node_row(m, i, t);
    }
    zero_from(t, k as usize * 6);
}

// ── variables ──

// KIND.
fn kind_cell(k: Kind) -> u16
    ensures { result ≡ kind_code k }
{
    match k {
        Kind::Regular => 0,
        Kind::Integer => 1,
        Kind::Float => 2,
    }
}

// Whether a variable is bound.
fn bound_flag(b: Option<TypeId>) -> u16
    ensures { result ≡ given (bound_meant b) }
{
    match b {
        None => 0,
        Some(_) => 1,
    }
}

// BOUND.
fn bound_cell(b: Option<TypeId>) -> u16
    ensures { result ≡ or_zero (bound_meant b) }
{
    match b {
        None => 0,
        Some(x) => x.0,
    }
}

// Whether a variable has an origin.
fn origin_flag(o: Option<NodeId>) -> u16
    ensures { result ≡ given (origin_meant o) }
{
    match o {
        None => 0,
        Some(_) => 1,
    }
}

// ORIGIN.
fn origin_cell(o: Option<NodeId>) -> u16
    ensures { result ≡ or_zero (origin_meant o) }
{
    match o {
        None => 0,
        Some(n) => n.0,
    }
}

// A flag: 1 or 0.
fn flag_cell(b: bool) -> u16
    ensures { result ≡ flag b }
{
    u16::from(b)
}

// Writes the row of the variable v.
fn put_var(m: &[u16], c: Counts, v: u16, t: &mut [u16])
    ensures { t.new ≡ sets t.old (v * 6) (var_in m.now c v) }
{
    let at = v as u32 * 6;
    let bound = type_table::bound_to(m, c, VarId(v));
    let origin = type_table::origin_of(m, c, VarId(v));
    let kind = kind_cell(type_table::kind_of(m, c, VarId(v)));
    let mark = flag_cell(type_table::is_marked(m, c, VarId(v)));
    table_cells::put_two(t, at, kind, bound_flag(bound));
    table_cells::put_two(t, at + 2, bound_cell(bound), origin_flag(origin));
    table_cells::put_two(t, at + 4, origin_cell(origin), mark);
}

// The variables: KIND, whether it is bound, BOUND, whether it has an origin, ORIGIN, mark.
pub fn fill_vars(m: &[u16], c: Record, t: &mut [u16])
    ensures { Fills m.now c (var_room (length t.old)) (λ s. padded (length t.old) (var_table s)) t.new }
{
    for v in 0..c.counts.vars {
        put_var(m, c.counts, v, t);
    }
    zero_from(t, c.counts.vars as usize * 6);
}

// ── made types ──

// A type row for the table: what it does not have is 0.
#[derive(Clone, Copy)]
struct Fields {
    head: u16,
    number: u16,
    output: u16,
    first: u16,
    count: u16,
}

// The number of a width.
fn width_number(w: Width) -> u16
    ensures { result ≡ width_number (width_meant w) }
{
    match w {
        Width::W8 => 0,
        Width::W16 => 1,
        Width::W32 => 2,
        Width::W64 => 3,
    }
}

// A row that has at most a number.
fn plain(h: u16, a: u16) -> Fields
    ensures { result ≡ fields h a 0 0 0 }
{
    Fields {
        head: h,
        number: a,
        output: 0,
        first: 0,
        count: 0,
    }
}

// The fields of a row.
#[tactic(auto, unfolding(crate::specs::Types::fields_of))]
fn fields_of(r: Row) -> Fields
    ensures { result ≡ fields_of r }
{
    match r {
        Row::Bool => plain(HEAD_BOOL, 0),
        Row::Uint(w) => plain(HEAD_UINT, width_number(w)),
        Row::Int(w) => plain(HEAD_INT, width_number(w)),
        Row::Float => plain(HEAD_FLOAT, 0),
        Row::Double => plain(HEAD_DOUBLE, 0),
        Row::Instance(k) => plain(HEAD_INSTANCE, k.0),
        Row::Param(a, o, i) => Fields {
            head: HEAD_PARAM,
            number: a,
            output: o.0,
            first: i.first,
            count: i.count,
        },
        Row::FnDef(d) => plain(HEAD_FN_DEF, d.0),
        Row::Array(e) => plain(HEAD_ARRAY, e.0),
        Row::Nil => plain(HEAD_NIL, 0),
        Row::Error => plain(HEAD_ERROR, 0),
        Row::Diverges => plain(HEAD_DIVERGES, 0),
        Row::InferTy(v) => plain(HEAD_INFER_TY, v.0),
        Row::Lambda(n, o, i) => Fields {
            head: HEAD_LAMBDA,
            number: n.0,
            output: o.0,
            first: i.first,
            count: i.count,
        },
        Row::Ref(e) => plain(HEAD_REF, e.0),
    }
}

// The fields of the row x.
fn fields_in(m: &[u16], c: Counts, x: u16) -> Fields
    ensures { result ≡ fields_in m.now c x }
{
    fields_of(type_table::view(m, c, TypeId(x)))
}

// How many types there are from the number first on.
fn made_count(c: Counts, first: u16) -> u16
    ensures { (result ≡ c.types - first) × (first + result ≤ 65535) }
{
    c.types.saturating_sub(first)
}

// A number as a cell; 0 where it does not fit.
fn fitted_cell(k: u32) -> u16
    ensures { result ≡ fitted k }
{
    if k < 65536 { k as u16 } else { 0 }
}

// Writes a type as the row i of the table; k inputs stand before its own.
fn put_type(r: Fields, i: u16, k: u32, t: &mut [u16])
    ensures { t.new ≡ sets t.old (i * 5) (type_in r k) }
{
    let at = i as u32 * 5;
    table_cells::put_two(t, at, r.head, r.number);
    table_cells::put_two(t, at + 2, r.output, fitted_cell(k));
    table_cells::put(t, at as usize + 4, r.count);
}

// Writes the types from the number first on, one row after another, and zeros behind them.
fn put_types(m: &[u16], c: Counts, first: u16, t: &mut [u16])
    ensures { t.new ≡ sets t.old 0 (padded inputs_from_lem (cells_to (type_from m.now c first) (c.types - first))) }
{
    let n = made_count(c, first);
    let mut k: u32 = 0;
    for i in 0..n {
        let r = fields_in(m, c, first + i);
        put_type(r, i, k, t);
        k += r.count as u32;
    }
    table_cells::zero_cells(t, n as usize * 5, INPUTS_FROM as usize);
}

// Writes the k inputs that stand in the memory from f on.
fn put_inputs(m: &[u16], f: u16, k: u16, t: &mut [u16], j: u32)
    ensures { t.new ≡ sets t.old j (inputs_from m.now f k) }
{
    let at = j as usize;
    for i in 0..k {
        let x = type_table::input(m, f as u32 + i as u32);
        table_cells::put(t, at + i as usize, x.0);
    }
}

// Writes the inputs of the types from the number first on, one after another, and zeros behind them.
fn put_all_inputs(m: &[u16], c: Counts, first: u16, t: &mut [u16])
    ensures { t.new ≡ sets t.old inputs_from_lem (padded (length t.old - inputs_from_lem) (cells_to (inputs_in m.now c first) (c.types - first))) }
{
    let n = made_count(c, first);
    let mut k: u32 = 0;
    for i in 0..n {
        let r = fields_in(m, c, first + i);
        put_inputs(m, r.first, r.count, t, INPUTS_FROM + k);
        k += r.count as u32;
    }
    zero_from(t, INPUTS_FROM as usize + k as usize);
}

// The types from the number first on: head, number, output, how many inputs stand before its own, how many it has; and from the cell
// 20,480 on the inputs of all, one after another.
pub fn fill_types(m: &[u16], c: Record, first: u16, t: &mut [u16])
    ensures { Fills m.now c (type_room first (length t.old)) (λ s. type_table (length t.old) (drop first s.rows)) t.new }
{
    put_types(m, c.counts, first, t);
    put_all_inputs(m, c.counts, first, t);
}

// ── equations ──

// The row of the equation that stands at f: its third cell holds the node too.
fn equation_row(m: &[u16], f: u32, t: &mut [u16], j: u32)
    ensures { t.new ≡ sets t.old j (equation_at m.now f) }
{
    let i = f as usize;
    table_cells::put_two(t, j, read(m, i), read(m, i + 1));
    table_cells::put(t, j as usize + 2, read(m, i + 2) % 16);
}

// The equations, as many as fit, the oldest first: the expected and the got row, and the answer's number.
pub fn fill_log(m: &[u16], c: Record, t: &mut [u16])
    ensures { Fills m.now c (log_room (length m.now)) (λ s. padded (length t.old) (log_table (length t.old) s.log)) t.new }
{
    for i in 0..c.equations {
        let j = i as u32 * 3;
        if t.len() < j as usize + 3 {
            zero_from(t, j as usize);
            return;
        }
        equation_row(m, record::LOG_AT as u32 + j, t, j);
    }
    zero_from(t, c.equations as usize * 3);
}
