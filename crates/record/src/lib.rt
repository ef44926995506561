// The walk's one lent memory and its running record: what the typing rules do to it, step by step. The first 47,010 cells are those of
// `type_table`; behind them are the nodes, the errors and, as far as the memory reaches, the equations raised.
#![tactic(auto)]

ghost use Rattle.std.specs.Prelude.{◌≡◌, map, ◌<◌, ◌≤◌, get_or, length, set};
ghost use Rattle.std.proofs.Math.Option.{none};
ghost use Rattle.theory.specs.Start;
ghost use Rattle.type_table.specs.Memory.{cell, kind_of, numbered};
ghost use Rattle.type_table.specs.Made.{origin_number, pushed};
ghost use Rattle.type_table.specs.Made.{kind_number as kind_code};
ghost use Rattle.type_table.specs.Sound.{fixed_types};
ghost use Rattle.nodes.specs.Nodes.{items_of};
ghost use Rattle.record.specs.Own.{errors_at, log_at, raws_of, blank, node_type, res_tag, res_value, extra_tag, extra_value, kind_number, span_tag, span_value, second_tag, second_value, error_written};
ghost use Rattle.record.specs.Steps.{or_nil, set_node_type, set_extra, set_final, new_infer_var, array_of, ref_to_lem, fn_def_lem, make_lambda, make_function, mark_var, error};
ghost use Rattle.record.specs.Encodes.{answer_word, Encodes, Runs, Does, Gives, Raises};
ghost use Rattle.record.specs.Operations.{with_made, node_cells_lem, cleared};
ghost use Rattle.record.specs.Answers.{type_in, push_all, Logs};

use memory_cells::{read, write};
use nodes::{Body, Items, Res};
use type_table::{Counts, DefId, InputRange, InstId, Kind, Made, NodeId, TypeId, VarId};
use unify::Answer;

// The most nodes, and the most errors: three for each node.
pub const MOST_NODES: u16 = 1024;

pub const MOST_ERRORS: u16 = 3072;

// Where the regions begin: nodes of six cells, errors of nine, equations of three.
pub const NODES_AT: usize = 47010;

pub const ERRORS_AT: usize = 53154;

pub const LOG_AT: usize = 80802;
// How many cells the walk needs; what a lent memory has more is the log of equations.
pub const MEMORY: usize = 80802;

// The running record: the counts of the tables, and the type that `return` answers to.
#[derive(Clone, Copy)]
pub struct Record {
    pub counts: Counts,
    pub errors: u16,
    pub equations: u16,
    pub output: TypeId,
}

// EXTRA of a node.
#[derive(Clone, Copy)]
pub enum Extra {
    Absent,
    Local(TypeId),
    Method(DefId),
    Resolved(Res),
}

// The variants of `TypingError`, in their order.
#[derive(Clone, Copy)]
pub enum ErrorKind {
    TypeMismatch,
    NoIndexOp,
    NoUnaryOp,
    NoBinaryOp,
    CallingNotFn,
    WrongArgumentTy,
    WrongArgumentAmnt,
    NoField,
    NotInstance,
    MethodNotFound,
    InferFail,
}

// P of an error: the spanned node, a bind item by its definition, or the signature.
#[derive(Clone, Copy)]
pub enum Span {
    Node(NodeId),
    Item(DefId),
    Signature,
}

// An error: KIND, CAUSE, P, Q and its values; those that its kind does not have are 0.
#[derive(Clone, Copy)]
pub struct TypingError {
    pub kind: ErrorKind,
    pub cause: u16,
    pub at: Span,
    pub second: Option<NodeId>,
    pub a: u16,
    pub b: u16,
    pub c: u16,
}

// ── nodes ──

// RAW of a node.
pub fn node_type(m: &[u16], n: NodeId) -> Option<TypeId>
    ensures { result ≡ node_type (get_or (raws_of m.now) n.0 none) }
{
    if n.0 >= MOST_NODES {
        return None;
    }
    let at = NODES_AT + n.0 as usize * 6;
    if read(m, at) == 1 {
        Some(TypeId(read(m, at + 1)))
    } else {
        None
    }
}

// Sets RAW of a node.
pub fn set_node_type(m: &mut [u16], n: NodeId, t: TypeId)
    ensures { Does m.old m.new (set_node_type n.0 t.0) }
{
    if n.0 < MOST_NODES {
        let at = NODES_AT + n.0 as usize * 6;
        write(m, at, 1);
        write(m, at + 1, t.0);
    }
}

// The number of what a path stands for: document 01's letters l f c i e o count from 1.
fn res_tag(r: Res) -> u16
    ensures { result ≡ res_tag r }
{
    match r {
        Res::Local(_) => 1,
        Res::Fn(_) => 2,
        Res::Ctor(_) => 3,
        Res::Inst(_) => 4,
        Res::Error => 5,
        Res::Other => 6,
    }
}

fn res_value(r: Res) -> u16
    ensures { result ≡ res_value r }
{
    match r {
        Res::Local(n) => n.0,
        Res::Fn(d) | Res::Ctor(d) => d.0,
        Res::Inst(k) => k.0,
        Res::Error | Res::Other => 0,
    }
}

fn extra_tag(e: Extra) -> u16
    ensures { result ≡ extra_tag e }
{
    match e {
        Extra::Absent => 0,
        Extra::Resolved(r) => res_tag(r),
        Extra::Local(_) => 7,
        Extra::Method(_) => 8,
    }
}

fn extra_value(e: Extra) -> u16
    ensures { result ≡ extra_value e }
{
    match e {
        Extra::Absent => 0,
        Extra::Resolved(r) => res_value(r),
        Extra::Local(t) => t.0,
        Extra::Method(d) => d.0,
    }
}

// Sets EXTRA of a node.
pub fn set_extra(m: &mut [u16], n: NodeId, e: Extra)
    ensures { Does m.old m.new (set_extra n.0 e) }
{
    if n.0 < MOST_NODES {
        let at = NODES_AT + n.0 as usize * 6;
        write(m, at + 2, extra_tag(e));
        write(m, at + 3, extra_value(e));
    }
}

// Sets FINAL of a node.
pub fn set_final(m: &mut [u16], n: NodeId, t: TypeId)
    ensures { Does m.old m.new (set_final n.0 t.0) }
{
    if n.0 < MOST_NODES {
        let at = NODES_AT + n.0 as usize * 6;
        write(m, at + 4, 1);
        write(m, at + 5, t.0);
    }
}

// ── errors ──

fn kind_number(k: ErrorKind) -> u16
    ensures { result ≡ kind_number k }
{
    match k {
        ErrorKind::TypeMismatch => 0,
        ErrorKind::NoIndexOp => 1,
        ErrorKind::NoUnaryOp => 2,
        ErrorKind::NoBinaryOp => 3,
        ErrorKind::CallingNotFn => 4,
        ErrorKind::WrongArgumentTy => 5,
        ErrorKind::WrongArgumentAmnt => 6,
        ErrorKind::NoField => 7,
        ErrorKind::NotInstance => 8,
        ErrorKind::MethodNotFound => 9,
        ErrorKind::InferFail => 10,
    }
}

fn span_tag(p: Span) -> u16
    ensures { result ≡ span_tag p }
{
    match p {
        Span::Node(_) => 0,
        Span::Item(_) => 1,
        Span::Signature => 2,
    }
}

fn span_value(p: Span) -> u16
    ensures { result ≡ span_value p }
{
    match p {
        Span::Node(n) => n.0,
        Span::Item(d) => d.0,
        Span::Signature => 0,
    }
}

fn second_tag(q: Option<NodeId>) -> u16
    ensures { result ≡ second_tag q }
{
    match q {
        None => 0,
        Some(_) => 1,
    }
}

fn second_value(q: Option<NodeId>) -> u16
    ensures { result ≡ second_value q }
{
    match q {
        None => 0,
        Some(n) => n.0,
    }
}

// Writes the error row i.
fn write_error(m: &mut [u16], i: u16, e: TypingError)
    ensures { m.new ≡ error_written m.old i e }
{
    let at = ERRORS_AT + i as usize * 9;
    write(m, at, kind_number(e.kind));
    write(m, at + 1, e.cause);
    write(m, at + 2, span_tag(e.at));
    write(m, at + 3, span_value(e.at));
    write(m, at + 4, second_tag(e.second));
    write(m, at + 5, second_value(e.second));
    write(m, at + 6, e.a);
    write(m, at + 7, e.b);
    write(m, at + 8, e.c);
}

// One error more. Without room nothing changes.
pub fn emit(m: &mut [u16], c: Record, e: TypingError) -> Record
    ensures { Runs m.old c m.new result (error e) tt }
{
    if c.errors >= MOST_ERRORS {
        return c;
    }
    write_error(m, c.errors, e);
    Record {
        errors: c.errors + 1,
        ..c
    }
}

// ── equations ──

// Logs an equation of the rule of the node n, as far as the memory reaches.
fn log(m: &mut [u16], c: Record, n: NodeId, x: TypeId, y: TypeId, answer: u16) -> Record
    requires { answer < 16 }
    ensures { Logs m.old c x.0 y.0 (answer_word answer n.0) m.new result }
{
    if c.equations == u16::MAX {
        return c;
    }
    let at = LOG_AT + c.equations as usize * 3;
    write(m, at, type_table::clip(c.counts, x).0);
    write(m, at + 1, type_table::clip(c.counts, y).0);
    write(m, at + 2, answer + n.0 % 4096 * 16);
    Record {
        equations: c.equations + 1,
        ..c
    }
}

// How an equation went, with the record: it was met; it failed; it is refused with this number.
#[derive(Clone, Copy)]
pub enum Equated {
    Met(Record),
    Failed(Record),
    Refused(u8, Record),
}

// Raises, in the rule of the node n, the equation of the rows x, expected, and y, got. The error of a mismatch is still to be emitted.
pub fn raise(m: &mut [u16], c: Record, n: NodeId, x: TypeId, y: TypeId) -> Equated
    ensures { Raises m.old c m.new n.0 x.0 y.0 result }
{
    match unify::unify(m, c.counts, x, y) {
        Answer::Success => Equated::Met(log(m, c, n, x, y, 0)),
        Answer::Mismatch => Equated::Failed(log(m, c, n, x, y, 1)),
        Answer::Refused12 => Equated::Refused(12, log(m, c, n, x, y, 12)),
        Answer::Refused13 => Equated::Refused(13, log(m, c, n, x, y, 13)),
    }
}

// ── types and variables ──

// A type, and the record with it.
#[derive(Clone, Copy)]
pub struct Given {
    pub record: Record,
    pub ty: TypeId,
}

// A made type, and the record with it.
fn with_made(c: Record, r: Made) -> Given
    ensures { result ≡ with_made c r }
{
    Given {
        record: Record {
            counts: r.counts,
            ..c
        },
        ty: r.ty,
    }
}

// `new_infer_var`.
pub fn new_infer_var(m: &mut [u16], c: Record, k: Kind, o: Option<NodeId>) -> Given
    ensures { Gives m.old c m.new result (new_infer_var (kind_of (kind_code k)) (numbered (origin_number o))) }
{
    with_made(c, type_table::draw(m, c.counts, k, o))
}

// The type array of e.
pub fn array_of(m: &mut [u16], c: Record, e: TypeId) -> Given
    ensures { Gives m.old c m.new result (array_of e.0) }
{
    with_made(c, type_table::array_of(m, c.counts, e))
}

// The type reference to e.
pub fn ref_to(m: &mut [u16], c: Record, e: TypeId) -> Given
    ensures { Gives m.old c m.new result (ref_to_lem e.0) }
{
    with_made(c, type_table::ref_to(m, c.counts, e))
}

// The type of a definition.
pub fn fn_def(m: &mut [u16], c: Record, f: DefId) -> Given
    ensures { Gives m.old c m.new result (fn_def_lem f.0) }
{
    with_made(c, type_table::fn_def(m, c.counts, f))
}

// The type of an instance.
pub fn instance(m: &mut [u16], c: Record, k: InstId) -> Given
    ensures { Gives m.old c m.new result (Rattle.record.specs.Steps.instance k.0) }
{
    with_made(c, type_table::instance(m, c.counts, k))
}

// The type of a node, Nil for what has none.
fn type_or_nil(m: &[u16], n: NodeId) -> TypeId
    ensures { result.0 ≡ or_nil (get_or (raws_of m.now) n.0 none) }
{
    match node_type(m, n) {
        Some(t) => t,
        None => TypeId(0),
    }
}

// The types of the items, which are nodes, as inputs of the type that is made next.
fn push_node_types(body: Body<'_>, m: &mut [u16], c: Counts, t: Items) -> Counts
    ensures { pushed result m.new ≡ push_all m.old c (map (type_in m.old) (items_of body.entry.cells.now t)) }
{
    let mut d = c;
    for i in 0..t.count {
        let x = type_or_nil(m, NodeId(body.item(t, i)));
        d = type_table::push_input(m, d, x);
    }
    d
}

// The items, which are types, as inputs of the type that is made next.
fn push_types(body: Body<'_>, m: &mut [u16], c: Counts, t: Items) -> Counts
    ensures { pushed result m.new ≡ push_all m.old c (items_of body.entry.cells.now t) }
{
    let mut d = c;
    for i in 0..t.count {
        d = type_table::push_input(m, d, TypeId(body.item(t, i)));
    }
    d
}

// The type of the lambda of a node, with the types of its params as inputs. If the output is no type, the answer is row 0.
pub fn lambda(body: Body<'_>, m: &mut [u16], c: Record, n: NodeId, o: TypeId, t: Items) -> Given
    ensures { Gives m.old c m.new result (make_lambda n.0 o.0 (items_of body.entry.cells.now t)) }
{
    if o.0 >= c.counts.types {
        return Given {
            record: c,
            ty: TypeId(0),
        };
    }
    let inputs = InputRange {
        first: c.counts.inputs,
        count: t.count as u16,
    };
    let d = push_node_types(body, m, c.counts, t);
    with_made(c, type_table::lambda(m, d, n, o, inputs))
}

// The type of functions of a SPAN. If the output is no type, the answer is row 0.
pub fn function(body: Body<'_>, m: &mut [u16], c: Record, span: u16, o: TypeId, t: Items) -> Given
    ensures { Gives m.old c m.new result (make_function span o.0 (items_of body.entry.cells.now t)) }
{
    if o.0 >= c.counts.types {
        return Given {
            record: c,
            ty: TypeId(0),
        };
    }
    let inputs = InputRange {
        first: c.counts.inputs,
        count: t.count as u16,
    };
    let d = push_types(body, m, c.counts, t);
    with_made(c, type_table::function(m, d, span, o, inputs))
}

// Sets a variable's negation mark.
pub fn mark(m: &mut [u16], c: Record, v: VarId)
    ensures { Runs m.old c m.new c (mark_var v.0) tt }
{
    type_table::mark(m, c.counts, v);
}

// Sets the cells of the nodes to 0, where the memory has them.
fn clear(m: &mut [u16])
    ensures { errors_at ≤ length m.old → m.new ≡ cleared m.old node_cells_lem }
{
    if ERRORS_AT <= m.len() {
        m[NODES_AT..ERRORS_AT].fill(0);
    }
}

// The fourteen fixed types and nothing else: no node is typed.
pub fn start(m: &mut [u16], output: TypeId) -> Record
    ensures { log_at ≤ length m.old → Encodes m.new result (Start.start fixed_types (blank output.0)) }
{
    let counts = type_table::start(m);
    clear(m);
    Record {
        counts,
        errors: 0,
        equations: 0,
        output,
    }
}

// ── what a rule answers ──

// The refusal that ends the walk: the record with it, the node whose rule ran, and its number. The record stands first, where it stands
// in an answer too, so that it is copied in whole words.
#[derive(Clone, Copy)]
pub struct Refusal {
    pub record: Record,
    pub node: NodeId,
    pub number: u8,
}
