// What stands around the walk: the declared types before it, and after it the equation of declared and actual result and the final types.
#![tactic(auto)]

ghost use Rattle.std.specs.Prelude.{◌≡◌, get_or};
ghost use Rattle.std.proofs.Math.Option.{none, some};
ghost use Rattle.type_table.specs.Memory.{origins_of};
ghost use Rattle.nodes.specs.Nodes.{declared_at};
ghost use Rattle.record.specs.declared.Record.{Record};
ghost use Rattle.record.specs.Encodes.{Runs, Gives, Rules};
ghost use Rattle.rules.specs.Answers.{lent};
ghost use Rattle.resolve.specs.Resolve.{param_type_lem, declare_type, declare_types, or_zero, variable_type, resolve_variable, resolve_element, resolve_type_variable, resolve_node, resolve_nodes};
ghost use Rattle.resolve.specs.Body.{BodyTyped};

use nodes::{Body, Items, TypeRow};
use record::{Equated, ErrorKind, Given, Record, Refusal, Span, TypingError};
use type_table::{HEAD_ARRAY, HEAD_INFER_TY, Kind, NodeId, TypeId, VarId};

// The defaults of open variables.
const I64: u16 = 9;

const F64: u16 = 11;

// ── declared types ──

// The type of a row of the file.
fn declare_type(body: Body<'_>, m: &mut [u16], c: Record, i: u16) -> Record
    ensures { Runs m.old c m.new result (declare_type body.entry.rows.now body.entry.cells.now i) tt }
{
    match body.type_row(i) {
        TypeRow::Array(e) => running::array_of(m, c, e).record,
        TypeRow::Fun(s, o, t) => running::function(body, m, c, s, o, t).record,
        TypeRow::Inst(k) => running::instance(m, c, k).record,
        TypeRow::Fn(d) => running::fn_def(m, c, d).record,
    }
}

// The types of a file's first n rows, in order.
fn declare_types(body: Body<'_>, m: &mut [u16], c: Record, n: u16) -> Record
    ensures { Runs m.old c m.new result (declare_types body.entry.rows.now body.entry.cells.now n) tt }
{
    let mut d = c;
    for i in 0..n {
        d = declare_type(body, m, d, i);
    }
    d
}

// ── the function ──

// P of `fn` has its declared type.
fn param(body: Body<'_>, m: &mut [u16], n: NodeId)
    ensures { (c : Record) → Runs m.old c m.new c (param_type_lem n.0 (declared_at body.entry.rows.now body.entry.cells.now n.0)) tt }
{
    if let Some(x) = body.declared(n) {
        record::set_node_type(m, n, x);
    }
}

// Each P of `fn`, in order.
fn params(body: Body<'_>, m: &mut [u16], t: Items)
    ensures { (c : Record) → Runs m.old c m.new c (Rattle.resolve.specs.Resolve.params body.entry.rows.now body.entry.cells.now t) tt }
{
    for i in 0..t.count {
        param(body, m, NodeId(body.item(t, i)));
    }
}

// The equation of declared and actual result.
fn result(m: &mut [u16], c: Record, n: NodeId, y: TypeId) -> Result<Record, Refusal>
    ensures { Rules m.old c m.new result (Rattle.resolve.specs.Resolve.result n.0 y.0) }
{
    let x = c.output;
    let e = TypingError {
        kind: ErrorKind::TypeMismatch,
        cause: 0,
        at: Span::Signature,
        second: None,
        a: x.0,
        b: y.0,
        c: 0,
    };
    match running::equate(m, c, n, x, y, e) {
        Equated::Met(d) | Equated::Failed(d) => Ok(d),
        Equated::Refused(k, d) => Err(Refusal {
            number: k,
            record: d,
            node: n,
        }),
    }
}

// `typeck`: the body of the function, and the equation of declared and actual result.
fn typeck(body: Body<'_>, m: &mut [u16], c: Record, n: NodeId) -> Result<Record, Refusal>
    ensures { Rules m.old c m.new result (Rattle.resolve.specs.Resolve.typeck (lent body.entry) n.0) }
{
    let (d, y) = walk::body_type(body, m, c, n)?;
    result(m, d, n, y)
}

// ── final types ──

// The node that drew a Regular variable.
fn origin(m: &[u16], c: Record, v: VarId) -> NodeId
    ensures { result.0 ≡ or_zero (get_or (origins_of m.now c.counts.vars) v.0 none) }
{
    type_table::origin_of(m, c.counts, v).unwrap_or(NodeId(0))
}

// An open variable: i64, f64, or the error InferFail and err.
fn open_type(m: &mut [u16], c: Record, v: VarId) -> Given
    ensures { Gives m.old c m.new result (variable_type v.0) }
{
    match type_table::kind_of(m, c.counts, v) {
        Kind::Integer => Given {
            record: c,
            ty: TypeId(I64),
        },
        Kind::Float => Given {
            record: c,
            ty: TypeId(F64),
        },
        Kind::Regular => {
            let e = TypingError {
                kind: ErrorKind::InferFail,
                cause: 0,
                at: Span::Node(origin(m, c, v)),
                second: None,
                a: 0,
                b: 0,
                c: 0,
            };
            Given {
                record: running::emit(m, c, e),
                ty: TypeId(rules::ERR),
            }
        }
    }
}

// The end of a variable's bindings, or what an open variable gives.
fn end(m: &mut [u16], c: Record, x: TypeId) -> Given
    ensures { Gives m.old c m.new result (resolve_variable x.0) }
{
    let y = type_table::follow(m, c.counts, x);
    if type_table::head(m, c.counts, y) == HEAD_INFER_TY {
        open_type(m, c, type_table::var_of(m, c.counts, y))
    } else {
        Given { record: c, ty: y }
    }
}

// An array of the row e: of a variable it is that of its end.
fn array(m: &mut [u16], c: Record, x: TypeId, e: TypeId) -> Given
    ensures { Gives m.old c m.new result (resolve_element x.0 (some e.0)) }
{
    if type_table::head(m, c.counts, e) == HEAD_INFER_TY {
        let r = end(m, c, e);
        running::array_of(m, r.record, r.ty)
    } else {
        Given { record: c, ty: x }
    }
}

// `resolve_type_variable`: only a bare variable or an array directly of one is resolved.
fn resolve_type_variable(m: &mut [u16], c: Record, x: TypeId) -> Given
    ensures { Gives m.old c m.new result (resolve_type_variable x.0) }
{
    match type_table::head(m, c.counts, x) {
        HEAD_INFER_TY => end(m, c, x),
        HEAD_ARRAY => array(m, c, x, type_table::element(m, c.counts, x)),
        _ => Given { record: c, ty: x },
    }
}

// The final type of the node n, if it is typed.
fn resolve_node(m: &mut [u16], c: Record, n: NodeId) -> Record
    ensures { Runs m.old c m.new result (resolve_node n.0) tt }
{
    match record::node_type(m, n) {
        Some(x) => {
            let r = resolve_type_variable(m, c, x);
            record::set_final(m, n, r.ty);
            r.record
        }
        None => c,
    }
}

// The final types of the first k nodes, in number order.
fn resolve_nodes(m: &mut [u16], c: Record, k: u16) -> Record
    ensures { Runs m.old c m.new result (resolve_nodes k) tt }
{
    let mut d = c;
    for i in 0..k {
        d = resolve_node(m, d, NodeId(i));
    }
    d
}

// ── a body ──

// Types a body that was read: declared types, the walk, the final types.
pub fn type_body(
    rows: &[u16],
    cells: &[u16],
    m: &mut [u16],
    n: refs::Counts,
) -> Result<Record, Refusal>
    ensures { BodyTyped m.old m.new result n rows.now cells.now }
{
    let body = Body {
        rows,
        cells,
        binds: n.binds,
    };
    let f = body.fn_line();
    let c = record::start(m, f.output);
    let d = declare_types(body, m, c, n.types);
    params(body, m, f.params);
    let e = typeck(body, m, d, f.body)?;
    Ok(resolve_nodes(m, e, n.nodes))
}
