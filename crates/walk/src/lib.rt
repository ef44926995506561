// The walk over a body: an expression enters a block, a block its statements, a statement an expression. The levels that are left fall at
// each expression.
#![tactic(auto)]

ghost use Rattle.nodes.specs.Nodes.{let_at};
ghost use Rattle.record.specs.Encodes.{Types, Rules};
ghost use Rattle.rules.specs.Answers.{lent};
ghost use Rattle.walk.specs.Walk.{typeck_expr_bin_op, typeck_assign, typeck_op_assign, typeck_expr_un_op, typeck_expr_field, typeck_expr_list, typeck_expr_index, typeck_else, typeck_expr_if, typeck_loop, verify_arguments_for_call, typeck_call, verify_arguments_for_method_call, typeck_expr_meth_call, typeck_return, typeck_local, typeck_stmt, typeck_block, block_at_lem, typeck_lambda, typeck_rule, typeck_expr};
ghost use Rattle.walk.specs.Pairs.{Pairs};
ghost use Rattle.walk.specs.WrittenDown.{WrittenDown};

use nodes::{BinOp, Body, Callee, Items, Node, UnOp};
use record::{Record, Refusal, Span};
use rules::{ERR, NIL};
use type_table::{DefId, Kind, NodeId, TypeId};

// How many levels of nodes there are.
pub const LEVELS: u16 = 64;

// Two nodes, in order.
#[cycle(walk)]
fn two(
    body: Body<'_>,
    m: &mut [u16],
    level: u16,
    c: Record,
    l: NodeId,
    r: NodeId,
) -> Result<(Record, TypeId, TypeId), Refusal>
    ensures { Pairs m.old c m.new result (Rattle.walk.specs.Walk.two (lent body.entry) (typeck_expr (lent body.entry) level) l.0 r.0) }
{
    let (d, x) = expr(body, m, level, c, l)?;
    let (e, y) = expr(body, m, level, d, r)?;
    Ok((e, x, y))
}

// `typeck_expr_bin_op`.
#[cycle(walk)]
fn bin_op(
    body: Body<'_>,
    m: &mut [u16],
    level: u16,
    c: Record,
    n: NodeId,
    o: BinOp,
    l: NodeId,
    r: NodeId,
) -> Result<(Record, TypeId), Refusal>
    ensures { Types m.old c m.new result (typeck_expr_bin_op (lent body.entry) (typeck_expr (lent body.entry) level) n.0 o l.0 r.0) }
{
    let (d, x, y) = two(body, m, level, c, l, r)?;
    rules::bin_op(m, d, n, o, l, r, x, y)
}

// `ExprKind::Assign`.
#[cycle(walk)]
fn assign(
    body: Body<'_>,
    m: &mut [u16],
    level: u16,
    c: Record,
    n: NodeId,
    v: NodeId,
    e: NodeId,
) -> Result<(Record, TypeId), Refusal>
    ensures { Types m.old c m.new result (typeck_assign (lent body.entry) (typeck_expr (lent body.entry) level) n.0 v.0 e.0) }
{
    let (d, x, y) = two(body, m, level, c, v, e)?;
    rules::assign(m, d, n, v, e, x, y)
}

// `ExprKind::AssignWithOp`.
#[cycle(walk)]
fn op_assign(
    body: Body<'_>,
    m: &mut [u16],
    level: u16,
    c: Record,
    n: NodeId,
    v: NodeId,
    e: NodeId,
) -> Result<(Record, TypeId), Refusal>
    ensures { Types m.old c m.new result (typeck_op_assign (lent body.entry) (typeck_expr (lent body.entry) level) n.0 v.0 e.0) }
{
    let (d, x, y) = two(body, m, level, c, v, e)?;
    rules::op_assign(m, d, n, x, y)
}

// `typeck_expr_un_op`.
#[cycle(walk)]
fn un_op(
    body: Body<'_>,
    m: &mut [u16],
    level: u16,
    c: Record,
    o: UnOp,
    e: NodeId,
) -> Result<(Record, TypeId), Refusal>
    ensures { Types m.old c m.new result (typeck_expr_un_op (lent body.entry) (typeck_expr (lent body.entry) level) o e.0) }
{
    let (d, x) = expr(body, m, level, c, e)?;
    rules::un_op(m, d, o, e, x)
}

// `typeck_expr_field`.
#[cycle(walk)]
fn field(
    body: Body<'_>,
    m: &mut [u16],
    level: u16,
    c: Record,
    e: NodeId,
    name: u16,
) -> Result<(Record, TypeId), Refusal>
    ensures { Types m.old c m.new result (typeck_expr_field (lent body.entry) (typeck_expr (lent body.entry) level) e.0 name) }
{
    let (d, x) = expr(body, m, level, c, e)?;
    rules::field(body, m, d, e, x, name)
}

// Each element of a list from the item 1 on, against the type x of the first.
#[cycle(walk)]
fn elements(
    body: Body<'_>,
    m: &mut [u16],
    level: u16,
    c: Record,
    n: NodeId,
    t: Items,
    x: TypeId,
) -> Result<Record, Refusal>
    ensures { Rules m.old c m.new result (Rattle.walk.specs.Walk.elements (lent body.entry) (typeck_expr (lent body.entry) level) n.0 t x.0) }
{
    let mut d = c;
    for i in 1..t.count {
        let e = NodeId(body.item(t, i));
        let (f, y) = expr(body, m, level, d, e)?;
        d = rules::element(m, f, n, e, x, y)?;
    }
    Ok(d)
}

// `typeck_expr_list`.
#[cycle(walk)]
fn list(
    body: Body<'_>,
    m: &mut [u16],
    level: u16,
    c: Record,
    n: NodeId,
    t: Items,
) -> Result<(Record, TypeId), Refusal>
    ensures { Types m.old c m.new result (typeck_expr_list (lent body.entry) (typeck_expr (lent body.entry) level) n.0 t) }
{
    if t.count == 0 {
        return rules::empty_list(m, c, n);
    }
    let (d, x) = expr(body, m, level, c, NodeId(body.item(t, 0)))?;
    let e = elements(body, m, level, d, n, t, x)?;
    rules::list_of(m, e, x)
}

// `typeck_expr_index`: the index i of t. That of what is no array stays untyped.
#[cycle(walk)]
fn index(
    body: Body<'_>,
    m: &mut [u16],
    level: u16,
    c: Record,
    n: NodeId,
    t: NodeId,
    i: NodeId,
) -> Result<(Record, TypeId), Refusal>
    ensures { Types m.old c m.new result (typeck_expr_index (lent body.entry) (typeck_expr (lent body.entry) level) n.0 t.0 i.0) }
{
    let (d, x) = expr(body, m, level, c, t)?;
    match rules::element_of(m, d, n, x) {
        Ok(e) => {
            let (f, y) = expr(body, m, level, d, i)?;
            rules::index(m, f, n, e, y)
        }
        Err(f) => Ok((f, TypeId(ERR))),
    }
}

// What stands after else, against the type x of the block.
#[cycle(walk)]
fn or_else(
    body: Body<'_>,
    m: &mut [u16],
    level: u16,
    c: Record,
    n: NodeId,
    x: TypeId,
    e: Option<NodeId>,
) -> Result<(Record, TypeId), Refusal>
    ensures { Types m.old c m.new result (typeck_else (lent body.entry) (typeck_expr (lent body.entry) level) n.0 x.0 e) }
{
    let Some(b) = e else {
        return Ok((c, TypeId(NIL)));
    };
    let (d, y) = expr(body, m, level, c, b)?;
    rules::branches(m, d, n, b, x, y)
}

// `typeck_expr_if`: the condition a, the block b, and what stands after else.
#[cycle(walk)]
fn if_else(
    body: Body<'_>,
    m: &mut [u16],
    level: u16,
    c: Record,
    n: NodeId,
    a: NodeId,
    b: NodeId,
    e: Option<NodeId>,
) -> Result<(Record, TypeId), Refusal>
    ensures { Types m.old c m.new result (typeck_expr_if (lent body.entry) (typeck_expr (lent body.entry) level) n.0 a.0 b.0 e) }
{
    let (d, x) = expr(body, m, level, c, a)?;
    let f = rules::condition(m, d, a, x);
    let (g, y) = block_at(body, m, level, f, b)?;
    or_else(body, m, level, g, n, y, e)
}

// `ExprKind::Loop`.
#[cycle(walk)]
fn repeat(
    body: Body<'_>,
    m: &mut [u16],
    level: u16,
    c: Record,
    b: NodeId,
) -> Result<(Record, TypeId), Refusal>
    ensures { Types m.old c m.new result (typeck_loop (lent body.entry) (typeck_expr (lent body.entry) level) b.0) }
{
    let (d, _) = block_at(body, m, level, c, b)?;
    Ok((d, TypeId(NIL)))
}

// The arguments of a call in order; the first of them has the position `first`.
#[cycle(walk)]
fn args(
    body: Body<'_>,
    m: &mut [u16],
    level: u16,
    c: Record,
    n: NodeId,
    p: Span,
    f: Callee,
    t: Items,
    first: u8,
) -> Result<Record, Refusal>
    ensures { Rules m.old c m.new result (Rattle.walk.specs.Walk.args (lent body.entry) (typeck_expr (lent body.entry) level) n.0 p f t first) }
{
    let mut d = c;
    for i in 0..t.count {
        let (g, y) = expr(body, m, level, d, NodeId(body.item(t, i)))?;
        d = rules::argument(body, m, g, n, p, f, u16::from(first) + u16::from(i), y)?;
    }
    Ok(d)
}

// `verify_arguments_for_call`; then the call has the type o.
#[cycle(walk)]
fn verify_call(
    body: Body<'_>,
    m: &mut [u16],
    level: u16,
    c: Record,
    n: NodeId,
    f: Callee,
    t: Items,
    o: TypeId,
) -> Result<(Record, TypeId), Refusal>
    ensures { Types m.old c m.new result (verify_arguments_for_call (lent body.entry) (typeck_expr (lent body.entry) level) n.0 f t o.0) }
{
    let d = rules::amounts(body, m, c, Span::Node(n), f, u16::from(t.count));
    let e = args(body, m, level, d, n, Span::Node(n), f, t, 0)?;
    Ok((e, o))
}

// `ExprKind::Call`. The arguments of what is no callee stay untyped.
#[cycle(walk)]
fn call(
    body: Body<'_>,
    m: &mut [u16],
    level: u16,
    c: Record,
    n: NodeId,
    f: NodeId,
    t: Items,
) -> Result<(Record, TypeId), Refusal>
    ensures { Types m.old c m.new result (typeck_call (lent body.entry) (typeck_expr (lent body.entry) level) n.0 f.0 t) }
{
    let (d, x) = expr(body, m, level, c, f)?;
    match rules::callee(body, m, d, n, x) {
        Ok((g, o)) => verify_call(body, m, level, d, n, g, t, o),
        Err(e) => Ok((e, TypeId(ERR))),
    }
}

// `verify_arguments_for_method_call`: the receiver, of the type x, is argument 0.
#[cycle(walk)]
fn verify_method_call(
    body: Body<'_>,
    m: &mut [u16],
    level: u16,
    c: Record,
    n: NodeId,
    f: DefId,
    x: TypeId,
    t: Items,
) -> Result<(Record, TypeId), Refusal>
    ensures { Types m.old c m.new result (verify_arguments_for_method_call (lent body.entry) (typeck_expr (lent body.entry) level) n.0 f.0 x.0 t) }
{
    let p = Span::Item(f);
    let d = rules::amounts(body, m, c, p, Callee::Def(f), u16::from(t.count) + 1);
    let e = rules::argument(body, m, d, n, p, Callee::Def(f), 0, x)?;
    let g = args(body, m, level, e, n, p, Callee::Def(f), t, 1)?;
    Ok((g, body.output(f)))
}

// `typeck_expr_meth_call`. The arguments of what is no method stay untyped.
#[cycle(walk)]
fn method_call(
    body: Body<'_>,
    m: &mut [u16],
    level: u16,
    c: Record,
    n: NodeId,
    e: NodeId,
    name: u16,
    t: Items,
) -> Result<(Record, TypeId), Refusal>
    ensures { Types m.old c m.new result (typeck_expr_meth_call (lent body.entry) (typeck_expr (lent body.entry) level) n.0 e.0 name t) }
{
    let (d, x) = expr(body, m, level, c, e)?;
    match rules::method_of(body, m, d, n, e, x, name) {
        Ok(f) => verify_method_call(body, m, level, d, n, f, x, t),
        Err(f) => Ok((f, TypeId(ERR))),
    }
}

// `ExprKind::Return`.
#[cycle(walk)]
fn returned(
    body: Body<'_>,
    m: &mut [u16],
    level: u16,
    c: Record,
    n: NodeId,
    e: Option<NodeId>,
) -> Result<(Record, TypeId), Refusal>
    ensures { Types m.old c m.new result (typeck_return (lent body.entry) (typeck_expr (lent body.entry) level) n.0 e) }
{
    let Some(v) = e else {
        return rules::returned(m, c, n, n, TypeId(NIL));
    };
    let (d, y) = expr(body, m, level, c, v)?;
    rules::returned(m, d, n, v, y)
}

// `typeck_local`.
#[cycle(walk)]
fn local(
    body: Body<'_>,
    m: &mut [u16],
    level: u16,
    c: Record,
    n: NodeId,
    t: Option<TypeId>,
    e: Option<NodeId>,
) -> Result<Record, Refusal>
    ensures { Rules m.old c m.new result (typeck_local (lent body.entry) (typeck_expr (lent body.entry) level) n.0 t e) }
{
    let Some(v) = e else {
        return rules::let_without_init(m, c, n, t);
    };
    let (d, y) = expr(body, m, level, c, v)?;
    rules::let_with_init(m, d, n, t, y)
}

// `typeck_stmt`: a let, or an expression.
#[cycle(walk)]
fn stmt(body: Body<'_>, m: &mut [u16], level: u16, c: Record, n: NodeId) -> Result<Record, Refusal>
    ensures { Rules m.old c m.new result (typeck_stmt (lent body.entry) (typeck_expr (lent body.entry) level) n.0 (let_at body.entry.rows.now body.entry.cells.now n.0)) }
{
    match body.let_of(n) {
        Some((t, e)) => local(body, m, level, c, n, t, e),
        None => {
            let (d, _) = expr(body, m, level, c, n)?;
            Ok(d)
        }
    }
}

// The statements of a block, in order.
#[cycle(walk)]
fn stmts(body: Body<'_>, m: &mut [u16], level: u16, c: Record, t: Items) -> Result<Record, Refusal>
    ensures { Rules m.old c m.new result (Rattle.walk.specs.Walk.stmts (lent body.entry) (typeck_expr (lent body.entry) level) t) }
{
    let mut d = c;
    for i in 0..t.count {
        d = stmt(body, m, level, d, NodeId(body.item(t, i)))?;
    }
    Ok(d)
}

// `typeck_block`: statements, then the tail; without one the block is Nil.
#[cycle(walk)]
fn block(
    body: Body<'_>,
    m: &mut [u16],
    level: u16,
    c: Record,
    e: Option<NodeId>,
    t: Items,
) -> Result<(Record, TypeId), Refusal>
    ensures { Types m.old c m.new result (typeck_block (lent body.entry) (typeck_expr (lent body.entry) level) e t) }
{
    let d = stmts(body, m, level, c, t)?;
    match e {
        Some(n) => expr(body, m, level, d, n),
        None => Ok((d, TypeId(NIL))),
    }
}

// The block n of an `if` or a loop, which gets no type itself.
#[cycle(walk)]
fn block_at(
    body: Body<'_>,
    m: &mut [u16],
    level: u16,
    c: Record,
    n: NodeId,
) -> Result<(Record, TypeId), Refusal>
    ensures { Types m.old c m.new result (block_at_lem (lent body.entry) (typeck_expr (lent body.entry) level) n.0) }
{
    match body.block_of(n) {
        Some((e, t)) => block(body, m, level, c, e, t),
        None => Ok((c, TypeId(NIL))),
    }
}

// `typeck_lambda`: inputs, an output, then the body b.
#[cycle(walk)]
fn lambda(
    body: Body<'_>,
    m: &mut [u16],
    level: u16,
    c: Record,
    n: NodeId,
    o: Option<TypeId>,
    b: NodeId,
    t: Items,
) -> Result<(Record, TypeId), Refusal>
    ensures { Types m.old c m.new result (typeck_lambda (lent body.entry) (typeck_expr (lent body.entry) level) n.0 o b.0 t) }
{
    let d = rules::lambda_params(body, m, c, t);
    let r = rules::lambda_output(m, d, n, o);
    let (e, y) = expr(body, m, level, r.record, b)?;
    rules::lambda(body, m, e, n, b, r.ty, y, t)
}

// The rule of the node n (`typeck_expr`), at the level of its children.
#[cycle(walk)]
fn rule(
    body: Body<'_>,
    m: &mut [u16],
    level: u16,
    c: Record,
    n: NodeId,
) -> Result<(Record, TypeId), Refusal>
    ensures { Types m.old c m.new result (typeck_rule (lent body.entry) (typeck_expr (lent body.entry) level) n.0) }
{
    match body.view(n) {
        Node::Bool => Ok((c, TypeId(rules::BOOL))),
        Node::Int => rules::literal(m, c, Kind::Integer),
        Node::Float => rules::literal(m, c, Kind::Float),
        Node::Str => Err(Refusal {
            number: 10,
            record: c,
            node: n,
        }),
        Node::Bin(o, l, r) => bin_op(body, m, level, c, n, o, l, r),
        Node::Un(o, e) => un_op(body, m, level, c, o, e),
        Node::Field(e, name) => field(body, m, level, c, e, name),
        Node::List(t) => list(body, m, level, c, n, t),
        Node::Index(t, i) => index(body, m, level, c, n, t, i),
        Node::Assign(v, e) => assign(body, m, level, c, n, v, e),
        Node::OpAssign(v, e) => op_assign(body, m, level, c, n, v, e),
        Node::If(a, b, e) => if_else(body, m, level, c, n, a, b, e),
        Node::Loop(b) => repeat(body, m, level, c, b),
        Node::Break => Ok((c, TypeId(rules::DIVERGES))),
        Node::Call(f, t) => call(body, m, level, c, n, f, t),
        Node::MethodCall(e, name, t) => method_call(body, m, level, c, n, e, name, t),
        Node::Return(e) => returned(body, m, level, c, n, e),
        Node::Block(e, t) => block(body, m, level, c, e, t),
        Node::Let(..) | Node::Param(_) => Ok((c, TypeId(ERR))),
        Node::Lambda(o, b, t) => lambda(body, m, level, c, n, o, b, t),
        Node::Path(r, k, t) => rules::path(body, m, c, n, r, k, t),
    }
}

// Writes down the type that a rule gave the node n; a refusal gives none.
fn write_down(m: &mut [u16], n: NodeId, z: Result<(Record, TypeId), Refusal>)
    ensures { WrittenDown m.old n.0 z m.new }
{
    if let Ok((_, t)) = z {
        record::set_node_type(m, n, t);
    }
}

// `type_of`: the type of the node n, which is written down.
#[cycle(walk)]
pub fn expr(
    body: Body<'_>,
    m: &mut [u16],
    level: u16,
    c: Record,
    n: NodeId,
) -> Result<(Record, TypeId), Refusal>
    ensures { Types m.old c m.new result (typeck_expr (lent body.entry) level n.0) }
{
    if level == 0 {
        return Ok((c, TypeId(ERR)));
    }
    let z = rule(body, m, level - 1, c, n);
    write_down(m, n, z);
    z
}

// The node that BODY of `fn` is, with all levels. That `rule` is called here too keeps the compiler from copying it into `expr`, which is then short.
pub fn body_type(
    body: Body<'_>,
    m: &mut [u16],
    c: Record,
    n: NodeId,
) -> Result<(Record, TypeId), Refusal>
    ensures { Types m.old c m.new result (typeck_expr (lent body.entry) 64 n.0) }
{
    let z = rule(body, m, LEVELS - 1, c, n);
    write_down(m, n, z);
    z
}
