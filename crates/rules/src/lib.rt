// The typing rules, as far as they type no other node: what a rule does once its children have their types.
// Those marked `inline(never)` have frames of their own: in the frame of `walk::rule`, which is entered once for each level, they would be
// counted 64 times.
#![tactic(auto)]

ghost use Rattle.std.specs.Prelude.{Some, ◌≡◌};
ghost use Rattle.std.proofs.Math.Option.{none};
ghost use Rattle.type_table.specs.Memory.{kind_of};
ghost use Rattle.type_table.specs.Made.{kind_number};
ghost use Rattle.nodes.specs.declared.UnOp.TheVariants as un;
ghost use Rattle.nodes.specs.Nodes.{items_of, declared_at};
ghost use Rattle.record.specs.Steps.{new_infer_var, ref_to_lem, fn_def_lem, make_lambda, error};
ghost use Rattle.record.specs.Encodes.{Runs, Gives, Types, Rules};
ghost use Rattle.rules.specs.Rules.{own_error, equate_for, equate_on, bin_type, bin_op_lem, no_unary_op, un_op_lem, op_assign, list_of, empty_list, element_of, let_without_init, let_with_init, callee_of, method_of, lambda_param, lambda_params, lambda_output, type_res, whole_path, path_found, inst_path, failed_path};
ghost use Rattle.rules.specs.Answers.{lent, Indexes, Calls, Finds};

use nodes::{BinOp, Body, Callee, Items, Res, UnOp};
use record::{Equated, ErrorKind, Extra, Given, Record, Refusal, Span, TypingError};
use type_table::{
    DefId, HEAD_ARRAY, HEAD_ERROR, HEAD_FN_DEF, HEAD_INFER_TY, HEAD_INSTANCE, HEAD_INT,
    HEAD_LAMBDA, HEAD_PARAM, HEAD_REF, Kind, NodeId, TypeId,
};

// The fields of `Types` that rules name.
pub const NIL: u16 = 0;

pub const BOOL: u16 = 1;

pub const U64: u16 = 5;

pub const ERR: u16 = 12;

pub const DIVERGES: u16 = 13;

// ── errors ──

// An error that no equation raised, of one node.
fn own_error(m: &mut [u16], c: Record, k: ErrorKind, p: Span, a: u16, b: u16) -> Record
    ensures { Runs m.old c m.new result (error (own_error k p a b)) tt }
{
    running::emit(
        m,
        c,
        TypingError {
            kind: k,
            cause: 0,
            at: p,
            second: None,
            a,
            b,
            c: 0,
        },
    )
}

// The error of an equation of x and y at one node.
fn mismatch(k: ErrorKind, p: Span, x: TypeId, y: TypeId, i: u16) -> TypingError
    ensures { result ≡ Rattle.rules.specs.Rules.mismatch k p x.0 y.0 i }
{
    TypingError {
        kind: k,
        cause: 0,
        at: p,
        second: None,
        a: x.0,
        b: y.0,
        c: i,
    }
}

// The same, between two nodes.
fn between(k: ErrorKind, p: NodeId, q: NodeId, x: TypeId, y: TypeId) -> TypingError
    ensures { result ≡ Rattle.rules.specs.Rules.between k p.0 q.0 x.0 y.0 }
{
    TypingError {
        kind: k,
        cause: 0,
        at: Span::Node(p),
        second: Some(q),
        a: x.0,
        b: y.0,
        c: 0,
    }
}

// An equation after which the rule gives the type t, whether it is met or not.
fn equate_for(
    m: &mut [u16],
    c: Record,
    n: NodeId,
    x: TypeId,
    y: TypeId,
    e: TypingError,
    t: TypeId,
) -> Result<(Record, TypeId), Refusal>
    ensures { Types m.old c m.new result (equate_for n.0 x.0 y.0 e t.0) }
{
    match running::equate(m, c, n, x, y, e) {
        Equated::Met(d) | Equated::Failed(d) => Ok((d, t)),
        Equated::Refused(k, d) => Err(Refusal {
            number: k,
            record: d,
            node: n,
        }),
    }
}

// An equation after which the rule goes on.
fn equate_on(
    m: &mut [u16],
    c: Record,
    n: NodeId,
    x: TypeId,
    y: TypeId,
    e: TypingError,
) -> Result<Record, Refusal>
    ensures { Rules m.old c m.new result (equate_on n.0 x.0 y.0 e) }
{
    match running::equate(m, c, n, x, y, e) {
        Equated::Met(d) | Equated::Failed(d) => Ok(d),
        Equated::Refused(k, d) => Err(Refusal {
            number: k,
            record: d,
            node: n,
        }),
    }
}

// ── literals ──

// A literal's variable.
pub fn literal(m: &mut [u16], c: Record, k: Kind) -> Result<(Record, TypeId), Refusal>
    ensures { Types m.old c m.new result (new_infer_var (kind_of (kind_number k)) none) }
{
    let r = running::new_infer_var(m, c, k, None);
    Ok((r.record, r.ty))
}

// ── operators ──

fn bin_type(o: BinOp, x: TypeId) -> TypeId
    ensures { result.0 ≡ bin_type o x.0 }
{
    match o {
        BinOp::Boolean => TypeId(BOOL),
        BinOp::Ordering | BinOp::Other => x,
    }
}

// `typeck_expr_bin_op`, of operands of the types x and y.
pub fn bin_op(
    m: &mut [u16],
    c: Record,
    n: NodeId,
    o: BinOp,
    l: NodeId,
    r: NodeId,
    x: TypeId,
    y: TypeId,
) -> Result<(Record, TypeId), Refusal>
    ensures { Types m.old c m.new result (bin_op_lem n.0 o l.0 r.0 x.0 y.0) }
{
    match running::equate(m, c, n, x, y, between(ErrorKind::NoBinaryOp, l, r, x, y)) {
        Equated::Met(d) => Ok((d, bin_type(o, x))),
        Equated::Failed(d) => Ok((d, TypeId(ERR))),
        Equated::Refused(k, d) => Err(Refusal {
            number: k,
            record: d,
            node: n,
        }),
    }
}

// No operator for the operand e, of the type x.
fn no_unary_op(m: &mut [u16], c: Record, e: NodeId, x: TypeId) -> Result<(Record, TypeId), Refusal>
    ensures { Types m.old c m.new result (no_unary_op e.0 x.0) }
{
    let d = own_error(m, c, ErrorKind::NoUnaryOp, Span::Node(e), x.0, 0);
    Ok((d, TypeId(ERR)))
}

fn deref(m: &mut [u16], c: Record, e: NodeId, x: TypeId) -> Result<(Record, TypeId), Refusal>
    ensures { Types m.old c m.new result (un_op_lem un.Deref e.0 x.0) }
{
    if type_table::head(m, c.counts, x) == HEAD_REF {
        Ok((c, type_table::element(m, c.counts, x)))
    } else {
        no_unary_op(m, c, e, x)
    }
}

fn address(m: &mut [u16], c: Record, x: TypeId) -> Result<(Record, TypeId), Refusal>
    ensures { Types m.old c m.new result (ref_to_lem x.0) }
{
    let r = running::ref_to(m, c, x);
    Ok((r.record, r.ty))
}

// Negation marks a variable, bound or not.
fn negation(m: &mut [u16], c: Record, e: NodeId, x: TypeId) -> Result<(Record, TypeId), Refusal>
    ensures { Types m.old c m.new result (un_op_lem un.Negation e.0 x.0) }
{
    match type_table::head(m, c.counts, x) {
        HEAD_INT => Ok((c, x)),
        HEAD_INFER_TY => {
            record::mark(m, c, type_table::var_of(m, c.counts, x));
            Ok((c, x))
        }
        _ => no_unary_op(m, c, e, x),
    }
}

fn not(m: &mut [u16], c: Record, e: NodeId, x: TypeId) -> Result<(Record, TypeId), Refusal>
    ensures { Types m.old c m.new result (un_op_lem un.Not e.0 x.0) }
{
    // Bool, Uint and Int are the first heads
    if type_table::head(m, c.counts, x) <= HEAD_INT {
        Ok((c, x))
    } else {
        no_unary_op(m, c, e, x)
    }
}

// `typeck_expr_un_op`, of an operand of the type x.
#[inline(never)]
pub fn un_op(
    m: &mut [u16],
    c: Record,
    o: UnOp,
    e: NodeId,
    x: TypeId,
) -> Result<(Record, TypeId), Refusal>
    ensures { Types m.old c m.new result (un_op_lem o e.0 x.0) }
{
    match o {
        UnOp::Deref => deref(m, c, e, x),
        UnOp::Address => address(m, c, x),
        UnOp::Negation => negation(m, c, e, x),
        UnOp::Not => not(m, c, e, x),
    }
}

// `ExprKind::Assign`.
pub fn assign(
    m: &mut [u16],
    c: Record,
    n: NodeId,
    v: NodeId,
    e: NodeId,
    x: TypeId,
    y: TypeId,
) -> Result<(Record, TypeId), Refusal>
    ensures { Types m.old c m.new result (Rattle.rules.specs.Rules.assign n.0 v.0 e.0 x.0 y.0) }
{
    equate_for(
        m,
        c,
        n,
        x,
        y,
        between(ErrorKind::TypeMismatch, v, e, x, y),
        TypeId(NIL),
    )
}

// `ExprKind::AssignWithOp`.
pub fn op_assign(
    m: &mut [u16],
    c: Record,
    n: NodeId,
    x: TypeId,
    y: TypeId,
) -> Result<(Record, TypeId), Refusal>
    ensures { Types m.old c m.new result (op_assign n.0 x.0 y.0) }
{
    equate_for(
        m,
        c,
        n,
        x,
        y,
        mismatch(ErrorKind::NoBinaryOp, Span::Node(n), x, y, 0),
        TypeId(NIL),
    )
}

// ── fields, lists, indices ──

// `typeck_expr_field`, of a source of the type x.
#[inline(never)]
pub fn field(
    body: Body<'_>,
    m: &mut [u16],
    c: Record,
    e: NodeId,
    x: TypeId,
    name: u16,
) -> Result<(Record, TypeId), Refusal>
    ensures { Types m.old c m.new result (Rattle.rules.specs.Rules.field body.entry.rows.now body.entry.cells.now e.0 x.0 name) }
{
    match type_table::head(m, c.counts, x) {
        HEAD_INSTANCE => match body.field_type(type_table::inst_of(m, c.counts, x), name) {
            Some(t) => Ok((c, t)),
            None => {
                let r = own_error(m, c, ErrorKind::NoField, Span::Node(e), x.0, name);
                Ok((r, TypeId(ERR)))
            }
        },
        HEAD_ERROR => Ok((c, TypeId(ERR))),
        _ => {
            let r = own_error(m, c, ErrorKind::NotInstance, Span::Node(e), x.0, 0);
            Ok((r, TypeId(ERR)))
        }
    }
}

// The array of e.
pub fn list_of(m: &mut [u16], c: Record, e: TypeId) -> Result<(Record, TypeId), Refusal>
    ensures { Types m.old c m.new result (list_of e.0) }
{
    let r = running::array_of(m, c, e);
    Ok((r.record, r.ty))
}

// An empty list: its element is a new variable.
pub fn empty_list(m: &mut [u16], c: Record, n: NodeId) -> Result<(Record, TypeId), Refusal>
    ensures { Types m.old c m.new result (empty_list n.0) }
{
    let r = running::new_infer_var(m, c, Kind::Regular, Some(n));
    list_of(m, r.record, r.ty)
}

// A later element of a list against the first.
pub fn element(
    m: &mut [u16],
    c: Record,
    n: NodeId,
    i: NodeId,
    x: TypeId,
    y: TypeId,
) -> Result<Record, Refusal>
    ensures { Rules m.old c m.new result (Rattle.rules.specs.Rules.element n.0 i.0 x.0 y.0) }
{
    equate_on(
        m,
        c,
        n,
        x,
        y,
        mismatch(ErrorKind::TypeMismatch, Span::Node(i), x, y, 0),
    )
}

// `typeck_expr_index`: whether a type has elements.
#[inline(never)]
pub fn element_of(m: &mut [u16], c: Record, n: NodeId, x: TypeId) -> Result<TypeId, Record>
    ensures { Indexes m.old c m.new result (element_of n.0 x.0) }
{
    if type_table::head(m, c.counts, x) == HEAD_ARRAY {
        Ok(type_table::element(m, c.counts, x))
    } else {
        Err(own_error(m, c, ErrorKind::NoIndexOp, Span::Node(n), x.0, 0))
    }
}

// The index has to be a u64.
pub fn index(
    m: &mut [u16],
    c: Record,
    n: NodeId,
    e: TypeId,
    y: TypeId,
) -> Result<(Record, TypeId), Refusal>
    ensures { Types m.old c m.new result (Rattle.rules.specs.Rules.index n.0 e.0 y.0) }
{
    equate_for(
        m,
        c,
        n,
        TypeId(U64),
        y,
        mismatch(ErrorKind::TypeMismatch, Span::Node(n), TypeId(U64), y, 0),
        e,
    )
}

// ── if, return, let ──

// `if` wants Bool itself, not a variable.
#[inline(never)]
pub fn condition(m: &mut [u16], c: Record, e: NodeId, x: TypeId) -> Record
    ensures { Runs m.old c m.new result (Rattle.rules.specs.Rules.condition e.0 x.0) tt }
{
    if x.0 == BOOL {
        c
    } else {
        own_error(m, c, ErrorKind::TypeMismatch, Span::Node(e), BOOL, x.0)
    }
}

// The block of an `if` against what stands after else.
pub fn branches(
    m: &mut [u16],
    c: Record,
    n: NodeId,
    e: NodeId,
    x: TypeId,
    y: TypeId,
) -> Result<(Record, TypeId), Refusal>
    ensures { Types m.old c m.new result (Rattle.rules.specs.Rules.branches n.0 e.0 x.0 y.0) }
{
    equate_for(
        m,
        c,
        n,
        x,
        y,
        mismatch(ErrorKind::TypeMismatch, Span::Node(e), x, y, 0),
        x,
    )
}

// `ExprKind::Return`: it answers to the enclosing function. The error spans the node p.
pub fn returned(
    m: &mut [u16],
    c: Record,
    n: NodeId,
    p: NodeId,
    y: TypeId,
) -> Result<(Record, TypeId), Refusal>
    ensures { Types m.old c m.new result (Rattle.rules.specs.Rules.returned n.0 p.0 y.0) }
{
    let x = c.output;
    equate_for(
        m,
        c,
        n,
        x,
        y,
        mismatch(ErrorKind::TypeMismatch, Span::Node(p), x, y, 0),
        TypeId(DIVERGES),
    )
}

// `typeck_local` without init: a new variable without a type.
pub fn let_without_init(
    m: &mut [u16],
    c: Record,
    n: NodeId,
    t: Option<TypeId>,
) -> Result<Record, Refusal>
    ensures { Rules m.old c m.new result (let_without_init n.0 t) }
{
    match t {
        Some(x) => {
            record::set_extra(m, n, Extra::Local(x));
            record::set_node_type(m, n, x);
            Ok(c)
        }
        None => {
            let r = running::new_infer_var(m, c, Kind::Regular, Some(n));
            record::set_node_type(m, n, r.ty);
            Ok(r.record)
        }
    }
}

// A let's init against its declared type.
fn let_declared(
    m: &mut [u16],
    c: Record,
    n: NodeId,
    x: TypeId,
    y: TypeId,
) -> Result<Record, Refusal>
    ensures { Rules m.old c m.new result (let_with_init n.0 (Some x) y.0) }
{
    match running::equate(
        m,
        c,
        n,
        x,
        y,
        mismatch(ErrorKind::TypeMismatch, Span::Node(n), x, y, 0),
    ) {
        Equated::Met(d) | Equated::Failed(d) => {
            record::set_extra(m, n, Extra::Local(y));
            record::set_node_type(m, n, x);
            Ok(d)
        }
        Equated::Refused(k, d) => Err(Refusal {
            number: k,
            record: d,
            node: n,
        }),
    }
}

// `typeck_local` with an init of the type y.
pub fn let_with_init(
    m: &mut [u16],
    c: Record,
    n: NodeId,
    t: Option<TypeId>,
    y: TypeId,
) -> Result<Record, Refusal>
    ensures { Rules m.old c m.new result (let_with_init n.0 t y.0) }
{
    match t {
        Some(x) => let_declared(m, c, n, x, y),
        None => {
            record::set_extra(m, n, Extra::Local(y));
            record::set_node_type(m, n, y);
            Ok(c)
        }
    }
}

// ── calls ──

// `ExprKind::Call`, by the callee's raw type.
#[inline(never)]
pub fn callee(
    body: Body<'_>,
    m: &mut [u16],
    c: Record,
    n: NodeId,
    x: TypeId,
) -> Result<(Callee, TypeId), Record>
    ensures { Calls m.old c m.new result (callee_of body.entry.rows.now body.entry.cells.now n.0 x.0) }
{
    match type_table::head(m, c.counts, x) {
        HEAD_FN_DEF => {
            let f = type_table::def_of(m, c.counts, x);
            Ok((Callee::Def(f), body.output(f)))
        }
        HEAD_LAMBDA | HEAD_PARAM => Ok((Callee::Type(x), type_table::output(m, c.counts, x))),
        HEAD_ERROR => Err(c),
        _ => Err(own_error(m, c, ErrorKind::CallingNotFn, Span::Node(n), x.0, 0)),
    }
}

// `verify_arguments_for_call`: the amounts first.
#[inline(never)]
pub fn amounts(body: Body<'_>, m: &mut [u16], c: Record, p: Span, f: Callee, given: u16) -> Record
    ensures { Runs m.old c m.new result (Rattle.rules.specs.Rules.amounts body.entry.rows.now body.entry.cells.now p f given) tt }
{
    let k = body.input_count(m, c.counts, f);
    if k == given {
        c
    } else {
        own_error(m, c, ErrorKind::WrongArgumentAmnt, p, given, k)
    }
}

// The argument i, of the type y, against the input i, if there is one.
pub fn argument(
    body: Body<'_>,
    m: &mut [u16],
    c: Record,
    n: NodeId,
    p: Span,
    f: Callee,
    i: u16,
    y: TypeId,
) -> Result<Record, Refusal>
    ensures { Rules m.old c m.new result (Rattle.rules.specs.Rules.argument body.entry.rows.now body.entry.cells.now n.0 p f i y.0) }
{
    match body.input(m, c.counts, f, i) {
        Some(x) => equate_on(
            m,
            c,
            n,
            x,
            y,
            mismatch(ErrorKind::WrongArgumentTy, p, x, y, i),
        ),
        None => Ok(c),
    }
}

// `typeck_expr_meth_call`: the method of a name for a receiver of the type x.
#[inline(never)]
pub fn method_of(
    body: Body<'_>,
    m: &mut [u16],
    c: Record,
    n: NodeId,
    e: NodeId,
    x: TypeId,
    name: u16,
) -> Result<DefId, Record>
    ensures { Finds m.old c m.new result (method_of (lent body.entry) n.0 e.0 x.0 name) }
{
    if x.0 == ERR {
        return Err(c);
    }
    match body.method(m, c.counts, x, name) {
        Some(f) => {
            record::set_extra(m, n, Extra::Method(f));
            Ok(f)
        }
        None => Err(own_error(m, c, ErrorKind::MethodNotFound, Span::Node(e), x.0, name)),
    }
}

// ── lambdas ──

// The param n of a lambda: its declared type, or a new variable.
fn lambda_param(body: Body<'_>, m: &mut [u16], c: Record, n: NodeId) -> Record
    ensures { Runs m.old c m.new result (lambda_param n.0 (declared_at body.entry.rows.now body.entry.cells.now n.0)) tt }
{
    match body.declared(n) {
        Some(x) => {
            record::set_node_type(m, n, x);
            c
        }
        None => {
            let r = running::new_infer_var(m, c, Kind::Regular, Some(n));
            record::set_node_type(m, n, r.ty);
            r.record
        }
    }
}

// `typeck_lambda`: its params, in order.
#[inline(never)]
pub fn lambda_params(body: Body<'_>, m: &mut [u16], c: Record, t: Items) -> Record
    ensures { Runs m.old c m.new result (lambda_params body.entry.rows.now body.entry.cells.now t) tt }
{
    let mut d = c;
    for i in 0..t.count {
        d = lambda_param(body, m, d, NodeId(body.item(t, i)));
    }
    d
}

// The output of a lambda: a variable is always drawn, even with a declared output.
pub fn lambda_output(m: &mut [u16], c: Record, n: NodeId, t: Option<TypeId>) -> Given
    ensures { Gives m.old c m.new result (lambda_output n.0 t) }
{
    let r = running::new_infer_var(m, c, Kind::Regular, Some(n));
    match t {
        Some(x) => Given {
            record: r.record,
            ty: x,
        },
        None => r,
    }
}

// The output of a lambda against the type y of its body b; then its type is made.
#[inline(never)]
pub fn lambda(
    body: Body<'_>,
    m: &mut [u16],
    c: Record,
    n: NodeId,
    b: NodeId,
    o: TypeId,
    y: TypeId,
    t: Items,
) -> Result<(Record, TypeId), Refusal>
    ensures { Types m.old c m.new result (Rattle.rules.specs.Rules.lambda body.entry.cells.now n.0 b.0 o.0 y.0 t) }
{
    let d = equate_on(
        m,
        c,
        n,
        o,
        y,
        mismatch(ErrorKind::TypeMismatch, Span::Node(b), o, y, 0),
    )?;
    let r = running::lambda(body, m, d, n, o, t);
    Ok((r.record, r.ty))
}

// ── paths ──

fn fn_type(m: &mut [u16], c: Record, f: DefId) -> Result<(Record, TypeId), Refusal>
    ensures { Types m.old c m.new result (fn_def_lem f.0) }
{
    let r = running::fn_def(m, c, f);
    Ok((r.record, r.ty))
}

// `type_res`: 10 for an `o`, 11 for a local that is not yet typed.
fn type_res(m: &mut [u16], c: Record, n: NodeId, r: Res) -> Result<(Record, TypeId), Refusal>
    ensures { Types m.old c m.new result (type_res n.0 r) }
{
    match r {
        Res::Local(l) => match record::node_type(m, l) {
            Some(t) => Ok((c, t)),
            None => Err(Refusal {
                number: 11,
                record: c,
                node: n,
            }),
        },
        Res::Fn(d) | Res::Ctor(d) => fn_type(m, c, d),
        Res::Inst(k) => {
            let g = running::instance(m, c, k);
            Ok((g.record, g.ty))
        }
        Res::Error => Ok((c, TypeId(ERR))),
        Res::Other => Err(Refusal {
            number: 10,
            record: c,
            node: n,
        }),
    }
}

// A path without a failed segment: what RES says.
fn whole_path(m: &mut [u16], c: Record, n: NodeId, r: Res) -> Result<(Record, TypeId), Refusal>
    ensures { Types m.old c m.new result (whole_path n.0 r) }
{
    let (d, t) = type_res(m, c, n, r)?;
    record::set_extra(m, n, Extra::Resolved(r));
    Ok((d, t))
}

// The method of a name for the type x that a path leads to, or an error.
fn path_method(
    body: Body<'_>,
    m: &mut [u16],
    c: Record,
    n: NodeId,
    x: TypeId,
    name: u16,
) -> Result<(Record, TypeId), Refusal>
    ensures { Types m.old c m.new result (path_found (lent body.entry) n.0 x.0 name) }
{
    match body.method(m, c.counts, x, name) {
        Some(f) => {
            record::set_extra(m, n, Extra::Resolved(Res::Fn(f)));
            fn_type(m, c, f)
        }
        None => {
            record::set_extra(m, n, Extra::Resolved(Res::Error));
            let r = own_error(m, c, ErrorKind::MethodNotFound, Span::Node(n), x.0, name);
            Ok((r, TypeId(ERR)))
        }
    }
}

// A partly failed path of an instance: a method of its last segment's type.
fn inst_path(
    body: Body<'_>,
    m: &mut [u16],
    c: Record,
    n: NodeId,
    resolved: u16,
    t: Items,
) -> Result<(Record, TypeId), Refusal>
    ensures { Types m.old c m.new result (inst_path (lent body.entry) n.0 resolved t) }
{
    if resolved >= u16::from(t.count) {
        return Err(Refusal {
            number: 10,
            record: c,
            node: n,
        });
    }
    let name = body.segment_name(t, resolved as u8);
    let last = body.segment_res(t, t.count - 1);
    let (d, x) = type_res(m, c, n, last)?;
    path_method(body, m, d, n, x, name)
}

// A partly failed path.
fn failed_path(
    body: Body<'_>,
    m: &mut [u16],
    c: Record,
    n: NodeId,
    r: Res,
    resolved: u16,
    t: Items,
) -> Result<(Record, TypeId), Refusal>
    ensures { Types m.old c m.new result (failed_path (lent body.entry) n.0 r resolved t) }
{
    match r {
        Res::Inst(_) => inst_path(body, m, c, n, resolved, t),
        Res::Error => {
            record::set_extra(m, n, Extra::Resolved(Res::Error));
            Ok((c, TypeId(ERR)))
        }
        Res::Local(_) | Res::Fn(_) | Res::Ctor(_) | Res::Other => {
            Err(Refusal {
                number: 10,
                record: c,
                node: n,
            })
        }
    }
}

// `typeck_expr_path`.
#[inline(never)]
pub fn path(
    body: Body<'_>,
    m: &mut [u16],
    c: Record,
    n: NodeId,
    r: Res,
    resolved: u16,
    t: Items,
) -> Result<(Record, TypeId), Refusal>
    ensures { Types m.old c m.new result (Rattle.rules.specs.Rules.path (lent body.entry) n.0 r resolved t) }
{
    if body.is_partly_failed(t) {
        failed_path(body, m, c, n, r, resolved, t)
    } else {
        whole_path(m, c, n, r)
    }
}
