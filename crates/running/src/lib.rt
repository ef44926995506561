// The record of the walk, lent by `&mut`, as `FunCx` updates it: each function over `&mut Record` copies the record, calls the covered
// function of `record` and stores the record that comes back. Above each stands a function with plain parameters, whose contract is that
// of `record`'s: the typing rules call those. `equate` stands above them: the error
// of an equation that failed is appended in the lent record like any other.
#![tactic(auto)]

ghost use Rattle.std.specs.Prelude.{◌≡◌};
ghost use Rattle.theory.specs.Rules.{mismatch};
ghost use Rattle.type_table.specs.Memory.{kind_of, numbered};
ghost use Rattle.type_table.specs.Made.{origin_number};
ghost use Rattle.type_table.specs.Made.{kind_number as kind_code};
ghost use Rattle.nodes.specs.Nodes.{items_of};
ghost use Rattle.record.specs.Steps.{new_infer_var, array_of, ref_to_lem, fn_def_lem, make_lambda, make_function, error, equation};
ghost use Rattle.record.specs.Encodes.{Runs, Gives, Equates};

use nodes::{Body, Items};
use record::{Equated, Given, Record, TypingError};
use type_table::{DefId, InstId, Kind, NodeId, TypeId};

// ── the record lent ──

// One variable more, with its type.
pub fn draw(m: &mut [u16], c: &mut Record, k: Kind, o: Option<NodeId>) -> TypeId
    ensures { Runs m.old c.old m.new c.new (new_infer_var (kind_of (kind_code k)) (numbered (origin_number o))) result.0 }
{
    let r = record::new_infer_var(m, *c, k, o);
    *c = r.record;
    r.ty
}

// The type array of e: one type more, unless it is there.
pub fn append_array(m: &mut [u16], c: &mut Record, e: TypeId) -> TypeId
    ensures { Runs m.old c.old m.new c.new (array_of e.0) result.0 }
{
    let r = record::array_of(m, *c, e);
    *c = r.record;
    r.ty
}

// The type reference to e: one type more, unless it is there.
pub fn append_ref(m: &mut [u16], c: &mut Record, e: TypeId) -> TypeId
    ensures { Runs m.old c.old m.new c.new (ref_to_lem e.0) result.0 }
{
    let r = record::ref_to(m, *c, e);
    *c = r.record;
    r.ty
}

// The type of a definition: one type more, unless it is there.
pub fn append_fn_def(m: &mut [u16], c: &mut Record, f: DefId) -> TypeId
    ensures { Runs m.old c.old m.new c.new (fn_def_lem f.0) result.0 }
{
    let r = record::fn_def(m, *c, f);
    *c = r.record;
    r.ty
}

// The type of an instance: one type more, unless it is there.
pub fn append_instance(m: &mut [u16], c: &mut Record, k: InstId) -> TypeId
    ensures { Runs m.old c.old m.new c.new (Rattle.record.specs.Steps.instance k.0) result.0 }
{
    let r = record::instance(m, *c, k);
    *c = r.record;
    r.ty
}

// The type of the lambda of a node, with the types of its params as inputs: one type more. If the output is no type, the answer is row 0.
pub fn append_lambda(
    body: Body<'_>,
    m: &mut [u16],
    c: &mut Record,
    n: NodeId,
    o: TypeId,
    p: Items,
) -> TypeId
    ensures { Runs m.old c.old m.new c.new (make_lambda n.0 o.0 (items_of body.entry.cells.now p)) result.0 }
{
    let r = record::lambda(body, m, *c, n, o, p);
    *c = r.record;
    r.ty
}

// The type of functions of a SPAN: one type more. If the output is no type, the answer is row 0.
pub fn append_function(
    body: Body<'_>,
    m: &mut [u16],
    c: &mut Record,
    span: u16,
    o: TypeId,
    p: Items,
) -> TypeId
    ensures { Runs m.old c.old m.new c.new (make_function span o.0 (items_of body.entry.cells.now p)) result.0 }
{
    let r = record::function(body, m, *c, span, o, p);
    *c = r.record;
    r.ty
}

// One error more. Without room nothing changes.
pub fn append_error(m: &mut [u16], c: &mut Record, e: TypingError)
    ensures { Runs m.old c.old m.new c.new (error e) tt }
{
    *c = record::emit(m, *c, e);
}

// ── with plain parameters ──

// `new_infer_var`.
pub fn new_infer_var(m: &mut [u16], c: Record, k: Kind, o: Option<NodeId>) -> Given
    ensures { Gives m.old c m.new result (new_infer_var (kind_of (kind_code k)) (numbered (origin_number o))) }
{
    let mut d = c;
    let ty = draw(m, &mut d, k, o);
    Given { record: d, ty }
}

// The type array of e.
pub fn array_of(m: &mut [u16], c: Record, e: TypeId) -> Given
    ensures { Gives m.old c m.new result (array_of e.0) }
{
    let mut d = c;
    let ty = append_array(m, &mut d, e);
    Given { record: d, ty }
}

// The type reference to e.
pub fn ref_to(m: &mut [u16], c: Record, e: TypeId) -> Given
    ensures { Gives m.old c m.new result (ref_to_lem e.0) }
{
    let mut d = c;
    let ty = append_ref(m, &mut d, e);
    Given { record: d, ty }
}

// The type of a definition.
pub fn fn_def(m: &mut [u16], c: Record, f: DefId) -> Given
    ensures { Gives m.old c m.new result (fn_def_lem f.0) }
{
    let mut d = c;
    let ty = append_fn_def(m, &mut d, f);
    Given { record: d, ty }
}

// The type of an instance.
pub fn instance(m: &mut [u16], c: Record, k: InstId) -> Given
    ensures { Gives m.old c m.new result (Rattle.record.specs.Steps.instance k.0) }
{
    let mut d = c;
    let ty = append_instance(m, &mut d, k);
    Given { record: d, ty }
}

// The type of the lambda of a node, with the types of its params as inputs. If the output is no type, the answer is row 0.
pub fn lambda(body: Body<'_>, m: &mut [u16], c: Record, n: NodeId, o: TypeId, p: Items) -> Given
    ensures { Gives m.old c m.new result (make_lambda n.0 o.0 (items_of body.entry.cells.now p)) }
{
    let mut d = c;
    let ty = append_lambda(body, m, &mut d, n, o, p);
    Given { record: d, ty }
}

// The type of functions of a SPAN. If the output is no type, the answer is row 0.
pub fn function(body: Body<'_>, m: &mut [u16], c: Record, span: u16, o: TypeId, p: Items) -> Given
    ensures { Gives m.old c m.new result (make_function span o.0 (items_of body.entry.cells.now p)) }
{
    let mut d = c;
    let ty = append_function(body, m, &mut d, span, o, p);
    Given { record: d, ty }
}

// One error more. Without room nothing changes.
pub fn emit(m: &mut [u16], c: Record, e: TypingError) -> Record
    ensures { Runs m.old c m.new result (error e) tt }
{
    let mut d = c;
    append_error(m, &mut d, e);
    d
}

// ── equations ──

// An error with the CAUSE of a failed equation.
fn caused(e: TypingError) -> TypingError
    ensures { result ≡ Rattle.record.specs.Steps.caused e mismatch }
{
    TypingError { cause: 1, ..e }
}

// Raises, in the rule of the node n, the equation of the rows x, expected, and y, got; a mismatch emits the error e.
pub fn equate(m: &mut [u16], c: Record, n: NodeId, x: TypeId, y: TypeId, e: TypingError) -> Equated
    ensures { Equates m.old c m.new n.0 result (equation n.0 x.0 y.0 e) }
{
    match record::raise(m, c, n, x, y) {
        Equated::Met(d) => Equated::Met(d),
        Equated::Failed(d) => {
            let error = caused(e);
            Equated::Failed(emit(m, d, error))
        }
        Equated::Refused(k, d) => Equated::Refused(k, d),
    }
}
