// Types, variables, bindings and the pool of made types, over one lent memory of numbers. specs/Memory.antt says how a memory is read,
// and docs/TABLES.md has its regions.
#![tactic(auto, using(std::proofs::lemmas::Bool::Decides::nat_tests))]

ghost use Rattle.std.specs.Prelude.{◌≡◌, MatchOption, ℕ, ◌+◌, ◌*◌, ◌<◌, ◌≤◌, length};
ghost use Rattle.theory.specs.Program.{clip as clip·T};
ghost use Rattle.theory.specs.Rules.{array_head, ref_head, fn_def_head, instance_head, lambda_head, param_head};
ghost use Rattle.type_table.specs.Memory.{cell, cells, inputs_at, head_at, row_cell, number_at, output_at, first_at, count_at, var_cell, mark_at};
ghost use Rattle.type_table.specs.View.{kind_code, kind_in, origin_in, bound_in, width_code, view_of, view_in, onward_in, end_in};
ghost use Rattle.type_table.specs.Made.{marking, binding, kind_number, origin_number, made, pushed, draw_in, pool_cell, append_in, enter_in, intern_in, intern_of, parts_in, push_in, pool_cells, cleared, start_in};

use memory_cells::ROWS_AT;

// The most type rows: 14 fixed, 512 declared, 4,096 made.
pub const MOST_TYPES: u16 = 4622;
// The most variables.
pub const MOST_VARS: u16 = 1024;
// The most inputs of functions and lambdas: 512 times 16 declared, and each node at most once.
pub const MOST_INPUTS: u16 = 9216;

// The most definitions and instances.
pub const MOST_DEFS: u16 = 256;

pub const MOST_INSTANCES: u16 = 64;

// The heads of `TyKind`, by their places from 0.
pub const HEAD_BOOL: u16 = 0;

pub const HEAD_UINT: u16 = 1;

pub const HEAD_INT: u16 = 2;

pub const HEAD_FLOAT: u16 = 3;

pub const HEAD_DOUBLE: u16 = 4;

pub const HEAD_INSTANCE: u16 = 5;

pub const HEAD_PARAM: u16 = 6;

pub const HEAD_FN_DEF: u16 = 7;

pub const HEAD_ARRAY: u16 = 8;

pub const HEAD_NIL: u16 = 9;

pub const HEAD_ERROR: u16 = 10;

pub const HEAD_DIVERGES: u16 = 11;

pub const HEAD_INFER_TY: u16 = 12;

pub const HEAD_LAMBDA: u16 = 13;

pub const HEAD_REF: u16 = 14;
// How many there are.
pub const HEADS: u16 = 15;

// Where the regions behind the variables and the rows begin: inputs of one cell, and the pool's four indices.
const INPUTS_AT: usize = 28230;

const ARRAYS_AT: usize = 37446;

const REFS_AT: usize = 42068;

const DEFS_AT: usize = 46690;

const INSTANCES_AT: usize = 46946;
// How many cells this crate needs; a lent memory may be longer, and what lies behind stays as it is.
pub const MEMORY: usize = 47010;

// The number of a type row.
#[derive(Clone, Copy)]
pub struct TypeId(pub u16);

// The number of a variable (`InferId`).
#[derive(Clone, Copy)]
pub struct VarId(pub u16);

// The number of a node (`AirId`).
#[derive(Clone, Copy)]
pub struct NodeId(pub u16);

// The number of a definition.
#[derive(Clone, Copy)]
pub struct DefId(pub u16);

// The number of an instance.
#[derive(Clone, Copy)]
pub struct InstId(pub u16);

// How many rows, variables and inputs a memory holds.
#[derive(Clone, Copy)]
pub struct Counts {
    pub types: u16,
    pub vars: u16,
    pub inputs: u16,
}

#[derive(Clone, Copy)]
pub enum Width {
    W8,
    W16,
    W32,
    W64,
}

// The inputs of a function or a lambda: where the first stands, and how many there are.
#[derive(Clone, Copy)]
pub struct InputRange {
    pub first: u16,
    pub count: u16,
}

// A type row, by the heads of `TyKind`. A function has its SPAN, a lambda its node, and both their output and inputs.
#[derive(Clone, Copy)]
pub enum Row {
    Bool,
    Uint(Width),
    Int(Width),
    Float,
    Double,
    Instance(InstId),
    Param(u16, TypeId, InputRange),
    FnDef(DefId),
    Array(TypeId),
    Nil,
    Error,
    Diverges,
    InferTy(VarId),
    Lambda(NodeId, TypeId, InputRange),
    Ref(TypeId),
}

// `InferKind`.
#[derive(Clone, Copy, PartialEq, Eq)]
pub enum Kind {
    Regular,
    Integer,
    Float,
}

// ── rows ──

// The place of a row's head in `TyKind`; that of Nil for what is no row or no head.
#[tactic(auto, using(std::proofs::lemmas::Bool::Decides::nat_tests), unfolding(crate::specs::Memory::head_at))]
pub fn head(m: &[u16], c: Counts, x: TypeId) -> u16
    ensures { result ≡ head_at m.now c.types x.0 }
{
    if x.0 >= c.types {
        return HEAD_NIL;
    }
    let h = memory_cells::read(m, ROWS_AT + x.0 as usize * 5);
    if h < HEADS { h } else { HEAD_NIL }
}

// A cell of a row; 0 for what is no row.
fn row_cell(m: &[u16], c: Counts, x: TypeId, k: u16) -> u16
    ensures { result ≡ row_cell m.now c.types x.0 k }
{
    if x.0 < c.types {
        memory_cells::row_cell(m, x.0, k)
    } else {
        0
    }
}

// The number that a row has first, whatever it stands for: a width, instance, definition, element, variable, SPAN or node.
#[tactic(auto, using(std::proofs::lemmas::Bool::Decides::nat_tests), unfolding(crate::specs::Memory::number_at))]
pub fn number(m: &[u16], c: Counts, x: TypeId) -> u16
    ensures { result ≡ number_at m.now c.types x.0 }
{
    row_cell(m, c, x, 1)
}

// The variable of a row of InferTy.
pub fn var_of(m: &[u16], c: Counts, x: TypeId) -> VarId
    ensures { result.0 ≡ number_at m.now c.types x.0 }
{
    VarId(number(m, c, x))
}

// The element of an array, or what a reference refers to.
pub fn element(m: &[u16], c: Counts, x: TypeId) -> TypeId
    ensures { result.0 ≡ number_at m.now c.types x.0 }
{
    TypeId(number(m, c, x))
}

// The definition of a row of FnDef.
pub fn def_of(m: &[u16], c: Counts, x: TypeId) -> DefId
    ensures { result.0 ≡ number_at m.now c.types x.0 }
{
    DefId(number(m, c, x))
}

// The instance of a row of Instance.
pub fn inst_of(m: &[u16], c: Counts, x: TypeId) -> InstId
    ensures { result.0 ≡ number_at m.now c.types x.0 }
{
    InstId(number(m, c, x))
}

// The output of a function or a lambda.
#[tactic(auto, using(std::proofs::lemmas::Bool::Decides::nat_tests), unfolding(crate::specs::Memory::output_at))]
pub fn output(m: &[u16], c: Counts, x: TypeId) -> TypeId
    ensures { result.0 ≡ output_at m.now c.types x.0 }
{
    TypeId(row_cell(m, c, x, 2))
}

// Where the inputs of a function or a lambda stand.
#[tactic(auto, using(std::proofs::lemmas::Bool::Decides::nat_tests), unfolding(crate::specs::Memory::first_at, crate::specs::Memory::count_at))]
pub fn inputs(m: &[u16], c: Counts, x: TypeId) -> InputRange
    ensures { (result.first ≡ first_at m.now c.types x.0) × (result.count ≡ count_at m.now c.types x.0) }
{
    InputRange {
        first: row_cell(m, c, x, 3),
        count: row_cell(m, c, x, 4),
    }
}

// The row of an input, by its place.
pub fn input(m: &[u16], at: u32) -> TypeId
    ensures { result.0 ≡ cell m.now (inputs_at + at) }
{
    TypeId(memory_cells::read(m, INPUTS_AT + at as usize))
}

#[tactic(auto, using(std::proofs::lemmas::Bool::Decides::nat_tests), unfolding(crate::specs::View::width_code))]
fn width_of(a: u16) -> Width
    ensures { result ≡ width_code a }
{
    match a {
        0 => Width::W8,
        1 => Width::W16,
        2 => Width::W32,
        _ => Width::W64,
    }
}

#[tactic(auto, using(std::proofs::lemmas::Bool::Decides::nat_tests), unfolding(crate::specs::View::view_of))]
fn decode(h: u16, a: u16, o: TypeId, i: InputRange) -> Row
    ensures { result ≡ view_of h a o i }
{
    match h {
        HEAD_BOOL => Row::Bool,
        HEAD_UINT => Row::Uint(width_of(a)),
        HEAD_INT => Row::Int(width_of(a)),
        HEAD_FLOAT => Row::Float,
        HEAD_DOUBLE => Row::Double,
        HEAD_INSTANCE => Row::Instance(InstId(a)),
        HEAD_PARAM => Row::Param(a, o, i),
        HEAD_FN_DEF => Row::FnDef(DefId(a)),
        HEAD_ARRAY => Row::Array(TypeId(a)),
        HEAD_ERROR => Row::Error,
        HEAD_DIVERGES => Row::Diverges,
        HEAD_INFER_TY => Row::InferTy(VarId(a)),
        HEAD_LAMBDA => Row::Lambda(NodeId(a), o, i),
        HEAD_REF => Row::Ref(TypeId(a)),
        _ => Row::Nil,
    }
}

// A type row, taken apart; Nil for what is no row.
#[tactic(auto, using(std::proofs::lemmas::Bool::Decides::nat_tests), unfolding(crate::specs::View::view_in))]
pub fn view(m: &[u16], c: Counts, x: TypeId) -> Row
    ensures { result ≡ view_in m.now c x }
{
    decode(
        head(m, c, x),
        number(m, c, x),
        output(m, c, x),
        inputs(m, c, x),
    )
}

// ── variables ──

#[tactic(auto, using(std::proofs::lemmas::Bool::Decides::nat_tests), unfolding(crate::specs::View::kind_code))]
fn kind_code(k: u16) -> Kind
    ensures { result ≡ kind_code k }
{
    match k {
        1 => Kind::Integer,
        2 => Kind::Float,
        _ => Kind::Regular,
    }
}

// A cell of a variable; 0 for what is no variable.
fn var_cell(m: &[u16], c: Counts, v: VarId, k: u16) -> u16
    ensures { result ≡ var_cell m.now c.vars v.0 k }
{
    if v.0 < c.vars {
        memory_cells::var_cell(m, v.0, k)
    } else {
        0
    }
}

// A variable's kind; Regular for what is no variable.
#[tactic(auto, using(std::proofs::lemmas::Bool::Decides::nat_tests), unfolding(crate::specs::View::kind_in))]
pub fn kind_of(m: &[u16], c: Counts, v: VarId) -> Kind
    ensures { result ≡ kind_in m.now c v }
{
    kind_code(var_cell(m, c, v, 0))
}

// The node that drew a variable; none for a literal and for what is no variable.
#[tactic(auto, using(std::proofs::lemmas::Bool::Decides::nat_tests), unfolding(crate::specs::View::origin_in))]
pub fn origin_of(m: &[u16], c: Counts, v: VarId) -> Option<NodeId>
    ensures { result ≡ origin_in m.now c v }
{
    match var_cell(m, c, v, 1) {
        0 => None,
        o => Some(NodeId(o - 1)),
    }
}

// A variable's binding; open for what is no variable.
#[tactic(auto, using(std::proofs::lemmas::Bool::Decides::nat_tests), unfolding(crate::specs::View::bound_in, crate::specs::Memory::binding_at))]
pub fn bound_to(m: &[u16], c: Counts, v: VarId) -> Option<TypeId>
    ensures { result ≡ bound_in m.now c v }
{
    if var_cell(m, c, v, 2) == 1 {
        Some(TypeId(var_cell(m, c, v, 3)))
    } else {
        None
    }
}

// Whether a variable carries a negation mark.
#[tactic(auto, using(std::proofs::lemmas::Bool::Decides::nat_tests), unfolding(crate::specs::Memory::mark_at))]
pub fn is_marked(m: &[u16], c: Counts, v: VarId) -> bool
    ensures { result ≡ mark_at m.now c.vars v.0 }
{
    var_cell(m, c, v, 4) == 1
}

// Sets a variable's negation mark; for what is no variable it changes nothing.
#[tactic(auto, using(std::proofs::lemmas::Bool::Decides::nat_tests), unfolding(crate::specs::Made::marking))]
pub fn mark(m: &mut [u16], c: Counts, v: VarId)
    ensures { m.new ≡ marking m.old c.vars v.0 }
{
    if v.0 < c.vars {
        memory_cells::write(m, v.0 as usize * 5 + 4, 1);
    }
}

// Binds a variable; for what is no variable it changes nothing. For `unify` alone: it does not look for cycles.
#[tactic(auto, using(std::proofs::lemmas::Bool::Decides::nat_tests), unfolding(crate::specs::Made::binding, memory_cells::specs::Cells::binding_written))]
pub fn bind(m: &mut [u16], c: Counts, v: VarId, z: TypeId)
    ensures { m.new ≡ binding m.old c.vars v.0 z.0 }
{
    if v.0 < c.vars {
        memory_cells::write_binding(m, v.0, z.0);
    }
}

// ── drawing and making ──

// A type's number, and the counts with it.
#[derive(Clone, Copy)]
pub struct Made {
    pub counts: Counts,
    pub ty: TypeId,
}

// Nothing made: the answer is row 0.
fn not_made(c: Counts) -> Made
    ensures { (result.counts ≡ c) × (result.ty.0 ≡ 0) }
{
    Made {
        counts: c,
        ty: TypeId(0),
    }
}

fn kind_number(k: Kind) -> u16
    ensures { result ≡ kind_number k }
{
    k as u16
}

// 0 for a literal, else the node's number plus one.
fn origin_number(o: Option<NodeId>) -> u16
    ensures { result ≡ origin_number o }
{
    match o {
        Some(NodeId(n)) if n < u16::MAX => n + 1,
        _ => 0,
    }
}

// A new variable: the number of its row. Without room nothing changes, and the answer is row 0.
#[tactic(auto, using(std::proofs::lemmas::Bool::Decides::nat_tests), unfolding(crate::specs::Made::draw_in))]
pub fn draw(m: &mut [u16], c: Counts, k: Kind, o: Option<NodeId>) -> Made
    ensures { made result m.new ≡ draw_in m.old c k o }
{
    if c.vars >= MOST_VARS || c.types >= MOST_TYPES {
        return not_made(c);
    }
    memory_cells::write_var(m, c.vars, kind_number(k), origin_number(o));
    memory_cells::write_row(m, c.types, HEAD_INFER_TY, c.vars, 0, 0, 0);
    Made {
        counts: Counts {
            types: c.types + 1,
            vars: c.vars + 1,
            ..c
        },
        ty: TypeId(c.types),
    }
}

// Where the pool has the first row of a head and a number, if it has a place for it.
#[tactic(auto, using(std::proofs::lemmas::Bool::Decides::nat_tests), unfolding(crate::specs::Made::pool_cell))]
fn pool_cell(h: u16, a: u16) -> Option<usize>
    ensures { MatchOption result (pool_cell h a ≡ 0) (λ p. (p ≡ pool_cell h a) × (0 < p)) }
{
    match h {
        HEAD_ARRAY if a < MOST_TYPES => Some(ARRAYS_AT + a as usize),
        HEAD_REF if a < MOST_TYPES => Some(REFS_AT + a as usize),
        HEAD_FN_DEF if a < MOST_DEFS => Some(DEFS_AT + a as usize),
        HEAD_INSTANCE if a < MOST_INSTANCES => Some(INSTANCES_AT + a as usize),
        _ => None,
    }
}

// A new row. Without room nothing changes, and the answer is row 0.
#[tactic(auto, using(std::proofs::lemmas::Bool::Decides::nat_tests), unfolding(crate::specs::Made::append_in))]
fn append(m: &mut [u16], c: Counts, h: u16, a: u16, o: u16, r: InputRange) -> Made
    ensures { made result m.new ≡ append_in m.old c h a o r.first r.count }
{
    if c.types >= MOST_TYPES {
        return not_made(c);
    }
    memory_cells::write_row(m, c.types, h, a, o, r.first, r.count);
    Made {
        counts: Counts {
            types: c.types + 1,
            ..c
        },
        ty: TypeId(c.types),
    }
}

// A new row that the pool shall have in the cell p.
#[tactic(auto, using(std::proofs::lemmas::Bool::Decides::nat_tests), unfolding(crate::specs::Made::enter_in))]
fn enter(m: &mut [u16], c: Counts, p: usize, h: u16, a: u16) -> Made
    ensures { made result m.new ≡ enter_in m.old c p h a }
{
    if c.types >= MOST_TYPES {
        return not_made(c);
    }
    memory_cells::write(m, p, c.types + 1);
    append(m, c, h, a, 0, InputRange { first: 0, count: 0 })
}

// The row of a head and a number that the pool has, else a new one.
#[tactic(auto, using(std::proofs::lemmas::Bool::Decides::nat_tests), unfolding(crate::specs::Made::intern_in))]
fn intern(m: &mut [u16], c: Counts, h: u16, a: u16) -> Made
    ensures { made result m.new ≡ intern_in m.old c h a }
{
    let Some(p) = pool_cell(h, a) else {
        return not_made(c);
    };
    match memory_cells::read(m, p) {
        0 => enter(m, c, p, h, a),
        x => Made {
            counts: c,
            ty: TypeId(x - 1),
        },
    }
}

// The type of a head that is made of the row e; for what is no row the answer is row 0.
#[tactic(auto, using(std::proofs::lemmas::Bool::Decides::nat_tests), unfolding(crate::specs::Made::intern_of))]
fn intern_of(m: &mut [u16], c: Counts, h: u16, e: TypeId) -> Made
    ensures { made result m.new ≡ intern_of m.old c h e.0 }
{
    if e.0 < c.types {
        intern(m, c, h, e.0)
    } else {
        not_made(c)
    }
}

// The type array of e.
pub fn array_of(m: &mut [u16], c: Counts, e: TypeId) -> Made
    ensures { made result m.new ≡ intern_of m.old c array_head e.0 }
{
    intern_of(m, c, HEAD_ARRAY, e)
}

// The type reference to e.
pub fn ref_to(m: &mut [u16], c: Counts, e: TypeId) -> Made
    ensures { made result m.new ≡ intern_of m.old c ref_head e.0 }
{
    intern_of(m, c, HEAD_REF, e)
}

// The type of the definition d; of 256, or the answer is row 0.
pub fn fn_def(m: &mut [u16], c: Counts, d: DefId) -> Made
    ensures { made result m.new ≡ intern_in m.old c fn_def_head d.0 }
{
    intern(m, c, HEAD_FN_DEF, d.0)
}

// The type of the instance k; of 64, or the answer is row 0.
pub fn instance(m: &mut [u16], c: Counts, k: InstId) -> Made
    ensures { made result m.new ≡ intern_in m.old c instance_head k.0 }
{
    intern(m, c, HEAD_INSTANCE, k.0)
}

// The row x; row 0 for what is no row.
pub fn clip(c: Counts, x: TypeId) -> TypeId
    ensures { result.0 ≡ clip·T c.types x.0 }
{
    if x.0 < c.types { x } else { TypeId(0) }
}

// One more input, for the function or lambda that is made next; what is no row is pushed as row 0. Without room nothing changes.
#[tactic(auto, using(std::proofs::lemmas::Bool::Decides::nat_tests), unfolding(crate::specs::Made::push_in))]
pub fn push_input(m: &mut [u16], c: Counts, x: TypeId) -> Counts
    ensures { pushed result m.new ≡ push_in m.old c x.0 }
{
    if c.inputs >= MOST_INPUTS {
        return c;
    }
    memory_cells::write(m, INPUTS_AT + c.inputs as usize, clip(c, x).0);
    Counts {
        inputs: c.inputs + 1,
        ..c
    }
}

// A new row of a head that has an output and inputs. Nothing changes, and the answer is row 0, if the output is no row, if an input that
// r names is not there, or without room.
#[tactic(auto, using(std::proofs::lemmas::Bool::Decides::nat_tests), unfolding(crate::specs::Made::parts_in))]
fn append_parts(m: &mut [u16], c: Counts, h: u16, a: u16, o: TypeId, r: InputRange) -> Made
    ensures { made result m.new ≡ parts_in m.old c h a o.0 r.first r.count }
{
    let end = r.first as u32 + r.count as u32;
    if o.0 >= c.types || end > c.inputs as u32 {
        return not_made(c);
    }
    append(m, c, h, a, o.0, r)
}

// The type of the lambda of a node, with the inputs that stand at r. If a part of it is not there, the answer is row 0.
pub fn lambda(m: &mut [u16], c: Counts, n: NodeId, o: TypeId, r: InputRange) -> Made
    ensures { made result m.new ≡ parts_in m.old c lambda_head n.0 o.0 r.first r.count }
{
    append_parts(m, c, HEAD_LAMBDA, n.0, o, r)
}

// The type of functions of a SPAN, with the inputs that stand at r. If a part of it is not there, the answer is row 0.
pub fn function(m: &mut [u16], c: Counts, span: u16, o: TypeId, r: InputRange) -> Made
    ensures { made result m.new ≡ parts_in m.old c param_head span o.0 r.first r.count }
{
    append_parts(m, c, HEAD_PARAM, span, o, r)
}

// The fields of `Types`, by head.
const FIXED_HEADS: [u16; 14] = [
    HEAD_NIL,
    HEAD_BOOL,
    HEAD_UINT,
    HEAD_UINT,
    HEAD_UINT,
    HEAD_UINT,
    HEAD_INT,
    HEAD_INT,
    HEAD_INT,
    HEAD_INT,
    HEAD_FLOAT,
    HEAD_DOUBLE,
    HEAD_ERROR,
    HEAD_DIVERGES,
];
// Their widths.
const FIXED_WIDTHS: [u16; 14] = [0, 0, 0, 1, 2, 3, 0, 1, 2, 3, 0, 0, 0, 0];

// Sets the cells of the pool to 0.
fn clear(m: &mut [u16])
    requires { cells ≤ length m.old }
    ensures { m.new ≡ cleared m.old pool_cells }
{
    m[ARRAYS_AT..MEMORY].fill(0);
}

// The fourteen fixed types, and nothing else. A memory that is shorter than MEMORY stays as it is, and the answer is no row.
#[tactic(auto, using(std::proofs::lemmas::Bool::Decides::nat_tests), unfolding(crate::specs::Made::start_in, crate::specs::Made::fixed_rows))]
pub fn start(m: &mut [u16]) -> Counts
    ensures { pushed result m.new ≡ start_in m.old }
{
    if m.len() < MEMORY {
        return Counts {
            types: 0,
            vars: 0,
            inputs: 0,
        };
    }
    clear(m);
    for x in 0..14u16 {
        let i = x as usize;
        memory_cells::write_row(m, x, FIXED_HEADS[i], FIXED_WIDTHS[i], 0, 0, 0);
    }
    Counts {
        types: 14,
        vars: 0,
        inputs: 0,
    }
}

// The end of a row's bindings (`ty_var_ty`), followed variable by variable; row 12 (err) where there is none.
pub fn follow(m: &[u16], c: Counts, x: TypeId) -> TypeId
    ensures { result.0 ≡ end_in m.now c x.0 }
{
    let mut y = x;
    for _step in 0..c.types as u32 + 1 {
        let Some(z) = onward(m, c, y) else {
            return y;
        };
        y = z;
    }
    TypeId(12)
}

// What a row is bound to, if it is a variable.
#[tactic(auto, using(std::proofs::lemmas::Bool::Decides::nat_tests), unfolding(crate::specs::View::onward_in))]
fn onward(m: &[u16], c: Counts, x: TypeId) -> Option<TypeId>
    ensures { result ≡ onward_in m.now c x }
{
    if head(m, c, x) == HEAD_INFER_TY {
        bound_to(m, c, var_of(m, c, x))
    } else {
        None
    }
}
