// Unification over the memory of the crate `type_table`: the equation of an expected and a got row, by steps 1 to 5 of documents 01 and 02.
#![tactic(auto)]

ghost use Rattle.std.specs.Prelude.{◌≡◌, ◌≤◌};
ghost use Rattle.theory.specs.Rules.{kind_fits};
ghost use Rattle.theory.specs.Rules.{compared as compared·T, choose as choose·T};
ghost use Rattle.type_table.specs.Memory.{inputs_from};
ghost use Rattle.unify.specs.Leaf.{kind_k, step_k, cap, code, Classed, Signed, Compared, SameVar};
ghost use Rattle.unify.specs.Step.{Settled, Chased, unsigned_in, passed_in, Met, HasRoles, Exchanges, Varied, down_to, Stepped};
ghost use Rattle.unify.specs.Unify.{Eached, Entered, Unified, answer_of};
ghost use Rattle.unify.specs.Promise.{held_in, Solved};

use search::Found;
use type_table::{
    Counts, HEAD_ARRAY, HEAD_BOOL, HEAD_DIVERGES, HEAD_DOUBLE, HEAD_ERROR, HEAD_FLOAT,
    HEAD_INFER_TY, HEAD_INSTANCE, HEAD_INT, HEAD_LAMBDA, HEAD_NIL, HEAD_PARAM, HEAD_REF, HEAD_UINT,
    InputRange, Kind, TypeId, VarId,
};

// The answer to an equation.
#[derive(Clone, Copy, PartialEq, Eq)]
pub enum Answer {
    Success,
    Mismatch,
    Refused12,
    Refused13,
}

// ── step 3: the kind test, the roles, the mark ──

// Integer-like, float-like or neither, as the kind test sees a row.
fn class(m: &[u16], c: Counts, z: TypeId) -> Kind
    ensures { Classed m.now c z result }
{
    match type_table::head(m, c, z) {
        HEAD_UINT | HEAD_INT => Kind::Integer,
        HEAD_FLOAT | HEAD_DOUBLE => Kind::Float,
        HEAD_INFER_TY => type_table::kind_of(m, c, type_table::var_of(m, c, z)),
        _ => Kind::Regular,
    }
}

// The kind test, of a variable's kind against a row's class.
fn kind_test(k: Kind, l: Kind) -> bool
    ensures { result ≡ kind_fits (kind_k k) (kind_k l) }
{
    k == Kind::Regular || k == l
}

// The variable of the row x fails the kind test against the row z: a Regular variable there exchanges the roles with it.
fn exchange(m: &[u16], c: Counts, x: TypeId, z: TypeId) -> Option<(VarId, TypeId)>
    ensures { Exchanges m.now c x z result }
{
    if type_table::head(m, c, z) != HEAD_INFER_TY {
        return None;
    }
    let u = type_table::var_of(m, c, z);
    match type_table::kind_of(m, c, u) {
        Kind::Regular => Some((u, x)),
        Kind::Integer | Kind::Float => None,
    }
}

// The roles of the row x, if it is a variable's, and of the row z. Where the kind test is passed they are as they stand.
fn roles(m: &[u16], c: Counts, x: TypeId, z: TypeId) -> Option<(VarId, TypeId)>
    ensures { HasRoles m.now c x z result }
{
    if type_table::head(m, c, x) != HEAD_INFER_TY {
        return None;
    }
    let u = type_table::var_of(m, c, x);
    if kind_test(type_table::kind_of(m, c, u), class(m, c, z)) {
        Some((u, z))
    } else {
        exchange(m, c, x, z)
    }
}

// Whether a marked variable may meet a row: Int, or a variable.
fn signed(m: &[u16], c: Counts, z: TypeId) -> bool
    ensures { Signed m.now c z result }
{
    let h = type_table::head(m, c, z);
    h == HEAD_INT || h == HEAD_INFER_TY
}

// Whether a row is that of the variable v.
fn same_var(m: &[u16], c: Counts, v: VarId, z: TypeId) -> bool
    ensures { SameVar m.now c v z result }
{
    type_table::head(m, c, z) == HEAD_INFER_TY && type_table::var_of(m, c, z).0 == v.0
}

// ── the choice of the step ──

// What an inner step answers; `Dry` is never met in sound tables.
#[derive(Clone, Copy, PartialEq, Eq)]
enum Reply {
    Success,
    Mismatch,
    Refused12,
    Refused13,
    Dry,
}

// What two heads call for.
#[derive(Clone, Copy)]
enum Decision {
    Same,
    Compare,
    Left,
    Right,
    Down,
    Swap,
    Differ,
}

// The heads that step 1 compares.
#[tactic(auto, using(std::proofs::lemmas::Bool::Decides::nat_tests))]
fn compared(h: u16) -> bool
    ensures { result ≡ compared·T h }
{
    h < HEAD_PARAM || h == HEAD_NIL
}

// Steps 1 to 5, by the heads of the expected and of the got side.
#[tactic(auto, using(std::proofs::lemmas::Bool::Decides::nat_tests), unfolding(theory::specs::Rules::choose))]
fn choose(e: u16, g: u16) -> Decision
    ensures { step_k result ≡ choose·T e g }
{
    match (e, g) {
        _ if e == g && compared(e) => Decision::Compare,
        (_, HEAD_DIVERGES) => Decision::Same,
        (HEAD_ARRAY, HEAD_ARRAY) => Decision::Down,
        (HEAD_INFER_TY, _) => Decision::Left,
        (_, HEAD_INFER_TY) => Decision::Right,
        (HEAD_PARAM, HEAD_LAMBDA) => Decision::Down,
        (HEAD_LAMBDA, HEAD_PARAM) => Decision::Swap,
        (HEAD_ERROR, _) | (_, HEAD_ERROR) => Decision::Same,
        _ => Decision::Differ,
    }
}

#[tactic(auto, using(std::proofs::lemmas::Bool::Decides::nat_tests))]
fn capped(a: u16) -> u16
    ensures value { result ≡ cap a }
    ensures upper_bound { result ≤ 3 }
{
    a.min(3)
}

// A number for each type that step 1 compares, and 0 for every other head.
#[tactic(auto, using(std::proofs::lemmas::Bool::Decides::nat_tests), unfolding(crate::specs::Leaf::code))]
fn base_code(h: u16, a: u16) -> u32
    ensures { result ≡ code h a }
{
    match h {
        HEAD_BOOL => 1,
        HEAD_UINT => capped(a) as u32 + 2,
        HEAD_INT => capped(a) as u32 + 6,
        HEAD_FLOAT => 10,
        HEAD_DOUBLE => 11,
        HEAD_INSTANCE => a as u32 + 13,
        HEAD_NIL => 12,
        _ => 0,
    }
}

// Step 1's comparison.
fn compare(m: &[u16], c: Counts, x: TypeId, y: TypeId) -> Reply
    ensures { Compared m.now c x y result }
{
    let i = base_code(type_table::head(m, c, x), type_table::number(m, c, x));
    let j = base_code(type_table::head(m, c, y), type_table::number(m, c, y));
    if i != 0 && i == j {
        Reply::Success
    } else {
        Reply::Mismatch
    }
}

// ── one step ──

// What a step leaves: an answer, one pair of rows, or the parts of two rows.
#[derive(Clone, Copy)]
enum Next {
    Done(Reply),
    On(TypeId, TypeId),
    Into(TypeId, TypeId),
}

// An open variable against a row: it is bound, unless it stands there.
fn settle(m: &mut [u16], c: Counts, v: VarId, z: TypeId) -> Reply
    ensures { Settled m.old c v z m.new result }
{
    match search::seek(m, c, v, z) {
        Found::Free => {
            type_table::bind(m, c, v, z);
            Reply::Success
        }
        Found::Ring => Reply::Success,
        Found::Inside => Reply::Refused12,
        Found::Lost => Reply::Dry,
    }
}

// A bound variable: its binding is expected against the other side.
fn chase(m: &mut [u16], c: Counts, v: VarId, z: TypeId) -> Next
    ensures { Chased m.old c v z m.new result }
{
    match type_table::bound_to(m, c, v) {
        None => Next::Done(settle(m, c, v, z)),
        Some(x) => Next::On(x, z),
    }
}

// Whether a mark keeps a variable from meeting a row: it asks for Int, or a variable.
#[tactic(auto, using(std::proofs::lemmas::Bool::Decides::nat_tests), unfolding(crate::specs::Step::unsigned_in))]
fn unsigned(m: &[u16], c: Counts, v: VarId, z: TypeId) -> bool
    ensures { result ≡ unsigned_in m.now c v z }
{
    type_table::is_marked(m, c, v) && !signed(m, c, z)
}

// The mark of a variable is passed on to another.
#[tactic(auto, using(std::proofs::lemmas::Bool::Decides::nat_tests), unfolding(crate::specs::Step::passed_in))]
fn pass(m: &mut [u16], c: Counts, v: VarId, z: TypeId)
    ensures { m.new ≡ passed_in m.old c v z }
{
    if type_table::is_marked(m, c, v) && type_table::head(m, c, z) == HEAD_INFER_TY {
        type_table::mark(m, c, type_table::var_of(m, c, z));
    }
}

// A variable against a row of its kind.
fn meet(m: &mut [u16], c: Counts, v: VarId, z: TypeId) -> Next
    ensures { Met m.old c v z m.new result }
{
    if same_var(m, c, v, z) {
        return Next::Done(Reply::Success);
    }
    if unsigned(m, c, v, z) {
        return Next::Done(Reply::Refused13);
    }
    pass(m, c, v, z);
    chase(m, c, v, z)
}

// Step 3: the row x, if it is a variable's, against the row z.
fn variable(m: &mut [u16], c: Counts, x: TypeId, z: TypeId) -> Next
    ensures { Varied m.old c x z m.new result }
{
    match roles(m, c, x, z) {
        Some((v, y)) => meet(m, c, v, y),
        None => Next::Done(Reply::Mismatch),
    }
}

// Step 2, or step 4 with the function first.
#[tactic(auto, using(std::proofs::lemmas::Bool::Decides::nat_tests), unfolding(crate::specs::Step::down_to))]
fn down(m: &[u16], c: Counts, x: TypeId, y: TypeId) -> Next
    ensures { result ≡ down_to m.now c x y }
{
    if type_table::head(m, c, x) == HEAD_ARRAY && type_table::head(m, c, y) == HEAD_ARRAY {
        Next::On(type_table::element(m, c, x), type_table::element(m, c, y))
    } else {
        Next::Into(x, y)
    }
}

// One step of unification.
fn step(m: &mut [u16], c: Counts, x: TypeId, y: TypeId) -> Next
    ensures { Stepped m.old c x y m.new result }
{
    match choose(type_table::head(m, c, x), type_table::head(m, c, y)) {
        Decision::Same => Next::Done(Reply::Success),
        Decision::Compare => Next::Done(compare(m, c, x, y)),
        Decision::Left => variable(m, c, x, y),
        Decision::Right => variable(m, c, y, x),
        Decision::Down => down(m, c, x, y),
        Decision::Swap => Next::Into(y, x),
        Decision::Differ => Next::Done(Reply::Mismatch),
    }
}

// ── unification ──

// The inputs in order, until one does not go through.
#[cycle(each_into_uni)]
fn each(m: &mut [u16], c: Counts, first: u16, second: u16, count: u16, n: u64) -> Reply
    ensures { Eached m.old c first second count n m.new result }
{
    for i in 0..count as u32 {
        let x = type_table::input(m, first as u32 + i);
        let y = type_table::input(m, second as u32 + i);
        let a = uni(m, c, x, y, n);
        if a != Reply::Success {
            return a;
        }
    }
    Reply::Success
}

// The parts of the row x against those of y, functions or lambdas: outputs, then lengths, then inputs.
#[cycle(each_into_uni)]
fn into(m: &mut [u16], c: Counts, x: TypeId, y: TypeId, n: u64) -> Reply
    ensures { Entered m.old c x y n m.new result }
{
    let o = type_table::output(m, c, x);
    let p = type_table::output(m, c, y);
    let r = type_table::inputs(m, c, x);
    let s = type_table::inputs(m, c, y);
    let a = uni(m, c, o, p, n);
    if a != Reply::Success {
        return a;
    }
    if r.count != s.count {
        return Reply::Mismatch;
    }
    each(m, c, r.first, s.first, r.count, n)
}

// Along arrays and bindings, step by step; n bounds the steps.
#[cycle(each_into_uni)]
fn uni(m: &mut [u16], c: Counts, x: TypeId, y: TypeId, n: u64) -> Reply
    ensures { Unified m.old c x y n m.new result }
{
    let mut a = x;
    let mut b = y;
    for left in (0..n).rev() {
        match step(m, c, a, b) {
            Next::Done(r) => return r,
            Next::On(d, e) => {
                a = d;
                b = e;
            }
            Next::Into(d, e) => return into(m, c, d, e, left),
        }
    }
    Reply::Dry
}

fn answer_of(a: Reply) -> Answer
    ensures { result ≡ answer_of a }
{
    match a {
        Reply::Success => Answer::Success,
        Reply::Mismatch => Answer::Mismatch,
        Reply::Refused12 | Reply::Dry => Answer::Refused12,
        Reply::Refused13 => Answer::Refused13,
    }
}

// The counts, if the memory has its length and they do not pass the limits; else there are no rows and no variables.
#[tactic(auto, using(std::proofs::lemmas::Bool::Decides::nat_tests), unfolding(crate::specs::Promise::held_in))]
fn held(m: &[u16], c: Counts) -> Counts
    ensures { result ≡ held_in m.now c }
{
    if m.len() < type_table::MEMORY
        || c.types > type_table::MOST_TYPES
        || c.vars > type_table::MOST_VARS
    {
        return Counts {
            types: 0,
            vars: 0,
            inputs: 0,
        };
    }
    c
}

// The equation of the rows x, expected, and y, got; what is no row counts as row 0.
pub fn unify(m: &mut [u16], c: Counts, x: TypeId, y: TypeId) -> Answer
    ensures { Solved m.old c x y m.new result }
{
    let d = held(m, c);
    let e = type_table::clip(d, x);
    let g = type_table::clip(d, y);
    let t = d.types as u64;
    let v = d.vars as u64;
    let n = v * (t + t + 1) + (t + t) + 1;
    answer_of(uni(m, d, e, g, n))
}
