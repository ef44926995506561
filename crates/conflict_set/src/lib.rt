// The minimal conflict among the equations of a walk (document 02 f), and a shortest one (document 02 n), over the memory of the walk: its
// types, its variables and its log. The bindings and marks of the walk are lost; nothing else in the memory changes, so no second memory is
// needed.
#![tactic(auto)]

ghost use Rattle.std.specs.Prelude.{◌≡◌, true, false, ◌+◌, ◌-◌, ◌*◌, ◌≤◌, ◌<◌, ltb, leb};
ghost use Rattle.std.proofs.Math.Option.{none};
ghost use Rattle.output.specs.Output.{Appends};
ghost use Rattle.type_table.specs.Memory.{cell};
ghost use Rattle.record.specs.Own.{log_at};
ghost use Rattle.theory.specs.Rules.{is_regular, kind};
ghost use Rattle.unify.specs.Promise.{rows_in, kinds_in};
ghost use Rattle.unify.specs.Leaf.{kind_k};
ghost use Rattle.conflict_theory.specs.Free.{kinds_meet, can_meet};
ghost use Rattle.conflict_theory.specs.Plains.{is_plain, are_plain};
ghost use Rattle.conflict_set.specs.In.{pair_in, node_in, plain_head, got_plain, plain_to, list_in, is_failed, went, worked_in, reopened, AddedBy, AllAddedBy, SolvedBy, FellBy, ScannedBy};
ghost use Rattle.conflict_set.specs.declared.Lines.TheVariants.{Places};
ghost use Rattle.conflict_set.specs.Searching.{lead_in, open_end_in, bound_end, opened_in, PushedBy, PushedFrom, PoppedBy, free_in, LastTested, SetTested, FollowedBy, AdvancedBy, TriedBy, FirstTriedBy, SearchedBy};
ghost use Rattle.conflict_set.specs.Text.{line_text, line_in, set_text, told, told_of, WrittenBy, ConflictPut, BelowPut, SearchedPut, ShortestPut, SoughtPut, ConflictBy};

use record::Record;
use type_table::{
    Counts, HEAD_ARRAY, HEAD_DIVERGES, HEAD_ERROR, HEAD_FN_DEF, HEAD_INFER_TY, HEAD_LAMBDA,
    HEAD_PARAM, HEAD_REF, Kind, TypeId, VarId,
};
use unify::Answer;

// The most equations of a body.
pub const MOST_EQUATIONS: usize = 2048;

// The number of no row: there are fewer.
const NO_ROW: u16 = 65535;

// The number of no variable: there are fewer.
const NO_VAR: u16 = 65535;

// ── the log ──

// The expected side of the equation i.
fn expected(m: &[u16], c: Counts, i: u16) -> TypeId
    ensures { result.0 ≡ (pair_in m.now c i).0 }
{
    let x = memory_cells::read(m, record::LOG_AT + i as usize * 3);
    type_table::clip(c, TypeId(x))
}

// Its got side.
fn got(m: &[u16], c: Counts, i: u16) -> TypeId
    ensures { result.0 ≡ (pair_in m.now c i).1 }
{
    let x = memory_cells::read(m, record::LOG_AT + i as usize * 3 + 1);
    type_table::clip(c, TypeId(x))
}

// The node whose rule raised it: its answer and 16 times that node stand in one cell.
fn node(m: &[u16], i: u16) -> u16
    ensures { result ≡ node_in m.now i }
{
    memory_cells::read(m, record::LOG_AT + i as usize * 3 + 2) / 16
}

// Whether it failed with cause 1 or was refused 12.
#[tactic(auto, using(std::proofs::lemmas::Bool::Decides::nat_tests), unfolding(crate::specs::In::is_failed))]
fn is_failed(m: &[u16], i: u16) -> bool
    ensures { result ≡ is_failed (cell m.now (log_at + i * 3 + 2)) }
{
    let a = memory_cells::read(m, record::LOG_AT + i as usize * 3 + 2) % 16;
    a == 1 || a == 12
}

// How many equations f) works on: those up to and including the first of q that failed so; 0 if none did.
fn worked(m: &[u16], q: u16) -> u16
    ensures { result ≡ worked_in m.now q }
{
    for i in 0..q {
        if is_failed(m, i) {
            return i + 1;
        }
    }
    0
}

// ── plain sides ──

// Whether a head that is no array's is that of a plain type.
#[tactic(auto, using(std::proofs::lemmas::Bool::Decides::nat_tests), unfolding(crate::specs::In::plain_head))]
fn plain_head(h: u16) -> bool
    ensures { result ≡ plain_head h }
{
    !matches!(
        h,
        HEAD_PARAM | HEAD_FN_DEF | HEAD_ERROR | HEAD_DIVERGES | HEAD_LAMBDA | HEAD_REF
    )
}

// Whether the row x is plain; an array is made of a lower row.
fn is_plain(m: &[u16], c: Counts, x: TypeId) -> bool
    ensures { result ≡ is_plain (rows_in m.now c) x.0 }
{
    let mut y = x;
    for _step in 0..x.0 as u32 + 1 {
        let h = type_table::head(m, c, y);
        if h != HEAD_ARRAY {
            return plain_head(h);
        }
        y = type_table::element(m, c, y);
    }
    false
}

// Whether a got side is plain or Diverges.
fn got_plain(m: &[u16], c: Counts, y: TypeId) -> bool
    ensures { result ≡ got_plain (rows_in m.now c) y.0 }
{
    type_table::head(m, c, y) == HEAD_DIVERGES || is_plain(m, c, y)
}

// Whether the row x is plain, where the row `known` is: a list has one row against all of its elements.
fn expected_plain(m: &[u16], c: Counts, x: TypeId, known: u16) -> bool
    ensures { is_plain (rows_in m.now c) known ≡ true → result ≡ is_plain (rows_in m.now c) x.0 }
{
    x.0 == known || is_plain(m, c, x)
}

// Whether the sides of the equation i are plain, Diverges as got side excepted, where the row `known` is plain.
fn sides_plain(m: &[u16], c: Counts, i: u16, known: u16) -> bool
    ensures { is_plain (rows_in m.now c) known ≡ true → result ≡ are_plain (rows_in m.now c) (pair_in m.now c i) }
{
    let x = expected(m, c, i);
    let y = got(m, c, i);
    expected_plain(m, c, x, known) && got_plain(m, c, y)
}

// Whether those of the first n are. What is no row is Nil, which is plain.
fn all_plain(m: &[u16], c: Counts, n: u16) -> bool
    ensures { c.types ≤ 65535 → result ≡ plain_to m.now c n }
{
    let mut known = NO_ROW;
    for i in 0..n {
        if !sides_plain(m, c, i, known) {
            return false;
        }
        known = expected(m, c, i).0;
    }
    true
}

// ── solving ──

// Every variable open and unmarked.
fn reopen(m: &mut [u16], c: Counts)
    ensures { m.new ≡ reopened m.old c.vars }
{
    for v in 0..c.vars {
        memory_cells::write(m, v as usize * 5 + 2, 0);
        memory_cells::write(m, v as usize * 5 + 4, 0);
    }
}

// Whether an equation was met.
fn is_success(a: Answer) -> bool
    ensures { result ≡ went a }
{
    a == Answer::Success
}

// The equation i on top of those solved: whether there still is a solution.
fn add(m: &mut [u16], c: Counts, i: u16) -> bool
    ensures { AddedBy m.old c i m.new result }
{
    let x = expected(m, c, i);
    let y = got(m, c, i);
    is_success(unify::unify(m, c, x, y))
}

// The first k equations of a set on top of those solved: whether there still is a solution.
fn add_all(m: &mut [u16], c: Counts, set: &[u16], k: u16) -> bool
    ensures { AllAddedBy m.old c (list_in set.now k) m.new result }
{
    for i in 0..k {
        let q = memory_cells::read(set, i as usize);
        if !add(m, c, q) {
            return false;
        }
    }
    true
}

// The same from nothing bound: whether they have a common solution.
fn solve(m: &mut [u16], c: Counts, set: &[u16], k: u16) -> bool
    ensures { SolvedBy m.old c (list_in set.now k) m.new result }
{
    reopen(m, c);
    add_all(m, c, set, k)
}

// ── the scans ──

// The equations from n - 1 down to the number lo on top of those solved.
fn back(m: &mut [u16], c: Counts, lo: u16, n: u16) -> Option<u16>
    ensures { FellBy m.old c lo n m.new result }
{
    for i in (lo..n).rev() {
        if !add(m, c, i) {
            return Some(i);
        }
    }
    None
}

// What f) leaves of the first n equations, into a set: how many they are.
fn scan(m: &mut [u16], c: Counts, n: u16, set: &mut [u16]) -> u16
    ensures { ScannedBy m.old c n set.old m.new set.new result }
{
    let mut lo: u16 = 0;
    for k in 0..n {
        if !solve(m, c, set, k) {
            return k;
        }
        let Some(i) = back(m, c, lo, n) else {
            return k;
        };
        memory_cells::write(set, k as usize, i);
        lo = i + 1;
    }
    n
}

// ── the search: one equation more, and taken back ──

// Where a row leads.
#[derive(Clone, Copy)]
enum Lead {
    // On to this row.
    On(TypeId),
    // It is this variable's, and that is open.
    Open(VarId),
    Nowhere,
}

// Where the row y leads: an array to its element, a bound variable to its binding.
fn lead_from(m: &[u16], c: Counts, y: TypeId) -> Lead
    ensures { result ≡ lead_in m.now c y.0 }
{
    match type_table::head(m, c, y) {
        HEAD_ARRAY => Lead::On(type_table::element(m, c, y)),
        HEAD_INFER_TY => {
            let v = type_table::var_of(m, c, y);
            match type_table::bound_to(m, c, v) {
                Some(x) => Lead::On(x),
                None => Lead::Open(v),
            }
        }
        _ => Lead::Nowhere,
    }
}

// The open variable to which the row x leads through arrays and bindings, or that there is none. As many steps as unification has suffice.
fn open_end(m: &[u16], c: Counts, x: TypeId) -> u16
    ensures { result ≡ open_end_in m.now c x.0 }
{
    let t = c.types as u64;
    let v = c.vars as u64;
    let n = v * (t + t + 1) + (t + t) + 1;
    let mut y = x;
    for _step in 0..n {
        match lead_from(m, c, y) {
            Lead::On(z) => y = z,
            Lead::Open(a) => return a.0,
            Lead::Nowhere => return NO_VAR,
        }
    }
    NO_VAR
}

// Of two variables that were open before an equation, the ends of its sides: the one that it bound, if it bound one.
fn bound_of(m: &[u16], c: Counts, a: u16, b: u16) -> u16
    ensures { result ≡ bound_end m.now c a b }
{
    match type_table::bound_to(m, c, VarId(a)) {
        Some(_) => a,
        None => b,
    }
}

// The equation i on top of those solved.
fn push(m: &mut [u16], c: Counts, i: u16) -> Option<u16>
    ensures { PushedBy m.old c i m.new result }
{
    let x = expected(m, c, i);
    let y = got(m, c, i);
    let a = open_end(m, c, x);
    let b = open_end(m, c, y);
    if add(m, c, i) {
        Some(bound_of(m, c, a, b))
    } else {
        None
    }
}

// Those of the places from j to k of a set on top of those before them, which are solved: whether there still is a solution. What each one
// bound is noted at its place.
fn push_from(m: &mut [u16], c: Counts, set: &[u16], bound: &mut [u16], j: u16, k: u16) -> bool
    ensures { PushedFrom m.old c set.now bound.old j k m.new bound.new result }
{
    for i in j..k {
        let q = memory_cells::read(set, i as usize);
        let Some(v) = push(m, c, q) else {
            return false;
        };
        memory_cells::write(bound, i as usize, v);
    }
    true
}

// A variable is open again.
#[tactic(auto, using(std::proofs::lemmas::Bool::Decides::nat_tests), unfolding(crate::specs::Searching::opened_in))]
fn open_again(m: &mut [u16], c: Counts, v: u16)
    ensures { m.new ≡ opened_in m.old c.vars v }
{
    if v < c.vars {
        memory_cells::write(m, v as usize * 5 + 2, 0);
    }
}

// Those of the places from p to k are taken back, the last one first.
fn pop(m: &mut [u16], c: Counts, bound: &[u16], p: u16, k: u16)
    ensures { PoppedBy m.old c bound.now p k m.new }
{
    for i in (p..k).rev() {
        open_again(m, c, memory_cells::read(bound, i as usize));
    }
}

// ── the search: the last equation of a subset ──

// Whether a variable is Regular.
fn is_regular(m: &[u16], c: Counts, v: VarId) -> bool
    ensures { result ≡ is_regular (kind (kinds_in m.now c) v.0) }
{
    type_table::kind_of(m, c, v) == Kind::Regular
}

// Whether variables of two kinds can be one.
fn kinds_meet(k: Kind, l: Kind) -> bool
    ensures { result ≡ kinds_meet (kind_k k) (kind_k l) }
{
    k == l || k == Kind::Regular || l == Kind::Regular
}

// Whether two open variables are two, of kinds that can be one.
fn can_meet(m: &[u16], c: Counts, a: VarId, b: VarId) -> bool
    ensures { result ≡ can_meet (kinds_in m.now c) a.0 b.0 }
{
    a.0 != b.0 && kinds_meet(type_table::kind_of(m, c, a), type_table::kind_of(m, c, b))
}

// Whether two rows are so free that their equation is met for certain: two open variables, or one and a type without parts.
fn is_free(m: &[u16], c: Counts, x: TypeId, y: TypeId) -> bool
    ensures { result ≡ free_in m.now c x.0 y.0 }
{
    match lead_from(m, c, x) {
        Lead::On(_) => false,
        Lead::Open(a) => match lead_from(m, c, y) {
            Lead::On(_) => false,
            Lead::Open(b) => can_meet(m, c, a, b),
            Lead::Nowhere => is_regular(m, c, a),
        },
        Lead::Nowhere => match lead_from(m, c, y) {
            Lead::On(_) => false,
            Lead::Open(b) => is_regular(m, c, b),
            Lead::Nowhere => false,
        },
    }
}

// Whether there still is a solution with the equation i, on top of those solved, which stay as they are.
fn test_last(m: &mut [u16], c: Counts, i: u16) -> bool
    ensures { LastTested m.old c i m.new result }
{
    let x = expected(m, c, i);
    let y = got(m, c, i);
    if is_free(m, c, x, y) {
        return true;
    }
    let Some(v) = push(m, c, i) else {
        return false;
    };
    open_again(m, c, v);
    true
}

// Whether the first k of a set have a common solution, those before j being solved: all but the last are solved then.
fn test_set(m: &mut [u16], c: Counts, set: &[u16], bound: &mut [u16], j: u16, k: u16) -> bool
    requires { 0 < k }
    ensures { SetTested m.old c set.now bound.old j k m.new bound.new result }
{
    if push_from(m, c, set, bound, j, k - 1) {
        let q = memory_cells::read(set, k as usize - 1);
        return test_last(m, c, q);
    }
    false
}

// ── the search: subset by subset ──

// The numbers from f on, in the places from p to k.
fn follow(set: &mut [u16], p: u16, k: u16, f: u16)
    requires { (p ≤ k) × (f + (k - p) ≤ 65535) }
    ensures { FollowedBy set.old p k f set.new }
{
    for i in p..k {
        memory_cells::write(set, i as usize, f + (i - p));
    }
}

// Whether the number x in the place p of k can be raised, and those behind it follow it below n.
fn can_rise(x: u16, p: u16, k: u16, n: u16) -> bool
    requires { p ≤ k }
    ensures { result ≡ leb (x + (k - p) + 1) n }
{
    x as u32 + (k as u32 - p as u32) + 1 <= n as u32
}

// The next k numbers below n.
fn advance(set: &mut [u16], k: u16, n: u16) -> Option<u16>
    ensures { AdvancedBy set.old k n set.new result }
{
    for p in (0..k).rev() {
        let x = memory_cells::read(set, p as usize);
        if can_rise(x, p, k, n) {
            follow(set, p, k, x + 1);
            return Some(p);
        }
    }
    None
}

// What came of a size.
#[derive(Clone, Copy)]
enum Tried {
    // The set has no solution.
    Found,
    // No more may be tested.
    Out,
    // All have a solution, and so many more may be tested.
    Through(u64),
}

// The sets of k of the first n equations from the one that stands, of which b may be tested; nothing is solved yet.
fn tries_from(
    m: &mut [u16],
    c: Counts,
    set: &mut [u16],
    bound: &mut [u16],
    k: u16,
    n: u16,
    b: u64,
) -> Tried
    requires { 0 < k }
    ensures { TriedBy m.old c set.old bound.old k n b m.new set.new bound.new result }
{
    let mut j = 0;
    for left in (0..b).rev() {
        if !test_set(m, c, set, bound, j, k) {
            return Tried::Found;
        }
        let Some(p) = advance(set, k, n) else {
            return Tried::Through(left);
        };
        pop(m, c, bound, p, k - 1);
        j = p;
    }
    Tried::Out
}

// All of them, from the first one.
fn tries(
    m: &mut [u16],
    c: Counts,
    set: &mut [u16],
    bound: &mut [u16],
    k: u16,
    n: u16,
    b: u64,
) -> Tried
    requires { 0 < k }
    ensures { FirstTriedBy m.old c set.old bound.old k n b m.new set.new bound.new result }
{
    follow(set, 0, k, 0);
    reopen(m, c);
    tries_from(m, c, set, bound, k, n, b)
}

// The answer of a search: whether a smaller set was found, and `below=`.
#[derive(Clone, Copy)]
struct Searched {
    found: bool,
    below: u16,
}

// The answer where no more may be tested within a size: all that are smaller were tested and have a solution.
fn out_within(size: u16) -> Searched
    ensures { (result.found ≡ false) × (result.below ≡ size) }
{
    Searched {
        found: false,
        below: size,
    }
}

// The sets smaller than `most`.
fn search(
    m: &mut [u16],
    c: Counts,
    set: &mut [u16],
    bound: &mut [u16],
    most: u16,
    n: u16,
    b: u64,
) -> Searched
    ensures { SearchedBy m.old c set.old bound.old most n b m.new set.new bound.new result }
{
    let mut left = b;
    for k in 1..most {
        match tries(m, c, set, bound, k, n, left) {
            Tried::Found => {
                return Searched {
                    found: true,
                    below: k,
                };
            }
            Tried::Out => return out_within(k),
            Tried::Through(d) => left = d,
        }
    }
    Searched {
        found: false,
        below: most.max(1),
    }
}

// ── text ──

// What the line of an equation has: its number; or with it the node whose rule raised the equation, and its two sides.
#[derive(Clone, Copy)]
pub enum Lines {
    Numbers,
    Places,
}

// The line of the equation i.
fn put_equation(out: &mut [u8], d: usize, m: &[u16], c: Counts, l: Lines, i: u16) -> usize
    ensures { Appends (line_in m.now c l i) d out.old result out.new }
{
    match l {
        Lines::Numbers => output::put_line(out, d, b"equation=", i as usize),
        Lines::Places => put_place(out, d, i, node(m, i), expected(m, c, i), got(m, c, i)),
    }
}

// The line with the node n and the sides x and y.
fn put_place(out: &mut [u8], d: usize, i: u16, n: u16, x: TypeId, y: TypeId) -> usize
    ensures { Appends (line_text Places n (x.0, y.0) i) d out.old result out.new }
{
    let a = output::put_field(out, d, b"equation=", i as usize);
    let b = output::put_field(out, a, b",", n as usize);
    let e = output::put_field(out, b, b",", x.0 as usize);
    output::put_line(out, e, b",", y.0 as usize)
}

// A line for each of the first k numbers of a set.
fn put_set(out: &mut [u8], m: &[u16], c: Counts, l: Lines, set: &[u16], k: u16) -> usize
    ensures { Appends (set_text (line_in m.now c l) (list_in set.now k)) 0 out.old result out.new }
{
    let mut d = 0;
    for place in 0..k {
        let q = memory_cells::read(set, place as usize);
        d = put_equation(out, d, m, c, l, q);
    }
    d
}

// How it went.
#[derive(Clone, Copy)]
pub enum Outcome {
    // 0: the text ends here.
    Written(usize),
    // 14
    Nothing,
    // 9
    NoRoom,
}

// The end of a text.
fn written(out: &mut [u8], c: usize) -> Outcome
    ensures { WrittenBy c out.old result out.new }
{
    match output::finish(out, c) {
        Some(n) => Outcome::Written(n),
        None => Outcome::NoRoom,
    }
}

// Refusal 14: zeros throughout.
pub fn nothing(out: &mut [u8]) -> Outcome
    ensures { told result out.new ≡ told_of none out.old }
{
    output::finish(out, output::FULL);
    Outcome::Nothing
}

// The minimal conflict of the first n equations.
fn put_conflict(m: &mut [u16], c: Counts, n: u16, l: Lines, out: &mut [u8]) -> Outcome
    ensures { ConflictPut m.old c n l out.old m.new result out.new }
{
    let mut set = [0u16; MOST_EQUATIONS];
    let k = scan(m, c, n, &mut set);
    let d = put_set(out, m, c, l, &set, k);
    written(out, d)
}

// The lines of the first k numbers of a set, and `below=`.
fn put_below(out: &mut [u8], m: &[u16], c: Counts, l: Lines, set: &[u16], k: u16, b: u16) -> Outcome
    ensures { BelowPut m.now c l (list_in set.now k) b out.old result out.new }
{
    let d = put_set(out, m, c, l, set, k);
    let e = output::put_line(out, d, b"below=", b as usize);
    written(out, e)
}

// The text of a search: the subset found, else the set of k numbers.
fn put_searched(
    out: &mut [u8],
    m: &[u16],
    c: Counts,
    l: Lines,
    set: &[u16],
    k: u16,
    subset: &[u16],
    s: Searched,
) -> Outcome
    ensures { SearchedPut m.now c l set.now k subset.now s out.old result out.new }
{
    if s.found {
        put_below(out, m, c, l, subset, s.below, s.below)
    } else {
        put_below(out, m, c, l, set, k, s.below)
    }
}

// A shortest conflict of the first n equations, with b subsets that may be tested.
fn put_shortest(m: &mut [u16], c: Counts, n: u16, l: Lines, b: u64, out: &mut [u8]) -> Outcome
    ensures { ShortestPut m.old c n l b out.old m.new result out.new }
{
    let mut set = [0u16; MOST_EQUATIONS];
    let mut subset = [0u16; MOST_EQUATIONS];
    let mut bound = [0u16; MOST_EQUATIONS];
    let k = scan(m, c, n, &mut set);
    let s = search(m, c, &mut subset, &mut bound, k, n, b);
    put_searched(out, m, c, l, &set, k, &subset, s)
}

// What is sought.
#[derive(Clone, Copy)]
pub enum Sought {
    // The minimal conflict that f) leaves.
    Minimal(Lines),
    // The answer of n), with so many subsets that may be tested.
    Shortest(Lines, u64),
}

// What is sought among the first n equations.
fn put_sought(m: &mut [u16], c: Counts, n: u16, q: Sought, out: &mut [u8]) -> Outcome
    ensures { SoughtPut m.old c n q out.old m.new result out.new }
{
    match q {
        Sought::Minimal(l) => put_conflict(m, c, n, l, out),
        Sought::Shortest(l, b) => put_shortest(m, c, n, l, b, out),
    }
}

// What is sought among the equations of a walk, over its memory.
pub fn conflict_in(m: &mut [u16], r: Record, q: Sought, out: &mut [u8]) -> Outcome
    ensures { ConflictBy m.old r.counts r.equations q out.old m.new result out.new }
{
    let n = worked(m, r.equations);
    if n == 0 || !all_plain(m, r.counts, n) {
        return nothing(out);
    }
    put_sought(m, r.counts, n, q, out)
}
