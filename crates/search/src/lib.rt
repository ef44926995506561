// The search for a variable inside a row of the memory of the crate `type_table`, which unification asks for before it binds the variable.
#![tactic(auto)]

ghost use Rattle.std.specs.Prelude.{◌≡◌};
ghost use Rattle.type_table.specs.Memory.{inputs_from};
ghost use Rattle.search.specs.Search.{push_f, push_all, parts, Visited, Reached, Stands, LedVar, Led, Sought};

use type_table::{
    Counts, HEAD_ARRAY, HEAD_INFER_TY, HEAD_LAMBDA, HEAD_PARAM, HEAD_REF, InputRange, TypeId, VarId,
};

// Where a variable stands in what a row leads to: nowhere; at the end of its bindings; inside that row. `Lost` is never met in sound tables.
#[derive(Clone, Copy)]
pub enum Found {
    Free,
    Ring,
    Inside,
    Lost,
}

// The most type rows.
const ROWS: usize = type_table::MOST_TYPES as usize;
// A mark and a place for each of them.
const CELLS: usize = 9244;

// The rows that a search has met, in the order in which it met them: cell y of the first ROWS is 1 once the row y is queued, and the rows
// stand from ROWS on.
#[derive(Drop)]
struct Queue {
    cells: [u16; CELLS],
    tail: usize,
}

impl Queue {
    // The row y, of n, is queued, unless it was.
    #[tactic(auto, using(std::proofs::lemmas::Bool::Decides::nat_tests), unfolding(crate::specs::Search::push_f))]
    fn push(&mut self, n: u16, y: TypeId)
        ensures { self.new ≡ push_f n self.old y.0 }
    {
        let i = y.0 as usize;
        if y.0 < n && i < ROWS && self.cells[i] == 0 && self.tail < ROWS {
            self.cells[i] = 1;
            self.cells[ROWS + self.tail] = y.0;
            self.tail += 1;
        }
    }

    fn push_inputs(&mut self, m: &[u16], n: u16, r: InputRange)
        ensures { self.new ≡ push_all n self.old (inputs_from m.now r.first r.count) }
    {
        let first = r.first as u32;
        for at in first..first + r.count as u32 {
            self.push(n, type_table::input(m, at));
        }
    }

    // What a row other than a variable is made of is queued.
    fn push_parts(&mut self, m: &[u16], c: Counts, x: TypeId)
        ensures { self.new ≡ push_all c.types self.old (parts m.now c x) }
    {
        match type_table::head(m, c, x) {
            HEAD_PARAM | HEAD_LAMBDA => {
                self.push(c.types, type_table::output(m, c, x));
                self.push_inputs(m, c.types, type_table::inputs(m, c, x));
            }
            HEAD_ARRAY | HEAD_REF => self.push(c.types, type_table::element(m, c, x)),
            _ => {}
        }
    }

    // Whether the row x is that of the variable v; if not, where it leads is queued.
    fn visit(&mut self, m: &[u16], c: Counts, v: VarId, x: TypeId) -> bool
        ensures { Visited m.now c v x self.old self.new result }
    {
        if type_table::head(m, c, x) != HEAD_INFER_TY {
            self.push_parts(m, c, x);
            return false;
        }
        let u = type_table::var_of(m, c, x);
        if u.0 == v.0 {
            return true;
        }
        if let Some(y) = type_table::bound_to(m, c, u) {
            self.push(c.types, y);
        }
        false
    }
}

// Whether the row z leads to v. Each row is visited once.
fn reaches(m: &[u16], c: Counts, v: VarId, z: TypeId) -> bool
    ensures { Reached m.now c v z result }
{
    let mut q = Queue {
        cells: [0; CELLS],
        tail: 0,
    };
    q.push(c.types, z);
    let mut head = 0;
    while head < q.tail {
        let x = TypeId(q.cells[ROWS + head]);
        if q.visit(m, c, v, x) {
            return true;
        }
        head += 1;
    }
    false
}

// Where a row leads: it is the variable; nowhere; to several rows; to one.
#[derive(Clone, Copy)]
enum Lead {
    At,
    End,
    Parts,
    To(TypeId),
}

fn leads_var(m: &[u16], c: Counts, v: VarId, u: VarId) -> Lead
    ensures { LedVar m.now c v u result }
{
    if u.0 == v.0 {
        return Lead::At;
    }
    match type_table::bound_to(m, c, u) {
        None => Lead::End,
        Some(y) => Lead::To(y),
    }
}

fn leads(m: &[u16], c: Counts, v: VarId, x: TypeId) -> Lead
    ensures { Led m.now c v x result }
{
    match type_table::head(m, c, x) {
        HEAD_ARRAY | HEAD_REF => Lead::To(type_table::element(m, c, x)),
        HEAD_INFER_TY => leads_var(m, c, v, type_table::var_of(m, c, x)),
        HEAD_PARAM | HEAD_LAMBDA => Lead::Parts,
        _ => Lead::End,
    }
}

// Whether the row z leads to v: along elements and bindings one by one, and from a function or a lambda through each part.
fn stands_in(m: &[u16], c: Counts, v: VarId, z: TypeId) -> bool
    ensures { Stands m.now c v z result }
{
    let mut x = z;
    for _step in 0..c.types {
        match leads(m, c, v, x) {
            Lead::At => return true,
            Lead::End => return false,
            Lead::Parts => break,
            Lead::To(y) => x = y,
        }
    }
    reaches(m, c, v, x)
}

// Where v stands in what the row z leads to: bindings are followed, variable by variable, to their end.
pub fn seek(m: &[u16], c: Counts, v: VarId, z: TypeId) -> Found
    ensures { Sought m.now c v z result }
{
    let mut x = z;
    for _step in 0..c.types as u32 + 1 {
        if type_table::head(m, c, x) != HEAD_INFER_TY {
            return if stands_in(m, c, v, x) {
                Found::Inside
            } else {
                Found::Free
            };
        }
        match leads_var(m, c, v, type_table::var_of(m, c, x)) {
            Lead::At => return Found::Ring,
            Lead::End | Lead::Parts => return Found::Free,
            Lead::To(y) => x = y,
        }
    }
    Found::Lost
}
