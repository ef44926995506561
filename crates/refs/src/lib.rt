// The two lent tables of a body, and the reference rules of a line by the kinds of its fields. `cells` has a row of three numbers for
// each field (name, tag, value), `rows` one of five for each line (form, first field, number of fields, levels, and of a node the field
// that uses it, plus 1).
#![tactic(auto)]

ghost use Rattle.std.specs.Prelude.{◌≡◌, ◌<◌};
ghost use Rattle.refs.specs.Refs.{types_at, form_in, first_in, count_in, levels_in, user_in, name_in, tag_in, value_in, target_number, refers_to, is_child, is_type, is_expr, is_typed, is_last, is_free, is_local, is_res, levels_of, taken, links_of, linking, same_values, is_same, is_repeated};

use forms::Form;

// How many rows of each key there are, and how many fields.
#[derive(Clone, Copy)]
pub struct Counts {
    pub types: u16,
    pub defs: u16,
    pub insts: u16,
    pub binds: u16,
    pub nodes: u16,
    pub fields: u16,
}

// The rows of a key begin here.
pub const TYPES_AT: u32 = 0;

pub const DEFS_AT: u32 = 512;

pub const INSTS_AT: u32 = 768;

pub const BINDS_AT: u32 = 832;

pub const NODES_AT: u32 = 896;

pub const FN_AT: u32 = 1920;

// The types that every body has, Diverges the last.
pub const FIXED_TYPES: u16 = 14;

const DIVERGES: u16 = 13;

// The most fields that a body can have: a row has the number of a field plus 1.
const MOST_FIELDS: u32 = 65535;

// What a field's number refers to.
#[derive(Clone, Copy)]
enum Target {
    Nothing,
    Type,
    Def,
    Node,
    Res,
}

// A number of a table, 0 behind its end; and writing one, where it is in the table.
pub use table_cells::{read as at, write as put};

// The form of the line of the row r.
#[tactic(auto, unfolding(crate::specs::Refs::form_in))]
pub fn form_of(rows: &[u16], r: u32) -> u16
    ensures { result ≡ form_in rows.now r }
{
    at(rows, r as usize * 5)
}

// Its first field.
#[tactic(auto, unfolding(crate::specs::Refs::first_in))]
pub fn first_of(rows: &[u16], r: u32) -> u16
    ensures { result ≡ first_in rows.now r }
{
    at(rows, r as usize * 5 + 1)
}

// How many fields it has.
#[tactic(auto, unfolding(crate::specs::Refs::count_in))]
pub fn count_of(rows: &[u16], r: u32) -> u16
    ensures { result ≡ count_in rows.now r }
{
    at(rows, r as usize * 5 + 2)
}

// Its levels.
#[tactic(auto, unfolding(crate::specs::Refs::levels_in))]
pub fn levels_of(rows: &[u16], r: u32) -> u16
    ensures { result ≡ levels_in rows.now r }
{
    at(rows, r as usize * 5 + 3)
}

// The field that uses its node, plus 1; 0 where none does.
#[tactic(auto, unfolding(crate::specs::Refs::user_in))]
pub fn user_of(rows: &[u16], r: u32) -> u16
    ensures { result ≡ user_in rows.now r }
{
    at(rows, r as usize * 5 + 4)
}

// The name of the field j.
#[tactic(auto, unfolding(crate::specs::Refs::name_in))]
pub fn name_of(cells: &[u16], j: u32) -> u16
    ensures { result ≡ name_in cells.now j }
{
    at(cells, j as usize * 3)
}

// Its tag.
#[tactic(auto, unfolding(crate::specs::Refs::tag_in))]
pub fn tag_of(cells: &[u16], j: u32) -> u16
    ensures { result ≡ tag_in cells.now j }
{
    at(cells, j as usize * 3 + 1)
}

// Its value.
#[tactic(auto, unfolding(crate::specs::Refs::value_in))]
pub fn value_of(cells: &[u16], j: u32) -> u16
    ensures { result ≡ value_in cells.now j }
{
    at(cells, j as usize * 3 + 2)
}

// What the number of a field of the kind k refers to.
#[tactic(auto, unfolding(crate::specs::Refs::refers_to))]
fn refers(k: u8) -> Target
    ensures { target_number result ≡ refers_to k }
{
    match k {
        forms::LOW_TYPE | forms::TYPE | forms::NAMED_TYPE | forms::OPT_TYPE => Target::Type,
        forms::NAMED_DEF => Target::Def,
        forms::EXPR | forms::OPT_EXPR | forms::BLOCK | forms::STMT => Target::Node,
        forms::PARAM | forms::TYPED_PARAM | forms::BODY => Target::Node,
        forms::RESOLUTION | forms::SEGMENT => Target::Res,
        _ => Target::Nothing,
    }
}

// The field is a child: it refers to a node, and is not `-`.
#[tactic(auto, unfolding(crate::specs::Refs::is_child))]
fn is_child(k: u8, tag: u16) -> bool
    ensures { result ≡ is_child k tag }
{
    matches!(refers(k), Target::Node) && tag == 1
}

// A type with a lower row, not Diverges.
#[tactic(auto, unfolding(crate::specs::Refs::is_type))]
fn is_type(n: Counts, x: u16) -> bool
    ensures { result ≡ is_type n x }
{
    x != DIVERGES && (x as u32) < n.types as u32 + FIXED_TYPES as u32
}

// Neither a let nor a param.
#[tactic(auto, unfolding(crate::specs::Refs::is_expr))]
fn is_expr(f: u16) -> bool
    ensures { result ≡ is_expr f }
{
    f != forms::FORM_LET && f != forms::FORM_PARAM
}

// The row of a param with a type.
#[tactic(auto, unfolding(crate::specs::Refs::is_typed))]
fn is_typed(r: u32, rows: &[u16], cells: &[u16]) -> bool
    ensures { result ≡ is_typed r rows.now cells.now }
{
    form_of(rows, r) == forms::FORM_PARAM && tag_of(cells, first_of(rows, r) as u32) == 1
}

// The last node, and an expression.
#[tactic(auto, unfolding(crate::specs::Refs::is_last))]
fn is_last(n: Counts, x: u16, f: u16) -> bool
    ensures { result ≡ is_last n x f }
{
    x as u32 + 1 == n.nodes as u32 && is_expr(f)
}

// The node x may stand as a child of the kind k.
#[tactic(auto, unfolding(crate::specs::Refs::stands))]
fn stands(n: Counts, k: u8, x: u16, rows: &[u16], cells: &[u16]) -> bool
    ensures { result ≡ Rattle.refs.specs.Refs.stands n k x rows.now cells.now }
{
    let r = NODES_AT + x as u32;
    let f = form_of(rows, r);
    match k {
        forms::BLOCK => f == forms::FORM_BLOCK,
        forms::PARAM => f == forms::FORM_PARAM,
        forms::TYPED_PARAM => is_typed(r, rows, cells),
        forms::STMT => f != forms::FORM_PARAM,
        forms::BODY => is_last(n, x, f),
        _ => is_expr(f),
    }
}

// A lower node that no field uses, and that may stand there.
#[tactic(auto, unfolding(crate::specs::Refs::is_free))]
fn is_free(n: Counts, k: u8, x: u16, rows: &[u16], cells: &[u16]) -> bool
    ensures { result ≡ is_free n k x rows.now cells.now }
{
    x < n.nodes && user_of(rows, NODES_AT + x as u32) == 0 && stands(n, k, x, rows, cells)
}

// A lower let or param.
#[tactic(auto, unfolding(crate::specs::Refs::is_local))]
fn is_local(n: Counts, x: u16, rows: &[u16]) -> bool
    ensures { result ≡ is_local n x rows.now }
{
    x < n.nodes && !is_expr(form_of(rows, NODES_AT + x as u32))
}

// RES, by its tag.
#[tactic(auto, unfolding(crate::specs::Refs::is_res))]
fn is_res(n: Counts, tag: u16, x: u16, rows: &[u16]) -> bool
    ensures { result ≡ is_res n tag x rows.now }
{
    match tag {
        1 => is_local(n, x, rows),
        2 | 3 => x < n.defs,
        4 => x < n.insts,
        _ => true,
    }
}

// A field's number meets the rule of its kind.
#[tactic(auto, unfolding(crate::specs::Refs::right))]
fn right(n: Counts, k: u8, tag: u16, x: u16, rows: &[u16], cells: &[u16]) -> bool
    ensures { result ≡ Rattle.refs.specs.Refs.right n k tag x rows.now cells.now }
{
    match refers(k) {
        _ if tag == 0 => true,
        Target::Type => is_type(n, x),
        Target::Def => x < n.defs,
        Target::Node => is_free(n, k, x, rows, cells),
        Target::Res => is_res(n, tag, x, rows),
        Target::Nothing => true,
    }
}

// The levels of what a field refers to: of a child, and of a declared type in a type.
#[tactic(auto, unfolding(crate::specs::Refs::levels_of))]
fn levels_in(k: u8, tag: u16, x: u16, rows: &[u16]) -> u16
    ensures { result ≡ levels_of k tag x rows.now }
{
    if is_child(k, tag) {
        levels_of(rows, NODES_AT + x as u32)
    } else if k == forms::LOW_TYPE && x >= FIXED_TYPES {
        levels_of(rows, (x - FIXED_TYPES) as u32)
    } else {
        0
    }
}

// The field j uses its child from now on.
#[tactic(auto, unfolding(crate::specs::Refs::taken))]
fn take_child(k: u8, tag: u16, x: u16, j: u16, rows: &mut [u16])
    requires { j < 65535 }
    ensures { rows.new ≡ taken k tag x j rows.old }
{
    if is_child(k, tag) {
        put(rows, (NODES_AT + x as u32) as usize * 5 + 4, j + 1);
    }
}

// The m fields behind those of the lines before meet the rules of their kinds in the form f; those that do use their children from now
// on, up to the first that does not: the most levels of what they refer to, or None where one does not. Where there would be too many
// for a body, none does.
pub fn link_fields(n: Counts, f: Form, m: u16, cells: &[u16], rows: &mut [u16]) -> Option<u16>
    ensures { linking result rows.new ≡ links_of n f m cells.now rows.old }
{
    let b = n.fields;
    if b as u32 + m as u32 > MOST_FIELDS {
        return None;
    }
    let mut d: u16 = 0;
    for i in 0..m {
        let j = b + i;
        let k = forms::kind_at(f, i as usize);
        let tag = tag_of(cells, j as u32);
        let x = value_of(cells, j as u32);
        if !right(n, k, tag, x, rows, cells) {
            return None;
        }
        let levels = levels_in(k, tag, x, rows);
        d = d.max(levels);
        take_child(k, tag, x, j, rows);
    }
    Some(d)
}

// The m values from a on are those from b on.
fn same_values(cells: &[u16], a: u16, b: u16, m: u16) -> bool
    ensures { result ≡ same_values m a b cells.now }
{
    for i in 0..m {
        if value_of(cells, a as u32 + i as u32) != value_of(cells, b as u32 + i as u32) {
            return false;
        }
    }
    true
}

// The row r has the form f and the m values that stand from b on.
#[tactic(auto, unfolding(crate::specs::Refs::is_same))]
fn is_same(rows: &[u16], cells: &[u16], r: u32, f: u16, b: u16, m: u16) -> bool
    ensures { result ≡ is_same rows.now cells.now r f b m }
{
    form_of(rows, r) == f && count_of(rows, r) == m && same_values(cells, first_of(rows, r), b, m)
}

// One of the first n rows is the same. Not copied into its caller, for speed: its loop needs the registers.
#[inline(never)]
pub fn is_repeated(rows: &[u16], cells: &[u16], n: u16, f: u16, b: u16, m: u16) -> bool
    ensures { result ≡ is_repeated n types_at rows.now cells.now f b m }
{
    for r in 0..n {
        if is_same(rows, cells, TYPES_AT + r as u32, f, b, m) {
            return true;
        }
    }
    false
}
