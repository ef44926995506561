// The tables of a body as the typing rules read them: nodes, signatures, fields and methods.
#![tactic(auto)]

ghost use Rattle.std.specs.Prelude.{◌≡◌, ◌+◌, length};
ghost use Rattle.theory.specs.Rules.{row};
ghost use Rattle.type_table.specs.Memory.{inputs_from, rows_of};
ghost use Rattle.refs.specs.Refs.{nodes_at, form_in, value_in};
ghost use Rattle.nodes.specs.Nodes.{field_in, count_behind, maybe_type, maybe_node, bin_op, un_op, res_of, node_of, node_at, field_of, declared_at, let_at, block_at, type_row_at, fn_line, output_of, def_inputs, items_of, shape_inputs, inputs_of, nth, field_type, as_arr, of_functions, binds_for, method_in, method_from, is_partly_failed, segment_name, segment_res};

use type_table::{
    Counts, DefId, HEAD_ARRAY, HEAD_LAMBDA, HEAD_PARAM, InputRange, InstId, NodeId, TypeId,
};

// A body, lent for reading: the rows of its lines, their fields, and how many `bind` lines it has.
#[derive(Clone, Copy)]
pub struct Body<'a> {
    pub rows: &'a [u16],
    pub cells: &'a [u16],
    pub binds: u16,
}

// The items of a line: `count` fields, the first of them the field `first` + `from`.
#[derive(Clone, Copy)]
pub struct Items {
    pub first: u16,
    pub from: u16,
    pub count: u8,
}

impl Items {
    // Where the item i stands among the fields.
    fn place(self, i: u8) -> u32
        ensures { result ≡ self.first + self.from + i }
    {
        self.first as u32 + self.from as u32 + i as u32
    }
}

// What a path stands for.
#[derive(Clone, Copy)]
pub enum Res {
    Local(NodeId),
    Fn(DefId),
    Ctor(DefId),
    Inst(InstId),
    Error,
    Other,
}

// OP of `bin`: the four that give Bool, the ordering comparisons, others.
#[derive(Clone, Copy)]
pub enum BinOp {
    Boolean,
    Ordering,
    Other,
}

// OP of `un`.
#[derive(Clone, Copy)]
pub enum UnOp {
    Deref,
    Address,
    Negation,
    Not,
}

// A node, by its form.
#[derive(Clone, Copy)]
pub enum Node {
    Bool,
    Int,
    Float,
    Str,
    Bin(BinOp, NodeId, NodeId),
    Un(UnOp, NodeId),
    Field(NodeId, u16),
    List(Items),
    Index(NodeId, NodeId),
    Assign(NodeId, NodeId),
    OpAssign(NodeId, NodeId),
    If(NodeId, NodeId, Option<NodeId>),
    Loop(NodeId),
    Break,
    Call(NodeId, Items),
    MethodCall(NodeId, u16, Items),
    Return(Option<NodeId>),
    Block(Option<NodeId>, Items),
    Let(Option<TypeId>, Option<NodeId>),
    Param(Option<TypeId>),
    Lambda(Option<TypeId>, NodeId, Items),
    Path(Res, u16, Items),
}

// A field of a line: its tag and its value.
#[derive(Clone, Copy)]
struct Field {
    tag: u16,
    value: u16,
}

// A type line.
#[derive(Clone, Copy)]
pub enum TypeRow {
    Array(TypeId),
    Fun(u16, TypeId, Items),
    Inst(InstId),
    Fn(DefId),
}

// The `fn` line.
#[derive(Clone, Copy)]
pub struct Function {
    pub output: TypeId,
    pub body: NodeId,
    pub params: Items,
}

// What is called: a definition, or what a function type or a lambda says.
#[derive(Clone, Copy)]
pub enum Callee {
    Def(DefId),
    Type(TypeId),
}

// ── fields ──

// How many fields stand behind the first k of a line; no line has 255.
#[tactic(auto, unfolding(crate::specs::Nodes::count_behind))]
fn count_behind(count: u16, k: u16) -> u8
    ensures { result ≡ count_behind count k }
{
    count.saturating_sub(k).min(255) as u8
}

// What stands behind the first k fields of a line.
fn behind(first: u16, count: u16, k: u16) -> Items
    ensures { result ≡ Rattle.nodes.specs.Nodes.behind first count k }
{
    Items {
        first,
        from: k,
        count: count_behind(count, k),
    }
}

#[tactic(auto, unfolding(crate::specs::Nodes::maybe_type))]
fn maybe_type(f: Field) -> Option<TypeId>
    ensures { result ≡ maybe_type f }
{
    if f.tag == 0 {
        None
    } else {
        Some(TypeId(f.value))
    }
}

#[tactic(auto, unfolding(crate::specs::Nodes::maybe_node))]
fn maybe_node(f: Field) -> Option<NodeId>
    ensures { result ≡ maybe_node f }
{
    if f.tag == 0 {
        None
    } else {
        Some(NodeId(f.value))
    }
}

#[tactic(auto, unfolding(crate::specs::Nodes::bin_op))]
fn bin_op(v: u16) -> BinOp
    ensures { result ≡ bin_op v }
{
    match v {
        0 => BinOp::Boolean,
        1 => BinOp::Ordering,
        _ => BinOp::Other,
    }
}

#[tactic(auto, unfolding(crate::specs::Nodes::un_op))]
fn un_op(v: u16) -> UnOp
    ensures { result ≡ un_op v }
{
    match v {
        0 => UnOp::Deref,
        1 => UnOp::Address,
        2 => UnOp::Negation,
        _ => UnOp::Not,
    }
}

// RES, by its tag and its number.
#[tactic(auto, unfolding(crate::specs::Nodes::res_of))]
fn res_of(t: u16, v: u16) -> Res
    ensures { result ≡ res_of t v }
{
    match t {
        1 => Res::Local(NodeId(v)),
        2 => Res::Fn(DefId(v)),
        3 => Res::Ctor(DefId(v)),
        4 => Res::Inst(InstId(v)),
        5 => Res::Error,
        _ => Res::Other,
    }
}

// ── types in the memory of the walk ──

// The inputs of a function type or a lambda; none of any other type.
fn type_inputs(m: &[u16], c: Counts, x: TypeId) -> InputRange
    ensures { inputs_from m.now result.first result.count ≡ shape_inputs (row (rows_of m.now c.types) x.0) }
{
    match type_table::head(m, c, x) {
        HEAD_PARAM | HEAD_LAMBDA => type_table::inputs(m, c, x),
        _ => InputRange { first: 0, count: 0 },
    }
}

// The input i of a function type or a lambda.
fn type_input(m: &[u16], c: Counts, x: TypeId, i: u16) -> Option<TypeId>
    ensures { result ≡ nth (shape_inputs (row (rows_of m.now c.types) x.0)) i }
{
    let r = type_inputs(m, c, x);
    if i < r.count {
        Some(type_table::input(m, r.first as u32 + i as u32))
    } else {
        None
    }
}

// The type is an array of functions.
fn is_array_of_functions(m: &[u16], c: Counts, x: TypeId) -> bool
    ensures { result ≡ of_functions (rows_of m.now c.types) (as_arr (Rattle.theory.specs.Rules.row (rows_of m.now c.types) x.0)) }
{
    type_table::head(m, c, x) == HEAD_ARRAY
        && type_table::head(m, c, type_table::element(m, c, x)) == HEAD_PARAM
}

// A bind on the type `on` is one for the receiver: the same type, or an array of functions for an array.
fn binds_for(m: &[u16], c: Counts, receiver: TypeId, on: TypeId) -> bool
    ensures { result ≡ binds_for (rows_of m.now c.types) receiver.0 on.0 }
{
    receiver.0 == on.0
        || type_table::head(m, c, receiver) == HEAD_ARRAY && is_array_of_functions(m, c, on)
}

// ── the tables of a body ──

impl Body<'_> {
    // ── nodes ──

    fn read_field(self, j: u32) -> Field
        ensures { result ≡ field_in self.entry.cells.now j }
    {
        Field {
            tag: refs::tag_of(self.cells, j),
            value: refs::value_of(self.cells, j),
        }
    }

    // The number of the first field of a line.
    fn first_value(self, first: u16) -> u16
        ensures { result ≡ value_in self.entry.cells.now first }
    {
        refs::value_of(self.cells, first as u32)
    }

    // That of the second.
    fn second_value(self, first: u16) -> u16
        ensures { result ≡ value_in self.entry.cells.now (first + 1) }
    {
        refs::value_of(self.cells, first as u32 + 1)
    }

    // That of the third.
    fn third_value(self, first: u16) -> u16
        ensures { result ≡ value_in self.entry.cells.now (first + 2) }
    {
        refs::value_of(self.cells, first as u32 + 2)
    }

    // A node by the form of its line and where its fields stand; of these it reads those that the form has.
    #[tactic(auto, unfolding(crate::specs::Nodes::node_of))]
    fn decode(self, h: u16, first: u16, count: u16) -> Node
        ensures { result ≡ node_of h (field_in self.entry.cells.now first) (field_in self.entry.cells.now (first + 1)) (field_in self.entry.cells.now (first + 2)) first count }
    {
        match h {
            forms::FORM_BOOL => Node::Bool,
            forms::FORM_INT => Node::Int,
            forms::FORM_FLOAT => Node::Float,
            forms::FORM_BIN => Node::Bin(
                bin_op(self.first_value(first)),
                NodeId(self.second_value(first)),
                NodeId(self.third_value(first)),
            ),
            forms::FORM_UN => Node::Un(
                un_op(self.first_value(first)),
                NodeId(self.second_value(first)),
            ),
            forms::FORM_FIELD => Node::Field(
                NodeId(self.first_value(first)),
                self.second_value(first),
            ),
            forms::FORM_LIST => Node::List(behind(first, count, 0)),
            forms::FORM_INDEX => Node::Index(
                NodeId(self.first_value(first)),
                NodeId(self.second_value(first)),
            ),
            forms::FORM_ASSIGN => Node::Assign(
                NodeId(self.first_value(first)),
                NodeId(self.second_value(first)),
            ),
            forms::FORM_OPASSIGN => Node::OpAssign(
                NodeId(self.first_value(first)),
                NodeId(self.second_value(first)),
            ),
            forms::FORM_IF => Node::If(
                NodeId(self.first_value(first)),
                NodeId(self.second_value(first)),
                maybe_node(self.read_field(first as u32 + 2)),
            ),
            forms::FORM_LOOP => Node::Loop(NodeId(self.first_value(first))),
            forms::FORM_BREAK => Node::Break,
            forms::FORM_CALL => Node::Call(
                NodeId(self.first_value(first)),
                behind(first, count, 1),
            ),
            forms::FORM_MCALL => Node::MethodCall(
                NodeId(self.first_value(first)),
                self.second_value(first),
                behind(first, count, 2),
            ),
            forms::FORM_RETURN => Node::Return(maybe_node(self.read_field(first as u32))),
            forms::FORM_BLOCK => Node::Block(
                maybe_node(self.read_field(first as u32)),
                behind(first, count, 1),
            ),
            forms::FORM_LET => Node::Let(
                maybe_type(self.read_field(first as u32)),
                maybe_node(self.read_field(first as u32 + 1)),
            ),
            forms::FORM_PARAM => Node::Param(maybe_type(self.read_field(first as u32))),
            forms::FORM_LAMBDA => Node::Lambda(
                maybe_type(self.read_field(first as u32)),
                NodeId(self.second_value(first)),
                behind(first, count, 2),
            ),
            forms::FORM_PATH => Node::Path(
                res_of(
                    refs::tag_of(self.cells, first as u32),
                    self.first_value(first),
                ),
                self.second_value(first),
                behind(first, count, 2),
            ),
            _ => Node::Str,
        }
    }

    // The node n.
    #[tactic(auto, unfolding(crate::specs::Nodes::node_at))]
    pub fn view(self, n: NodeId) -> Node
        ensures { result ≡ node_at self.entry.rows.now self.entry.cells.now n.0 }
    {
        let r = refs::NODES_AT + n.0 as u32;
        self.decode(
            refs::form_of(self.rows, r),
            refs::first_of(self.rows, r),
            refs::count_of(self.rows, r),
        )
    }

    // The number of the item i.
    #[tactic(auto, unfolding(crate::specs::Nodes::item))]
    pub fn item(self, t: Items, i: u8) -> u16
        ensures { result ≡ Rattle.nodes.specs.Nodes.item self.entry.cells.now t i }
    {
        refs::value_of(self.cells, t.place(i))
    }

    // The form of the node n.
    fn form_of(self, n: NodeId) -> u16
        ensures { result ≡ form_in self.entry.rows.now (nodes_at + n.0) }
    {
        refs::form_of(self.rows, refs::NODES_AT + n.0 as u32)
    }

    // The field k of the line of the node n.
    #[tactic(auto, unfolding(crate::specs::Nodes::field_of))]
    fn field_of(self, n: NodeId, k: u16) -> Field
        ensures { result ≡ field_of self.entry.rows.now self.entry.cells.now n.0 k }
    {
        let f = refs::first_of(self.rows, refs::NODES_AT + n.0 as u32);
        self.read_field(f as u32 + k as u32)
    }

    // The declared type of the param n.
    #[tactic(auto, unfolding(crate::specs::Nodes::declared_at))]
    pub fn declared(self, n: NodeId) -> Option<TypeId>
        ensures { result ≡ declared_at self.entry.rows.now self.entry.cells.now n.0 }
    {
        match self.form_of(n) {
            forms::FORM_PARAM => maybe_type(self.field_of(n, 0)),
            _ => None,
        }
    }

    // The node n as a let.
    #[tactic(auto, unfolding(crate::specs::Nodes::let_at))]
    pub fn let_of(self, n: NodeId) -> Option<(Option<TypeId>, Option<NodeId>)>
        ensures { result ≡ let_at self.entry.rows.now self.entry.cells.now n.0 }
    {
        if self.form_of(n) == forms::FORM_LET {
            Some((
                maybe_type(self.field_of(n, 0)),
                maybe_node(self.field_of(n, 1)),
            ))
        } else {
            None
        }
    }

    // The node n as a block.
    #[tactic(auto, unfolding(crate::specs::Nodes::block_at))]
    pub fn block_of(self, n: NodeId) -> Option<(Option<NodeId>, Items)>
        ensures { result ≡ block_at self.entry.rows.now self.entry.cells.now n.0 }
    {
        if self.form_of(n) == forms::FORM_BLOCK {
            let r = refs::NODES_AT + n.0 as u32;
            let statements = behind(
                refs::first_of(self.rows, r),
                refs::count_of(self.rows, r),
                1,
            );
            Some((maybe_node(self.field_of(n, 0)), statements))
        } else {
            None
        }
    }

    // ── types and the function ──

    // The type line i.
    #[tactic(auto, unfolding(crate::specs::Nodes::type_row_at, crate::specs::Nodes::type_row_of))]
    pub fn type_row(self, i: u16) -> TypeRow
        ensures { result ≡ type_row_at self.entry.rows.now self.entry.cells.now i }
    {
        let r = refs::TYPES_AT + i as u32;
        let h = refs::form_of(self.rows, r);
        let f = refs::first_of(self.rows, r);
        let k = refs::count_of(self.rows, r);
        let a = self.first_value(f);
        match h {
            forms::FORM_ARRAY => TypeRow::Array(TypeId(a)),
            forms::FORM_FUN => TypeRow::Fun(a, TypeId(self.second_value(f)), behind(f, k, 2)),
            forms::FORM_INST => TypeRow::Inst(InstId(a)),
            _ => TypeRow::Fn(DefId(a)),
        }
    }

    #[tactic(auto, unfolding(crate::specs::Nodes::fn_line))]
    // The `fn` line.
    pub fn fn_line(self) -> Function
        ensures { result ≡ fn_line self.entry.rows.now self.entry.cells.now }
    {
        let f = refs::first_of(self.rows, refs::FN_AT);
        let k = refs::count_of(self.rows, refs::FN_AT);
        Function {
            output: TypeId(self.first_value(f)),
            body: NodeId(self.second_value(f)),
            params: behind(f, k, 2),
        }
    }

    // ── signatures ──

    // OUT of a definition (`fn_sig_for`).
    #[tactic(auto, unfolding(crate::specs::Nodes::output_of))]
    pub fn output(self, d: DefId) -> TypeId
        ensures { result.0 ≡ output_of self.entry.rows.now self.entry.cells.now d.0 }
    {
        let f = refs::first_of(self.rows, refs::DEFS_AT + d.0 as u32);
        TypeId(self.first_value(f))
    }

    // IN of a definition.
    fn def_inputs(self, d: DefId) -> Items
        ensures { result ≡ def_inputs self.entry.rows.now d.0 }
    {
        let r = refs::DEFS_AT + d.0 as u32;
        behind(
            refs::first_of(self.rows, r),
            refs::count_of(self.rows, r),
            1,
        )
    }

    // How many inputs a callee has.
    pub fn input_count(self, m: &[u16], c: Counts, f: Callee) -> u16
        ensures { result ≡ length (inputs_of (rows_of m.now c.types) self.entry.rows.now self.entry.cells.now f) }
    {
        match f {
            Callee::Def(d) => self.def_inputs(d).count as u16,
            Callee::Type(x) => type_inputs(m, c, x).count,
        }
    }

    // The input i of a definition.
    fn def_input(self, d: DefId, i: u16) -> Option<TypeId>
        ensures { result ≡ nth (items_of self.entry.cells.now (def_inputs self.entry.rows.now d.0)) i }
    {
        let t = self.def_inputs(d);
        if i < t.count as u16 {
            Some(TypeId(self.item(t, i as u8)))
        } else {
            None
        }
    }

    // The input i of a callee, if it has so many.
    pub fn input(self, m: &[u16], c: Counts, f: Callee, i: u16) -> Option<TypeId>
        ensures { result ≡ nth (inputs_of (rows_of m.now c.types) self.entry.rows.now self.entry.cells.now f) i }
    {
        match f {
            Callee::Def(d) => self.def_input(d, i),
            Callee::Type(x) => type_input(m, c, x, i),
        }
    }

    // ── fields and methods ──

    // The number of the first item of a name. Not copied into its callers, for speed: its loop needs the registers.
    #[inline(never)]
    fn named(self, t: Items, name: u16) -> Option<u16>
        ensures { result ≡ Rattle.nodes.specs.Nodes.named self.entry.cells.now t name }
    {
        // Where all items stand in the table, as behind the reader, the loop tests no place.
        if t.place(t.count) as usize * 3 <= self.cells.len() {
            for k in 0..t.count {
                let at = t.place(k) as usize * 3;
                if self.cells[at] == name {
                    return Some(self.cells[at + 2]);
                }
            }
            return None;
        }
        for i in 0..t.count {
            let j = t.place(i);
            if refs::name_of(self.cells, j) == name {
                return Some(refs::value_of(self.cells, j));
            }
        }
        None
    }

    // The type of the first field of a name.
    #[tactic(auto, unfolding(crate::specs::Nodes::field_type))]
    pub fn field_type(self, k: InstId, name: u16) -> Option<TypeId>
        ensures { result ≡ field_type self.entry.rows.now self.entry.cells.now k.0 name }
    {
        let r = refs::INSTS_AT + k.0 as u32;
        let f = refs::first_of(self.rows, r);
        let n = refs::count_of(self.rows, r);
        self.named(behind(f, n, 0), name).map(TypeId)
    }

    // The method of a name in the bind j, if it is one for the receiver.
    #[tactic(auto, unfolding(crate::specs::Nodes::method_in))]
    fn method_in(self, m: &[u16], c: Counts, j: u16, receiver: TypeId, name: u16) -> Option<DefId>
        ensures { result ≡ method_in (rows_of m.now c.types) self.entry.rows.now self.entry.cells.now j receiver.0 name }
    {
        let r = refs::BINDS_AT + j as u32;
        let f = refs::first_of(self.rows, r);
        let n = refs::count_of(self.rows, r);
        if binds_for(m, c, receiver, TypeId(self.first_value(f))) {
            self.named(behind(f, n, 1), name).map(DefId)
        } else {
            None
        }
    }

    // The first method of a name in the binds for a type, in file order (`binds_for_type`).
    pub fn method(self, m: &[u16], c: Counts, receiver: TypeId, name: u16) -> Option<DefId>
        ensures { result ≡ method_from (rows_of m.now c.types) self.entry.rows.now self.entry.cells.now 0 self.entry.binds receiver.0 name }
    {
        for j in 0..self.binds {
            if let Some(d) = self.method_in(m, c, j, receiver, name) {
                return Some(d);
            }
        }
        None
    }

    // ── segments ──

    // Some segment is `e`.
    pub fn is_partly_failed(self, t: Items) -> bool
        ensures { result ≡ is_partly_failed self.entry.cells.now t }
    {
        for i in 0..t.count {
            if refs::tag_of(self.cells, t.place(i)) == 5 {
                return true;
            }
        }
        false
    }

    // NAME of the segment i.
    #[tactic(auto, unfolding(crate::specs::Nodes::segment_name))]
    pub fn segment_name(self, t: Items, i: u8) -> u16
        ensures { result ≡ segment_name self.entry.cells.now t i }
    {
        refs::name_of(self.cells, t.place(i))
    }

    // RES of the segment i.
    #[tactic(auto, unfolding(crate::specs::Nodes::segment_res))]
    pub fn segment_res(self, t: Items, i: u8) -> Res
        ensures { result ≡ segment_res self.entry.cells.now t i }
    {
        let j = t.place(i);
        res_of(refs::tag_of(self.cells, j), refs::value_of(self.cells, j))
    }
}
