// The text of a body's tables into a lent output: `put_row` writes the line of one row by the table of forms, `write_body` a whole body.
#![tactic(auto)]

ghost use Rattle.std.specs.Prelude.{◌≡◌, ◌++◌, ◌∷◌, [], ◌+◌, ◌≤◌};
ghost use Rattle.forms.specs.Form.{cell as cell·T};
ghost use Rattle.refs.specs.Refs.{fn_at};
ghost use Rattle.table_cells.specs.Rows.{cells_to};
ghost use Rattle.output.specs.Output.{Appends, number_text, newline, output as output·T, ended};
ghost use Rattle.body_rows.specs.Text.{binary_letter, unary_letter, resolution_text, field_text, row, line_text, cells_at, file_text_in};
ghost use Rattle.body_write.specs.Writing.{optional_text, is_worded, head_text, field_text_at, behind_comma, values_text, row_line, row_lines, declaration_lines};

use forms::Form;
use refs::Counts;

// ── a field ──

// The letter of an operator of `bin`.
#[tactic(auto, unfolding(body_rows::specs::Text::binary_letter))]
fn binary_letter(v: u16) -> u8
    ensures { result ≡ binary_letter v }
{
    match v {
        0 => b'b',
        1 => b'c',
        _ => b'a',
    }
}

// And of `un`.
#[tactic(auto, unfolding(body_rows::specs::Text::unary_letter))]
fn unary_letter(v: u16) -> u8
    ensures { result ≡ unary_letter v }
{
    match v {
        0 => b'd',
        1 => b'r',
        2 => b'n',
        _ => b't',
    }
}

// A number, or `-`.
#[tactic(auto, unfolding(crate::specs::Writing::optional_text))]
fn put_option(out: &mut [u8], c: usize, tag: u16, v: u16) -> usize
    ensures { Appends (optional_text tag v) c out.old result out.new }
{
    if tag == 0 {
        output::put(out, c, b'-')
    } else {
        output::put_number(out, c, v as usize)
    }
}

// RES.
#[tactic(auto, unfolding(body_rows::specs::Text::resolution_text, body_rows::specs::Text::tag_letter))]
fn put_res(out: &mut [u8], c: usize, tag: u16, v: u16) -> usize
    ensures { Appends (resolution_text tag v) c out.old result out.new }
{
    match tag {
        0 => output::put_field(out, c, b"o", v as usize),
        1 => output::put_field(out, c, b"l", v as usize),
        2 => output::put_field(out, c, b"f", v as usize),
        3 => output::put_field(out, c, b"c", v as usize),
        4 => output::put_field(out, c, b"i", v as usize),
        5 => output::put_all(out, c, b"e"),
        _ => output::put_all(out, c, b"o"),
    }
}

// A name and a colon.
fn put_name(out: &mut [u8], c: usize, a: u16) -> usize
    ensures { Appends (number_text a ++ (58 ∷ [])) c out.old result out.new }
{
    let d = output::put_number(out, c, a as usize);
    output::put(out, d, b':')
}

// NAME:NUMBER.
fn put_pair(out: &mut [u8], c: usize, a: u16, v: u16) -> usize
    ensures { Appends (number_text a ++ 58 ∷ number_text v) c out.old result out.new }
{
    let d = put_name(out, c, a);
    output::put_number(out, d, v as usize)
}

// NAME:RES.
fn put_segment(out: &mut [u8], c: usize, a: u16, tag: u16, v: u16) -> usize
    ensures { Appends (number_text a ++ 58 ∷ resolution_text tag v) c out.old result out.new }
{
    let d = put_name(out, c, a);
    put_res(out, d, tag, v)
}

// A field, by the way in which it is written.
#[tactic(auto, unfolding(body_rows::specs::Text::field_text, crate::specs::Writing::optional_text))]
fn put_way(out: &mut [u8], c: usize, w: u8, a: u16, tag: u16, v: u16) -> usize
    ensures { Appends (field_text w (cell·T a tag v)) c out.old result out.new }
{
    match w {
        1 => output::put_number(out, c, v as usize),
        2 => put_option(out, c, tag, v),
        3 => put_pair(out, c, a, v),
        4 => output::put(out, c, binary_letter(v)),
        5 => output::put(out, c, unary_letter(v)),
        6 => put_res(out, c, tag, v),
        7 => put_segment(out, c, a, tag, v),
        _ => c,
    }
}

// The field a + i of a row of the form f whose fields stand from j on.
fn put_cell(out: &mut [u8], c: usize, f: Form, cells: &[u16], j: u16, a: u16, i: u16) -> usize
    ensures { Appends (field_text_at f cells.now j (a + i)) c out.old result out.new }
{
    let h = a as u32 + i as u32;
    let k = j as u32 + h;
    let w = forms::kind_at(f, h as usize) / 16;
    let b = refs::name_of(cells, k);
    let t = refs::tag_of(cells, k);
    let v = refs::value_of(cells, k);
    put_way(out, c, w, b, t, v)
}

// The same behind a comma.
fn put_next(out: &mut [u8], c: usize, f: Form, cells: &[u16], j: u16, a: u16, i: u16) -> usize
    ensures { Appends (behind_comma f cells.now j a i) c out.old result out.new }
{
    let d = output::put(out, c, b',');
    put_cell(out, d, f, cells, j, a, i)
}

// n fields of it from the field a on, each behind a comma.
fn put_more(out: &mut [u8], c: usize, f: Form, cells: &[u16], j: u16, a: u16, n: u16) -> usize
    ensures { Appends (cells_to (behind_comma f cells.now j a) n) c out.old result out.new }
{
    let mut d = c;
    for i in 0..n {
        d = put_next(out, d, f, cells, j, a, i);
    }
    d
}

// ── a line ──

// Whether a form has a word.
#[tactic(auto, unfolding(crate::specs::Writing::is_worded))]
fn worded(f: u16) -> bool
    ensures { result ≡ is_worded f }
{
    matches!(f, 0..=3 | 7..=28)
}

// The key of a form, the equals sign, and its word.
#[tactic(auto, unfolding(forms::specs::Form::forms, crate::specs::Writing::head_text, body_rows::specs::Text::key_at, body_rows::specs::Text::key_text, body_rows::specs::Text::word_at))]
fn put_head(out: &mut [u8], c: usize, f: u16) -> usize
    ensures { Appends (head_text f) c out.old result out.new }
{
    match f {
        0 => output::put_all(out, c, b"type=array"),
        1 => output::put_all(out, c, b"type=fun"),
        2 => output::put_all(out, c, b"type=inst"),
        3 => output::put_all(out, c, b"type=fn"),
        4 => output::put_all(out, c, b"def="),
        5 => output::put_all(out, c, b"inst="),
        6 => output::put_all(out, c, b"bind="),
        7 => output::put_all(out, c, b"node=bool"),
        8 => output::put_all(out, c, b"node=int"),
        9 => output::put_all(out, c, b"node=float"),
        10 => output::put_all(out, c, b"node=str"),
        11 => output::put_all(out, c, b"node=bin"),
        12 => output::put_all(out, c, b"node=un"),
        13 => output::put_all(out, c, b"node=field"),
        14 => output::put_all(out, c, b"node=list"),
        15 => output::put_all(out, c, b"node=index"),
        16 => output::put_all(out, c, b"node=assign"),
        17 => output::put_all(out, c, b"node=opassign"),
        18 => output::put_all(out, c, b"node=if"),
        19 => output::put_all(out, c, b"node=loop"),
        20 => output::put_all(out, c, b"node=break"),
        21 => output::put_all(out, c, b"node=call"),
        22 => output::put_all(out, c, b"node=mcall"),
        23 => output::put_all(out, c, b"node=return"),
        24 => output::put_all(out, c, b"node=block"),
        25 => output::put_all(out, c, b"node=let"),
        26 => output::put_all(out, c, b"node=param"),
        27 => output::put_all(out, c, b"node=lambda"),
        28 => output::put_all(out, c, b"node=path"),
        _ => output::put_all(out, c, b"fn="),
    }
}

// The fields of a row: behind a word each behind a comma, else with commas between them.
fn put_values(out: &mut [u8], c: usize, f: u16, cells: &[u16], j: u16, m: u16) -> usize
    ensures { Appends (values_text f cells.now j m) c out.old result out.new }
{
    let g = forms::form_at(f as usize);
    if worded(f) {
        put_more(out, c, g, cells, j, 0, m)
    } else if m == 0 {
        c
    } else {
        let d = put_cell(out, c, g, cells, j, 0, 0);
        put_more(out, d, g, cells, j, 1, m - 1)
    }
}

// The line of a row: of the form f, with m fields from j on.
fn put_row(out: &mut [u8], c: usize, f: u16, cells: &[u16], j: u16, m: u16) -> usize
    ensures { Appends (line_text (row f (cells_at cells.now j m)) ++ newline) c out.old result out.new }
{
    let a = put_head(out, c, f);
    let b = put_values(out, a, f, cells, j, m);
    output::put(out, b, b'\n')
}

// The line of the row at the place p of the tables.
fn put_at(out: &mut [u8], c: usize, rows: &[u16], cells: &[u16], p: u32) -> usize
    ensures { Appends (row_line rows.now cells.now p) c out.old result out.new }
{
    let f = refs::form_of(rows, p);
    let j = refs::first_of(rows, p);
    let m = refs::count_of(rows, p);
    put_row(out, c, f, cells, j, m)
}

// ── a body ──

// The lines of n rows from the place p on.
fn put_rows(out: &mut [u8], c: usize, rows: &[u16], cells: &[u16], p: u32, n: u16) -> usize
    requires { p ≤ fn_at }
    ensures { Appends (row_lines rows.now cells.now p n) c out.old result out.new }
{
    let mut d = c;
    for i in 0..n {
        d = put_at(out, d, rows, cells, p + i as u32);
    }
    d
}

// The declarations.
fn put_declarations(out: &mut [u8], rows: &[u16], cells: &[u16], n: Counts) -> usize
    ensures { Appends (declaration_lines n rows.now cells.now) 0 out.old result out.new }
{
    let c0 = put_rows(out, 0, rows, cells, refs::TYPES_AT, n.types);
    let c1 = put_rows(out, c0, rows, cells, refs::DEFS_AT, n.defs);
    let c2 = put_rows(out, c1, rows, cells, refs::INSTS_AT, n.insts);
    put_rows(out, c2, rows, cells, refs::BINDS_AT, n.binds)
}

// The text of a body's tables into an output of any length: where it ends; None without room for it, and the output is zero throughout.
pub fn write_body(out: &mut [u8], rows: &[u16], cells: &[u16], n: Counts) -> Option<usize>
    ensures { output·T result out.new ≡ ended (file_text_in n rows.now cells.now) out.old }
{
    let c = put_declarations(out, rows, cells, n);
    let d = put_rows(out, c, rows, cells, refs::NODES_AT, n.nodes);
    let e = put_at(out, d, rows, cells, refs::FN_AT);
    output::finish(out, e)
}
