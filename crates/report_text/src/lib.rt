// The lines of document 01's report, from the lent tables of `check` and the memory of its walk into a lent output.
#![tactic(auto)]

ghost use Rattle.std.specs.Prelude.{◌≡◌, ◌++◌};
ghost use Rattle.std.proofs.Math.Option.{none, some};
ghost use Rattle.type_table.specs.Memory.{cell, kind_of};
ghost use Rattle.answers.specs.declared.Answer.TheVariants.{Checked};
ghost use Rattle.lex.specs.Text.{text};
ghost use Rattle.record.specs.Own.{extra_of};
ghost use Rattle.errors.specs.Rows.{row_in};
ghost use Rattle.answers.specs.Lent.{errors_used};
ghost use Rattle.tables.specs.Read.{cells_at, made_at};
ghost use Rattle.output.specs.Output.{Appends, number_text};
ghost use Rattle.error_lines.specs.ErrorLines.{each_text};
ghost use Rattle.report_text.specs.Lines.{option_text, option_at, answer_line, type_text, type_line, type_lines, kind_text, var_line, var_lines, extra_text, node_line, node_lines, tables_text, lambda_text};
ghost use Rattle.report_text.specs.Written.{text_of, checked_answer, said, written};

use answers::{Answer, Totals};

// What `report` answers.
#[derive(Clone, Copy)]
pub enum Reported {
    // The answer of the check, and how many bytes its report has.
    Written(Answer, usize),
    // 9: the output is too short for the report of this answer.
    NoRoom(Answer),
}

// ── parts of a line ──

// A comma, and the number of a cell.
fn put_cell(out: &mut [u8], c: usize, t: &[u16], i: usize) -> usize
    ensures { Appends (text "," ++ number_text (cell t.now i)) c out.old result out.new }
{
    output::put_field(out, c, b",", refs::at(t, i) as usize)
}

// Bytes, and the number behind the flag at i; `-` where the flag is not 1.
fn put_option(out: &mut [u8], c: usize, s: &[u8], t: &[u16], i: u32) -> usize
    ensures { Appends (s.now ++ option_text (option_at t.now i)) c out.old result out.new }
{
    let d = output::put_all(out, c, s);
    if refs::at(t, i as usize) == 1 {
        output::put_number(out, d, refs::at(t, i as usize + 1) as usize)
    } else {
        output::put(out, d, b'-')
    }
}

// ── made types ──

// The numbers of some cells, each behind a comma.
fn put_each(out: &mut [u8], c: usize, t: &[u16]) -> usize
    ensures { Appends (each_text t.now) c out.old result out.new }
{
    let mut d = c;
    for &x in t {
        d = output::put_field(out, d, b",", x as usize);
    }
    d
}

// The k cells of a table from f on, as many as there are.
fn put_part(out: &mut [u8], c: usize, t: &[u16], f: usize, k: usize) -> usize
    ensures { Appends (each_text (cells_at t.now f k)) c out.old result out.new }
{
    let n = t.len();
    if n < f {
        c
    } else if n - f < k {
        put_each(out, c, &t[f..n])
    } else {
        put_each(out, c, &t[f..f + k])
    }
}

// Node, output and inputs of a lambda, the made type of the number i.
fn put_lambda(out: &mut [u8], c: usize, t: &[u16], i: u16) -> usize
    ensures { Appends (lambda_text t.now i) c out.old result out.new }
{
    let at = i as usize * 5;
    let a = output::put_field(out, c, b"type=lambda,", refs::at(t, at + 1) as usize);
    let b = put_cell(out, a, t, at + 2);
    let f = refs::at(t, at + 3);
    let k = refs::at(t, at + 4);
    put_part(
        out,
        b,
        t,
        tables::INPUTS_FROM as usize + f as usize,
        k as usize,
    )
}

// What the made type of the number i is.
fn put_made(out: &mut [u8], c: usize, t: &[u16], i: u16) -> usize
    ensures { Appends (text "type=" ++ type_text (made_at t.now i)) c out.old result out.new }
{
    let at = i as usize * 5;
    let h = refs::at(t, at);
    let n = refs::at(t, at + 1) as usize;
    match h {
        5 => output::put_field(out, c, b"type=inst,", n),
        7 => output::put_field(out, c, b"type=fn,", n),
        8 => output::put_field(out, c, b"type=array,", n),
        12 => output::put_field(out, c, b"type=var,", n),
        13 => put_lambda(out, c, t, i),
        14 => output::put_field(out, c, b"type=ref,", n),
        _ => output::put_all(out, c, b"type=-"),
    }
}

// The made type of the number i.
fn put_type(out: &mut [u8], c: usize, t: &[u16], i: u16) -> usize
    ensures { Appends (type_line t.now i) c out.old result out.new }
{
    let d = put_made(out, c, t, i);
    output::put(out, d, b'\n')
}

// How many made types there are, and each.
fn put_types(out: &mut [u8], c: usize, t: &[u16], n: u16) -> usize
    ensures { Appends (type_lines t.now n) c out.old result out.new }
{
    let mut d = output::put_line(out, c, b"types=", n as usize);
    for i in 0..n {
        d = put_type(out, d, t, i);
    }
    d
}

// ── variables ──

// KIND.
#[tactic(auto, unfolding(type_table::specs::Memory::kind_of))]
fn put_kind(out: &mut [u8], c: usize, k: u16) -> usize
    ensures { Appends (text "var=" ++ kind_text (kind_of k)) c out.old result out.new }
{
    match k {
        1 => output::put_all(out, c, b"var=int"),
        2 => output::put_all(out, c, b"var=float"),
        _ => output::put_all(out, c, b"var=any"),
    }
}

// The variable v.
fn put_var(out: &mut [u8], c: usize, t: &[u16], v: u16) -> usize
    ensures { Appends (var_line t.now v) c out.old result out.new }
{
    let at = v as u32 * 6;
    let a = put_kind(out, c, refs::at(t, at as usize));
    let b = put_option(out, a, b",", t, at + 1);
    let d = put_option(out, b, b",", t, at + 3);
    output::put(out, d, b'\n')
}

// How many variables there are, and each.
fn put_vars(out: &mut [u8], c: usize, t: &[u16], n: u16) -> usize
    ensures { Appends (var_lines t.now n) c out.old result out.new }
{
    let mut d = output::put_line(out, c, b"vars=", n as usize);
    for v in 0..n {
        d = put_var(out, d, t, v);
    }
    d
}

// ── nodes ──

// EXTRA, by its tag and its number.
#[tactic(auto, unfolding(record::specs::Own::extra_of, nodes::specs::Nodes::res_of))]
fn put_extra(out: &mut [u8], c: usize, e: u16, n: usize) -> usize
    ensures { Appends (text "," ++ extra_text (extra_of e n)) c out.old result out.new }
{
    match e {
        0 => output::put_all(out, c, b",-"),
        1 => output::put_field(out, c, b",l", n),
        2 => output::put_field(out, c, b",f", n),
        3 => output::put_field(out, c, b",c", n),
        4 => output::put_field(out, c, b",i", n),
        5 => output::put_all(out, c, b",e"),
        7 | 8 => output::put_field(out, c, b",", n),
        _ => output::put_all(out, c, b",o"),
    }
}

// The node i: RAW, FINAL, EXTRA.
fn put_node(out: &mut [u8], c: usize, t: &[u16], i: u16) -> usize
    ensures { Appends (node_line t.now i) c out.old result out.new }
{
    let at = i as u32 * 6;
    let a = put_option(out, c, b"node=", t, at);
    let b = put_option(out, a, b",", t, at + 4);
    let e = refs::at(t, at as usize + 2);
    let d = put_extra(out, b, e, refs::at(t, at as usize + 3) as usize);
    output::put(out, d, b'\n')
}

// The nodes.
fn put_nodes(out: &mut [u8], c: usize, t: &[u16], n: u16) -> usize
    ensures { Appends (node_lines t.now n) c out.old result out.new }
{
    let mut d = c;
    for i in 0..n {
        d = put_node(out, d, t, i);
    }
    d
}

// ── the report ──

// An answer line without a place.
fn put_answer(out: &mut [u8], k: usize) -> usize
    ensures { Appends (answer_line k none) 0 out.old result out.new }
{
    let c = output::put_field(out, 0, b"answer=", k);
    let d = output::put_all(out, c, b",-");
    output::put(out, d, b'\n')
}

// An answer line with a place.
fn put_refusal(out: &mut [u8], k: usize, p: usize) -> usize
    ensures { Appends (answer_line k (some p)) 0 out.old result out.new }
{
    let c = output::put_field(out, 0, b"answer=", k);
    let d = output::put_field(out, c, b",", p);
    output::put(out, d, b'\n')
}

// What stands behind the answer of a body that was checked: t made types, v variables, n nodes, e errors.
fn put_tables(
    out: &mut [u8],
    c: usize,
    t: u16,
    v: u16,
    n: u16,
    e: u16,
    nodes: &[u16],
    vars: &[u16],
    types: &[u16],
    m: &[u16],
) -> usize
    ensures { Appends (tables_text t v n e nodes.now vars.now types.now (row_in m.now e)) c out.old result out.new }
{
    let a = put_types(out, c, types, t);
    let b = put_vars(out, a, vars, v);
    let d = put_nodes(out, b, nodes, n);
    error_lines::put_errors(out, d, m, e)
}

// ── by the answer ──

// The report of a body that was checked.
fn put_checked(
    out: &mut [u8],
    n: Totals,
    nodes: &[u16],
    vars: &[u16],
    types: &[u16],
    m: &[u16],
) -> usize
    ensures { Appends (text_of (Checked n) nodes.now vars.now types.now (row_in m.now n.errors)) 0 out.old result out.new }
{
    let c = put_answer(out, 0);
    put_tables(
        out,
        c,
        n.types,
        n.vars,
        n.declared.nodes,
        n.errors,
        nodes,
        vars,
        types,
        m,
    )
}

// The report of an answer and its tables, the errors from the memory of the walk.
fn put_report(
    out: &mut [u8],
    a: Answer,
    nodes: &[u16],
    vars: &[u16],
    types: &[u16],
    m: &[u16],
) -> usize
    ensures { Appends (text_of a nodes.now vars.now types.now (row_in m.now (errors_used a))) 0 out.old result out.new }
{
    match a {
        Answer::Checked(n) => put_checked(out, n, nodes, vars, types, m),
        Answer::TooLong => put_answer(out, 1),
        Answer::ShortTable => put_answer(out, 2),
        Answer::Refused(f, l) => put_refusal(out, body::fault_number(f), l),
        Answer::Declined(k, p) => put_refusal(out, k as usize, p.0 as usize),
    }
}

// The report of an answer and its tables into an output of any length; the errors are read from the memory of the walk, from which they are handed
// back too.
pub fn write_report(
    out: &mut [u8],
    a: Answer,
    nodes: &[u16],
    vars: &[u16],
    types: &[u16],
    m: &[u16],
) -> Reported
    ensures { said result out.new ≡ written a (text_of a nodes.now vars.now types.now (row_in m.now (errors_used a))) out.old }
{
    let c = put_report(out, a, nodes, vars, types, m);
    match output::finish(out, c) {
        Some(n) => Reported::Written(a, n),
        None => Reported::NoRoom(a),
    }
}

// The answer of the check that was reported.
pub fn answer_of(r: Reported) -> Answer
    ensures { result ≡ checked_answer r }
{
    match r {
        Reported::Written(a, _) => a,
        Reported::NoRoom(a) => a,
    }
}
