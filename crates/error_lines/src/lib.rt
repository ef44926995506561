// The lines of the errors in document 01's report, from the memory of a walk into a lent output.
#![tactic(auto)]

ghost use Rattle.std.specs.Prelude.{◌≡◌, ◌++◌, take};
ghost use Rattle.lex.specs.Text.{text};
ghost use Rattle.record.specs.Own.{kind_at, span_of, second_of};
ghost use Rattle.errors.specs.Rows.{error_of, row_in};
ghost use Rattle.output.specs.Output.{Appends};
ghost use Rattle.error_lines.specs.ErrorLines.{each_text, span_text, second_text, error_line, error_lines, place_text, value_count, value_cells};

use errors::ErrorRow;

// P, by its tag and its number.
#[tactic(auto, unfolding(record::specs::Own::span_of))]
fn put_span(out: &mut [u8], c: usize, p: u16, n: usize) -> usize
    ensures { Appends (text "," ++ span_text (span_of p n)) c out.old result out.new }
{
    match p {
        0 => output::put_field(out, c, b",", n),
        1 => output::put_field(out, c, b",d", n),
        _ => output::put_all(out, c, b",sig"),
    }
}

// Q, by its flag and its number.
#[tactic(auto, unfolding(record::specs::Own::second_of))]
fn put_second(out: &mut [u8], c: usize, q: u16, n: usize) -> usize
    ensures { Appends (text "," ++ second_text (second_of q n)) c out.old result out.new }
{
    if q == 0 {
        output::put_all(out, c, b",-")
    } else {
        output::put_field(out, c, b",", n)
    }
}

// How many values an error of this kind has.
#[tactic(auto, unfolding(record::specs::Own::kind_at))]
fn values(k: u16) -> u16
    ensures { result ≡ value_count (kind_at k) }
{
    match k {
        5 => 3,
        0 | 3 | 6 | 7 | 9 => 2,
        1 | 2 | 4 | 8 => 1,
        _ => 0,
    }
}

// The first n values of a row.
fn put_values(out: &mut [u8], c: usize, r: ErrorRow, n: u16) -> usize
    ensures { Appends (each_text (take n (value_cells r))) c out.old result out.new }
{
    if n == 0 {
        return c;
    }
    let a = output::put_field(out, c, b",", r.a as usize);
    if n == 1 {
        return a;
    }
    let b = output::put_field(out, a, b",", r.b as usize);
    if n == 2 {
        return b;
    }
    output::put_field(out, b, b",", r.c as usize)
}

// P and Q of a row.
fn put_place(out: &mut [u8], c: usize, r: ErrorRow) -> usize
    ensures { Appends (place_text (error_of r)) c out.old result out.new }
{
    let d = put_span(out, c, r.span, r.at as usize);
    put_second(out, d, r.between, r.second as usize)
}

// An error, by its row.
pub fn put_error(out: &mut [u8], c: usize, r: ErrorRow) -> usize
    ensures { Appends (error_line r) c out.old result out.new }
{
    let a = output::put_field(out, c, b"error=", errors::kind_number(r.kind) as usize);
    let b = output::put_field(out, a, b",", r.cause as usize);
    let d = put_place(out, b, r);
    let e = put_values(out, d, r, values(r.kind));
    output::put(out, e, b'\n')
}

// How many errors there are, and each, from the memory of the walk.
pub fn put_errors(out: &mut [u8], c: usize, m: &[u16], n: u16) -> usize
    ensures { Appends (error_lines (row_in m.now n) n) c out.old result out.new }
{
    let mut d = output::put_line(out, c, b"errors=", n as usize);
    for i in 0..n {
        let r = errors::error_row(m, n, i as usize);
        d = put_error(out, d, r);
    }
    d
}
