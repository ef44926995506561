// The error rows that a check hands back: a lent slice of structs, one row per error in order, filled from the memory of a walk by one function
// that appends a row.
#![tactic(auto)]

ghost use Rattle.std.specs.Prelude.{◌≡◌, get_or, set};
ghost use Rattle.record.specs.Own.{kind_number, kind_at, span_tag, span_value, span_of, second_tag, second_value, second_of};
ghost use Rattle.errors.specs.Rows.{zero_row, row_in, filled_to};

use memory_cells::read;

// An error as it is handed back: KIND, CAUSE, P by its tag (0 a node, 1 a bind item, 2 the signature) and its number, 1 if there is a Q, Q, and
// three values; those that its kind does not have are 0.
#[repr(C)]
#[derive(Clone, Copy)]
pub struct ErrorRow {
    pub kind: u16,
    pub cause: u16,
    pub span: u16,
    pub at: u16,
    pub between: u16,
    pub second: u16,
    pub a: u16,
    pub b: u16,
    pub c: u16,
}

// ── from the memory ──

// KIND; what is no position counts as the last.
pub fn kind_number(k: u16) -> u16
    ensures { result ≡ kind_number (kind_at k) }
{
    k.min(10)
}

// The tag of P.
fn span_tag(p: u16, x: u16) -> u16
    ensures { result ≡ span_tag (span_of p x) }
{
    p.min(2)
}

// The number of P; the signature has none.
fn span_number(p: u16, x: u16) -> u16
    ensures { result ≡ span_value (span_of p x) }
{
    if p < 2 { x } else { 0 }
}

// 1 if there is a Q.
fn second_tag(q: u16, x: u16) -> u16
    ensures { result ≡ second_tag (second_of q x) }
{
    if q == 0 { 0 } else { 1 }
}

// Q.
fn second_number(q: u16, x: u16) -> u16
    ensures { result ≡ second_value (second_of q x) }
{
    if q == 0 { 0 } else { x }
}

// A row of zeros.
pub fn no_error() -> ErrorRow
    ensures { result ≡ zero_row }
{
    ErrorRow {
        kind: 0,
        cause: 0,
        span: 0,
        at: 0,
        between: 0,
        second: 0,
        a: 0,
        b: 0,
        c: 0,
    }
}

// The row of the error i of a memory with n errors; zeros past the last.
pub fn error_row(m: &[u16], n: u16, i: usize) -> ErrorRow
    ensures { result ≡ row_in m.now n i }
{
    if i >= n as usize {
        return no_error();
    }
    let f = record::ERRORS_AT + i * 9;
    let (p, x) = (read(m, f + 2), read(m, f + 3));
    let (q, y) = (read(m, f + 4), read(m, f + 5));
    ErrorRow {
        kind: kind_number(read(m, f)),
        cause: read(m, f + 1),
        span: span_tag(p, x),
        at: span_number(p, x),
        between: second_tag(q, y),
        second: second_number(q, y),
        a: read(m, f + 6),
        b: read(m, f + 7),
        c: read(m, f + 8),
    }
}

// ── the lent table ──

// Puts a row behind the first i rows; every other row is as it was. Without room nothing changes.
pub fn append_error(errors: &mut [ErrorRow], i: usize, r: ErrorRow)
    ensures { errors.new ≡ set errors.old i r }
{
    if i < errors.len() {
        errors[i] = r;
    }
}

// The first `end` rows, from the memory of a walk with n errors: those of the errors, zeros behind them.
pub fn fill_errors(errors: &mut [ErrorRow], m: &[u16], n: u16, end: usize)
    ensures { errors.new ≡ filled_to errors.old (row_in m.now n) end }
{
    let stop = errors.len().min(end);
    let used = stop.min(n as usize);
    for i in 0..used {
        append_error(errors, i, error_row(m, n, i));
    }
    errors[used..stop].fill(no_error());
}

// The row i of a table; zeros past the last.
pub fn error_at(errors: &[ErrorRow], i: usize) -> ErrorRow
    ensures { result ≡ get_or errors.now i zero_row }
{
    errors.get(i).copied().unwrap_or(no_error())
}
