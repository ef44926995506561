// The report of a file with the errors in a slice of numbers, nine for each row: for a program that lends numbers alone.
#![tactic(auto)]

ghost use Rattle.std.specs.Prelude.{◌≡◌, ◌*◌, ◌≤◌, length};
ghost use Rattle.errors.specs.Rows.{row_in};
ghost use Rattle.flat_report.specs.Flat.{row_numbers, put_rows, Flat};

use errors::ErrorRow;
use report_text::Reported;

// The numbers of a table of 4,096 errors.
pub const ERRORS: usize = 36864;

// ── rows and numbers ──

// The numbers of a row.
fn numbers(r: ErrorRow) -> [u16; 9]
    ensures { result ≡ row_numbers r }
{
    [
        r.kind, r.cause, r.span, r.at, r.between, r.second, r.a, r.b, r.c,
    ]
}

// Writes the first `end` rows as numbers, from the memory of a walk with n errors: those of the errors, zeros behind them.
fn put_errors(t: &mut [u16], m: &[u16], n: u16, end: usize)
    requires { end * 9 ≤ length t.old }
    ensures { t.new ≡ put_rows t.old (row_in m.now n) end }
{
    for i in 0..end {
        let row = numbers(errors::error_row(m, n, i));
        t[i * 9..i * 9 + 9].copy_from_slice(&row);
    }
}

// ── the report ──

// Checks a file, and writes its report; the errors are handed back as numbers, as many whole rows as there are.
pub fn report_flat(
    s: &[u8],
    rows: &mut [u16],
    cells: &mut [u16],
    nodes: &mut [u16],
    vars: &mut [u16],
    types: &mut [u16],
    errors: &mut [u16],
    log: &mut [u16],
    memory: &mut [u16],
    out: &mut [u8],
) -> Reported
    ensures { Flat s.now rows.old cells.old nodes.old vars.old types.old errors.old log.old memory.old out.old result rows.new cells.new nodes.new vars.new types.new errors.new log.new memory.new out.new }
{
    let n = errors.len() / 9;
    let r = report::report_tables(s, rows, cells, nodes, vars, types, n, log, memory, out);
    let a = report_text::answer_of(r);
    let used = answers::errors_used(a);
    let end = answers::errors_end(a, n);
    put_errors(errors, memory, used, end);
    answers::end_memory(memory, a);
    r
}
