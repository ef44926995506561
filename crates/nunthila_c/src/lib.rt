// The exports of nunthila for programs in C and Rust: `rt lib` in this folder writes an archive with the four functions of firmware/nunthila.h.
#![tactic(auto)]

ghost use Rattle.std.specs.Prelude.{◌≡◌};
ghost use Rattle.answers.specs.Lent.{lent};
ghost use Rattle.nunthila.specs.Told.{checked, check_told, reporting, report_told, quarrel_told, shortest_told};

use errors::ErrorRow;

// Checks a file.
#[unsafe(no_mangle)]
pub extern "C" fn nunthila_check(
    s: &[u8],
    rows: &mut [u16],
    cells: &mut [u16],
    nodes: &mut [u16],
    vars: &mut [u16],
    types: &mut [u16],
    errors: &mut [ErrorRow],
    log: &mut [u16],
    memory: &mut [u16],
    told: &mut [usize],
) -> usize
    ensures { checked result (lent rows.new cells.new nodes.new vars.new types.new errors.new log.new memory.new) told.new ≡ check_told s.now (lent rows.old cells.old nodes.old vars.old types.old errors.old log.old memory.old) told.old }
{
    nunthila::nunthila_check(
        s, rows, cells, nodes, vars, types, errors, log, memory, told,
    )
}

// Checks a file, and writes its report.
#[unsafe(no_mangle)]
pub extern "C" fn nunthila_report(
    s: &[u8],
    rows: &mut [u16],
    cells: &mut [u16],
    nodes: &mut [u16],
    vars: &mut [u16],
    types: &mut [u16],
    errors: &mut [ErrorRow],
    log: &mut [u16],
    memory: &mut [u16],
    out: &mut [u8],
    told: &mut [usize],
) -> usize
    ensures { reporting result (lent rows.new cells.new nodes.new vars.new types.new errors.new log.new memory.new) out.new told.new ≡ report_told s.now (lent rows.old cells.old nodes.old vars.old types.old errors.old log.old memory.old) out.old told.old }
{
    nunthila::nunthila_report(
        s, rows, cells, nodes, vars, types, errors, log, memory, out, told,
    )
}

// Checks a file, and writes the minimal conflict among its equations; `places` is 0 for lines with the number alone.
#[unsafe(no_mangle)]
pub extern "C" fn nunthila_quarrel(
    s: &[u8],
    rows: &mut [u16],
    cells: &mut [u16],
    nodes: &mut [u16],
    vars: &mut [u16],
    types: &mut [u16],
    errors: &mut [ErrorRow],
    log: &mut [u16],
    memory: &mut [u16],
    out: &mut [u8],
    told: &mut [usize],
    places: usize,
) -> usize
    ensures { reporting result (lent rows.new cells.new nodes.new vars.new types.new errors.new log.new memory.new) out.new told.new ≡ quarrel_told s.now places (lent rows.old cells.old nodes.old vars.old types.old errors.old log.old memory.old) out.old told.old }
{
    nunthila::nunthila_quarrel(
        s, rows, cells, nodes, vars, types, errors, log, memory, out, told, places,
    )
}

// Checks a file, and writes a shortest conflict among its equations, with so many subsets that may be tested; `places` is 0 for lines with the number
// alone.
#[unsafe(no_mangle)]
pub extern "C" fn nunthila_shortest(
    s: &[u8],
    rows: &mut [u16],
    cells: &mut [u16],
    nodes: &mut [u16],
    vars: &mut [u16],
    types: &mut [u16],
    errors: &mut [ErrorRow],
    log: &mut [u16],
    memory: &mut [u16],
    out: &mut [u8],
    told: &mut [usize],
    places: usize,
    number: u64,
) -> usize
    ensures { reporting result (lent rows.new cells.new nodes.new vars.new types.new errors.new log.new memory.new) out.new told.new ≡ shortest_told s.now places number (lent rows.old cells.old nodes.old vars.old types.old errors.old log.old memory.old) out.old told.old }
{
    nunthila::nunthila_shortest(
        s, rows, cells, nodes, vars, types, errors, log, memory, out, told, places, number,
    )
}
