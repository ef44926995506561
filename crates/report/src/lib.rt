// `report`: checks a file, and writes its report into a lent output.
#![tactic(auto)]

ghost use Rattle.std.specs.Prelude.{◌≡◌, []};
ghost use Rattle.answers.specs.Lent.{lent};
ghost use Rattle.report.specs.Report.{told, report_of};
ghost use Rattle.report.specs.Parts.{TablesReported};

use errors::ErrorRow;
use report_text::Reported;

// Checks a file and writes its report, but hands no errors back; so many rows are lent for them. The memory is as the walk leaves it.
pub fn report_tables(
    s: &[u8],
    rows: &mut [u16],
    cells: &mut [u16],
    nodes: &mut [u16],
    vars: &mut [u16],
    types: &mut [u16],
    errors: usize,
    log: &mut [u16],
    memory: &mut [u16],
    out: &mut [u8],
) -> Reported
    ensures { TablesReported s.now errors (lent rows.old cells.old nodes.old vars.old types.old [] log.old memory.old) out.old result (lent rows.new cells.new nodes.new vars.new types.new [] log.new memory.new) out.new }
{
    let a = checker::check_tables(s, rows, cells, nodes, vars, types, errors, log, memory);
    report_text::write_report(out, a, nodes, vars, types, memory)
}

// Checks a file, and writes its report.
pub fn report(
    s: &[u8],
    rows: &mut [u16],
    cells: &mut [u16],
    nodes: &mut [u16],
    vars: &mut [u16],
    types: &mut [u16],
    errors: &mut [ErrorRow],
    log: &mut [u16],
    memory: &mut [u16],
    out: &mut [u8],
) -> Reported
    ensures { told result (lent rows.new cells.new nodes.new vars.new types.new errors.new log.new memory.new) out.new ≡ report_of s.now (lent rows.old cells.old nodes.old vars.old types.old errors.old log.old memory.old) out.old }
{
    let room = errors.len();
    let r = report_tables(s, rows, cells, nodes, vars, types, room, log, memory, out);
    let a = report_text::answer_of(r);
    answers::hand_errors(errors, memory, a);
    r
}
