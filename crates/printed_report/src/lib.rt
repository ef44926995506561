// What `typereport` prints of a body: its report, and `answer=9,-` where that has no room in the output.
#![tactic(auto)]

ghost use Rattle.std.specs.Prelude.{◌≡◌};
ghost use Rattle.output.specs.Output.{ended};
ghost use Rattle.printed_report.specs.Printed.{printed, nine_line, printed_text, printed_by, printed_of};

use report_text::Reported;

// The line of 9, and how many bytes it has. Where it has no room, the output is zero throughout.
fn put_nine(out: &mut [u8]) -> usize
    ensures { printed result out.new ≡ printed_text (ended nine_line out.old) }
{
    let c = output::put_all(out, 0, b"answer=9,-\n");
    match output::finish(out, c) {
        Some(n) => n,
        None => 0,
    }
}

// By the answer of the report, which is in the output unless it had no room.
fn put_answered(r: Reported, out: &mut [u8]) -> usize
    ensures { printed result out.new ≡ printed_by r out.old }
{
    match r {
        Reported::Written(_, n) => n,
        Reported::NoRoom(_) => put_nine(out),
    }
}

// What is printed of a body, as the first bytes of the output, and how many bytes that is.
pub fn put_report(s: &[u8], out: &mut [u8]) -> usize
    ensures { printed result out.new ≡ printed_of s.now out.old }
{
    let mut rows = [0u16; body::ROWS];
    let mut cells = [0u16; body::CELLS];
    let mut nodes = [0u16; answers::NODES];
    let mut vars = [0u16; answers::VARS];
    let mut types = [0u16; answers::TYPES];
    let mut log = [0u16; 0];
    let mut memory = [0u16; answers::MEMORY];
    let r = report::report_tables(
        s,
        &mut rows,
        &mut cells,
        &mut nodes,
        &mut vars,
        &mut types,
        answers::ERRORS,
        &mut log,
        &mut memory,
        out,
    );
    put_answered(r, out)
}
