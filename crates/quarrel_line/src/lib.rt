// What programs print of `quarrel`'s answer before its text: `answer=N,PLACE`.
#![tactic(auto)]

use answers::Answer;
use conflict_check::Quarreled;
use report_text::Reported;

// Room for an answer line.
pub const LINE: usize = 64;

// The line of Check's own refusal: its report, which reads no table.
fn refusal_line(line: &mut [u8], a: Answer) -> usize {
    match report_text::write_report(line, a, &[], &[], &[], &[]) {
        Reported::Written(_, n) => n,
        Reported::NoRoom(_) => 0,
    }
}

// The answer line, and how many bytes it has.
pub fn answer_line(line: &mut [u8], r: Quarreled) -> usize {
    match r {
        Quarreled::Refused(a) => refusal_line(line, a),
        Quarreled::Written(..) => output::put_all(line, 0, b"answer=0,-\n"),
        Quarreled::Nothing(_) => output::put_all(line, 0, b"answer=14,-\n"),
        Quarreled::NoRoom(_) => output::put_all(line, 0, b"answer=9,-\n"),
    }
}

// How many bytes of the output are text.
pub fn text_length(r: Quarreled) -> usize {
    match r {
        Quarreled::Written(_, n) => n,
        _ => 0,
    }
}
