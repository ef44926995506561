// `quarrel`: checks a file, and writes the minimal conflict among its equations (document 02 f), or a shortest one (document 02 n), into a lent
// output.
#![tactic(auto)]

ghost use Rattle.std.specs.Prelude.{◌≡◌, []};
ghost use Rattle.answers.specs.Lent.{lent};
ghost use Rattle.conflict_check.specs.Quarrel.{checked_answer, quarreled_by, told, quarrel_of};
ghost use Rattle.conflict_check.specs.Parts.{Refuses, Finds, ConflictAs, TablesQuarreled};

use answers::Answer;
use conflict_set::{Outcome, Sought};
use errors::ErrorRow;
use record::Record;

// What is answered, with Check's own answer.
#[derive(Clone, Copy)]
pub enum Quarreled {
    // Check's own refusal, 12 excepted.
    Refused(Answer),
    // 0, and where the text ends. Check's answer is 0 or 12.
    Written(Answer, usize),
    // 14: no equation failed, or a side is not plain.
    Nothing(Answer),
    // 9
    NoRoom(Answer),
}

// Check's answer.
pub fn checked_answer(r: Quarreled) -> Answer
    ensures { result ≡ checked_answer r }
{
    match r {
        Quarreled::Refused(a) => a,
        Quarreled::Written(a, n) => a,
        Quarreled::Nothing(a) => a,
        Quarreled::NoRoom(a) => a,
    }
}

// The answer behind Check's, by what came of the equations.
fn with_answer(a: Answer, o: Outcome) -> Quarreled
    ensures { result ≡ quarreled_by a o }
{
    match o {
        Outcome::Written(n) => Quarreled::Written(a, n),
        Outcome::Nothing => Quarreled::Nothing(a),
        Outcome::NoRoom => Quarreled::NoRoom(a),
    }
}

// Check's own refusal: zeros throughout.
fn refuse(a: Answer, out: &mut [u8]) -> Quarreled
    ensures { Refuses a out.old result out.new }
{
    conflict_set::nothing(out);
    Quarreled::Refused(a)
}

// Over the memory of a walk.
fn find(a: Answer, c: Record, m: &mut [u16], q: Sought, out: &mut [u8]) -> Quarreled
    ensures { Finds a c q m.old out.old m.new result out.new }
{
    let o = conflict_set::conflict_in(m, c, q, out);
    with_answer(a, o)
}

// By Check's answer: on 0 and 12 over the memory of the walk.
fn conflict_by(a: Answer, c: Record, m: &mut [u16], q: Sought, out: &mut [u8]) -> Quarreled
    ensures { ConflictAs a c q m.old out.old m.new result out.new }
{
    match a {
        Answer::Checked(t) => find(a, c, m, q, out),
        Answer::TooLong => refuse(a, out),
        Answer::ShortTable => refuse(a, out),
        Answer::Refused(f, i) => refuse(a, out),
        Answer::Declined(k, p) => {
            if k == 12 {
                return find(a, c, m, q, out);
            }
            refuse(a, out)
        }
    }
}

// Checks a file and writes what is sought among its equations, but hands no errors back; so many rows are lent for them. The memory holds the
// errors of the walk.
pub fn quarrel_tables(
    s: &[u8],
    rows: &mut [u16],
    cells: &mut [u16],
    nodes: &mut [u16],
    vars: &mut [u16],
    types: &mut [u16],
    errors: usize,
    log: &mut [u16],
    memory: &mut [u16],
    out: &mut [u8],
    q: Sought,
) -> Quarreled
    ensures { TablesQuarreled s.now errors q (lent rows.old cells.old nodes.old vars.old types.old [] log.old memory.old) out.old result (lent rows.new cells.new nodes.new vars.new types.new [] log.new memory.new) out.new }
{
    let e = checker::check_walk(s, rows, cells, nodes, vars, types, errors, log, memory);
    let a = e.answer;
    let c = e.record;
    conflict_by(a, c, memory, q, out)
}

// Checks a file, and writes what is sought among its equations.
pub fn quarrel(
    s: &[u8],
    rows: &mut [u16],
    cells: &mut [u16],
    nodes: &mut [u16],
    vars: &mut [u16],
    types: &mut [u16],
    errors: &mut [ErrorRow],
    log: &mut [u16],
    memory: &mut [u16],
    out: &mut [u8],
    q: Sought,
) -> Quarreled
    ensures { told result (lent rows.new cells.new nodes.new vars.new types.new errors.new log.new memory.new) out.new ≡ quarrel_of s.now q (lent rows.old cells.old nodes.old vars.old types.old errors.old log.old memory.old) out.old }
{
    let room = errors.len();
    let r = quarrel_tables(
        s, rows, cells, nodes, vars, types, room, log, memory, out, q,
    );
    let a = checked_answer(r);
    answers::hand_errors(errors, memory, a);
    r
}
