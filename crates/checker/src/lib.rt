// `check`: a file's bytes to the answer and the lent tables. It reads the file, types the body, and hands back declarations, nodes, variables,
// made types, errors and equations, used rows first and zeros behind; on a refusal every table is zero throughout.
#![tactic(auto)]

ghost use Rattle.std.specs.Prelude.{◌≡◌, []};
ghost use Rattle.body.specs.Body.{rows_length, cells_length};
ghost use Rattle.answers.specs.Lent.{lent, held};
ghost use Rattle.checker.specs.Check.{check_of};
ghost use Rattle.checker.specs.Parts.{WalkRead, WalkedIn, CellsWalked, FileWalked, TablesChecked, no_record, record_of, WalkChecked};

use answers::{Answer, Walked};
use body::Answer as Reading;
use errors::ErrorRow;
use record::Record;
use refs::Counts;
use type_table::TypeId;

// Types a body that was read, in the memory.
fn walk_read(rows: &[u16], cells: &[u16], n: Counts, memory: &mut [u16]) -> Walked
    ensures { WalkRead n rows.now cells.now memory.old result memory.new }
{
    match resolve::type_body(rows, cells, memory, n) {
        Ok(c) => Walked::Typed(n, c),
        Err(e) => Walked::Declined(u16::from(e.number), e.record, e.node),
    }
}

// Reads a file, in tables of declarations that have just their lengths, and types its body in the memory.
fn read_and_type(s: &[u8], rows: &mut [u16], cells: &mut [u16], memory: &mut [u16]) -> Walked
    ensures { WalkedIn s.now rows.old cells.old memory.old result rows.new cells.new memory.new }
{
    match body::read_body(s, rows, cells) {
        Reading::Body(n) => walk_read(rows, cells, n, memory),
        Reading::TooLong | Reading::ShortTable => Walked::Unread,
        Reading::Refused(f, l) => Walked::Refused(f, l),
    }
}

// The cells of the table of rows that a file is read into; as an answer, so that its proofs need not count to it.
fn rows_end() -> usize
    ensures { result ≡ rows_length }
{
    body::ROWS
}

// Those of the table of fields.
fn cells_end() -> usize
    ensures { result ≡ cells_length }
{
    body::CELLS
}

// The same in a table of fields of any length that is enough: zeros stand behind.
fn walk_cells(s: &[u8], rows: &mut [u16], cells: &mut [u16], memory: &mut [u16]) -> Walked
    ensures { CellsWalked s.now rows.old cells.old memory.old result rows.new cells.new memory.new }
{
    let b = cells_end();
    if cells.len() < b {
        return Walked::Unread;
    }
    tables::zero_from(cells, b);
    read_and_type(s, rows, &mut cells[..b], memory)
}

// The same in a table of rows of any such length.
fn walk_file(s: &[u8], rows: &mut [u16], cells: &mut [u16], memory: &mut [u16]) -> Walked
    ensures { FileWalked s.now rows.old cells.old memory.old result rows.new cells.new memory.new }
{
    let a = rows_end();
    if rows.len() < a {
        return Walked::Unread;
    }
    tables::zero_from(rows, a);
    walk_cells(s, &mut rows[..a], cells, memory)
}

// What a check came to: its answer, and the record with which the walk ended.
#[derive(Clone, Copy)]
pub struct Ended {
    pub answer: Answer,
    pub record: Record,
}

// The record of a file that has no walk.
fn no_record() -> Record
    ensures { result ≡ no_record }
{
    Record {
        counts: type_table::Counts {
            types: 0,
            vars: 0,
            inputs: 0,
        },
        errors: 0,
        equations: 0,
        output: TypeId(0),
    }
}

// The record with which a walk ended.
fn record_of(w: Walked) -> Record
    ensures { result ≡ record_of w }
{
    match w {
        Walked::Typed(_, c) | Walked::Declined(_, c, _) => c,
        Walked::Refused(..) | Walked::Unread => no_record(),
    }
}

// Checks a file but for its errors, for which so many rows are lent, and says with which record the walk ended. The memory is as the walk leaves it.
pub fn check_walk(
    s: &[u8],
    rows: &mut [u16],
    cells: &mut [u16],
    nodes: &mut [u16],
    vars: &mut [u16],
    types: &mut [u16],
    errors: usize,
    log: &mut [u16],
    memory: &mut [u16],
) -> Ended
    ensures { WalkChecked s.now errors (lent rows.old cells.old nodes.old vars.old types.old [] log.old memory.old) result (lent rows.new cells.new nodes.new vars.new types.new [] log.new memory.new) }
{
    let most = body::MOST_BYTES;
    if s.len() > most {
        return Ended {
            answer: Answer::TooLong,
            record: no_record(),
        };
    }
    if answers::too_short(rows, cells, nodes, vars, types, errors, memory) {
        return Ended {
            answer: Answer::ShortTable,
            record: no_record(),
        };
    }
    let w = walk_file(s, rows, cells, memory);
    Ended {
        answer: answers::hand_back(w, rows, cells, nodes, vars, types, log, memory),
        record: record_of(w),
    }
}

// The same without the record.
pub fn check_tables(
    s: &[u8],
    rows: &mut [u16],
    cells: &mut [u16],
    nodes: &mut [u16],
    vars: &mut [u16],
    types: &mut [u16],
    errors: usize,
    log: &mut [u16],
    memory: &mut [u16],
) -> Answer
    ensures { TablesChecked s.now errors (lent rows.old cells.old nodes.old vars.old types.old [] log.old memory.old) result (lent rows.new cells.new nodes.new vars.new types.new [] log.new memory.new) }
{
    check_walk(s, rows, cells, nodes, vars, types, errors, log, memory).answer
}

// Checks a file.
pub fn check(
    s: &[u8],
    rows: &mut [u16],
    cells: &mut [u16],
    nodes: &mut [u16],
    vars: &mut [u16],
    types: &mut [u16],
    errors: &mut [ErrorRow],
    log: &mut [u16],
    memory: &mut [u16],
) -> Answer
    ensures { held result (lent rows.new cells.new nodes.new vars.new types.new errors.new log.new memory.new) ≡ check_of s.now (lent rows.old cells.old nodes.old vars.old types.old errors.old log.old memory.old) }
{
    let room = errors.len();
    let a = check_tables(s, rows, cells, nodes, vars, types, room, log, memory);
    answers::hand_errors(errors, memory, a);
    a
}
