// The answer of a check and the tables that it hands back: what is lent, and how answer and tables follow from what reading and typing a file gave.
#![tactic(auto)]

ghost use Rattle.std.specs.Prelude.{◌≡◌, ◌+◌, ◌-◌, ◌≤◌, []};
ghost use Rattle.answers.specs.Lent.{lent, emptied, errors_used, errors_end, memory_ended};
ghost use Rattle.answers.specs.Lengths.{too_few};
ghost use Rattle.answers.specs.Parts.{counted, Filled, HandedBack, HandsErrors};

use errors::ErrorRow;
use forms::Fault;
use record::Record;
use refs::Counts;
use type_table::NodeId;

// The lengths of the lent tables: 1,024 nodes and 1,024 variables of six cells, 4,096 made types of five and 1,024 inputs, 4,096 errors of a row each.
pub const NODES: usize = 6144;

pub const VARS: usize = 6144;

pub const TYPES: usize = 21504;

pub const ERRORS: usize = 4096;

// The memory of the walk, with room for the 2,048 equations that a body can raise.
pub const MEMORY: usize = 86946;

// How many rows of each table are in use.
#[derive(Clone, Copy)]
pub struct Totals {
    pub declared: Counts,
    pub types: u16,
    pub vars: u16,
    pub errors: u16,
    pub equations: u16,
}

// Document 01's answers: 0; 1; 2; 3 to 6 with the line; 10 to 13 with the node whose rule ran.
#[derive(Clone, Copy)]
pub enum Answer {
    Checked(Totals),
    TooLong,
    ShortTable,
    Refused(Fault, usize),
    Declined(u16, NodeId),
}

// What reading and typing a file gives.
#[derive(Clone, Copy)]
pub enum Walked {
    // The memory holds the state in which the rules end.
    Typed(Counts, Record),
    // The rules refuse; the memory holds the state in which they do.
    Declined(u16, Record, NodeId),
    // The reader refuses.
    Refused(Fault, usize),
    // Not met: 1 and 2 are judged before.
    Unread,
}

// ── lengths ──

// Some lent table is below its length, the errors by the number of their rows.
#[tactic(auto, unfolding(crate::specs::Lengths::too_few))]
pub fn too_short(
    rows: &[u16],
    cells: &[u16],
    nodes: &[u16],
    vars: &[u16],
    types: &[u16],
    errors: usize,
    memory: &[u16],
) -> bool
    ensures { result ≡ too_few rows.now cells.now nodes.now vars.now types.now errors memory.now }
{
    rows.len() < body::ROWS
        || cells.len() < body::CELLS
        || memory.len() < MEMORY
        || nodes.len() < NODES
        || vars.len() < VARS
        || types.len() < TYPES
        || errors < ERRORS
}

// ── tables ──

// The made types of t types, d of which are of the file.
fn made(t: u16, d: u16) -> u16
    ensures { result ≡ t - (14 + d) }
{
    t.saturating_sub(14).saturating_sub(d)
}

// The first made type, behind the fixed types and d of the file.
fn first_made(d: u16) -> u16
    ensures { d ≤ 512 → result ≡ 14 + d }
{
    if d <= 512 { 14 + d } else { 0 }
}

// How many rows are in use.
fn count(n: Counts, c: Record) -> Totals
    ensures { result ≡ counted n c }
{
    Totals {
        declared: n,
        types: made(c.counts.types, n.types),
        vars: c.counts.vars,
        errors: c.errors,
        equations: c.equations,
    }
}

// The tables of a body that was typed, from the memory.
fn fill(
    m: &[u16],
    c: Record,
    n: Counts,
    nodes: &mut [u16],
    vars: &mut [u16],
    types: &mut [u16],
    log: &mut [u16],
)
    ensures { Filled m.now c n nodes.old vars.old types.old log.old nodes.new vars.new types.new log.new }
{
    tables::fill_nodes(m, c, n.nodes, nodes);
    tables::fill_vars(m, c, vars);
    tables::fill_types(m, c, first_made(n.types), types);
    tables::fill_log(m, c, log);
}

// Every table but the errors and the memory zero throughout.
fn clear(
    rows: &mut [u16],
    cells: &mut [u16],
    nodes: &mut [u16],
    vars: &mut [u16],
    types: &mut [u16],
    log: &mut [u16],
)
    ensures { (lent rows.new cells.new nodes.new vars.new types.new [] log.new []) ≡ emptied (lent rows.old cells.old nodes.old vars.old types.old [] log.old []) }
{
    table_cells::clear(rows);
    table_cells::clear(cells);
    table_cells::clear(nodes);
    table_cells::clear(vars);
    table_cells::clear(types);
    table_cells::clear(log);
}

// The tables but the errors, and the answer, by what reading and typing gave. The memory is as it was: the errors are handed back from it.
pub fn hand_back(
    w: Walked,
    rows: &mut [u16],
    cells: &mut [u16],
    nodes: &mut [u16],
    vars: &mut [u16],
    types: &mut [u16],
    log: &mut [u16],
    memory: &[u16],
) -> Answer
    ensures { HandedBack w (lent rows.old cells.old nodes.old vars.old types.old [] log.old memory.now) result (lent rows.new cells.new nodes.new vars.new types.new [] log.new memory.now) }
{
    match w {
        Walked::Typed(n, c) => {
            fill(memory, c, n, nodes, vars, types, log);
            Answer::Checked(count(n, c))
        }
        Walked::Declined(k, _, p) => {
            clear(rows, cells, nodes, vars, types, log);
            Answer::Declined(k, p)
        }
        Walked::Refused(f, l) => {
            clear(rows, cells, nodes, vars, types, log);
            Answer::Refused(f, l)
        }
        Walked::Unread => Answer::ShortTable,
    }
}

// ── the errors and the memory ──

// How many error rows are in use.
pub fn errors_used(a: Answer) -> u16
    ensures { result ≡ errors_used a }
{
    match a {
        Answer::Checked(t) => t.errors,
        Answer::TooLong | Answer::ShortTable | Answer::Refused(_, _) | Answer::Declined(_, _) => 0,
    }
}

// How many rows of a table of n rows are written: none on 1 and 2.
pub fn errors_end(a: Answer, n: usize) -> usize
    ensures { result ≡ errors_end a n }
{
    match a {
        Answer::Checked(_) | Answer::Refused(_, _) | Answer::Declined(_, _) => n,
        Answer::TooLong | Answer::ShortTable => 0,
    }
}

// The memory at the end of a check: zero throughout, but on 1 and 2.
pub fn end_memory(memory: &mut [u16], a: Answer)
    ensures { memory.new ≡ memory_ended a memory.old }
{
    match a {
        Answer::Checked(_) | Answer::Refused(_, _) | Answer::Declined(_, _) => {
            table_cells::clear(memory)
        }
        Answer::TooLong | Answer::ShortTable => {}
    }
}

// Hands the errors back from the memory of the walk, and ends the memory.
pub fn hand_errors(errors: &mut [ErrorRow], memory: &mut [u16], a: Answer)
    ensures { HandsErrors a errors.old memory.old errors.new memory.new }
{
    let n = errors_used(a);
    let end = errors_end(a, errors.len());
    errors::fill_errors(errors, memory, n, end);
    end_memory(memory, a);
}
