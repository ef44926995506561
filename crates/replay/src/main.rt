// Replays the recorded samples of standard input through `report`, prints what is wrong in each that does not agree, and last how many
// agree. The comment lines at the top of `stdin` say how a sample is written. The input may have any length. Before each body every
// cell of every table and every byte of the output is 7.
#![tactic(auto)]

use sample_input::{Cut, Part, Sample};
use samples::Tables;

// A body on these tables and this output.
fn run_report(
    rt: &impl Print,
    name: &[u8],
    s: &[u8],
    e: &[u8],
    rows: &mut [u16],
    cells: &mut [u16],
    nodes: &mut [u16],
    vars: &mut [u16],
    types: &mut [u16],
    errors: &mut [u16],
    log: &mut [u16],
    memory: &mut [u16],
    out: &mut [u8],
) -> bool {
    let r = flat_report::report_flat(s, rows, cells, nodes, vars, types, errors, log, memory, out);
    let tables = Tables {
        rows,
        cells,
        nodes,
        vars,
        types,
        errors,
        log,
        memory,
    };
    samples::agree(rt, name, s, e, r, &tables, out)
}

// A body on tables and an output that are lent as its name says.
fn run_tables(rt: &impl Print, name: &[u8], s: &[u8], e: &[u8]) -> bool {
    let lent = samples::lengths_of(name);
    let mut rows = [samples::BEFORE; samples::ROWS];
    let mut cells = [samples::BEFORE; samples::CELLS];
    let mut nodes = [samples::BEFORE; samples::NODES];
    let mut vars = [samples::BEFORE; samples::VARS];
    let mut types = [samples::BEFORE; samples::TYPES];
    let mut errors = [samples::BEFORE; samples::ERRORS];
    let mut log = [samples::BEFORE; samples::LOG];
    let mut memory = [samples::BEFORE; samples::MEMORY];
    let mut out = [samples::BYTE_BEFORE; samples::LONGEST];
    run_report(
        rt,
        name,
        s,
        e,
        &mut rows[..lent.rows],
        &mut cells[..lent.cells],
        &mut nodes[..lent.nodes],
        &mut vars[..lent.vars],
        &mut types[..lent.types],
        &mut errors[..lent.errors],
        &mut log[..lent.log],
        &mut memory[..lent.memory],
        &mut out[..lent.out],
    )
}

// A sample by its two lines.
fn run_lines(rt: &impl Print, s: &[u8], e: &[u8]) -> bool {
    let mut room = [0u8; body_text::ROOM];
    let k = body_text::find(s, 0, b' ');
    let n = body_text::expand_line(&mut room, s, k);
    n <= body_text::ROOM && run_tables(rt, &s[..k], &room[..n], e)
}

// A sample by its bytes.
fn run_sample(rt: &impl Print, s: &[u8], cut: Cut) -> bool {
    cut.bytes <= s.len()
        && cut.first < cut.bytes
        && run_lines(rt, &s[..cut.first], &s[cut.first + 1..cut.bytes])
}

// How many samples of the input agree. Nothing says that it ends, so they are counted, up to a number that no run uses up.
fn run(rt: &(impl Input + Print), part: &mut Part, sample: &mut Sample) -> u64 {
    let mut agree = 0;
    let mut place = sample_input::start();
    for _ in 0..u64::MAX {
        let Some(cut) = sample_input::next_sample(rt, part, sample, place) else {
            break;
        };
        agree = sample_input::counted(agree, run_sample(rt, sample, cut));
        place = cut.place;
    }
    agree
}

// The samples of standard input.
fn main(rt: HostRuntime) {
    let mut part = [0u8; sample_input::PART];
    let mut sample = [0u8; sample_input::SAMPLE];
    let n = run(&rt, &mut part, &mut sample);
    sample_input::put_count(&rt, b"agree", n);
}
