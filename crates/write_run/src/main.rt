// Reads the body of each recorded sample of standard input and writes each that the reader accepts back from its two tables, into four
// rooms: one of the file's length, one three bytes longer, one a byte short, and one of no byte. In the first two the file has to stand
// byte for byte, and the three bytes behind it have to be as they were; the other two have to be told as full, and be zero throughout.
// Before each body every cell of both tables and every byte of every room is 7.
//
// The samples are those of `replay`, and the comment lines at the top of `stdin` say how one is written. Here its first line alone is
// read, and the two tables always have the length they have to have, whatever the name says. Of a sample in which something is wrong
// the name is printed, and what it is; and last a line each for how many samples there are, how many bodies the reader refuses, and
// for each of the four rooms in how many it is as it has to be.
#![tactic(auto)]

use body::Answer;
use refs::Counts;
use sample_input::{Part, Sample};

// What every cell of a table and every byte of a room is before a body.
const BEFORE: u16 = 7;

const BYTE_BEFORE: u8 = 7;

// By how many bytes the second room is longer than the file.
const SPARE: usize = 3;

// ── a room ──

// The file s stands in a room, and behind it every byte is as before.
fn holds(room: &[u8], e: Option<usize>, s: &[u8]) -> bool {
    e == Some(s.len())
        && room.starts_with(s)
        && sample_input::bytes_filled(room, s.len(), BYTE_BEFORE)
}

// A room is told as full, and zero throughout.
fn is_cleared(room: &[u8], e: Option<usize>) -> bool {
    e.is_none() && sample_input::bytes_filled(room, 0, 0)
}

// ── a body ──

// The length of the second room, that of a file being m.
fn longer(m: usize) -> usize {
    if m < body_text::ROOM { m + SPARE } else { m }
}

// Which of the four rooms are as they have to be.
#[derive(Clone, Copy)]
struct Rooms {
    exact: bool,
    spare: bool,
    short: bool,
    empty: bool,
}

// A file that the reader accepts, its two tables and their counts.
#[derive(Clone, Copy)]
struct File<'a> {
    bytes: &'a [u8],
    rows: &'a [u16],
    cells: &'a [u16],
    counts: Counts,
}

impl File<'_> {
    // It is written into a room of m bytes. Not copied into its caller, so that one room is on the stack at a time.
    #[inline(never)]
    fn has_room(&self, m: usize) -> bool {
        let mut all = [BYTE_BEFORE; body_text::ROOM];
        if m > body_text::ROOM {
            return false;
        }
        let room = &mut all[..m];
        let e = body_write::write_body(room, self.rows, self.cells, self.counts);
        holds(room, e, self.bytes)
    }

    // A room of m bytes is too short. Likewise.
    #[inline(never)]
    fn has_no_room(&self, m: usize) -> bool {
        let mut all = [BYTE_BEFORE; body_text::ROOM];
        if m > body_text::ROOM {
            return false;
        }
        let room = &mut all[..m];
        let e = body_write::write_body(room, self.rows, self.cells, self.counts);
        is_cleared(room, e)
    }

    // Through the four rooms.
    fn write_back(&self, rt: &impl Print, name: &[u8]) -> Rooms {
        let m = self.bytes.len();
        let exact = self.has_room(m);
        let spare = self.has_room(longer(m));
        let short = self.has_no_room(m.saturating_sub(1));
        let empty = self.has_no_room(0);
        Rooms {
            exact: sample_input::told(rt, name, b"a room of its length", exact),
            spare: sample_input::told(rt, name, b"a room three bytes longer", spare),
            short: sample_input::told(rt, name, b"a room one byte short", short),
            empty: sample_input::told(rt, name, b"an empty room", empty),
        }
    }
}

// A file, by its bytes: the four rooms, if the reader accepts it.
fn run_file(rt: &impl Print, name: &[u8], s: &[u8]) -> Option<Rooms> {
    let mut rows = [BEFORE; body::ROWS];
    let mut cells = [BEFORE; body::CELLS];
    match body::read_body(s, &mut rows, &mut cells) {
        Answer::Body(counts) => {
            let file = File {
                bytes: s,
                rows: &rows,
                cells: &cells,
                counts,
            };
            Some(file.write_back(rt, name))
        }
        _ => None,
    }
}

// The first line of a sample, which ends at k.
fn run_sample(rt: &impl Print, sample: &[u8], k: usize) -> Option<Rooms> {
    let line = sample.get(..k)?;
    let mut room = [0u8; body_text::ROOM];
    let e = body_text::find(line, 0, b' ');
    let n = body_text::expand_line(&mut room, line, e);
    run_file(rt, &line[..e], room.get(..n)?)
}

// ── totals ──

// How many samples there are, how many of their bodies the reader refuses, and in how many each of the four rooms is right.
#[derive(Clone, Copy, Default)]
struct Totals {
    samples: u64,
    refused: u64,
    exact: u64,
    spare: u64,
    short: u64,
    empty: u64,
}

impl Totals {
    // One sample more, with what came of its body.
    fn count(&mut self, written: Option<Rooms>) {
        self.samples = sample_input::counted(self.samples, true);
        match written {
            None => self.refused = sample_input::counted(self.refused, true),
            Some(rooms) => {
                self.exact = sample_input::counted(self.exact, rooms.exact);
                self.spare = sample_input::counted(self.spare, rooms.spare);
                self.short = sample_input::counted(self.short, rooms.short);
                self.empty = sample_input::counted(self.empty, rooms.empty);
            }
        }
    }
}

// The totals of the input. Nothing says that it ends, so its samples are counted, up to a number that no run uses up.
fn run(rt: &(impl Input + Print), part: &mut Part, sample: &mut Sample) -> Totals {
    let mut totals = Totals::default();
    let mut place = sample_input::start();
    for _ in 0..u64::MAX {
        let Some(cut) = sample_input::next_sample(rt, part, sample, place) else {
            break;
        };
        totals.count(run_sample(rt, sample, cut.first));
        place = cut.place;
    }
    totals
}

// The samples of standard input.
fn main(rt: HostRuntime) {
    let mut part = [0u8; sample_input::PART];
    let mut sample = [0u8; sample_input::SAMPLE];
    let t = run(&rt, &mut part, &mut sample);
    sample_input::put_count(&rt, b"samples", t.samples);
    sample_input::put_count(&rt, b"refused by the reader", t.refused);
    sample_input::put_count(&rt, b"written back", t.exact);
    sample_input::put_count(&rt, b"written back with room to spare", t.spare);
    sample_input::put_count(&rt, b"full and cleared, one byte short", t.short);
    sample_input::put_count(&rt, b"full, no byte of room", t.empty);
}
