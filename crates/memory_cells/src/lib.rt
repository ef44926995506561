// The cells of the lent memory of types and variables: of a type row and of a variable, by their numbers. docs/TABLES.md has the regions.
#![tactic(auto)]

ghost use Rattle.std.specs.Prelude.{◌≡◌, ◌+◌, ◌*◌, set};
ghost use Rattle.memory_cells.specs.Cells.{cell, rows_at, row_written, var_written, binding_written};

// Where the type rows begin, behind the variables; both have five cells.
pub const ROWS_AT: usize = 5120;

// ── cells ──

// A cell: 0 past the end.
pub fn read(m: &[u16], i: usize) -> u16
    ensures { result ≡ cell m.now i }
{
    table_cells::read(m, i)
}

// A store: past the end it changes nothing.
pub fn write(m: &mut [u16], i: usize, v: u16)
    ensures { m.new ≡ set m.old i v }
{
    table_cells::write(m, i, v);
}

// ── type rows ──

// A cell of the row x.
pub fn row_cell(m: &[u16], x: u16, k: u16) -> u16
    ensures { result ≡ cell m.now (rows_at + x * 5 + k) }
{
    read(m, ROWS_AT + x as usize * 5 + k as usize)
}

// Writes the row x: head, number, output, first input and count.
pub fn write_row(m: &mut [u16], x: u16, h: u16, a: u16, o: u16, f: u16, k: u16)
    ensures { m.new ≡ row_written m.old x h a o f k }
{
    let at = ROWS_AT + x as usize * 5;
    write(m, at, h);
    write(m, at + 1, a);
    write(m, at + 2, o);
    write(m, at + 3, f);
    write(m, at + 4, k);
}

// ── variables ──

// A cell of the variable i.
pub fn var_cell(m: &[u16], i: u16, k: u16) -> u16
    ensures { result ≡ cell m.now (i * 5 + k) }
{
    read(m, i as usize * 5 + k as usize)
}

// Writes the variable i, open and unmarked.
pub fn write_var(m: &mut [u16], i: u16, k: u16, o: u16)
    ensures { m.new ≡ var_written m.old i k o }
{
    let at = i as usize * 5;
    write(m, at, k);
    write(m, at + 1, o);
    write(m, at + 2, 0);
    write(m, at + 3, 0);
    write(m, at + 4, 0);
}

// Writes the binding of the variable i.
pub fn write_binding(m: &mut [u16], i: u16, b: u16)
    ensures { m.new ≡ binding_written m.old i b }
{
    write(m, i as usize * 5 + 2, 1);
    write(m, i as usize * 5 + 3, b);
}
