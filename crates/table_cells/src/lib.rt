// The cells of a lent table: one, two in a row, and zeros. What lies past the end is 0, and a store there is left out.
#![tactic(auto)]

ghost use Rattle.std.specs.Prelude.{◌≡◌, ◌∷◌, [], ◌-◌, get_or, length, replicate, set};
ghost use Rattle.std.proofs.lemmas.List.Edits.{sets};
ghost use Rattle.table_cells.specs.Zeros.{zeros};

// A cell: 0 past the end.
pub fn read(t: &[u16], i: usize) -> u16
    ensures { result ≡ get_or t.now i 0 }
{
    t.get(i).copied().unwrap_or(0)
}

// A store: past the end it changes nothing.
pub fn write(t: &mut [u16], i: usize, x: u16)
    ensures { t.new ≡ set t.old i x }
{
    if i < t.len() {
        t[i] = x;
    }
}

// A store, by the name that it has beside `put_two`.
pub use self::write as put;

// Two cells from j on.
pub fn put_two(t: &mut [u16], j: u32, a: u16, b: u16)
    ensures { t.new ≡ sets t.old j (a ∷ b ∷ []) }
{
    let i = j as usize;
    write(t, i, a);
    write(t, i + 1, b);
}

// Zeros from the cell i to the cell e.
pub fn zero_cells(t: &mut [u16], i: usize, e: usize)
    ensures { t.new ≡ sets t.old i (replicate (e - i) 0) }
{
    let end = e.min(t.len());
    if i < end {
        t[i..end].fill(0);
    }
}

// Zeros throughout.
pub fn clear(t: &mut [u16])
    ensures { t.new ≡ zeros t.old }
{
    t.fill(0);
}
