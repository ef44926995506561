// What is told of `quarrel`'s answer in numbers, and what is sought by numbers, for programs in C and Rust.
#![tactic(auto)]

ghost use Rattle.std.specs.Prelude.{◌≡◌};
ghost use Rattle.std.proofs.lemmas.List.Edits.{sets};
ghost use Rattle.told.specs.Numbers.{number_told};
ghost use Rattle.conflict_check.specs.Quarrel.{quarrel_number};
ghost use Rattle.conflict_told.specs.Numbers.{lines_of, quarrel_numbers};
ghost use Rattle.conflict_set.specs.declared.Sought.TheVariants.{Minimal, Shortest};

use conflict_check::Quarreled;
use conflict_set::{Lines, Sought};

// 0 for lines with the number alone, any other number for those with the place.
fn lines_of(n: usize) -> Lines
    ensures { result ≡ lines_of n }
{
    if n == 0 {
        return Lines::Numbers;
    }
    Lines::Places
}

// The minimal conflict, with such lines.
pub fn minimal(places: usize) -> Sought
    ensures { result ≡ Minimal (lines_of places) }
{
    Sought::Minimal(lines_of(places))
}

// A shortest one, with such lines and so many subsets that may be tested.
pub fn shortest(places: usize, number: u64) -> Sought
    ensures { result ≡ Shortest (lines_of places) number }
{
    Sought::Shortest(lines_of(places), number)
}

// Tells the numbers of an answer; answers the papers' number.
pub fn tell_quarrel(t: &mut [usize], r: Quarreled) -> usize
    ensures { number_told result t.new ≡ number_told (quarrel_number r) (sets t.old 0 (quarrel_numbers r)) }
{
    match r {
        Quarreled::Refused(a) => told::tell(t, a, 0),
        Quarreled::Written(a, n) => told::tell_own(t, 0, a, n),
        Quarreled::Nothing(a) => told::tell_own(t, 14, a, 0),
        Quarreled::NoRoom(a) => told::tell_own(t, 9, a, 0),
    }
}
