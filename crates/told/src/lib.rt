// What is told of an answer in numbers, for programs that lend numbers alone: the answer's number, its place, the counts, and the bytes of the text.
#![tactic(auto)]

ghost use Rattle.std.specs.Prelude.{◌≡◌, ◌∷◌, [], ◌++◌, set};
ghost use Rattle.std.proofs.lemmas.List.Edits.{sets};
ghost use Rattle.answers.specs.Lent.{answer_number};
ghost use Rattle.report_text.specs.Written.{checked_answer, report_number};
ghost use Rattle.told.specs.Numbers.{no_totals, totals_of, total_numbers, told_numbers, own_numbers, text_length, number_told};

use answers::{Answer, Totals};
use refs::Counts;
use report_text::Reported;

// How many numbers are told.
pub const TOLD: usize = 14;

// The counts of a refusal.
fn no_totals() -> Totals
    ensures { result ≡ no_totals }
{
    Totals {
        declared: Counts {
            types: 0,
            defs: 0,
            insts: 0,
            binds: 0,
            nodes: 0,
            fields: 0,
        },
        types: 0,
        vars: 0,
        errors: 0,
        equations: 0,
    }
}

// The answer's number, whether it has a place, the place, the counts, and the bytes of the text.
fn numbers(k: usize, f: usize, p: usize, c: Totals, n: usize) -> [usize; TOLD]
    ensures { result ≡ k ∷ f ∷ p ∷ total_numbers c ++ n ∷ [] }
{
    [
        k,
        f,
        p,
        c.declared.types as usize,
        c.declared.defs as usize,
        c.declared.insts as usize,
        c.declared.binds as usize,
        c.declared.nodes as usize,
        c.declared.fields as usize,
        c.types as usize,
        c.vars as usize,
        c.errors as usize,
        c.equations as usize,
        n,
    ]
}

// The numbers of an answer with a text of n bytes.
fn told_numbers(a: Answer, n: usize) -> [usize; TOLD]
    ensures { result ≡ told_numbers a n }
{
    let z = no_totals();
    match a {
        Answer::Checked(c) => numbers(0, 0, 0, c, n),
        Answer::TooLong => numbers(1, 0, 0, z, n),
        Answer::ShortTable => numbers(2, 0, 0, z, n),
        Answer::Refused(f, l) => numbers(body::fault_number(f), 1, l, z, n),
        Answer::Declined(k, p) => numbers(k as usize, 1, p.0 as usize, z, n),
    }
}

// The counts of an answer.
fn totals_of(a: Answer) -> Totals
    ensures { result ≡ totals_of a }
{
    match a {
        Answer::Checked(c) => c,
        _ => no_totals(),
    }
}

// Writes the number i. Without room nothing changes.
fn put(t: &mut [usize], i: usize, x: usize)
    ensures { t.new ≡ set t.old i x }
{
    if i < t.len() {
        t[i] = x;
    }
}

// Writes all numbers, as many as have room.
fn put_all(t: &mut [usize], xs: [usize; TOLD])
    ensures { t.new ≡ sets t.old 0 xs }
{
    for i in 0..TOLD {
        put(t, i, xs[i]);
    }
}

// Tells the numbers of an answer with a text of n bytes; answers document 01's number.
pub fn tell(t: &mut [usize], a: Answer, n: usize) -> usize
    ensures { number_told result t.new ≡ number_told (answer_number a) (sets t.old 0 (told_numbers a n)) }
{
    let xs = told_numbers(a, n);
    put_all(t, xs);
    xs[0]
}

// Tells the number k of a tool's own, without a place, and the counts of Check's answer, with a text of n bytes; answers k.
pub fn tell_own(t: &mut [usize], k: usize, a: Answer, n: usize) -> usize
    ensures { number_told result t.new ≡ number_told k (sets t.old 0 (own_numbers k a n)) }
{
    let xs = numbers(k, 0, 0, totals_of(a), n);
    put_all(t, xs);
    k
}

// Tells the numbers of a report; answers document 01's number.
pub fn tell_report(t: &mut [usize], r: Reported) -> usize
    ensures { number_told result t.new ≡ number_told (report_number r) (sets t.old 0 (told_numbers (checked_answer r) (text_length r))) }
{
    match r {
        Reported::Written(a, n) => tell(t, a, n),
        Reported::NoRoom(a) => {
            tell(t, a, 0);
            9
        }
    }
}
