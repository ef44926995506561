// Reads a line's value by a table of forms: `form_at` has the kinds of each form's fields, and one loop reads every form.
#![tactic(auto)]

ghost use Rattle.std.specs.Prelude.{◌≡◌, ◌+◌, ◌≤◌, ◌<◌, length, take, drop};
ghost use Rattle.lex.specs.Text.{number_of, before, fields_from};
ghost use Rattle.forms.specs.Form.{forms as forms·T, key_type, key_node, key_of, form_at, kind_at, read_of, optional_of, binary_of, unary_of, resolution_of, pair_of, behind_of, store, field_at, end_in, cells_from, fill, outcome, letter_of, tag_of, tagged_of, count_of, start_of, shown, lay, line_of, count_in, width_of};
ghost use Rattle.forms.specs.Words.{key_numbered, index_numbered};

// The keys, in the order in which they come. NO_KEY is any other word.
pub const KEY_TYPE: u8 = 0;

pub const KEY_DEF: u8 = 1;

pub const KEY_INST: u8 = 2;

pub const KEY_BIND: u8 = 3;

pub const KEY_NODE: u8 = 4;

pub const KEY_FN: u8 = 5;

pub const NO_KEY: u8 = 6;

// The kinds of a field. A kind's sixteens say how the field is written: 1 a number, 2 a number or `-`, 3 NAME:NUMBER, 4 and 5 the
// letter of an operator, 6 RES, 7 NAME:RES.
pub const NOTHING: u8 = 0;

pub const FREE: u8 = 16;

pub const LOW_TYPE: u8 = 17;

pub const TYPE: u8 = 18;

pub const DEF_AHEAD: u8 = 19;

pub const INST_AHEAD: u8 = 20;

pub const EXPR: u8 = 21;

pub const BLOCK: u8 = 22;

pub const STMT: u8 = 23;

pub const PARAM: u8 = 24;

pub const BODY: u8 = 25;

pub const TYPED_PARAM: u8 = 26;

pub const OPT_TYPE: u8 = 32;

pub const OPT_EXPR: u8 = 33;

pub const NAMED_TYPE: u8 = 48;

pub const NAMED_DEF: u8 = 49;

pub const BIN_OP: u8 = 64;

pub const UN_OP: u8 = 80;

pub const RESOLUTION: u8 = 96;

pub const SEGMENT: u8 = 112;

// The kinds of a form's first three fields and of every further one, and the least and the greatest number of fields.
#[derive(Clone, Copy)]
pub struct Form(pub u8, pub u8, pub u8, pub u8, pub usize, pub usize);

// The numbers of the forms, as far as other crates look for them; those of nodes go from FORM_BOOL to FORM_PATH.
pub const FORM_ARRAY: u16 = 0;

pub const FORM_FUN: u16 = 1;

pub const FORM_INST: u16 = 2;

pub const FORM_FN: u16 = 3;

pub const FORM_BOOL: u16 = 7;

pub const FORM_INT: u16 = 8;

pub const FORM_FLOAT: u16 = 9;

pub const FORM_STR: u16 = 10;

pub const FORM_BIN: u16 = 11;

pub const FORM_UN: u16 = 12;

pub const FORM_FIELD: u16 = 13;

pub const FORM_LIST: u16 = 14;

pub const FORM_INDEX: u16 = 15;

pub const FORM_ASSIGN: u16 = 16;

pub const FORM_OPASSIGN: u16 = 17;

pub const FORM_IF: u16 = 18;

pub const FORM_LOOP: u16 = 19;

pub const FORM_BREAK: u16 = 20;

pub const FORM_CALL: u16 = 21;

pub const FORM_MCALL: u16 = 22;

pub const FORM_RETURN: u16 = 23;

pub const FORM_BLOCK: u16 = 24;

pub const FORM_LET: u16 = 25;

pub const FORM_PARAM: u16 = 26;

pub const FORM_LAMBDA: u16 = 27;

pub const FORM_PATH: u16 = 28;

// How many there are.
pub const MOST_FORMS: usize = 30;

// The most bytes of a value, as many as of a file.
const MOST_VALUE: usize = 65536;

// What a field holds: a name; a tag, which is 0 for `-`, 1 for a number and 1 to 6 for l f c i e o; and a value.
#[derive(Clone, Copy)]
pub struct Cell {
    pub name: u16,
    pub tag: u16,
    pub value: u16,
}

// What is wrong with a line, or with a file: answers 3 to 6.
#[derive(Clone, Copy)]
pub enum Fault {
    Form,
    Limit,
    Reference,
    Levels,
}

// The form of a `type` line by its word.
#[tactic(auto, unfolding(crate::specs::Form::forms, crate::specs::Words::index_numbered, crate::specs::Words::numbered, lex::specs::Text::pack_from, lex::specs::Text::letter))]
fn type_form(w: u64) -> usize
    ensures { result ≡ index_numbered key_type w forms·T }
{
    match w {
        0x6172726179 => 0, // array
        0x66756e => 1, // fun
        0x696e7374 => 2, // inst
        0x666e => 3, // fn
        _ => MOST_FORMS,
    }
}

// The form of a `node` line by its word.
#[tactic(auto, unfolding(crate::specs::Form::forms, crate::specs::Words::index_numbered, crate::specs::Words::numbered, lex::specs::Text::pack_from, lex::specs::Text::letter))]
fn node_form(w: u64) -> usize
    ensures { result ≡ index_numbered key_node w forms·T }
{
    match w {
        0x626f6f6c => 7, // bool
        0x696e74 => 8, // int
        0x666c6f6174 => 9, // float
        0x737472 => 10, // str
        0x62696e => 11, // bin
        0x756e => 12, // un
        0x6669656c64 => 13, // field
        0x6c697374 => 14, // list
        0x696e646578 => 15, // index
        0x61737369676e => 16, // assign
        0x6f7061737369676e => 17, // opassign
        0x6966 => 18, // if
        0x6c6f6f70 => 19, // loop
        0x627265616b => 20, // break
        0x63616c6c => 21, // call
        0x6d63616c6c => 22, // mcall
        0x72657475726e => 23, // return
        0x626c6f636b => 24, // block
        0x6c6574 => 25, // let
        0x706172616d => 26, // param
        0x6c616d626461 => 27, // lambda
        0x70617468 => 28, // path
        _ => MOST_FORMS,
    }
}

// The number of the form of a key and a word, MOST_FORMS where there is none.
#[tactic(auto, unfolding(crate::specs::Form::forms, crate::specs::Words::index_numbered, crate::specs::Words::numbered))]
fn form_index(k: u8, w: u64) -> usize
    ensures { result ≡ index_numbered k w forms·T }
{
    match k {
        KEY_TYPE => type_form(w),
        KEY_DEF => 4,
        KEY_INST => 5,
        KEY_BIND => 6,
        KEY_NODE => node_form(w),
        KEY_FN => 29,
        _ => MOST_FORMS,
    }
}

// The key that a word is.
#[tactic(auto, unfolding(crate::specs::Words::key_numbered, lex::specs::Text::pack_from, lex::specs::Text::letter))]
pub fn key_of(w: u64) -> u8
    ensures { result ≡ key_numbered w }
{
    match w {
        0x74797065 => KEY_TYPE,
        0x646566 => KEY_DEF,
        0x696e7374 => KEY_INST,
        0x62696e64 => KEY_BIND,
        0x6e6f6465 => KEY_NODE,
        0x666e => KEY_FN,
        _ => NO_KEY,
    }
}

// The key of a line, and where it ends.
#[derive(Clone, Copy)]
pub struct Key {
    pub number: u8,
    pub end: usize,
}

// The key of a line, by the word before its equals sign.
pub fn read_key(l: &[u8]) -> Key
    ensures within { result.end ≤ length l.now }
    ensures end_value { (result.end ≡ before 61 l.now) × (result.number ≡ key_of (take result.end l.now)) }
{
    // Nearly all lines are nodes: their key is told by five bytes, without a walk over the word, for speed.
    if let [b'n', b'o', b'd', b'e', b'=', ..] = l {
        return Key {
            number: KEY_NODE,
            end: 4,
        };
    }
    let end = lex::field_end(l, 0, b'=');
    Key {
        number: key_of(lex::pack(&l[..end])),
        end,
    }
}

// The kind of the field i of a form.
#[tactic(auto, unfolding(crate::specs::Form::kind_at))]
pub fn kind_at(f: Form, i: usize) -> u8
    ensures { result ≡ kind_at f i }
{
    match i {
        0 => f.0,
        1 => f.1,
        2 => f.2,
        _ => f.3,
    }
}

// The form of a number; of a number that is no form's, one with no fields.
#[tactic(auto, unfolding(crate::specs::Form::form_at, crate::specs::Form::forms))]
pub fn form_at(i: usize) -> Form
    ensures { result ≡ form_at i }
{
    match i {
        0 => Form(LOW_TYPE, NOTHING, NOTHING, NOTHING, 1, 1), // type=array,E
        1 => Form(FREE, LOW_TYPE, LOW_TYPE, LOW_TYPE, 2, 18), // type=fun,SPAN,OUT,IN..
        2 => Form(INST_AHEAD, NOTHING, NOTHING, NOTHING, 1, 1), // type=inst,K
        3 => Form(DEF_AHEAD, NOTHING, NOTHING, NOTHING, 1, 1), // type=fn,D
        4 => Form(TYPE, TYPE, TYPE, TYPE, 1, 17), // def=OUT,IN..
        5 => Form(NAMED_TYPE, NAMED_TYPE, NAMED_TYPE, NAMED_TYPE, 0, 64), // inst=NAME:TYPE,..
        6 => Form(TYPE, NAMED_DEF, NAMED_DEF, NAMED_DEF, 1, 65), // bind=TYPE,NAME:DEF,..
        7 => Form(NOTHING, NOTHING, NOTHING, NOTHING, 0, 0), // node=bool
        8 => Form(NOTHING, NOTHING, NOTHING, NOTHING, 0, 0), // node=int
        9 => Form(NOTHING, NOTHING, NOTHING, NOTHING, 0, 0), // node=float
        10 => Form(NOTHING, NOTHING, NOTHING, NOTHING, 0, 0), // node=str
        11 => Form(BIN_OP, EXPR, EXPR, NOTHING, 3, 3), // node=bin,OP,L,R
        12 => Form(UN_OP, EXPR, NOTHING, NOTHING, 2, 2), // node=un,OP,E
        13 => Form(EXPR, FREE, NOTHING, NOTHING, 2, 2), // node=field,E,NAME
        14 => Form(EXPR, EXPR, EXPR, EXPR, 0, 64), // node=list,E..
        15 => Form(EXPR, EXPR, NOTHING, NOTHING, 2, 2), // node=index,THING,I
        16 => Form(EXPR, EXPR, NOTHING, NOTHING, 2, 2), // node=assign,V,E
        17 => Form(EXPR, EXPR, NOTHING, NOTHING, 2, 2), // node=opassign,V,E
        18 => Form(EXPR, BLOCK, OPT_EXPR, NOTHING, 3, 3), // node=if,C,BLOCK,E|-
        19 => Form(BLOCK, NOTHING, NOTHING, NOTHING, 1, 1), // node=loop,BLOCK
        20 => Form(NOTHING, NOTHING, NOTHING, NOTHING, 0, 0), // node=break
        21 => Form(EXPR, EXPR, EXPR, EXPR, 1, 65), // node=call,F,A..
        22 => Form(EXPR, FREE, EXPR, EXPR, 2, 66), // node=mcall,R,NAME,A..
        23 => Form(OPT_EXPR, NOTHING, NOTHING, NOTHING, 1, 1), // node=return,E|-
        24 => Form(OPT_EXPR, STMT, STMT, STMT, 1, 65), // node=block,TAIL|-,S..
        25 => Form(OPT_TYPE, OPT_EXPR, NOTHING, NOTHING, 2, 2), // node=let,TYPE|-,E|-
        26 => Form(OPT_TYPE, NOTHING, NOTHING, NOTHING, 1, 1), // node=param,TYPE|-
        27 => Form(OPT_TYPE, EXPR, PARAM, PARAM, 2, 18), // node=lambda,OUT|-,BODY,P..
        28 => Form(RESOLUTION, FREE, SEGMENT, SEGMENT, 2, 66), // node=path,RES,RESOLVED,NAME:RES..
        29 => Form(TYPE, BODY, TYPED_PARAM, TYPED_PARAM, 2, 18), // fn=OUT,BODY,P..
        _ => Form(NOTHING, NOTHING, NOTHING, NOTHING, 0, 0),
    }
}

// The letter that a field is, 0 where it is no single letter.
#[tactic(auto, unfolding(crate::specs::Form::letter_of))]
fn letter_of(s: &[u8]) -> u8
    ensures { result ≡ letter_of s.now }
{
    match s {
        [x] => *x,
        _ => 0,
    }
}

// A cell without a name.
fn nameless(tag: u16, value: u16) -> Cell
    ensures { result ≡ Rattle.forms.specs.Form.cell 0 tag value }
{
    Cell {
        name: 0,
        tag,
        value,
    }
}

// A number, with the tag b.
fn valued(b: u16, s: &[u8]) -> Option<Cell>
    ensures { result ≡ Rattle.forms.specs.Form.valued b (number_of s.now) }
{
    let n = lex::number(s)?;
    Some(nameless(b, n))
}

// `-` or a number.
#[tactic(auto, unfolding(crate::specs::Form::optional_of))]
fn optional(s: &[u8]) -> Option<Cell>
    ensures { result ≡ optional_of (letter_of s.now) s.now }
{
    if letter_of(s) == b'-' {
        Some(nameless(0, 0))
    } else {
        valued(1, s)
    }
}

// The operator of `bin`.
#[tactic(auto, unfolding(crate::specs::Form::binary_of))]
fn binary(s: &[u8]) -> Option<Cell>
    ensures { result ≡ binary_of (letter_of s.now) }
{
    match letter_of(s) {
        b'b' => Some(nameless(1, 0)),
        b'c' => Some(nameless(1, 1)),
        b'a' => Some(nameless(1, 2)),
        _ => None,
    }
}

// The operator of `un`.
#[tactic(auto, unfolding(crate::specs::Form::unary_of))]
fn unary(s: &[u8]) -> Option<Cell>
    ensures { result ≡ unary_of (letter_of s.now) }
{
    match letter_of(s) {
        b'd' => Some(nameless(1, 0)),
        b'r' => Some(nameless(1, 1)),
        b'n' => Some(nameless(1, 2)),
        b't' => Some(nameless(1, 3)),
        _ => None,
    }
}

// The tag of a first letter: l f c i e o from 1, 0 of any other.
#[tactic(auto, unfolding(crate::specs::Form::tag_of))]
fn tag_of(x: u8) -> u16
    ensures { result ≡ tag_of x }
{
    match x {
        b'l' => 1,
        b'f' => 2,
        b'c' => 3,
        b'i' => 4,
        b'e' => 5,
        b'o' => 6,
        _ => 0,
    }
}

// RES, by the tag b of its first letter: a number behind it, or nothing.
#[tactic(auto, using(crate::proofs::Laws::tag_number), unfolding(crate::specs::Form::tagged_of))]
fn tagged(b: u16, s: &[u8]) -> Option<Cell>
    requires { 0 < length s.now }
    ensures { result ≡ tagged_of b s.now }
{
    match b {
        0 => None,
        1..=4 => valued(b, &s[1..]),
        _ if s.len() == 1 => Some(nameless(b, 0)),
        _ => None,
    }
}

// RES.
fn resolution(s: &[u8]) -> Option<Cell>
    ensures { result ≡ resolution_of s.now }
{
    if s.is_empty() {
        None
    } else {
        tagged(tag_of(s[0]), s)
    }
}

// What stands behind a name: RES where p, else a number.
fn behind(p: bool, s: &[u8]) -> Option<Cell>
    ensures { result ≡ behind_of p s.now }
{
    if p { resolution(s) } else { valued(1, s) }
}

// NAME:RES where p, else NAME:NUMBER.
fn pair(p: bool, s: &[u8]) -> Option<Cell>
    ensures { result ≡ pair_of p s.now }
{
    let e = lex::field_end(s, 0, b':');
    if e >= s.len() {
        return None;
    }
    let name = lex::number(&s[..e])?;
    let cell = behind(p, &s[e + 1..])?;
    Some(Cell { name, ..cell })
}

// What a field of a kind holds; None where it is not of its kind.
#[tactic(auto, unfolding(crate::specs::Form::read_as))]
fn read_as(k: u8, s: &[u8]) -> Option<Cell>
    ensures { result ≡ read_of k s.now }
{
    match k / 16 {
        1 => valued(1, s),
        2 => optional(s),
        3 => pair(false, s),
        4 => binary(s),
        5 => unary(s),
        6 => resolution(s),
        7 => pair(true, s),
        _ => None,
    }
}

// The field of the kind k that starts at p, with the place of its end: one pass over it where it is a number, or else its end first.
fn field(k: u8, v: &[u8], p: usize) -> Option<(Cell, usize)>
    requires { p ≤ length v.now }
    ensures within { (p ≤ end_in p result) × (end_in p result ≤ length v.now) }
    ensures value { result ≡ field_at k v.now p }
{
    if 16 <= k && k < 48 {
        if let Some((n, e)) = lex::scan(v, p) {
            return Some((nameless(1, n), e));
        }
    }
    let e = lex::field_end(v, p, b',');
    let cell = read_as(k, &v[p..e])?;
    Some((cell, e))
}

// A cell at its place of the table of fields, where it is in it.
fn put_cell(t: &mut [u16], j: usize, c: Cell)
    requires { j ≤ 16777216 }
    ensures { t.new ≡ store t.old j c }
{
    if j * 3 + 3 <= t.len() {
        t[j * 3] = c.name;
        t[j * 3 + 1] = c.tag;
        t[j * 3 + 2] = c.value;
    }
}

// Reads the fields from start on as those of the form f, and stores their cells from at on: their number, or None at the first that is
// not of its kind.
fn fields(v: &[u8], start: usize, f: Form, t: &mut [u16], at: usize) -> Option<usize>
    requires { (length v.now ≤ 65536) × (start ≤ length v.now + 1) × (at ≤ 65536) }
    ensures within { count_in result ≤ length v.now + 1 }
    ensures t_after { outcome result t.new ≡ fill 0 t.old at (cells_from f 0 (fields_from start v.now)) }
{
    let mut p = start;
    let mut i = 0;
    while p <= v.len() {
        let (cell, e) = field(kind_at(f, i), v, p)?;
        put_cell(t, at + i, cell);
        i += 1;
        p = e + 1;
    }
    Some(i)
}

// A line of the form f with n fields: the form's number and n, or the fault that n is.
#[tactic(auto, unfolding(crate::specs::Form::count_of))]
fn count_of(i: u8, f: Form, n: usize) -> Result<(u8, usize), Fault>
    ensures { result ≡ count_of i f n }
{
    if n < f.4 {
        Err(Fault::Form)
    } else if n > f.5 {
        Err(Fault::Limit)
    } else {
        Ok((i, n))
    }
}

// Where the fields of a value of n bytes begin: behind the word, which ends at e, or of a key with no words at the start, where there
// is any byte.
#[tactic(auto, unfolding(crate::specs::Form::start_of))]
fn start_of(k: u8, n: usize, e: usize) -> usize
    requires e_le_n { e ≤ n }
    requires n_bound { n ≤ 65536 }
    ensures value { result ≡ start_of k n e }
    ensures upper_bound { result ≤ n + 1 }
{
    match k {
        KEY_TYPE | KEY_NODE => e + 1,
        _ if n == 0 => 1,
        _ => 0,
    }
}

// Reads a line's value, of the key k, and stores its cells from at on, as far as they were read: the number of the form and of its
// fields. A value longer than any file is over a limit.
pub fn read_line(k: u8, v: &[u8], t: &mut [u16], at: u16) -> Result<(u8, usize), Fault>
    ensures within { width_of result ≤ length v.now + 1 }
    ensures t_after { shown result t.new ≡ lay (line_of k v.now) t.old at }
{
    if v.len() > MOST_VALUE {
        return Err(Fault::Limit);
    }
    let word = lex::word_to(v, b',');
    let i = form_index(k, word.number);
    if i >= MOST_FORMS {
        return Err(Fault::Form);
    }
    let f = form_at(i);
    match fields(v, start_of(k, v.len(), word.end), f, t, at as usize) {
        Some(n) => count_of(i as u8, f, n),
        None => Err(Fault::Form),
    }
}
