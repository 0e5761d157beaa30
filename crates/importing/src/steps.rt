// One byte of a register's text: the state before it in, the state after it out.
#![tactic(auto, unfolding(crate::specs::Steps::with_letter, crate::specs::Steps::place_next, crate::specs::Steps::state_next))]

ghost use Rattle.std.specs.Prelude.{◌≡◌};
ghost use Rattle.importing.specs.Steps.{begun, with_letter, word, mark_next, moved, pushed, place_next, ended, acted, state_next};
ghost use Rattle.register.specs.declared.Act.TheVariants.{Add};
ghost use Rattle.register.specs.Lexer.{adding};

use crate::stands;
use digits::WRONG;
use register::{Act, Mode, Stage};

// The marks of the last five fields, in their order: of a header's field how many letters of its word it has, of another's what `digits` says.
#[derive(Clone, Copy)]
pub struct Marks {
    pub a: u64,
    pub b: u64,
    pub c: u64,
    pub d: u64,
    pub e: u64,
}

// Where the next byte stands, which record and which field it is of, and the mark of that field so far; the marks of the fields before it; and of the records that stand the start stamp, how many posts and how many events.
#[derive(Clone, Copy)]
pub struct State {
    pub mode: Mode,
    pub stage: Stage,
    pub place: u32,
    pub mark: u64,
    pub marks: Marks,
    pub stamp: u32,
    pub posts: u32,
    pub events: u64,
}

// Nothing read.
pub fn begin() -> State
    ensures { result ≡ begun }
{
    State {
        mode: Mode::Start,
        stage: Stage::AtHeader,
        place: 0,
        mark: 0,
        marks: Marks {
            a: 0,
            b: 0,
            c: 0,
            d: 0,
            e: 0,
        },
        stamp: 0,
        posts: 0,
        events: 0,
    }
}

// A word's mark after one byte more: how many of its letters there are.
fn with_letter(w: &[u8], m: u64, b: u8) -> u64
    ensures { result ≡ with_letter w.now m b }
{
    let at = m as usize;
    if at < w.len() && w[at] == b {
        m + 1
    } else {
        WRONG
    }
}

// The header's word at this place.
fn with_header(place: u32, m: u64, b: u8) -> u64
    ensures { result ≡ with_letter (word place) m b }
{
    match place {
        0 => with_letter(b"position", m, b),
        1 => with_letter(b"event", m, b),
        2 => with_letter(b"post", m, b),
        3 => with_letter(b"stamp", m, b),
        4 => with_letter(b"answer", m, b),
        _ => WRONG,
    }
}

// A field's mark after one byte more.
fn mark_next(stage: Stage, place: u32, m: u64, b: u8) -> u64
    ensures { result ≡ mark_next stage place m b }
{
    match stage {
        Stage::AtHeader => with_header(place, m, b),
        _ => digits::with_digit(m, b),
    }
}

// In quotes or not, where a byte was added.
fn mode_of(m: Mode) -> Mode
    ensures { result ≡ adding m }
{
    match m {
        Mode::Inside => Mode::Inside,
        _ => Mode::Plain,
    }
}

// The same records stand, and the next byte stands elsewhere.
pub fn move_to(s: State, mode: Mode, place: u32, mark: u64, marks: Marks) -> State
    ensures { result ≡ moved s mode place mark marks }
{
    State {
        mode,
        place,
        mark,
        marks,
        ..s
    }
}

// The last of five marks.
fn push(k: Marks, m: u64) -> Marks
    ensures { result ≡ pushed k m }
{
    Marks {
        a: k.b,
        b: k.c,
        c: k.d,
        d: k.e,
        e: m,
    }
}

// A sixth field is one too many; those after it are not counted.
fn place_next(p: u32) -> u32
    ensures { result ≡ place_next p }
{
    if p < 6 { p + 1 } else { p }
}

// A byte of a field.
fn add(s: State, b: u8) -> State
    ensures { result ≡ acted Add s b }
{
    State {
        mode: mode_of(s.mode),
        mark: mark_next(s.stage, s.place, s.mark, b),
        ..s
    }
}

// A field has ended, and this is the mode after it.
fn end_field(s: State, mode: Mode) -> State
    ensures { result ≡ ended mode s }
{
    move_to(s, mode, place_next(s.place), 0, push(s.marks, s.mark))
}

// One byte.
pub fn step(s: State, b: u8) -> State
    ensures { result ≡ state_next s b }
{
    match register::action_of(s.mode, register::class_of(b)) {
        Act::Open => State {
            mode: Mode::Inside,
            mark: 0,
            ..s
        },
        Act::Add => add(s, b),
        Act::Close => State {
            mode: Mode::Closing,
            ..s
        },
        Act::EndField => end_field(s, Mode::Start),
        Act::EndLine => end_field(s, Mode::AtCr),
        Act::EndRecord => stands::end_record(s),
        Act::Break => stands::stop(s),
    }
}
