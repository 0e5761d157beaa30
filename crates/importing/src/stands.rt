// Whether a record can stand, by the marks of its five fields, and what is known after it.
#![tactic(auto, unfolding(crate::specs::Steps::number_in, crate::specs::Steps::is_below, crate::specs::Steps::header_stands, crate::specs::Steps::start_stands, crate::specs::Steps::kind_stands, crate::specs::Steps::event_stands, crate::specs::Steps::after_header, crate::specs::Steps::after_start, crate::specs::Steps::after_kind, crate::specs::Steps::after_event, crate::specs::Steps::record_ended, register::specs::Reading::may_stand))]

ghost use Rattle.std.specs.Prelude.{◌≡◌};
ghost use Rattle.register.specs.Reading.{may_stand};
ghost use Rattle.importing.specs.Steps.{number_in, is_below, stopped, onward, header_stands, start_stands, kind_stands, event_stands, after_header, after_start, after_kind, after_event, record_ended};

use crate::steps::{Marks, State};
use register::{Mode, Stage};
use relay::Form;

// A number of 32 bits lies below this one.
const WORD: u64 = 4294967296;

// So many events are counted, as far as a position is read: a text in lent bytes has not as many.
pub const MOST_COUNTED: u64 = 9999999999999999999;

// The number that a mark says, where it has 32 bits.
pub fn number_of(m: u64) -> u32
    ensures { result ≡ number_in m }
{
    match m {
        1..=WORD => (m - 1) as u32,
        _ => 0,
    }
}

// The mark is that of a number below n.
fn is_below(n: u64, m: u64) -> bool
    ensures { result ≡ is_below n m }
{
    1 <= m && m <= n
}

// Whether this kind may stand at post i: a table that is not done can be ended at post 31.
#[tactic(auto, unfolding(register::specs::Reading::may_stand, relay::specs::Kinds::between))]
fn may_stand(i: u32, kind: u32) -> bool
    ensures { result ≡ may_stand i kind }
{
    match Form::decode(step::kinds::ordinary(kind)) {
        Some(Form::Origin) => i == 0,
        Some(Form::Terminus) => i != 0,
        Some(Form::PedalStation | Form::AnnouncementStation | Form::Intermediate) => {
            i != 0 && i < 31
        }
        None => false,
    }
}

// The marks of the header's words are their lengths.
fn header_stands(k: Marks) -> bool
    ensures { result ≡ header_stands k }
{
    k.a == 8 && k.b == 5 && k.c == 4 && k.d == 5 && k.e == 6
}

fn start_stands(k: Marks) -> bool
    ensures { result ≡ start_stands k }
{
    k.a == 0 && k.b == 0 && k.c == 0 && is_below(WORD, k.d) && k.e == 0
}

fn kind_stands(posts: u32, k: Marks) -> bool
    ensures { result ≡ kind_stands posts k }
{
    posts < 32
        && k.a == 0
        && is_below(WORD, k.b)
        && may_stand(posts, number_of(k.b))
        && k.c == posts as u64 + 1
        && k.d == 0
        && k.e == 0
}

fn event_stands(events: u64, k: Marks) -> bool
    ensures { result ≡ event_stands events k }
{
    events < MOST_COUNTED
        && k.a == events + 2
        && is_below(32, k.b)
        && is_below(64, k.c)
        && is_below(WORD, k.d)
        && is_below(32, k.e)
}

// No record more stands, from here on.
pub fn stop(s: State) -> State
    ensures { result ≡ stopped s }
{
    State {
        mode: Mode::Broken,
        ..s
    }
}

// The record stands, and this is known after it: the next one begins.
fn go_on(s: State) -> State
    ensures { result ≡ onward s s.stage s.stamp s.posts s.events }
{
    State {
        mode: Mode::Start,
        place: 0,
        mark: 0,
        ..s
    }
}

fn after_header(s: State) -> State
    ensures { result ≡ after_header s }
{
    if !header_stands(s.marks) {
        return stop(s);
    }
    go_on(State {
        stage: Stage::AtStart,
        ..s
    })
}

fn after_start(s: State) -> State
    ensures { result ≡ after_start s }
{
    if !start_stands(s.marks) {
        return stop(s);
    }
    go_on(State {
        stage: Stage::AtKinds,
        stamp: number_of(s.marks.d),
        ..s
    })
}

// A 1 or a 17 ends the table.
fn after_kind(s: State) -> State
    ensures { result ≡ after_kind s }
{
    if !kind_stands(s.posts, s.marks) {
        return stop(s);
    }
    let stage = match Form::decode(step::kinds::ordinary(number_of(s.marks.b))) {
        Some(Form::Terminus) => Stage::AtEvents,
        _ => Stage::AtKinds,
    };
    go_on(State {
        stage,
        posts: s.posts + 1,
        ..s
    })
}

fn after_event(s: State) -> State
    ensures { result ≡ after_event s }
{
    if !event_stands(s.events, s.marks) {
        return stop(s);
    }
    go_on(State {
        stage: Stage::AtEvents,
        events: s.events + 1,
        ..s
    })
}

// A record has five fields.
pub fn end_record(s: State) -> State
    ensures { result ≡ record_ended s }
{
    if s.place != 5 {
        return stop(s);
    }
    match s.stage {
        Stage::AtHeader => after_header(s),
        Stage::AtStart => after_start(s),
        Stage::AtKinds => after_kind(s),
        Stage::AtEvents => after_event(s),
    }
}
