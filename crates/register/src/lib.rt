// The register in comma-separated text: which bytes mean something, and what each byte does where it stands.
// What a right text is, and what is read of any text, stands in specs/; the theorems stand in proofs/.

#![tactic(auto)]

ghost use Rattle.std.specs.Prelude.{◌≡◌};
ghost use Rattle.register.specs.Lexer.{class, action};

// The bytes that mean something to RFC 4180, and the others.
#[derive(Clone, Copy, PartialEq, Eq)]
pub enum Class {
    Quote,
    Comma,
    Cr,
    Lf,
    Other,
}

// Where the next byte stands: first of a field; in a field; in quotes; after a quote in quotes; after CR; past a break.
#[derive(Clone, Copy, PartialEq, Eq)]
pub enum Mode {
    Start,
    Plain,
    Inside,
    Closing,
    AtCr,
    Broken,
}

// What a byte does.
#[derive(Clone, Copy, PartialEq, Eq)]
pub enum Act {
    Open,
    Add,
    Close,
    EndField,
    EndLine,
    EndRecord,
    Break,
}

// Which record of a register is next.
#[derive(Clone, Copy, PartialEq, Eq)]
pub enum Stage {
    AtHeader,
    AtStart,
    AtKinds,
    AtEvents,
}

// What a byte means.
#[tactic(auto, unfolding(crate::specs::Lexer::class))]
pub fn class_of(b: u8) -> Class
    ensures { result ≡ class b }
{
    match b {
        b'"' => Class::Quote,
        b',' => Class::Comma,
        b'\r' => Class::Cr,
        b'\n' => Class::Lf,
        _ => Class::Other,
    }
}

// What a byte of this class does in this mode.
pub fn action_of(mode: Mode, class: Class) -> Act
    ensures { result ≡ action mode class }
{
    match class {
        Class::Quote => match mode {
            Mode::Start => Act::Open,
            Mode::Inside => Act::Close,
            _ => Act::Break,
        },
        Class::Comma => match mode {
            Mode::Start | Mode::Plain | Mode::Closing => Act::EndField,
            Mode::Inside => Act::Add,
            _ => Act::Break,
        },
        Class::Cr => match mode {
            Mode::Start | Mode::Plain | Mode::Closing => Act::EndLine,
            Mode::Inside => Act::Add,
            _ => Act::Break,
        },
        Class::Lf => match mode {
            Mode::Inside => Act::Add,
            Mode::AtCr => Act::EndRecord,
            _ => Act::Break,
        },
        Class::Other => match mode {
            Mode::Start | Mode::Plain | Mode::Inside => Act::Add,
            _ => Act::Break,
        },
    }
}
