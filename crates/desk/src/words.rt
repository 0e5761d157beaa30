// The words that the program is started with, and the job that they ask for.
ghost use Rattle.std.specs.Prelude.{◌≡◌};
ghost use Rattle.desk.specs.Words.{position_of, is_word, one_word, two_words, job_of};

// What the program is to do.
#[derive(Clone, Copy)]
pub enum Job {
    List,
    Work,
    Why(u32),
    Export,
    Import,
}

// The position that a text says, digit by digit: its mark is the number and 1. `parse` would not do: it takes a plus sign and leading zeros, which no listing writes.
pub fn position_of(text: &[u8]) -> Option<u32>
    ensures { result ≡ position_of text.now }
{
    let mut mark = 0;
    for &byte in text {
        mark = digits::with_digit(mark, byte);
    }
    u32::try_from(mark.checked_sub(1)?).ok()
}

// Whether the text is this word.
#[tactic(auto, using(crate::proofs::Same::same_word))]
fn is(text: &[u8], word: &[u8]) -> bool
    ensures { result ≡ is_word text.now word.now }
{
    text == word
}

// A word alone.
#[tactic(auto, unfolding(crate::specs::Words::one_word))]
fn one_word(word: &[u8]) -> Option<Job>
    ensures { result ≡ one_word word.now }
{
    if is(word, b"work") {
        Some(Job::Work)
    } else if is(word, b"export") {
        Some(Job::Export)
    } else if is(word, b"import") {
        Some(Job::Import)
    } else {
        None
    }
}

// A word and one after it.
#[tactic(auto, unfolding(crate::specs::Words::two_words))]
fn two_words(word: &[u8], after: &[u8]) -> Option<Job>
    ensures { result ≡ two_words word.now after.now }
{
    if is(word, b"why") {
        Some(Job::Why(position_of(after)?))
    } else {
        None
    }
}

// What is asked for, by how many arguments there are, the program's own name among them, and by the words after it.
#[tactic(auto, unfolding(crate::specs::Words::job_of), using(relay::proofs::Tests::tests))]
pub fn job_of(arguments: usize, word: &[u8], after: &[u8]) -> Option<Job>
    ensures { result ≡ job_of arguments word.now after.now }
{
    match arguments {
        0 | 1 => Some(Job::List),
        2 => one_word(word),
        3 => two_words(word, after),
        _ => None,
    }
}
