// Decimal words from text: digits; spaces, tabs, line ends and '|' between words; '#' to the line's end is a comment.
ghost use Rattle.std.specs.Prelude.{◌≡◌, ◌+◌, ◌*◌, ◌^◌, ◌<◌, ◌↔◌, IsSome, IfSome, IfOk, IfErr, length};
ghost use Rattle.notation.specs.State.{word_of, ended_by};

use std::error::Error;
use std::fmt;

// A line with something that is no decimal word.
#[derive(Clone, Copy, Debug, PartialEq, Eq)]
pub struct NoWord {
    pub line: u32,
}

impl fmt::Display for NoWord {
    fn fmt<W: fmt::Write>(&self, f: &mut fmt::Formatter<W>) -> fmt::Result {
        let line = self.line;
        write!(f, "line {line}: this is no decimal word below 4294967296")
    }
}

impl Error for NoWord {}

// Where a reader stands: between words, in a word with its value so far, or in a comment.
#[derive(Clone, Copy, Debug, PartialEq, Eq)]
pub enum State {
    Between,
    Word(u32),
    Comment,
}

// A word with one digit more, where that is a word.
fn longer(word: u32, digit: u8) -> Option<u32>
    ensures fits { IsSome result ↔ (10 * word + digit < 2 ^ 32) }
    ensures value { IfSome result (λ longer. longer ≡ 10 * word + digit) }
{
    word.checked_mul(10)?.checked_add(u32::from(digit))
}

impl State {
    // Where a reader stands after a byte; nowhere if that is no part of a word.
    fn after(self, b: u8) -> Option<State> {
        match (self, b) {
            (State::Comment, b'\n') => Some(State::Between),
            (State::Comment, _) => Some(State::Comment),
            (_, b'#') => Some(State::Comment),
            (_, b' ' | b'\t' | b'\r' | b'\n' | b'|') => Some(State::Between),
            (State::Between, b'0'..=b'9') => Some(State::Word(u32::from(b - b'0'))),
            (State::Word(word), b'0'..=b'9') => Some(State::Word(longer(word, b - b'0')?)),
            _ => None,
        }
    }
}

// A reader of words: where it stands, and its line, from 1.
#[derive(Clone, Copy, Debug)]
pub struct Reader {
    pub state: State,
    pub line: u32,
}

impl Reader {
    pub fn new() -> Self
        ensures state { result.state ≡ State.Between }
        ensures line { result.line ≡ 1 }
    {
        Reader {
            state: State::Between,
            line: 1,
        }
    }

    // Reads a byte more, and answers the word that it ends, if it ends one.
    pub fn read(&mut self, b: u8) -> Result<Option<u32>, NoWord>
        ensures ended { IfOk result (λ word. word ≡ ended_by self.old.state self.new.state) }
        ensures wrong { IfErr result (λ why. why.line ≡ self.old.line) }
    {
        let Some(next) = self.state.after(b) else {
            return Err(NoWord { line: self.line });
        };
        let ended = match next {
            State::Word(_) => None,
            State::Between | State::Comment => self.finish(),
        };
        if b == b'\n' {
            self.line = self.line.saturating_add(1);
        }
        self.state = next;
        Ok(ended)
    }

    // The word that a text ends with, if it ends with one.
    pub fn finish(self) -> Option<u32>
        ensures { result ≡ word_of self.state }
    {
        match self.state {
            State::Word(word) => Some(word),
            State::Between | State::Comment => None,
        }
    }
}

// The number that a text is: it has one word, and nothing else but what may stand round it.
pub fn number(bytes: &[u8]) -> Option<u32>
    ensures { length bytes.now ≡ 0 → result ≡ None }
{
    let mut reader = Reader::new();
    let mut found = None;
    for &b in bytes {
        if let Some(word) = reader.read(b).ok()? {
            if found.is_some() {
                return None;
            }
            found = Some(word);
        }
    }
    match (found, reader.finish()) {
        (Some(_), Some(_)) => None,
        (one, other) => one.or(other),
    }
}
