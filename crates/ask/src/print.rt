// What a call gave, as text.
use crate::arguments::Call;
use notation::tree::Tree;
use notation::types::Type;
use refusals::Refusal;
use std::fmt;
use std::fmt::Write;

// The steps that a call spent, by the counts before and after it.
#[derive(Clone, Copy, Debug, PartialEq, Eq)]
pub struct Steps {
    pub start: u32,
    pub count: u32,
}

impl fmt::Display for Steps {
    fn fmt<W: Write>(&self, f: &mut fmt::Formatter<W>) -> fmt::Result {
        let count = self.count;
        let spent = count.saturating_sub(self.start);
        write!(f, "steps: {spent} (count {count})")
    }
}

// A call that was turned away: the number and what it means, and the steps.
#[derive(Clone, Copy, Debug)]
pub struct Refused {
    pub refusal: Refusal,
    pub steps: Steps,
}

impl fmt::Display for Refused {
    fn fmt<W: Write>(&self, f: &mut fmt::Formatter<W>) -> fmt::Result {
        let refusal = self.refusal;
        writeln!(f, "refused {}: {refusal}", refusal.number())?;
        writeln!(f, "{}", self.steps)
    }
}

// A call that was answered: the steps, the trees, the types, and its words where they are asked for.
#[derive(Clone, Copy, Debug)]
pub struct Answered<'a> {
    pub call: Call,
    pub steps: Steps,
    pub question: &'a [u32],
    pub answer: &'a [u32],
    pub raw: bool,
}

impl<'a> Answered<'a> {
    // The tree whose head is a word of the answer, below its name.
    fn write_tree<W: Write>(
        self,
        f: &mut fmt::Formatter<W>,
        name: &str,
        word: usize,
    ) -> fmt::Result {
        let answer = self.answer;
        match words::next(answer, word) {
            0 => writeln!(f, "{name} none"),
            head => write!(f, "{name}\n{}", Tree { answer, head }),
        }
    }

    fn write_flag<W: Write>(
        self,
        f: &mut fmt::Formatter<W>,
        name: &str,
        word: usize,
    ) -> fmt::Result {
        match words::word(self.answer, word) {
            0 => writeln!(f, "{name} no"),
            _ => writeln!(f, "{name} yes"),
        }
    }

    // The types that the question's nodes have become: the answer's last words.
    fn write_types<W: Write>(self, f: &mut fmt::Formatter<W>) -> fmt::Result {
        let answer = self.answer;
        let n = words::chain_length(self.question, words::next(self.question, 0));
        let used = words::next(answer, 3);
        if n == 0 || used < n {
            return writeln!(f, "types: none");
        }
        writeln!(f, "types:")?;
        let table = words::next(answer, 2);
        for (k, &word) in words::record(answer, used - n, n).iter().enumerate() {
            let line = Type {
                answer,
                table,
                word,
            };
            writeln!(f, "  {k}: {line}")?;
        }
        Ok(())
    }

    fn write_words<W: Write>(self, f: &mut fmt::Formatter<W>) -> fmt::Result {
        write!(f, "words:")?;
        for word in self.answer.iter().take(words::next(self.answer, 3)) {
            write!(f, " {word}")?;
        }
        writeln!(f)
    }
}

impl<'a> fmt::Display for Answered<'a> {
    fn fmt<W: Write>(&self, f: &mut fmt::Formatter<W>) -> fmt::Result {
        writeln!(f, "answered\n{}", self.steps)?;
        match self.call {
            Call::Impl { basic: _ } => self.write_tree(f, "tree:", 0)?,
            Call::Flex => {
                self.write_tree(f, "fork:", 0)?;
                self.write_tree(f, "drop:", 1)?;
                self.write_flag(f, "inverted:", 4)?;
                self.write_flag(f, "self-inverse:", 5)?;
            }
        }
        self.write_types(f)?;
        if self.raw {
            self.write_words(f)?;
        }
        Ok(())
    }
}
