// The trees of an answer: a line for each record, a level of two spaces below the record that it belongs to.
use std::fmt;

// What a record of a tree stands for, by its id.
#[derive(Clone, Copy, Debug, PartialEq, Eq)]
enum Found {
    Parameter(u32),
    Impl(u32),
    ClosureFork(u32),
    ClosureDrop(u32),
}

impl Found {
    fn new(kind: u32, id: u32) -> Self {
        match kind {
            1 => Found::Parameter(id),
            2 => Found::Impl(id),
            3 => Found::ClosureFork(id),
            _ => Found::ClosureDrop(id),
        }
    }
}

impl fmt::Display for Found {
    fn fmt<W: fmt::Write>(&self, f: &mut fmt::Formatter<W>) -> fmt::Result {
        match self {
            Found::Parameter(id) => write!(f, "parameter {id}"),
            Found::Impl(id) => write!(f, "impl {id}"),
            Found::ClosureFork(id) => write!(f, "closure {id} fork"),
            Found::ClosureDrop(id) => write!(f, "closure {id} drop"),
        }
    }
}

// How deep a tree may be: the search's own 16, and more.
const DEPTH: usize = 32;

// The tree at a head of an answer.
#[derive(Clone, Copy, Debug)]
pub struct Tree<'a> {
    pub answer: &'a [u32],
    pub head: usize,
}

impl<'a> Tree<'a> {
    // The records of the head's chain with what is below them, at a level.
    fn write<W: fmt::Write>(self, f: &mut fmt::Formatter<W>, level: usize) -> fmt::Result {
        if level >= DEPTH {
            return Ok(());
        }
        for at in words::records(self.answer, self.head) {
            let found = Found::new(
                words::offset(self.answer, at, 1),
                words::offset(self.answer, at, 2),
            );
            f.write_repeated("  ", level + 1)?;
            writeln!(f, "{found}")?;
            let head = words::offset(self.answer, at, 3) as usize;
            Tree { head, ..self }.write(f, level + 1)?;
        }
        Ok(())
    }
}

// Beside that of `Type`: its levels are counted up, for the indent, and those of a type down.
impl<'a> fmt::Display for Tree<'a> {
    fn fmt<W: fmt::Write>(&self, f: &mut fmt::Formatter<W>) -> fmt::Result {
        self.write(f, 0)
    }
}
