// A type of an answer's table in one line: `~` an inverse, `?3` the unknown of node 3, `(A, B)` a Tuple, `&A` a Ref, `!` Never,
// `Struct 0[A, B]`, `Closure 2[A, B]` (the last is what it returns), `Param 0`, `Fn 7`, `Key 5`, `Default`, `Error`.
// A type of few nodes may be without end on paper, since they are shared: it breaks off with ` ..` where it has taken 4,096 bytes.
ghost use Rattle.std.specs.Prelude.{◌≡◌, ◌+◌, length, IsOk};
ghost use Rattle.std.specs.Str.{chars};

use std::fmt;
use std::fmt::Write;

// The words of a node's record: next, kind, inverted, id, children.
const NODE: usize = 5;

// How deep types may be nested: as many nodes as a table has.
const DEPTH: usize = 256;

// What a node is: an unknown by its own number, and else its kind with its id, where it has one.
#[derive(Clone, Copy, Debug, PartialEq, Eq)]
enum Kind {
    Unknown(u32),
    Param(u32),
    Tuple,
    Opaque(u32),
    Struct(u32),
    Enum(u32),
    Union(u32),
    Fn(u32),
    Closure(u32),
    Ref,
    Key(u32),
    Never,
    Default,
    Error,
}

impl Kind {
    // What node n is, by the kind and the id of its record.
    fn new(n: u32, kind: u32, id: u32) -> Self {
        match kind {
            0 => Kind::Unknown(n),
            1 => Kind::Param(id),
            2 => Kind::Tuple,
            3 => Kind::Opaque(id),
            4 => Kind::Struct(id),
            5 => Kind::Enum(id),
            6 => Kind::Union(id),
            7 => Kind::Fn(id),
            8 => Kind::Closure(id),
            9 => Kind::Ref,
            11 => Kind::Never,
            12 => Kind::Default,
            13 => Kind::Error,
            _ => Kind::Key(id),
        }
    }

    // What stands round the children; a Ref has one child, and a Tuple is known by its parentheses.
    fn brackets(self, has_children: bool) -> (&'static str, &'static str) {
        match self {
            Kind::Tuple => ("(", ")"),
            Kind::Ref => ("", ""),
            _ if has_children => ("[", "]"),
            _ => ("", ""),
        }
    }
}

// What stands before the children.
impl fmt::Display for Kind {
    fn fmt<W: Write>(&self, f: &mut fmt::Formatter<W>) -> fmt::Result {
        match self {
            Kind::Unknown(n) => write!(f, "?{n}"),
            Kind::Param(id) => write!(f, "Param {id}"),
            Kind::Tuple => Ok(()),
            Kind::Opaque(id) => write!(f, "Opaque {id}"),
            Kind::Struct(id) => write!(f, "Struct {id}"),
            Kind::Enum(id) => write!(f, "Enum {id}"),
            Kind::Union(id) => write!(f, "Union {id}"),
            Kind::Fn(id) => write!(f, "Fn {id}"),
            Kind::Closure(id) => write!(f, "Closure {id}"),
            Kind::Ref => write!(f, "&"),
            Kind::Key(id) => write!(f, "Key {id}"),
            Kind::Never => write!(f, "!"),
            Kind::Default => write!(f, "Default"),
            Kind::Error => write!(f, "Error"),
        }
    }
}

// A type by its type word, of the table that begins at a place of an answer.
#[derive(Clone, Copy, Debug)]
pub struct Type<'a> {
    pub answer: &'a [u32],
    pub table: usize,
    pub word: u32,
}

impl<'a> Type<'a> {
    // The types of a chain of cells, to so many levels.
    #[cycle(write)]
    fn write_chain<W: Write>(
        self,
        f: &mut Front<'_, W>,
        head: usize,
        levels: usize,
    ) -> fmt::Result {
        for cell in words::records(self.answer, head) {
            if cell != head {
                write!(f, ", ")?;
            }
            let word = words::offset(self.answer, cell, 1);
            Type { word, ..self }.write(f, levels)?;
        }
        Ok(())
    }

    // A type with what is nested in it to so many levels; `..` where that is too deep.
    #[cycle(write)]
    fn write<W: Write>(self, f: &mut Front<'_, W>, levels: usize) -> fmt::Result {
        if levels == 0 {
            return write!(f, "..");
        }
        let n = self.word / 2;
        let node = walker::nth_record(self.answer, self.table, n as usize, NODE);
        let kind = Kind::new(n, words::word(node, 1), words::word(node, 3));
        let children = words::next(node, 4);
        let (open, close) = kind.brackets(children != 0);
        if self.word % 2 != words::word(node, 2) % 2 {
            write!(f, "~")?;
        }
        write!(f, "{kind}{open}")?;
        self.write_chain(f, children, levels - 1)?;
        write!(f, "{close}")
    }
}

// Passes text on, as far as there is room for its bytes.
#[derive(Drop)]
struct Front<'f, W: Write> {
    out: &'f mut fmt::Formatter<W>,
    room: usize,
}

impl<'f, W: Write> Write for Front<'f, W> {
    fn write_str(&mut self, s: &str) -> fmt::Result
        ensures { IsOk result → self.new.room + length (chars s.now) ≡ self.old.room }
    {
        for c in s.chars() {
            if self.room == 0 {
                return Err(fmt::Error);
            }
            self.out.write_char(c)?;
            self.room -= 1;
        }
        Ok(())
    }
}

// How many bytes a type takes at most.
const ROOM: usize = 4096;

impl<'a> fmt::Display for Type<'a> {
    fn fmt<W: Write>(&self, f: &mut fmt::Formatter<W>) -> fmt::Result {
        let mut front = Front { out: f, room: ROOM };
        let written = self.write(&mut front, DEPTH);
        if front.room == 0 {
            return write!(f, " ..");
        }
        written
    }
}

#[cfg(test)]
mod tests {
    use super::*;
    use std::test::Fail;

    // Sixty nodes, each but the first a Tuple of the one before twice: whole, the last takes some 2^61 bytes.
    #[test]
    fn breaks_off(rt: HostRuntime) -> Result<(), Fail> {
        let mut answer = Vec::new(rt.alloc());
        answer.push(0)?;
        for n in 0u32..60 {
            let place = 1 + 9 * n;
            let (kind, children) = if n == 0 { (11, 0) } else { (2, place + 5) };
            let below = 2 * n.saturating_sub(1);
            for word in [place + 9, kind, 0, 0, children, place + 7, below, 0, below] {
                answer.push(word)?;
            }
        }
        for (word, length, end) in [(4, 16, "(!, !))"), (118, 4099, " ..")] {
            let line = Type {
                answer: answer.as_slice(),
                table: 1,
                word,
            };
            let text = line.to_string(rt.alloc())?;
            assert_eq!(rt; text.len(), length);
            assert!(rt; text.as_str().ends_with(end));
        }
        Ok(())
    }
}
