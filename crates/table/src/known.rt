// A known type as it is to be written.
ghost use Rattle.std.specs.Prelude.{◌≡◌, ◌<◌, ◌≤◌, ◌≢◌, length};
ghost use Rattle.rules.specs.Sheet.{at};
ghost use Rattle.table.specs.Packing.{Above, TypeWords};
ghost use Rattle.table.specs.Writes.{triple, last};

// Inverted or not, a kind, an id, and the type words of its children.
#[derive(Clone, Copy)]
pub struct KnownType<'a> {
    pub inverted: bool,
    pub kind: u32,
    pub id: u32,
    pub children: &'a [u32],
    pub ghost known: { kind ≢ 0 },
    pub ghost kinds: { kind < 16 },
    pub ghost above: { Above id (length children.now) },
    pub ghost few: { length children.now ≤ 8 },
    pub ghost type_words: { TypeWords children.now },
}

impl<'a> KnownType<'a> {
    // The type word of child i.
    fn word(&self, i: usize) -> u32
        ensures is { result ≡ at self.now.children.now i }
        ensures small { result < 512 }
    {
        words::word(self.children, i)
    }

    // Three type words in a word.
    pub fn triple(&self, i: usize) -> u32
        requires { i < 8 }
        ensures { result ≡ triple self.now.children.now i }
    {
        let a = self.word(i);
        let b = self.word(i + 1);
        let c = self.word(i + 2);
        a + (512 * b + 262144 * c)
    }

    // The last two of eight type words, and the id above them; the id alone where there are no type words.
    pub fn last(&self) -> u32
        ensures { result ≡ last self.now.children.now self.now.id }
    {
        if self.children.is_empty() {
            return self.id;
        }
        let a = self.word(6);
        let b = self.word(7);
        a + (512 * b + 262144 * self.id)
    }
}
