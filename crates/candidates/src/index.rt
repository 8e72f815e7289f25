// The places of records by id, written once: the count of a chain's records, then the place of each. Definitions, impls, traits and imports have
// such an index in the workspace, and every field is then read in constant time. A record that is not there has place 0, as in the rules.
ghost use Rattle.std.specs.Prelude.{◌≡◌, ◌+◌, ◌≤◌, ◌<◌, length};
ghost use Rattle.rules.specs.Layout.{header_definitions, header_impls};
ghost use Rattle.rules.specs.Sheet.{at, many, field, trait_def, inherent_params, import_def, impl_flag};
ghost use Rattle.candidates.specs.Layout.{candidates_length};
ghost use Rattle.candidates.specs.Index.{Indexing, looked, Indexes, indexes_prop, IndexedAll};

use crate::layout;
use chart::layout as sheet;

// Writes the index of the chain that header word h heads.
fn index(s: &[u32], h: usize, ws: &mut [u32], base: usize)
    requires { (length s.now ≤ 4096) × (base + 1 + length s.now ≤ length ws.old) }
    ensures { Indexing s.now h base ws.old ws.new }
{
    let count = chart::index_chain(s, words::word(s, h), ws, base + 1);
    ws[base] = count as u32;
}

// The place of record id of the chain whose index is at a base.
fn look(ws: &[u32], base: usize, id: usize) -> usize
    ensures { result ≡ looked ws.now base id }
{
    if id < words::next(ws, base) {
        words::offset(ws, base, id + 1) as usize
    } else {
        0
    }
}

// Writes the four indexes.
pub fn index_all(s: &[u32], ws: &mut [u32])
    requires { (length s.now ≤ 4096) × (candidates_length ≤ length ws.old) }
    ensures { IndexedAll s.now ws.old ws.new }
{
    index(s, sheet::DEFINITIONS, ws, layout::DEFINITIONS);
    index(s, sheet::IMPLS, ws, layout::IMPLS);
    index(s, sheet::TRAITS, ws, layout::TRAITS);
    index(s, sheet::IMPORTS, ws, layout::IMPORTS);
}

// A sheet, and a workspace in which its four indexes stand.
#[derive(Clone, Copy)]
pub struct Records<'a> {
    pub s: &'a [u32],
    pub ws: &'a [u32],
    pub ghost indexes: { Indexes s.now ws.now } by { indexes_prop s.now ws.now },
}

impl<'a> Records<'a> {
    // Word k of record id of the chain whose index is at a base.
    fn field(self, base: usize, id: usize, k: usize) -> u32
        ensures { result ≡ at self.entry.s.now (looked self.entry.ws.now base id + k) }
    {
        words::offset(self.s, look(self.ws, base, id), k)
    }

    // How many definitions there are. This and what follows stay a function for each of the rules' names.
    pub fn definitions(self) -> usize
        ensures { result ≡ many self.entry.s.now header_definitions }
    {
        words::next(self.ws, layout::DEFINITIONS)
    }

    // How many impls there are.
    pub fn impls(self) -> usize
        ensures { result ≡ many self.entry.s.now header_impls }
    {
        words::next(self.ws, layout::IMPLS)
    }

    // Word k of definition d.
    pub fn definition(self, d: usize, k: usize) -> u32
        ensures { result ≡ field self.entry.s.now header_definitions d k }
    {
        self.field(layout::DEFINITIONS, d, k)
    }

    // Word k of impl i.
    pub fn impl_word(self, i: usize, k: usize) -> u32
        ensures { result ≡ field self.entry.s.now header_impls i k }
    {
        self.field(layout::IMPLS, i, k)
    }

    // Impl i has a flag.
    pub(crate) fn impl_flag(self, i: usize, flag: usize) -> bool
        requires { 0 < flag }
        ensures { result ≡ impl_flag self.entry.s.now flag i }
    {
        self.impl_word(i, sheet::IMPL_FLAGS) as usize / flag % 2 == 1
    }

    // The definition of a trait.
    pub fn trait_def(self, t: usize) -> u32
        ensures { result ≡ trait_def self.entry.s.now t }
    {
        self.field(layout::TRAITS, t, sheet::TRAIT_DEFINITION)
    }

    // How many of a trait's arguments are inherent.
    pub fn inherent(self, t: usize) -> u32
        ensures { result ≡ inherent_params self.entry.s.now t }
    {
        self.field(layout::TRAITS, t, sheet::TRAIT_INHERENT)
    }

    // The definition? of an import.
    pub fn import_def(self, i: usize) -> u32
        ensures { result ≡ import_def self.entry.s.now i }
    {
        self.field(layout::IMPORTS, i, sheet::IMPORT_DEFINITION)
    }
}
