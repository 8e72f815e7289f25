// A table as the records of a chain.
ghost use Rattle.std.specs.Prelude.{◌≡◌, refl, true, ◌+◌, ◌≤◌, length};
ghost use Rattle.rules.specs.Sheet.{at};
ghost use Rattle.rules.specs.Transfer.{cell_types};
ghost use Rattle.table.specs.Packing.{kind_at};
ghost use Rattle.transfer.specs.Source.{indexed};
ghost use Rattle.transfer.specs.Records.{unknown_here};
ghost use Rattle.transfer.specs.Cells.{Gathered};
ghost use Rattle.transfer.specs.Sources.{own_roots};

use crate::sources::Source;
use chart::layout::{CELL_TYPE, NODE_CHILDREN, NODE_ID, NODE_INVERTED, NODE_KIND};

// Node n is the record at places[n], its own root.
#[derive(Clone, Copy)]
pub struct Records<'a> {
    pub sheet: &'a [u32],
    pub places: &'a [u32],
}

impl<'a> Records<'a> {
    // Word k of the record of node n; that of the record at 0 where there is no such node.
    fn word(&self, n: u32, k: usize) -> u32
        ensures { result ≡ at self.now.sheet.now (at self.now.places.now n + k) }
    {
        words::offset(self.sheet, words::next(self.places, n as usize), k)
    }
}

// Reads the types in the cells of the chain from a head, and says how many there are.
fn cells(s: &[u32], head: usize, cs: &mut [u32]) -> usize
    requires head_len_bound { length (cell_types s.now head) ≤ 8 }
    requires in_bounds { 8 ≤ length cs.old }
    ensures { Gathered s.now head cs.new result }
{
    let mut m = 0;
    for c in words::records(s, head) {
        cs[m] = words::offset(s, c, CELL_TYPE);
        m += 1;
    }
    m
}

impl<'a> Source for Records<'a> {
    ghost types = { λ r. indexed r.sheet.now r.places.now };

    ghost is_rooted = { true };

    ghost no_kind = { λ r n. unknown_here r.sheet.now r.places.now n (kind_at (indexed r.sheet.now r.places.now) n) refl };

    ghost roots = { λ r e. own_roots r.sheet.now r.places.now };

    fn count(&self) -> usize {
        self.places.len()
    }

    fn find(&self, t: u32) -> u32 {
        if ((t / 2) as usize) < self.places.len() {
            t
        } else {
            t % 2
        }
    }

    fn kind_of(&self, n: u32) -> u32 {
        if (n as usize) < self.places.len() {
            self.word(n, NODE_KIND)
        } else {
            0
        }
    }

    fn inverted_of(&self, n: u32) -> bool {
        self.kind_of(n) != 0 && self.word(n, NODE_INVERTED) == 1
    }

    fn id_of(&self, n: u32) -> u32 {
        if self.kind_of(n) == 0 {
            0
        } else {
            self.word(n, NODE_ID)
        }
    }

    fn child_count(&self, n: u32) -> usize {
        if self.kind_of(n) == 0 {
            0
        } else {
            words::chain_length(self.sheet, self.word(n, NODE_CHILDREN) as usize)
        }
    }

    fn child(&self, n: u32, j: usize) -> u32 {
        if j < self.child_count(n) {
            let head = self.word(n, NODE_CHILDREN) as usize;
            words::offset(self.sheet, words::place(self.sheet, head, j), CELL_TYPE)
        } else {
            0
        }
    }

    fn read_children(&self, n: u32, cs: &mut [u32]) -> usize {
        if self.kind_of(n) == 0 {
            0
        } else {
            cells(self.sheet, self.word(n, NODE_CHILDREN) as usize, cs)
        }
    }

    fn has_own_roots(&self) -> bool {
        true
    }
}
