// What is kept while types are met: the links of their refs, and a queue of pairs of types that are the same and whose children are to be met, worked off from its end.
ghost use Rattle.std.specs.Prelude.{◌≡◌, ◌+◌, ◌<◌, IfSome};
ghost use Rattle.refs.specs.Refs.{Sided};
ghost use Rattle.meeting.specs.Meeting.{Fresh, Keeps, Joins, Decides};

use chart::{kinds, layout};
use refs::turn;

// The queue has room for so many pairs.
const PAIRS: usize = 256;

// At most so many links are gone to look for self-dual marks.
const FAR: u32 = 1024;

// Two types of one class differ.
#[derive(Clone, Copy, PartialEq, Eq, Debug)]
pub struct Clash;

// Two types that are the same. Once their children were met the pair stays in the queue until all below it is done, with the count of the unknowns that were linked before.
#[derive(Clone, Copy)]
pub(crate) struct Pair {
    pub(crate) x: u16,
    pub(crate) y: u16,
    pub(crate) bound: Option<u8>,
}

#[derive(Drop)]
pub struct Meeting {
    // For each ref 0, or 1 and the type that it is.
    pub links: [u32; 2048],
    // The last unknown that met its own inverse.
    pub opposed: Option<u32>,
    pub(crate) pairs: [Pair; PAIRS],
    pub(crate) len: usize,
    // For each number modulo 256 the last of its refs that was queued with its own inverse.
    mirrored: [Option<u16>; PAIRS],
    // How many links were gone to look for self-dual marks.
    gone: u32,
    // How many unknowns were linked, modulo 128.
    pub(crate) bound: u8,
    // Which children of the pair in hand were met, and which are to be, as bits.
    pub(crate) met: u32,
    pub(crate) only: u32,
}

// Whether a self-dual mark tells which ids of a kind are their own inverses.
fn is_marked(k: u32) -> bool {
    k as usize == layout::KIND_STRUCT || k as usize == layout::KIND_UNION
}

// Whether a kind and id is surely not its own inverse.
fn is_sided(sheet: &[u32], k: u32, d: u32) -> bool
    ensures { Sided sheet.now k d result }
{
    !kinds::kind_flag(sheet, layout::ROW_OWN_INVERSE, k as usize, d as usize)
}

// Whether a kind and id is surely not its own inverse; nothing is said where the self-dual mark would have to be looked for further down its chain than `most`.
pub fn sided_near(sheet: &[u32], k: u32, d: u32, most: u32) -> bool
    ensures { Sided sheet.now k d result }
{
    if is_marked(k) && d >= most {
        return false;
    }
    is_sided(sheet, k, d)
}

impl Meeting {
    // Nothing was met.
    pub fn new() -> Meeting
        ensures { Fresh result }
    {
        Meeting {
            links: [0; 2048],
            opposed: None,
            pairs: [Pair {
                x: 0,
                y: 0,
                bound: None,
            }; PAIRS],
            len: 0,
            mirrored: [None; PAIRS],
            gone: 0,
            bound: 0,
            met: 0,
            only: 0,
        }
    }

    // The place of the last pair.
    pub(crate) fn last(&self) -> Option<usize>
        ensures { IfSome result (λ k. (k + 1 ≡ self.now.len) × (k < 256)) }
    {
        if self.len == 0 || self.len > PAIRS {
            return None;
        }
        Some(self.len - 1)
    }

    // Links x to y.
    pub(crate) fn link(&mut self, x: u32, y: u32)
        ensures { Joins self.old x y self.new }
    {
        refs::link(&mut self.links, x, y);
    }

    // Queues a pair; nothing where the queue is full.
    fn queue(&mut self, x: u32, y: u32)
        ensures { Joins self.old x y self.new }
    {
        if self.len >= PAIRS {
            return;
        }
        self.pairs[self.len] = Pair {
            x: (x % 4096) as u16,
            y: (y % 4096) as u16,
            bound: None,
        };
        self.len += 1;
    }

    // Links x to y, and queues the pair; nothing where the queue is full.
    pub(crate) fn put(&mut self, x: u32, y: u32)
        ensures { Joins self.old x y self.new }
    {
        if self.len >= PAIRS {
            return;
        }
        self.link(x, y);
        self.queue(x, y);
    }

    // Whether the ref of a type was queued with its own inverse, for all that is kept of that.
    pub(crate) fn is_mirrored(&self, x: u32) -> bool {
        self.mirrored[x as usize / 2 % PAIRS] == Some((x / 2 % 2048) as u16)
    }

    // A type and its inverse, which are the same: queued, so that its children are met with their own inverses, unless that was done.
    pub(crate) fn mirror(&mut self, x: u32, y: u32)
        ensures { Joins self.old x y self.new }
    {
        if self.is_mirrored(x) || self.len >= PAIRS {
            return;
        }
        self.mirrored[x as usize / 2 % PAIRS] = Some((x / 2 % 2048) as u16);
        self.queue(x, y);
    }

    // Meets an unknown with its own inverse: it is linked to that, and noted unless the queue is full.
    pub(crate) fn oppose(&mut self, x: u32, y: u32)
        ensures { Joins self.old x y self.new }
    {
        if self.len < PAIRS {
            self.opposed = Some(x / 2 % 2048);
        }
        self.link(x, y);
    }

    // Counts an unknown that is linked, unless the queue is full.
    pub(crate) fn count_bound(&mut self)
        ensures { Keeps self.old self.new }
    {
        if self.len < PAIRS {
            self.bound = self.bound.wrapping_add(1) % 128;
        }
    }

    // Whether the self-dual mark of id d may be looked for: as long as few links were gone and the queue has room. They are counted.
    fn may_look(&mut self, d: u32) -> bool
        ensures { Keeps self.old self.new }
    {
        if d >= FAR || self.len >= PAIRS || self.gone >= FAR {
            return false;
        }
        self.gone += d + 1;
        true
    }

    // Whether a kind and id is surely not its own inverse; nothing is said where the mark may not be looked for.
    pub(crate) fn sided_once(&mut self, sheet: &[u32], k: u32, d: u32) -> bool
        ensures { Decides sheet.now self.old k d self.new result }
    {
        if is_marked(k) && !self.may_look(d) {
            return false;
        }
        is_sided(sheet, k, d)
    }
}
