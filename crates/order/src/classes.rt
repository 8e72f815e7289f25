// What is noted of the classes of refs, while types meet: of each ref its link, and of a class at its root what was added to its size, where it has its state from, and whether it was found to be its own inverse.
ghost use Rattle.std.specs.Prelude.{◌≡◌, ◌+◌, ◌/◌, ◌%◌, ◌<◌, false, set, replicate, IfSome, MatchOption};
ghost use Rattle.std.specs.Int.{from_bool};
ghost use Rattle.rules.specs.Sheet.{at};
ghost use Rattle.refs.specs.Meaning.{turn as turn_of};
ghost use Rattle.order.specs.Stage.{base};
ghost use Rattle.order.specs.Mirror.{source as source_of, Marks};
ghost use Rattle.order.specs.Meeting.{Joins};
ghost use Rattle.order.specs.Words.{Linked, Found, Roots, Steps, Shortens};
ghost use Rattle.order.specs.Going.{Rejoins};
ghost use Rattle.order.specs.Joined.{Inherits, Hangs};
ghost use Rattle.order.specs.Halts.{step_code};

use crate::{Halt, own_size};
use chart::layout;
use refs::{PARAM, PARAMS, RECORDS, Sides, place_of, record_inverted, ref_of, turn};
use std::marker::Model;

// Types are below.
const TYPES: u32 = 4096;

// More nodes than a class is followed with,
const MANY: u32 = 65536;

// and more than are added to one.
const MANY_MORE: u32 = 32768;

// Of one ref. A link is 0 at a root, else 1 and the type that the ref is; a source is 0 for itself, else 1 and a type: nothing is noted by zeros.
#[derive(Clone, Copy)]
struct Class {
    link: u32,
    more: u32,
    source: u32,
}

const NEW: Class = Class {
    link: 0,
    more: 0,
    source: 0,
};

#[derive(Drop)]
pub struct Classes {
    refs: [Class; 2048],
    own: [bool; 2048],
}

// Seen as four times 2,048 words: the links, what was added, the sources, and the marks of those that are their own inverse.
impl Model for Classes {
    ghost use Rattle.std.specs.Prelude.{◌≡◌, length};
    ghost use Rattle.rules.specs.Lists.{Words};

    ghost Value = { Words };

    ghost use Rattle.order.specs.Notes.{words_of};

    ghost view = { λ c. words_of c.refs c.own };

    ghost invariant = { λ c. length c.refs ≡ 2048 };
}

impl Classes {
    // Nothing is noted.
    pub fn new() -> Classes
        ensures { result ≡ replicate 8192 0 }
    {
        Classes {
            refs: [NEW; 2048],
            own: [false; 2048],
        }
    }

    // Words of the ref of a type, read
    fn link(&self, t: u32) -> u32
        ensures { result ≡ at self.now (t / 2 % 2048) }
    {
        self.refs[ref_of(t)].link
    }

    fn more(&self, t: u32) -> u32
        ensures { result ≡ at self.now (2048 + t / 2 % 2048) }
    {
        self.refs[ref_of(t)].more
    }

    fn source(&self, t: u32) -> u32
        ensures { result ≡ at self.now (4096 + t / 2 % 2048) }
    {
        self.refs[ref_of(t)].source
    }

    // and written.
    fn set_link(&mut self, t: u32, w: u32)
        ensures { self.new ≡ set self.old (t / 2 % 2048) w }
    {
        self.refs[ref_of(t)].link = w;
    }

    fn set_more(&mut self, t: u32, w: u32)
        ensures { self.new ≡ set self.old (2048 + t / 2 % 2048) w }
    {
        self.refs[ref_of(t)].more = w;
    }

    fn set_source(&mut self, t: u32, w: u32)
        ensures { self.new ≡ set self.old (4096 + t / 2 % 2048) w }
    {
        self.refs[ref_of(t)].source = w;
    }

    // Whether the ref of a type is marked.
    pub fn marked(&self, t: u32) -> bool
        ensures { from_bool result ≡ at self.now (6144 + t / 2 % 2048) }
    {
        self.own[ref_of(t)]
    }

    // Marks the ref of a type.
    pub fn mark(&mut self, t: u32)
        ensures { Marks self.old self.new }
    {
        self.own[ref_of(t)] = true;
    }

    // The type that a type is linked to; none at a root.
    fn up(&self, t: u32) -> Option<u32>
        ensures { MatchOption result (at self.now (t / 2 % 2048) ≡ 0) (Linked self.now t) }
    {
        match self.link(t) {
            0 => None,
            up => Some(turn(t % 2, up - 1)),
        }
    }

    // The root that a type is, along at most 16 links; none where they are more.
    fn find(&self, t: u32) -> Option<u32>
        ensures { IfSome result (λ x. (x < 4096) × Found self.now t x) }
    {
        let mut x = t;
        for _ in 0..16 {
            match self.up(x) {
                None => return if x < TYPES { Some(x) } else { None },
                Some(up) => x = up,
            }
        }
        None
    }

    // The same of a type that has no link: a Param of the signature is its type parameter. (One kind is asked for, by its number.)
    fn find_own(&self, sides: &Sides, t: u32) -> Option<u32>
        requires { at self.now (t / 2 % 2048) ≡ 0 }
        ensures { IfSome result (λ x. (x < 4096) × Roots sides.now.sheet.now sides.now.places.now self.now t x) }
    {
        if t / 2 < RECORDS {
            return Some(t);
        }
        let p = place_of(sides.places, t / 2);
        if words::offset(sides.sheet, p, layout::NODE_KIND) != PARAM {
            return if t < TYPES { Some(t) } else { None };
        }
        let d = words::offset(sides.sheet, p, layout::NODE_ID);
        if d >= 8 {
            return None;
        }
        let b = u32::from(record_inverted(sides.sheet, p));
        self.find(turn(t, 2 * (PARAMS + d) + b))
    }

    // The root that a type is; none where it is not found.
    pub fn root(&self, sides: &Sides, t: u32) -> Option<u32>
        ensures { IfSome result (λ x. (x < 4096) × Roots sides.now.sheet.now sides.now.places.now self.now t x) }
    {
        match self.up(t) {
            None => self.find_own(sides, t),
            Some(up) => self.find(up),
        }
    }

    // The type that a type is linked to, or itself.
    pub fn step(&self, t: u32) -> u32
        ensures { Steps self.now t result }
    {
        self.up(t).unwrap_or(t)
    }

    // Links a type to its root, unless it is of the same ref.
    pub fn shorten(&mut self, t: u32, x: u32)
        ensures { Shortens self.old t x self.new }
    {
        if t / 2 != x / 2 {
            self.set_link(t, turn(t % 2, x) % 4096 + 1);
        }
    }

    // The type whose state the type of a root has.
    pub fn state(&self, x: u32) -> u32
        requires { x < 4096 }
        ensures { result ≡ turn_of x (source_of self.now (x / 2)) }
    {
        match self.source(x) {
            0 => x,
            from => turn(x % 2, from - 1),
        }
    }

    // The size of the class of a root; none where more was added than is followed.
    fn size(&self, table: &[u32], x: u32) -> Option<u32>
        requires { x < 4096 }
        ensures { IfSome result (λ n. (n < 65536) × (n ≡ base table.now (x / 2) + at self.now (2048 + x / 2))) }
    {
        let more = self.more(x);
        if more >= MANY_MORE {
            return None;
        }
        let n = own_size(table, x / 2) + more;
        if n < MANY { Some(n) } else { None }
    }

    // Root hi has its state from lo's.
    fn inherit(&mut self, lo: u32, hi: u32)
        requires lo_bound { lo < 4096 }
        requires hi_bound { hi < 4096 }
        ensures { Inherits self.old lo hi self.new }
    {
        let from = turn(hi % 2, self.state(lo));
        self.set_source(hi, from % 4096 + 1);
    }

    // Root lo, whose class has n nodes, is hung under root hi, which is known.
    fn put(&mut self, lo: u32, hi: u32, n: u32) -> Result<(), Halt>
        requires lo_bound { lo < 4096 }
        requires hi_bound { hi < 4096 }
        requires n_bound { n < 65536 }
        ensures { Hangs self.old lo hi n false self.new (step_code result) }
    {
        let more = self.more(hi);
        if more >= MANY_MORE {
            return Err(Halt::Stop);
        }
        self.set_more(hi, more + n);
        self.set_link(lo, turn(lo % 2, hi) % 4096 + 1);
        Ok(())
    }

    // The same; bare: hi is unknown.
    fn hang(&mut self, lo: u32, hi: u32, n: u32, bare: bool) -> Result<(), Halt>
        requires lo_bound { lo < 4096 }
        requires hi_bound { hi < 4096 }
        requires n_bound { n < 65536 }
        ensures { Hangs self.old lo hi n bare self.new (step_code result) }
    {
        if bare {
            self.inherit(lo, hi);
            return self.put(lo, hi, n);
        }
        self.put(lo, hi, n)
    }

    // The rule's `join` of two roots, of which bx and by say whether they are unknown.
    pub fn join(&mut self, table: &[u32], x: u32, y: u32, bx: bool, by: bool) -> Result<(), Halt>
        requires x_bound { x < 4096 }
        requires y_bound { y < 4096 }
        ensures { Joins table.now self.old x y bx by self.new (step_code result) }
    {
        let Some(a) = self.size(table, x) else {
            return Err(Halt::Stop);
        };
        let Some(b) = self.size(table, y) else {
            return Err(Halt::Stop);
        };
        if b < a {
            return self.hang(y, x, b, bx);
        }
        self.hang(x, y, a, by)
    }

    // Joins two known roots, if they are roots still.
    pub fn rejoin(&mut self, table: &[u32], x: u32, y: u32) -> Result<(), Halt>
        requires x_bound { x < 4096 }
        requires y_bound { y < 4096 }
        ensures { Rejoins table.now self.old x y self.new (step_code result) }
    {
        if self.up(x).is_some() || self.up(y).is_some() {
            return Err(Halt::Stop);
        }
        self.join(table, x, y, false, false)
    }
}
