// The queue is worked off: the last pair is visited, its children are met, and it is done when it is last again.
ghost use Rattle.std.specs.Prelude.{◌+◌, ◌<◌, ◌≤◌, is_err};
ghost use Rattle.meeting.specs.Meeting.{Keeps};
ghost use Rattle.meeting.specs.Rows.{Ran};

use crate::notes::{ALL, pair_key};
use crate::state::Pair;
use crate::{Clash, Meeting, Notes};
use refs::{NODES, RECORDS, Sides};

// At most so often the queue is looked at, twice for each pair.
const TURNS: usize = 2048;

impl Meeting {
    // Notes which children of a pair of a record and a node were met, if all were to be, and any was.
    fn note_met(&self, notes: &mut Notes, key: u32, pair: Pair) {
        let is_across = u32::from(pair.x) / 2 >= RECORDS && u32::from(pair.y) / 2 < NODES;
        if is_across && self.only == ALL && self.met != 0 {
            notes.put(key, self.met);
        }
    }

    // Takes off the last pair, which is done: it is to be passed over, if no unknown was linked since its children were met.
    fn take_off(&mut self, sides: &Sides, notes: &mut Notes, last: usize, bound: u8)
        requires few { last < 256 }
        requires fewer { last ≤ self.old.len }
        ensures { Keeps self.old self.new }
    {
        if bound == self.bound {
            notes.put(pair_key(sides.places, self.pairs[last]), 0);
        }
        self.len = last;
    }

    // Meets those children of the last pair that are to be met, and marks it; if none is, it is taken off.
    fn visit(&mut self, sides: &Sides, notes: &mut Notes, last: usize) -> Result<(), Clash>
        requires few { last < 256 }
        requires within { last + 1 ≤ self.old.len }
        ensures { Ran sides.now.sheet.now sides.now.places.now sides.now.table.now self.old self.new (is_err result) }
    {
        let pair = self.pairs[last];
        let key = pair_key(sides.places, pair);
        let mask = notes.mask(key);
        if mask == 0 {
            self.len = last;
            return Ok(());
        }
        self.pairs[last] = Pair {
            x: pair.x,
            y: pair.y,
            bound: Some(self.bound),
        };
        self.met = 0;
        self.only = mask;
        self.meet_children(sides, u32::from(pair.x), u32::from(pair.y))?;
        self.note_met(notes, key, pair);
        Ok(())
    }

    // Works off the queue. Where no clash is found, the links are of types that mean the same.
    pub fn run(&mut self, sides: &Sides, notes: &mut Notes) -> Result<(), Clash>
        ensures { Ran sides.now.sheet.now sides.now.places.now sides.now.table.now self.old self.new (is_err result) }
    {
        notes.start();
        for _ in 0..TURNS {
            let Some(last) = self.last() else {
                return Ok(());
            };
            match self.pairs[last].bound {
                Some(bound) => self.take_off(sides, notes, last, bound),
                None => self.visit(sides, notes, last)?,
            }
        }
        Ok(())
    }
}
