// Two types are met by the roots of their classes.
ghost use Rattle.std.specs.Prelude.{◌≡◌, ◌/◌, ◌≢◌, is_err};
ghost use Rattle.refs.specs.Refs.{KindOf};
ghost use Rattle.refs.specs.Meaning.{turn as turn_of};
ghost use Rattle.meeting.specs.Meeting.{Inverts, Meets};

use crate::{Clash, Meeting};
use chart::layout;
use refs::{Sides, find, link_apart, ref_of, settle, turn};

impl Meeting {
    // Meets a type of kind k with its own inverse, which has the same kind and id, and differs in side.
    pub(crate) fn mirror_known(&mut self, sides: &Sides, x: u32, k: u32) -> Result<(), Clash>
        requires kind_of { KindOf sides.now.sheet.now sides.now.places.now sides.now.table.now (x / 2) k }
        requires k_nonzero { k ≢ 0 }
        ensures { Meets sides.now.sheet.now sides.now.places.now sides.now.table.now self.old x (turn_of 1 x) self.new (is_err result) }
    {
        let d = sides.id(x / 2);
        if self.sided_once(sides.sheet, k, d) {
            return Err(Clash);
        }
        self.mirror(x, turn(1, x));
        Ok(())
    }

    // Meets two types of kind k and id d that differ in side.
    pub(crate) fn meet_inverted(
        &mut self,
        sheet: &[u32],
        x: u32,
        y: u32,
        k: u32,
        d: u32,
    ) -> Result<(), Clash>
        ensures { Inverts sheet.now self.old x y k d self.new (is_err result) }
    {
        if self.sided_once(sheet, k, d) {
            return Err(Clash);
        }
        if x / 2 == y / 2 {
            self.mirror(x, y);
            return Ok(());
        }
        self.put(x, y);
        Ok(())
    }

    // Meets two types of kind k. Errors of different refs clash.
    fn meet_known(&mut self, sides: &Sides, x: u32, y: u32, k: u32) -> Result<(), Clash>
        requires kind_of { KindOf sides.now.sheet.now sides.now.places.now sides.now.table.now (x / 2) k }
        requires kind_of_2 { KindOf sides.now.sheet.now sides.now.places.now sides.now.table.now (y / 2) k }
        requires k_nonzero { k ≢ 0 }
        ensures { Meets sides.now.sheet.now sides.now.places.now sides.now.table.now self.old x y self.new (is_err result) }
    {
        if k as usize == layout::KIND_ERROR && x / 2 != y / 2 {
            return Err(Clash);
        }
        let d = sides.id(x / 2);
        if d != sides.id(y / 2) {
            return Err(Clash);
        }
        if sides.apart(x, y) {
            return self.meet_inverted(sides.sheet, x, y, k, d);
        }
        self.put(x, y);
        Ok(())
    }

    // Meets an unknown with a type of kind k: it is linked to that, which is met with its own inverse where the unknown was linked to its own.
    fn bind_own(&mut self, sides: &Sides, x: u32, y: u32, k: u32) -> Result<(), Clash>
        requires kind_of { KindOf sides.now.sheet.now sides.now.places.now sides.now.table.now (y / 2) k }
        requires k_nonzero { k ≢ 0 }
        ensures { Meets sides.now.sheet.now sides.now.places.now sides.now.table.now self.old x y self.new (is_err result) }
    {
        let r = x / 2 % 2048;
        let up = self.links[r as usize];
        self.link(x, y);
        if up == 2 * r + 2 {
            return self.mirror_known(sides, y, k);
        }
        Ok(())
    }

    // Meets an unknown with another type of a root: it is linked to that; but where it is its own inverse another unknown is linked to it, and a type that has a kind is met with its own inverse.
    fn meet_unknown(&mut self, sides: &Sides, x: u32, y: u32) -> Result<(), Clash>
        ensures { Meets sides.now.sheet.now sides.now.places.now sides.now.table.now self.old x y self.new (is_err result) }
    {
        if x / 2 == y / 2 {
            self.oppose(x, y);
            return Ok(());
        }
        if self.links[ref_of(x)] == 0 {
            self.link(x, y);
            return Ok(());
        }
        let k = sides.kind(y / 2);
        if k == 0 {
            self.link(y, x);
            return Ok(());
        }
        self.bind_own(sides, x, y, k)
    }

    // Meets types of two roots: an unknown is linked to the other, or it to that, and two that have a kind clash or are queued.
    fn meet_roots(&mut self, sides: &Sides, x: u32, y: u32) -> Result<(), Clash>
        ensures { Meets sides.now.sheet.now sides.now.places.now sides.now.table.now self.old x y self.new (is_err result) }
    {
        let k = sides.kind(x / 2);
        if k == 0 {
            self.count_bound();
            return self.meet_unknown(sides, x, y);
        }
        let j = sides.kind(y / 2);
        if j == 0 {
            self.count_bound();
            return self.bind_own(sides, y, x, k);
        }
        if k != j {
            return Err(Clash);
        }
        self.meet_known(sides, x, y, k)
    }

    // Meets what two types of roots settle to.
    fn meet_found(&mut self, sides: &Sides, a: u32, b: u32) -> Result<(), Clash>
        ensures { Meets sides.now.sheet.now sides.now.places.now sides.now.table.now self.old a b self.new (is_err result) }
    {
        let x = settle(sides.sheet, sides.places, &mut self.links, a);
        let y = settle(sides.sheet, sides.places, &mut self.links, b);
        if x == y {
            return Ok(());
        }
        self.meet_roots(sides, x, y)
    }

    // Meets two types.
    pub fn meet(&mut self, sides: &Sides, a: u32, b: u32) -> Result<(), Clash>
        ensures { Meets sides.now.sheet.now sides.now.places.now sides.now.table.now self.old a b self.new (is_err result) }
    {
        let x = find(&self.links, a);
        let y = find(&self.links, b);
        link_apart(&mut self.links, a, x);
        link_apart(&mut self.links, b, y);
        if x == y {
            return Ok(());
        }
        self.meet_found(sides, x, y)
    }

    // Meets a type with its own inverse: if what is found from it has a kind, that is met with its own.
    pub(crate) fn meet_own(&mut self, sides: &Sides, t: u32) -> Result<(), Clash>
        ensures { Meets sides.now.sheet.now sides.now.places.now sides.now.table.now self.old t (turn_of 1 t) self.new (is_err result) }
    {
        let x = find(&self.links, t);
        let k = sides.kind(x / 2);
        if k == 0 {
            return self.meet(sides, t, turn(1, t));
        }
        self.mirror_known(sides, x, k)
    }
}
