// What is below two types that are the same is met.
ghost use Rattle.std.specs.Prelude.{◌≡◌, ◌+◌, ◌/◌, ◌<◌, ◌≤◌, ◌≢◌, length, is_err};
ghost use Rattle.rules.specs.Sheet.{at};
ghost use Rattle.table.specs.Packing.{types_of, kind_at};
ghost use Rattle.table.specs.ChildTypes.{row_at};
ghost use Rattle.meeting.specs.Meeting.{Meets};
ghost use Rattle.meeting.specs.Rows.{Goes};
ghost use Rattle.meeting.specs.Across.{sides_across, RecordMet, CellsMet};

use crate::{Clash, Meeting};
use chart::layout;
use refs::{NODES, PARAM, RECORDS, Sides, own_type, place_of, record_inverted, ref_of, turn};
use table::Row;

// Whether a type of the signature, whose record is at p, and a type of the question differ in side.
fn across(sheet: &[u32], p: usize, table: &[u32], x: u32, y: u32) -> bool
    ensures { result ≡ sides_across sheet.now p table.now x y }
{
    let own = (x % 2 == 1) ^ record_inverted(sheet, p);
    let asked = (y % 2 == 1) ^ table::inverted_of(table, y / 2);
    own ^ asked
}

impl Meeting {
    // Whether x is linked to y; most children are, and need no call.
    fn is_linked(&self, x: u32, y: u32) -> bool {
        self.links[ref_of(x)] == turn(x % 2, y) % 4096 + 1
    }

    // Meets the types of two rows of one length, the second turned by b.
    fn meet_all(&mut self, sides: &Sides, xs: &Row, ys: &Row, b: u32) -> Result<(), Clash>
        requires { xs.now.n ≤ 8 }
        ensures { Goes sides.now.sheet.now sides.now.places.now sides.now.table.now self.old xs.now.n b xs.now.types ys.now.types self.new (is_err result) }
    {
        for j in 0..xs.n {
            let x = xs.types[j];
            let y = turn(b, ys.types[j]);
            if !self.is_linked(x, y) {
                self.meet(sides, x, y)?;
            }
        }
        Ok(())
    }

    // Meets the types of a row with their own inverses, but for those whose refs have been queued so.
    fn meet_mirrored(&mut self, sides: &Sides, xs: &Row) -> Result<(), Clash>
        requires { xs.now.n ≤ 8 }
        ensures { Goes sides.now.sheet.now sides.now.places.now sides.now.table.now self.old xs.now.n 1 xs.now.types xs.now.types self.new (is_err result) }
    {
        for j in 0..xs.n {
            let x = xs.types[j];
            if !self.is_mirrored(x) {
                self.meet_own(sides, x)?;
            }
        }
        Ok(())
    }

    // Meets a type of the signature that has kind k, and whose record is at p, with a type of the question of a root. Two Errors clash.
    fn meet_record(&mut self, sides: &Sides, x: u32, y: u32, p: usize, k: u32) -> Result<(), Clash>
        requires p_nonzero { p ≢ 0 }
        requires k_value { k ≡ at sides.now.sheet.now (p + 1) }
        requires lt_k { 1 < k }
        requires y_nonzero { kind_at (types_of sides.now.table.now) (y / 2) ≢ 0 }
        ensures { RecordMet sides.now.sheet.now sides.now.table.now self.old x y p self.new (is_err result) }
    {
        if table::kind_of(sides.table, y / 2) != k || k as usize == layout::KIND_ERROR {
            return Err(Clash);
        }
        let d = words::offset(sides.sheet, p, layout::NODE_ID);
        if d != table::id_of(sides.table, y / 2) {
            return Err(Clash);
        }
        if across(sides.sheet, p, sides.table, x, y) {
            return self.meet_inverted(sides.sheet, x, y, k, d);
        }
        self.put(x, y);
        Ok(())
    }

    // Meets a type of the signature whose ref has no link with a type of the question of a root.
    fn meet_new(&mut self, sides: &Sides, x: u32, y: u32) -> Result<(), Clash>
        ensures { Meets sides.now.sheet.now sides.now.places.now sides.now.table.now self.old x y self.new (is_err result) }
    {
        let p = place_of(sides.places, x / 2);
        let k = words::offset(sides.sheet, p, layout::NODE_KIND);
        if k > PARAM && p != 0 && table::kind_of(sides.table, y / 2) != 0 {
            return self.meet_record(sides, x, y, p, k);
        }
        self.meet(sides, x, y)
    }

    // Meets a type of the signature with a type of the question of a root.
    fn meet_cell(&mut self, sides: &Sides, x: u32, y: u32) -> Result<(), Clash>
        ensures { Meets sides.now.sheet.now sides.now.places.now sides.now.table.now self.old x y self.new (is_err result) }
    {
        if self.links[ref_of(x)] == 0 {
            return self.meet_new(sides, x, y);
        }
        self.meet(sides, x, y)
    }

    // Meets child j of the pair in hand with one of the other, unless they are linked to each other; that it was met is kept.
    fn meet_child(&mut self, sides: &Sides, x: u32, y: u32, j: usize) -> Result<(), Clash>
        requires { j < 8 }
        ensures { Meets sides.now.sheet.now sides.now.places.now sides.now.table.now self.old x y self.new (is_err result) }
    {
        if self.is_linked(x, y) {
            return Ok(());
        }
        self.met |= 1 << j;
        self.meet_cell(sides, x, y)
    }

    // Meets the types in the cells from a head with the n children of a node of the question, turned by b: a clash where there are more of one. Of the children only those are met that are to be.
    fn meet_cells(
        &mut self,
        sides: &Sides,
        head: usize,
        y: u32,
        n: usize,
        b: u32,
    ) -> Result<(), Clash>
        requires in_bounds { 8 < length sides.now.sheet.now }
        requires y_bound { y < 256 }
        requires n_bound { n ≤ 8 }
        ensures { CellsMet sides.now.sheet.now sides.now.places.now sides.now.table.now self.old head b (row_at sides.now.table.now y n) self.new (is_err result) }
    {
        // Cells and children are gone through side by side, not by `zip`: that one ends before the other is a clash.
        let mut c = head;
        let mut left = self.only;
        for j in 0..n {
            if c == 0 {
                return Err(Clash);
            }
            if left == 0 {
                return Ok(());
            }
            if left % 2 == 1 {
                let x = own_type(words::offset(sides.sheet, c, layout::CELL_TYPE));
                let z = turn(b, table::child_type(sides.table, y, j));
                self.meet_child(sides, x, z, j)?;
            }
            left /= 2;
            c = words::next(sides.sheet, c);
        }
        if c != 0 {
            return Err(Clash);
        }
        Ok(())
    }

    // Meets the children of a type of the signature with those of a type of the question.
    fn meet_across(&mut self, sides: &Sides, x: u32, y: u32) -> Result<(), Clash>
        requires bound { 1024 ≤ x / 2 }
        requires y_bound { y / 2 < 256 }
        ensures { Meets sides.now.sheet.now sides.now.places.now sides.now.table.now self.old x y self.new (is_err result) }
    {
        if sides.sheet.len() <= 8 {
            return Ok(());
        }
        if sides.kind(x / 2) == 0 || table::kind_of(sides.table, y / 2) == 0 {
            return Ok(());
        }
        let Some(n) = table::own_children(sides.table, y / 2) else {
            return Ok(());
        };
        let p = place_of(sides.places, x / 2);
        let head = words::offset(sides.sheet, p, layout::NODE_CHILDREN);
        let b = u32::from(across(sides.sheet, p, sides.table, x, y));
        self.meet_cells(sides, head as usize, y / 2, n, b)
    }

    // Meets the children of two types, whichever they are.
    fn meet_rows(&mut self, sides: &Sides, x: u32, y: u32) -> Result<(), Clash>
        ensures { Meets sides.now.sheet.now sides.now.places.now sides.now.table.now self.old x y self.new (is_err result) }
    {
        let Some(xs) = sides.children(x / 2) else {
            return Ok(());
        };
        let inverted = sides.apart(x, y);
        if x / 2 == y / 2 {
            if inverted {
                return self.meet_mirrored(sides, &xs);
            }
            return Ok(());
        }
        let Some(ys) = sides.children(y / 2) else {
            return Ok(());
        };
        if xs.n != ys.n {
            return Err(Clash);
        }
        self.meet_all(sides, &xs, &ys, u32::from(inverted))
    }

    // Meets the children of two types.
    pub(crate) fn meet_children(&mut self, sides: &Sides, x: u32, y: u32) -> Result<(), Clash>
        ensures { Meets sides.now.sheet.now sides.now.places.now sides.now.table.now self.old x y self.new (is_err result) }
    {
        if RECORDS <= x / 2 && y / 2 < NODES {
            self.meet_across(sides, x, y)
        } else {
            self.meet_rows(sides, x, y)
        }
    }
}
