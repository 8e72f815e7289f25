// Whether the arguments of a signature and those of the question clash: by their roots, and then by all that is below them.
ghost use Rattle.std.specs.Prelude.{◌≤◌, false, is_err};
ghost use Rattle.loose.specs.Loose.{Opposed};
ghost use Rattle.clash.specs.Pairs.{ArgsMet, RootClash, Clashing};

use chart::layout;
use meeting::{Clash, Meeting, Notes, is_cyclic, sided_near};
use queries::Query;
use refs::{Sides, own_type};

// Up to as many words of a sheet and nodes of the question's table nothing more is tested than the roots of the arguments.
const SMALL_SHEET: usize = 320;

const SMALL_TABLE: u32 = 64;

// How far down its chain the self-dual mark of a struct or union is looked for, at the roots of the arguments.
const NEAR: u32 = 256;

// The arguments of a signature and those of the question; of a candidate, whose Params are given types, if it is `given`.
#[derive(Clone, Copy)]
pub(crate) struct Arguments {
    pub(crate) signature: Query,
    pub(crate) question: Query,
    pub(crate) given: bool,
    ghost few: { question.n ≤ 4 },
}

// Whether the roots of two arguments clash, as Errors of different refs do.
fn root_clash(sides: &Sides, a: u32, b: u32) -> bool
    ensures { RootClash sides.now.sheet.now sides.now.places.now sides.now.table.now a b result }
{
    let k = sides.kind(a / 2);
    if k == 0 {
        return false;
    }
    let l = sides.kind(b / 2);
    if l == 0 {
        return false;
    }
    if k != l {
        return true;
    }
    if k as usize == layout::KIND_ERROR && a / 2 != b / 2 {
        return true;
    }
    let d = sides.id(a / 2);
    if d != sides.id(b / 2) {
        return true;
    }
    sides.apart(a, b) && sided_near(sides.sheet, k, d, NEAR)
}

// Whether sheet and table are so small that opening a candidate costs no more than the test.
fn are_small(sides: &Sides) -> bool {
    sides.sheet.len() <= SMALL_SHEET && table::count(sides.table) <= SMALL_TABLE
}

impl Arguments {
    // Whether they clash by their roots alone.
    fn roots_clash(&self, sides: &Sides) -> bool
        ensures { Clashing false sides.now.sheet.now sides.now.places.now sides.now.table.now self.now.signature self.now.question result }
    {
        for k in 0..self.question.n {
            let a = own_type(self.signature.args[k]);
            let b = table::find(sides.table, self.question.args[k]);
            if root_clash(sides, a, b) {
                return true;
            }
        }
        false
    }

    // Meets them one by one.
    fn meet(&self, sides: &Sides, meeting: &mut Meeting) -> Result<(), Clash>
        ensures { ArgsMet sides.now.sheet.now sides.now.places.now sides.now.table.now meeting.old self.now.signature self.now.question meeting.new (is_err result) }
    {
        for k in 0..self.question.n {
            let a = own_type(self.signature.args[k]);
            let b = table::find(sides.table, self.question.args[k]);
            meeting.meet(sides, a, b)?;
        }
        Ok(())
    }

    // Whether an unknown that met its own inverse, if one did, stays free.
    fn is_opposed(&self, sides: &Sides, meeting: &Meeting) -> bool
        ensures { Opposed sides.now.sheet.now sides.now.places.now sides.now.table.now meeting.now.links self.now.signature self.now.question result }
    {
        match meeting.opposed {
            Some(r) => loose::opposed(sides, &meeting.links, self.signature, self.question, r),
            None => false,
        }
    }

    // Whether they clash, or what is below them does.
    fn all_clash(&self, sides: &Sides, notes: &mut Notes) -> bool
        ensures { Clashing self.now.given sides.now.sheet.now sides.now.places.now sides.now.table.now self.now.signature self.now.question result }
    {
        let mut meeting = Meeting::new();
        if self.meet(sides, &mut meeting).is_err() {
            return true;
        }
        if meeting.run(sides, notes).is_err() {
            return true;
        }
        if self.given && self.is_opposed(sides, &meeting) {
            return true;
        }
        is_cyclic(sides, &meeting.links, notes)
    }

    // Whether the rule fails for a candidate of a question for which one was missed before: followed in its own order, which is dearer than what is tested first.
    fn fail_late(&self, sides: &Sides, notes: &Notes) -> bool
        ensures { Clashing self.now.given sides.now.sheet.now sides.now.places.now sides.now.table.now self.now.signature self.now.question result }
    {
        notes.missed && self.given && order::fails(sides, self.signature, self.question)
    }

    // Whether they are found to clash: by their roots, and then, unless all is small, by all that is below them.
    pub(crate) fn clash(&self, sides: &Sides, notes: &mut Notes) -> bool
        ensures { Clashing self.now.given sides.now.sheet.now sides.now.places.now sides.now.table.now self.now.signature self.now.question result }
    {
        if self.roots_clash(sides) {
            return true;
        }
        if are_small(sides) {
            return false;
        }
        self.all_clash(sides, notes) || self.fail_late(sides, notes)
    }
}
