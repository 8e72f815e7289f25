// Whether a class of types would contain itself, by its links: a type is larger than its children, so that nothing is such a type. Where none is found nothing is said.
// A walk from each unknown and type parameter that is linked goes down by classes. Types whose walk is done are noted, and passed over for later candidates of the same question.
// Tables, links and marks stay apart: in one struct that is lent to the walk, each contract would have to say besides that tables and links are as they were.
ghost use Rattle.std.specs.Prelude.{◌≡◌, ◌+◌, ◌*◌, ◌/◌, ◌%◌, ◌<◌, ◌≤◌, set};
ghost use Rattle.meeting.specs.declared.cycles.Mark.TheVariants.{Done};
ghost use Rattle.meeting.specs.Cycles.{Roots, Within, Among, Cycling, Cyclic, mark_at};

use crate::Notes;
use crate::notes::walk_key;
use refs::{Sides, find, parameter, record_count};
use table::Row;

// The mark of a ref: open on the way down to where the walk is, and done once its own walk is.
#[derive(Clone, Copy, PartialEq, Eq, Debug)]
enum Mark {
    Unseen,
    Open,
    Done,
}

// The mark of a ref.
fn mark_of(marks: &[Mark; 2048], r: u32) -> Mark
    ensures { result ≡ mark_at marks.now (r % 2048) }
{
    marks[r as usize % 2048]
}

// Marks a ref.
fn put_mark(marks: &mut [Mark; 2048], r: u32, k: Mark)
    ensures { marks.new ≡ set marks.old (r % 2048) k }
{
    marks[r as usize % 2048] = k;
}

// The type of a root that a type is; of a Param of the signature, that its type parameter is.
fn root(sides: &Sides, links: &[u32; 2048], t: u32) -> u32
    ensures { Roots sides.now.sheet.now sides.now.places.now links.now t result }
{
    let y = find(links, t);
    match parameter(sides.sheet, sides.places, y) {
        Some(p) => find(links, p),
        None => y,
    }
}

// Whether a walk below a type is noted as done.
fn is_walked(places: &[u32], notes: &mut Notes, x: u32) -> bool {
    notes.mask(walk_key(places, x)) == 0
}

// Marks the ref of a type as done, and notes it.
fn finish(places: &[u32], marks: &mut [Mark; 2048], notes: &mut Notes, x: u32)
    ensures { marks.new ≡ set marks.old (x / 2 % 2048) Done }
{
    put_mark(marks, x / 2, Mark::Done);
    notes.put(walk_key(places, x), 0);
}

// Whether the class of a type is open, or one within it is, at most `left` deep.
#[cycle(walk)]
fn within(
    sides: &Sides,
    links: &[u32; 2048],
    marks: &mut [Mark; 2048],
    notes: &mut Notes,
    t: u32,
    left: usize,
) -> bool
    ensures { Within sides.now.sheet.now sides.now.places.now sides.now.table.now links.now marks.old t marks.new result }
{
    let x = root(sides, links, t);
    let k = mark_of(marks, x / 2);
    if k == Mark::Open {
        return true;
    }
    if k == Mark::Done || left == 0 || is_walked(sides.places, notes, x) {
        return false;
    }
    let Some(xs) = sides.children(x / 2) else {
        return false;
    };
    put_mark(marks, x / 2, Mark::Open);
    if among(sides, links, marks, notes, &xs, left - 1) {
        return true;
    }
    finish(sides.places, marks, notes, x);
    false
}

// Whether the class of one of a row of types is. Most have been walked; a child is marked as done itself, beside its root.
#[cycle(walk)]
fn among(
    sides: &Sides,
    links: &[u32; 2048],
    marks: &mut [Mark; 2048],
    notes: &mut Notes,
    xs: &Row,
    left: usize,
) -> bool
    requires { xs.now.n ≤ 8 }
    ensures { Among sides.now.sheet.now sides.now.places.now sides.now.table.now links.now marks.old xs.now.n xs.now.types marks.new result }
{
    for j in 0..xs.n {
        let t = xs.types[j];
        if mark_of(marks, t / 2) != Mark::Done {
            if within(sides, links, marks, notes, t, left) {
                return true;
            }
            put_mark(marks, t / 2, Mark::Done);
        }
    }
    false
}

// `within`, from a ref that is linked, if it is an unknown or a type parameter: every cycle goes through one.
fn within_linked(
    sides: &Sides,
    links: &[u32; 2048],
    marks: &mut [Mark; 2048],
    notes: &mut Notes,
    r: u32,
) -> bool
    requires { r < 2048 }
    ensures { Within sides.now.sheet.now sides.now.places.now sides.now.table.now links.now marks.old (2 * r) marks.new result }
{
    sides.kind(r) == 0 && within(sides, links, marks, notes, 2 * r, 512)
}

// Whether a class that a ref of n from one on is of contains itself.
fn cyclic_among(
    sides: &Sides,
    links: &[u32; 2048],
    marks: &mut [Mark; 2048],
    notes: &mut Notes,
    from: u32,
    n: u32,
) -> bool
    requires { from + n ≤ 2048 }
    ensures { Cycling sides.now.sheet.now sides.now.places.now sides.now.table.now links.now marks.old marks.new result }
{
    for r in from..from + n {
        if links[r as usize] != 0 && within_linked(sides, links, marks, notes, r) {
            return true;
        }
    }
    false
}

// Whether a class contains itself.
pub fn is_cyclic(sides: &Sides, links: &[u32; 2048], notes: &mut Notes) -> bool
    ensures { Cyclic sides.now.sheet.now sides.now.places.now sides.now.table.now links.now result }
{
    let mut marks = [Mark::Unseen; 2048];
    cyclic_among(sides, links, &mut marks, notes, 0, 264)
        || cyclic_among(
            sides,
            links,
            &mut marks,
            notes,
            1024,
            record_count(sides.places),
        )
}
