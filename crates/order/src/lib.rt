// Whether the rule's `unify` fails for the arguments of a candidate's signature and those of the question: it is followed in its own order, over refs, and nothing is imported. Only its occurs checks are left out.
// Types and refs are told in `refs`, and what is noted of their classes in classes.rt. Where a step goes on, the notes are of the table that is left.
#![tactic(auto)]

ghost use Rattle.std.specs.Prelude.{◌≡◌, map, ◌/◌, ◌<◌, ◌≤◌, length};
ghost use Rattle.table.specs.ChildTypes.{row_at};
ghost use Rattle.refs.specs.Meaning.{turn as turn_of};
ghost use Rattle.order.specs.Stage.{kind_word, kids, base};
ghost use Rattle.order.specs.Following.{Follows, FollowsAll, Meets, Owns};
ghost use Rattle.order.specs.Owning.{OwnsAll, Flagged};
ghost use Rattle.order.specs.Going.{Compared};
ghost use Rattle.order.specs.Kids.{CellMet, Cells, Even, Paired};
ghost use Rattle.order.specs.Arguments.{Fails};
ghost use Rattle.order.specs.Halts.{step_code, side_code};

mod classes; // classes.rt: what is noted of classes

use chart::{kinds, layout};
use classes::Classes;
use queries::Query;
use refs::{NODES, RECORDS, Sides, own_type, place_of, turn};
use table::Row;

// Why a step does not go on: the rule fails, or nothing is said.
#[derive(Clone, Copy, PartialEq, Eq, Debug)]
enum Halt {
    Clash,
    Stop,
}

// How deep types are followed.
const DEPTH: usize = 128;

// The kind of a ref that is no Param; 0, the sheet's own number of an unknown, where it is unknown. Kinds are compared as words: two of them, and one with a single name of `layout`.
fn kind(sides: &Sides, r: u32) -> u32
    ensures { result ≡ kind_word sides.now.sheet.now sides.now.places.now sides.now.table.now r }
{
    if r < NODES {
        return table::kind_of(sides.table, r);
    }
    if r < RECORDS {
        return 0;
    }
    let p = place_of(sides.places, r);
    words::offset(sides.sheet, p, layout::NODE_KIND)
}

// The size of the class of a ref in the question's table.
fn own_size(table: &[u32], r: u32) -> u32
    ensures size { result ≡ base table.now r }
    ensures small { result < 512 }
{
    if r < NODES {
        return table::size_of(table, r);
    }
    1
}

// Whether a ref is known and its kind, its children aside, its own inverse.
fn may_own(sides: &Sides, r: u32) -> bool
    ensures { Flagged sides.now.sheet.now sides.now.places.now sides.now.table.now r result }
{
    let k = kind(sides, r);
    if k == 0 {
        return false;
    }
    let d = sides.id(r);
    kinds::kind_flag(sides.sheet, layout::ROW_OWN_INVERSE, k as usize, d as usize)
}

// Whether a type is its own inverse, or may be.
#[cycle(own_walk)]
fn own(sides: &Sides, m: &mut Classes, t: u32, left: usize) -> bool
    ensures { Owns sides.now.sheet.now sides.now.places.now sides.now.table.now m.old t m.new result }
{
    let Some(x) = m.root(sides, t) else {
        return true;
    };
    if m.marked(x) {
        return true;
    }
    let p = m.state(x);
    if !may_own(sides, p / 2) {
        return false;
    }
    if left == 0 {
        return true;
    }
    if !own_all(sides, m, p / 2, left - 1) {
        return false;
    }
    m.mark(x);
    true
}

// Whether the children of a ref are.
#[cycle(own_walk)]
fn own_all(sides: &Sides, m: &mut Classes, r: u32, left: usize) -> bool
    ensures { OwnsAll sides.now.sheet.now sides.now.places.now sides.now.table.now m.old (kids sides.now.sheet.now sides.now.places.now sides.now.table.now r) m.new result }
{
    let Some(row) = sides.below(r) else {
        return true;
    };
    for j in 0..row.n {
        if !own(sides, m, row.types[j], left) {
            return false;
        }
    }
    true
}

// Whether two known types, of kinds k and l, are met inverted; none where they clash.
fn compare(sides: &Sides, p: u32, q: u32, k: u32, l: u32) -> Option<bool>
    requires k_value { k ≡ kind_word sides.now.sheet.now sides.now.places.now sides.now.table.now (p / 2) }
    requires l_value { l ≡ kind_word sides.now.sheet.now sides.now.places.now sides.now.table.now (q / 2) }
    ensures { Compared sides.now.sheet.now sides.now.places.now sides.now.table.now p q (side_code result) }
{
    if k != l || k as usize == layout::KIND_ERROR {
        return None;
    }
    let d = sides.id(p / 2);
    if d != sides.id(q / 2) {
        return None;
    }
    let inverted = sides.apart(p, q);
    if inverted && !kinds::kind_flag(sides.sheet, layout::ROW_MAY_MEET, k as usize, d as usize) {
        return None;
    }
    Some(inverted)
}

// The rule's `unify` of two types.
#[cycle(meeting)]
fn go(sides: &Sides, m: &mut Classes, a: u32, b: u32, left: usize) -> Result<(), Halt>
    ensures { Follows sides.now.sheet.now sides.now.places.now sides.now.table.now m.old a b m.new (step_code result) }
{
    let Some(x) = m.root(sides, a) else {
        return Err(Halt::Stop);
    };
    m.shorten(a, x);
    let Some(y) = m.root(sides, b) else {
        return Err(Halt::Stop);
    };
    m.shorten(b, y);
    if x / 2 != y / 2 {
        return meet(sides, m, x, y, left);
    }
    if x == y || own(sides, m, x, DEPTH) {
        return Ok(());
    }
    Err(Halt::Clash)
}

// Two different roots, by the states that they have.
#[cycle(meeting)]
fn meet(sides: &Sides, m: &mut Classes, x: u32, y: u32, left: usize) -> Result<(), Halt>
    requires x_bound { x < 4096 }
    requires y_bound { y < 4096 }
    ensures { Meets sides.now.sheet.now sides.now.places.now sides.now.table.now m.old x y m.new (step_code result) }
{
    let p = m.state(x);
    let q = m.state(y);
    let k = kind(sides, p / 2);
    let l = kind(sides, q / 2);
    if k == 0 || l == 0 {
        return m.join(sides.table, x, y, k == 0, l == 0);
    }
    let Some(inverted) = compare(sides, p, q, k, l) else {
        return Err(Halt::Clash);
    };
    if left == 0 {
        return Err(Halt::Stop);
    }
    below(sides, m, p / 2, q / 2, u32::from(inverted), left - 1)?;
    m.rejoin(sides.table, x, y)
}

// The children of two refs, those of the second turned by b.
#[cycle(meeting)]
fn below(sides: &Sides, m: &mut Classes, a: u32, z: u32, b: u32, left: usize) -> Result<(), Halt>
    ensures { FollowsAll sides.now.sheet.now sides.now.places.now sides.now.table.now m.old (kids sides.now.sheet.now sides.now.places.now sides.now.table.now a) (map (turn_of b) (kids sides.now.sheet.now sides.now.places.now sides.now.table.now z)) m.new (step_code result) }
{
    if RECORDS <= a && z < NODES {
        across(sides, m, a, z, b, left)
    } else {
        rows(sides, m, a, z, b, left)
    }
}

// The same of a ref that has a record and of a node.
#[cycle(meeting)]
fn across(sides: &Sides, m: &mut Classes, a: u32, z: u32, b: u32, left: usize) -> Result<(), Halt>
    requires le_a { 1024 ≤ a }
    requires z_bound { z < 256 }
    ensures { FollowsAll sides.now.sheet.now sides.now.places.now sides.now.table.now m.old (kids sides.now.sheet.now sides.now.places.now sides.now.table.now a) (map (turn_of b) (kids sides.now.sheet.now sides.now.places.now sides.now.table.now z)) m.new (step_code result) }
{
    if sides.sheet.len() <= 8 || table::kind_of(sides.table, z) == 0 {
        return Err(Halt::Stop);
    }
    let Some(n) = table::own_children(sides.table, z) else {
        return Err(Halt::Stop);
    };
    let p = place_of(sides.places, a);
    let head = words::offset(sides.sheet, p, layout::NODE_CHILDREN);
    beside(sides, m, head as usize, z, n, b, left)
}

// The types in the cells from a head and the n children of node z, turned by b. The chain is gone along beside the children: a zip would not tell which of the two ends first.
#[cycle(meeting)]
fn beside(
    sides: &Sides,
    m: &mut Classes,
    head: usize,
    z: u32,
    n: usize,
    b: u32,
    left: usize,
) -> Result<(), Halt>
    requires in_bounds { 8 < length sides.now.sheet.now }
    requires z_bound { z < 256 }
    requires n_bound { n ≤ 8 }
    ensures { Cells sides.now.sheet.now sides.now.places.now sides.now.table.now m.old head (row_at sides.now.table.now z n) b m.new (step_code result) }
{
    let mut c = head;
    for j in 0..n {
        if c == 0 {
            return Err(Halt::Clash);
        }
        let y = table::child_type(sides.table, z, j);
        cell(sides, m, c, y, b, left)?;
        c = words::next(sides.sheet, c);
    }
    if c != 0 {
        return Err(Halt::Clash);
    }
    Ok(())
}

// The type in the cell at c and type y, turned by b.
#[cycle(meeting)]
fn cell(sides: &Sides, m: &mut Classes, c: usize, y: u32, b: u32, left: usize) -> Result<(), Halt>
    ensures { CellMet sides.now.sheet.now sides.now.places.now sides.now.table.now m.old c y b m.new (step_code result) }
{
    let u = own_type(words::offset(sides.sheet, c, layout::CELL_TYPE));
    pair(sides, m, u, turn(b, y), left)
}

// Two types, unless they are linked to one, or one to the other.
#[cycle(meeting)]
fn pair(sides: &Sides, m: &mut Classes, a: u32, b: u32, left: usize) -> Result<(), Halt>
    ensures { Follows sides.now.sheet.now sides.now.places.now sides.now.table.now m.old a b m.new (step_code result) }
{
    let x = m.step(a);
    if x == b || x == m.step(b) {
        return Ok(());
    }
    go(sides, m, a, b, left)
}

// The children of two refs, whichever they are, those of the second turned by b.
#[cycle(meeting)]
fn rows(sides: &Sides, m: &mut Classes, a: u32, z: u32, b: u32, left: usize) -> Result<(), Halt>
    ensures { FollowsAll sides.now.sheet.now sides.now.places.now sides.now.table.now m.old (kids sides.now.sheet.now sides.now.places.now sides.now.table.now a) (map (turn_of b) (kids sides.now.sheet.now sides.now.places.now sides.now.table.now z)) m.new (step_code result) }
{
    let Some(xs) = sides.below(a) else {
        return Err(Halt::Stop);
    };
    let Some(ys) = sides.below(z) else {
        return Err(Halt::Stop);
    };
    if xs.n != ys.n {
        return Err(Halt::Clash);
    }
    pairs(sides, m, xs, ys, b, left)
}

// The types of two rows, those of the second turned by b.
#[cycle(meeting)]
fn pairs(sides: &Sides, m: &mut Classes, xs: Row, ys: Row, b: u32, left: usize) -> Result<(), Halt>
    requires { Even xs ys }
    ensures { Paired sides.now.sheet.now sides.now.places.now sides.now.table.now m.old xs ys b m.new (step_code result) }
{
    for j in 0..xs.n {
        pair(sides, m, xs.types[j], turn(b, ys.types[j]), left)?;
    }
    Ok(())
}

// Whether the rule fails for the arguments of a candidate's signature and of the question.
pub fn fails(sides: &Sides, p: Query, q: Query) -> bool
    requires { q.n ≤ 4 }
    ensures { Fails sides.now.sheet.now sides.now.places.now sides.now.table.now p q result }
{
    let mut m = Classes::new();
    for k in 0..q.n {
        let a = own_type(p.args[k]);
        let b = table::find(sides.table, q.args[k]);
        match go(sides, &mut m, a, b, DEPTH) {
            Ok(()) => {}
            Err(Halt::Clash) => return true,
            Err(Halt::Stop) => return false,
        }
    }
    false
}
