// Whether an unknown that meets its own inverse stays free: then the signature and the question do not unify.
// The labels are at first what the links have; the others are set, once, as their parents are tested. They are tested to be closed: known refs of one label have children of one label each; where they are not nothing is said.
#![tactic(auto)]

ghost use Rattle.std.specs.Prelude.{◌≡◌, ◌+◌, ◌%◌, ◌<◌, ◌≤◌, length, IfSome};
ghost use Rattle.rules.specs.Sheet.{at};
ghost use Rattle.table.specs.ChildTypes.{row_at};
ghost use Rattle.refs.specs.Children.{Below};
ghost use Rattle.loose.specs.LooseAcross.{CellsAlike};
ghost use Rattle.loose.specs.Loose.{turned_round, SameKids, Closes, Owns, NodeCloses, NodesClose, RecordCloses, RecordsClose, ArgsSame, Labels as ClosedLabels, Opposite, Witness, Opposed};

use chart::layout;
use queries::Query;
use refs::{NODES, PARAM, PARAMS, RECORDS, Sides, find, own_type, place_of, record_count};
use table::Row;

mod labelling;

use labelling::Labels;

// Whether a ref stands for its class itself, and has another label than l: most nodes of the question do.
fn is_own(labels: &Labels, l: u32, r: u32) -> bool
    requires { r < 2048 }
    ensures { Owns labels.now.of l r result }
{
    let y = labels.get(r);
    y != l && y == r + 1
}

// The index of number i of n, from the last to the first or from the first to the last.
#[tactic(auto, using(crate::specs::Loose::round_down, crate::specs::Loose::round_up))]
fn index(down: bool, n: u32, i: u32) -> u32
    requires { i < n }
    ensures { result ≡ turned_round down n i }
{
    if down { n - 1 - i } else { i }
}

// Whether the arguments of a signature and of the question are labelled alike.
fn args_alike(ws: &[u32], labels: &mut Labels, p: Query, q: Query) -> bool
    requires { q.n ≤ 4 }
    ensures { ArgsSame ws.now labels.old.of p q labels.new.of result }
{
    for k in 0..q.n {
        let x = own_type(p.args[k]);
        let y = table::find(ws, q.args[k]);
        if !labels.are_alike(x / 2, y / 2) {
            return false;
        }
    }
    true
}

// Whether the record of the first argument is in the upper half: then parents are likely to be behind their children.
fn is_high(places: &[u32], p: Query) -> bool {
    p.args[0] as usize % 2048 >= places.len()
}

// The tables that the labels are tested for, and the label of what is to stay free.
#[derive(Clone, Copy)]
struct Test<'a> {
    sides: Sides<'a>,
    free: u32,
}

impl<'a> Test<'a> {
    // Whether the types in the cells from a head are labelled as the n children of node z. The loop has a constant bound, so that it is unrolled;
    // the chain is gone along beside it, as a zip would not tell which of the two ends first.
    fn same_cells(&self, labels: &mut Labels, head: usize, z: u32, n: usize) -> bool
        requires in_bounds { 8 < length self.now.sides.sheet.now }
        requires z_bound { z < 256 }
        requires n_bound { n ≤ 8 }
        ensures { CellsAlike self.now.sides.sheet.now labels.old.of head (row_at self.now.sides.table.now z n) labels.new.of result }
    {
        let mut c = head;
        for j in 0..8 {
            if c == 0 {
                return j == n;
            }
            if j == n {
                return false;
            }
            let x = own_type(words::offset(self.sides.sheet, c, layout::CELL_TYPE));
            let y = table::child_type(self.sides.table, z, j);
            if !labels.are_alike(x / 2, y / 2) {
                return false;
            }
            c = words::next(self.sides.sheet, c);
        }
        c == 0 && n == 8
    }

    // Whether the children of a ref that has a record and of a node are labelled alike.
    fn same_across(&self, labels: &mut Labels, a: u32, z: u32) -> bool
        requires le_a { 1024 ≤ a }
        requires z_bound { z < 256 }
        ensures { SameKids self.now.sides.sheet.now self.now.sides.places.now self.now.sides.table.now labels.old.of a z labels.new.of result }
    {
        if self.sides.sheet.len() <= 8 || table::kind_of(self.sides.table, z) == 0 {
            return false;
        }
        let Some(n) = table::own_children(self.sides.table, z) else {
            return false;
        };
        let p = place_of(self.sides.places, a);
        let head = words::offset(self.sides.sheet, p, layout::NODE_CHILDREN);
        self.same_cells(labels, head as usize, z, n)
    }

    // The types below a ref, by its node or its record; none of one that has neither.
    fn kids(&self, r: u32) -> Option<Row>
        ensures { IfSome result (Below self.now.sides.sheet.now self.now.sides.places.now self.now.sides.table.now r) }
    {
        if r >= NODES && place_of(self.sides.places, r) == 0 {
            return None;
        }
        self.sides.below(r)
    }

    // Whether the children of two refs, whichever they are, are labelled alike.
    fn same_kids(&self, labels: &mut Labels, a: u32, z: u32) -> bool
        ensures { SameKids self.now.sides.sheet.now self.now.sides.places.now self.now.sides.table.now labels.old.of a z labels.new.of result }
    {
        let Some(xs) = self.kids(a) else {
            return false;
        };
        let Some(ys) = self.kids(z) else {
            return false;
        };
        xs.n == ys.n && labels.are_alike_in(&xs, &ys)
    }

    // Whether the children of two refs are labelled alike.
    fn same_children(&self, labels: &mut Labels, a: u32, z: u32) -> bool
        ensures { SameKids self.now.sides.sheet.now self.now.sides.places.now self.now.sides.table.now labels.old.of a z labels.new.of result }
    {
        if RECORDS <= a && z < NODES {
            self.same_across(labels, a, z)
        } else {
            self.same_kids(labels, a, z)
        }
    }

    // Whether a ref has another label than that, and its children are labelled as those of the ref that stands for its class: itself, where it has no label.
    fn is_closed(&self, labels: &mut Labels, r: u32) -> bool
        requires r_bound { r < 2048 }
        ensures { Closes self.now.sides.sheet.now self.now.sides.places.now self.now.sides.table.now labels.old.of self.now.free r labels.new.of result }
    {
        let x = labels.get_or_set(r, r + 1);
        x != 0 && x != self.free && (x == r + 1 || self.same_children(labels, r, x - 1))
    }

    // Whether a node of the question's table, if it is known, is so.
    fn node_closed(&self, labels: &mut Labels, r: u32) -> bool
        requires r_bound { r < 2048 }
        ensures { NodeCloses self.now.sides.sheet.now self.now.sides.places.now self.now.sides.table.now labels.old.of self.now.free r labels.new.of result }
    {
        is_own(labels, self.free, r)
            || table::kind_of(self.sides.table, r) == 0
            || self.is_closed(labels, r)
    }

    // Whether all nodes are.
    fn nodes_closed(&self, labels: &mut Labels) -> bool
        ensures { NodesClose self.now.sides.sheet.now self.now.sides.places.now self.now.sides.table.now labels.old.of self.now.free labels.new.of result }
    {
        for r in 0..table::count(self.sides.table) {
            if !self.node_closed(labels, r) {
                return false;
            }
        }
        true
    }

    // Whether record k is: a Param is to have the label of its type parameter.
    fn record_closed(&self, labels: &mut Labels, k: u32) -> bool
        requires k_bound { k < 1024 }
        ensures { RecordCloses self.now.sides.sheet.now self.now.sides.places.now self.now.sides.table.now labels.old.of self.now.free k labels.new.of result }
    {
        let p = words::next(self.sides.places, k as usize);
        match words::offset(self.sides.sheet, p, layout::NODE_KIND) {
            0 => true,
            PARAM => {
                let d = words::offset(self.sides.sheet, p, layout::NODE_ID);
                d < 8 && labels.are_alike(RECORDS + k, PARAMS + d)
            }
            _ => self.is_closed(labels, RECORDS + k),
        }
    }

    // Whether all records are.
    fn records_closed(&self, labels: &mut Labels, down: bool) -> bool
        ensures { RecordsClose self.now.sides.sheet.now self.now.sides.places.now self.now.sides.table.now labels.old.of self.now.free labels.new.of result }
    {
        if self.sides.places.len() > 1024 {
            return false;
        }
        let n = self.sides.places.len() as u32;
        for i in 0..n {
            if !self.record_closed(labels, index(down, n, i)) {
                return false;
            }
        }
        true
    }

    // Whether the labels are closed, and nothing known has the label of what is free.
    fn are_closed(&self, labels: &mut Labels, p: Query, q: Query) -> bool
        requires n_bound { q.n ≤ 4 }
        ensures { ClosedLabels self.now.sides.sheet.now self.now.sides.places.now self.now.sides.table.now labels.old.of p q self.now.free labels.new.of result }
    {
        args_alike(self.sides.table, labels, p, q)
            && self.records_closed(labels, is_high(self.sides.places, p))
            && self.nodes_closed(labels)
    }
}

// Whether the links say that a ref is its own inverse.
#[tactic(auto, using(crate::specs::Loose::opposite_found))]
fn is_opposite(links: &[u32; 2048], w: u32) -> bool
    requires { w < 2048 }
    ensures { Opposite links.now w result }
{
    let r = find(links, 2 * w) / 2 % 2048;
    links[r as usize] == 2 * r + 2
}

// Whether a ref is an unknown root of the question's table, or has a record.
fn may_witness(places: &[u32], ws: &[u32], w: u32) -> bool
    ensures { Witness places.now ws.now w result }
{
    if w >= RECORDS {
        return w < 2048 && ((w - RECORDS) as usize) < places.len();
    }
    w < table::count(ws) && table::kind_of(ws, w) == 0 && table::find(ws, 2 * w) == 2 * w
}

// A ref of the class of r that is no type parameter; r if there is none.
fn witness(links: &[u32; 2048], r: u32, n: u32) -> u32
    requires { n ≤ 1024 }
{
    if r < NODES || r >= RECORDS {
        return r;
    }
    (RECORDS..RECORDS + n)
        .find(|w| find(links, 2 * *w) / 2 == r)
        .unwrap_or(r)
}

// Whether the ref w, or its class, is its own inverse, and nothing known is of its class.
fn is_loose(sides: &Sides, links: &[u32; 2048], p: Query, q: Query, w: u32) -> bool
    requires n_bound { q.n ≤ 4 }
    requires w_bound { w < 2048 }
    ensures { Opposed sides.now.sheet.now sides.now.places.now sides.now.table.now links.now p q result }
{
    if !is_opposite(links, w) || !may_witness(sides.places, sides.table, w) {
        return false;
    }
    let mut labels = Labels { of: [0u32; 2048] };
    labels.set_from(links, 0, table::count(sides.table));
    labels.set_from(links, PARAMS, 8);
    labels.set_linked(links, record_count(sides.places));
    let free = labels.get(w);
    let test = Test {
        sides: *sides,
        free,
    };
    free != 0 && test.are_closed(&mut labels, p, q)
}

// Whether ref r, which met its own inverse, stays free.
pub fn opposed(sides: &Sides, links: &[u32; 2048], p: Query, q: Query, r: u32) -> bool
    requires n_bound { q.n ≤ 4 }
    ensures { Opposed sides.now.sheet.now sides.now.places.now sides.now.table.now links.now p q result }
{
    let w = witness(links, r, record_count(sides.places));
    is_loose(sides, links, p, q, w % 2048)
}
