// Rows of bits over nodes, and what spreads along a relation of nodes: reach and sets are computed so. Workspace, count of nodes and place of the rows stay
// parameters: a struct of them, lent by `&mut`, would have to promise in each contract that count and place stay.
ghost use Rattle.std.specs.Prelude.{◌≡◌, true, ◌+◌, ◌*◌, ◌≤◌, ◌<◌, ◌/◌, length};
ghost use Rattle.rules.specs.Sheet.{at};
ghost use Rattle.candidates.specs.Bits.{bit, on, with_bit, Joined};
ghost use Rattle.candidates.specs.Spread.{NextBit, Kin, Way, WayOn, ChildsOn, Visited, Rows, Room, Takes, Taken, Passed, Spread};

use crate::layout;
use crate::order::Search;

// Bit b of a word is 1: a test that the rows' readers share.
fn bit(w: u32, b: usize) -> bool
    requires { b < 32 }
    ensures { result ≡ bit w b }
{
    (w >> b) % 2 == 1
}

// Bit j of the row at place p.
pub fn on(ws: &[u32], p: usize, j: usize) -> bool
    ensures { result ≡ on ws.now p j }
{
    bit(words::offset(ws, p, j / 32), j % 32)
}

// Sets bit j of the row at place p.
pub fn set_bit(ws: &mut [u32], p: usize, j: usize)
    requires { p + j / 32 < length ws.old }
    ensures { ws.new ≡ with_bit ws.old p j }
{
    ws[p + j / 32] |= 1 << (j % 32);
}

// Joins the row at place b to the row at place a; whether that changed it.
fn join(ws: &mut [u32], a: usize, b: usize) -> bool
    requires { (a + 12 ≤ length ws.old) × (b + 12 ≤ length ws.old) }
    ensures { Joined ws.old ws.new result a b }
{
    let mut changed = false;
    for k in 0..layout::ROW {
        let old = ws[a + k];
        let new = old | ws[b + k];
        changed |= new != old;
        ws[a + k] = new;
    }
    changed
}

// The first bit below n of the row at place p that is 1, from word k on.
fn first_on(ws: &[u32], p: usize, k: usize, n: usize) -> Option<usize>
    requires { (p + 12 ≤ length ws.now) × (k ≤ 12) × (n ≤ 384) }
    ensures { NextBit ws.now p (32 * k) n result }
{
    for j in k..n.div_ceil(32) {
        let w = ws[p + j];
        if w != 0 {
            let i = 32 * j + w.trailing_zeros() as usize;
            return if i < n { Some(i) } else { None };
        }
    }
    None
}

// The next bit below n of the row at place p that is 1, from y on.
pub fn next_on(ws: &[u32], p: usize, y: usize, n: usize) -> Option<usize>
    requires { (p + 12 ≤ length ws.now) × (y ≤ 384) × (n ≤ 384) }
    ensures { NextBit ws.now p y n result }
{
    if n <= y {
        return None;
    }
    let w = ws[p + y / 32] >> (y % 32);
    if w == 0 {
        return first_on(ws, p, y / 32 + 1, n);
    }
    let i = y + w.trailing_zeros() as usize;
    if i < n { Some(i) } else { None }
}

// Row x takes what row y has, to which its node leads; whether that changed it.
fn take(ws: &mut [u32], n: usize, m: usize, x: usize, y: usize) -> bool
    requires { Room n m x ws.old × (y < n) × (on ws.old (m + 12 * x) y ≡ true) }
    ensures { Takes n m x y ws.old ws.new result }
{
    if y == x {
        return false;
    }
    join(
        ws,
        m + layout::BEHIND + layout::ROW * x,
        m + layout::BEHIND + layout::ROW * y,
    )
}

// Row x takes what the rows have to which its node leads; whether that changed it. The next node is looked for in the workspace that the body writes, so that
// no iterator can hold it.
fn gather(ws: &mut [u32], n: usize, m: usize, x: usize) -> bool
    requires { Room n m x ws.old }
    ensures { Taken n m x n ws.old ws.new result }
{
    let mut changed = false;
    let mut next = next_on(ws, m + layout::ROW * x, 0, n);
    while let Some(y) = next {
        changed |= take(ws, n, m, x, y);
        next = next_on(ws, m + layout::ROW * x, y + 1, n);
    }
    changed
}

// Row x takes what row z has, where their nodes reach each other.
fn pull(ws: &mut [u32], n: usize, m: usize, x: usize, z: usize)
    requires { Room n m x ws.old × Kin n m ws.old }
    ensures { Visited n m ws.old ws.new }
{
    if z < n
        && z != x
        && on(ws, layout::REACH + layout::ROW * x, z)
        && on(ws, layout::REACH + layout::ROW * z, x)
    {
        join(
            ws,
            m + layout::BEHIND + layout::ROW * x,
            m + layout::BEHIND + layout::ROW * z,
        );
    }
}

// Node y is finished, and its row takes what the row of its lowest has.
fn settle_one(ws: &mut [u32], t: &mut Search, n: usize, m: usize, y: usize)
    requires { Rows n m ws.old × Kin n m ws.old }
    ensures { Visited n m ws.old ws.new }
{
    if y < n {
        t.finish(y);
        pull(ws, n, m, y, t.lowest(y));
    }
}

// The nodes on the stack from height h on are a component: they are finished, from the first on.
fn settle(ws: &mut [u32], t: &mut Search, n: usize, m: usize, h: usize)
    requires { Rows n m ws.old × Kin n m ws.old }
    ensures { Visited n m ws.old ws.new }
{
    for q in h..t.height() {
        if let Some(y) = t.stacked(q) {
            settle_one(ws, t, n, m, y);
        }
    }
    t.cut(h);
}

// Leaves node x, which has a number and stands at height h: where it reaches no lower number it is the first of its component, which is settled.
// The lowest number that it reaches of those that are not finished.
fn leave(
    ws: &mut [u32],
    t: &mut Search,
    n: usize,
    m: usize,
    x: usize,
    h: usize,
    number: usize,
    low: usize,
) -> Option<usize>
    requires { Room n m x ws.old × Kin n m ws.old }
    ensures { Visited n m ws.old ws.new }
{
    t.keep_low(x, low);
    if low < number {
        return Some(low);
    }
    settle(ws, t, n, m, h);
    None
}

// The first node that x leads to.
fn first_child(ws: &[u32], n: usize, m: usize, x: usize) -> Option<usize>
    requires { Room n m x ws.now × Kin n m ws.now }
    ensures { WayOn n m x ws.now result }
{
    next_on(ws, m + layout::ROW * x, 0, n)
}

// Row x takes what row y has, to which its node leads; the next node that it leads to.
fn take_child(ws: &mut [u32], n: usize, m: usize, x: usize, y: usize) -> Option<usize>
    requires { Way n m x ws.old y × (y < n) }
    ensures { ChildsOn n m x y ws.old ws.new result }
{
    take(ws, n, m, x, y);
    next_on(ws, m + layout::ROW * x, y + 1, n)
}

// Row x takes what the rows have to which its node leads, each of which takes before it: in the order in which a depth-first search leaves the nodes,
// with Tarjan's numbers. At most `left` nodes deep; a node that was seen is not visited again. The lowest number reached of those that are not finished.
// The next node is looked for in the workspace that the body writes, so that no iterator can hold it.
fn visit(ws: &mut [u32], t: &mut Search, n: usize, m: usize, x: usize, left: usize) -> Option<usize>
    requires { Room n m x ws.old × Kin n m ws.old }
    ensures { Visited n m ws.old ws.new }
{
    if left == 0 || t.seen(x) {
        return t.number(x);
    }
    let h = t.height();
    let number = t.enter(x)?;
    let mut low = number;
    let mut next = first_child(ws, n, m, x);
    while let Some(y) = next {
        let reached = visit(ws, t, n, m, y, left - 1);
        next = take_child(ws, n, m, x, y);
        low = low.min(reached.unwrap_or(low));
    }
    leave(ws, t, n, m, x, h, number, low)
}

// All rows take, in depth-first order.
fn descend(ws: &mut [u32], n: usize, m: usize)
    requires { Rows n m ws.old × Kin n m ws.old }
    ensures { Visited n m ws.old ws.new }
{
    let mut t = Search::new();
    for x in 0..n {
        visit(ws, &mut t, n, m, x, n);
    }
}

// All rows take, by id; whether that changed any.
fn pass(ws: &mut [u32], n: usize, m: usize) -> bool
    requires { Rows n m ws.old }
    ensures { Passed n m n ws.old ws.new result }
{
    let mut changed = false;
    for x in 0..n {
        changed |= gather(ws, n, m, x);
    }
    changed
}

// What the n rows at m + BEHIND have spreads along the relation of the rows at m. Depth-first order and Tarjan's numbers are there for speed:
// with them one turn is enough. That nothing more changes is found by a pass over all rows, and nothing of the order is relied upon.
pub fn spread(ws: &mut [u32], n: usize, m: usize)
    requires { Rows n m ws.old × Kin n m ws.old }
    ensures { Spread n m ws.old ws.new }
{
    // How many turns it takes is not known before: until nothing changes.
    loop {
        descend(ws, n, m);
        if !pass(ws, n, m) {
            return;
        }
    }
}
