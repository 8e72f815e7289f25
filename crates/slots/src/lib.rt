// Results of a search (`TypeCtx` of the Rust) in slots of one lent slice: a slot holds a type table and, behind it, trees of impls.
// A question's part of the slice has the table that is asked about in slot 0 and its results in slots 1 to 4.
#![tactic(auto)]

ghost use Rattle.std.specs.Prelude.{◌≡◌, ◌+◌, ◌*◌, ◌<◌, ◌≤◌, length, drop};
ghost use Rattle.rules.specs.Sheet.{at};
ghost use Rattle.rules.specs.Search.{end, leaf};
ghost use Rattle.table.specs.Packing.{types_of, Packed};
ghost use Rattle.slots.specs.Slots.{Slot, Slots, Written};
ghost use Rattle.slots.specs.Copies.{Beside, Filled, Tabled, Doubles};
ghost use Rattle.slots.specs.Adding.{Aside, Adds, Gives, plain, under, Element, Joined, Joins};
ghost use Rattle.slots.specs.Gathering.{Row, Gathers, JoinGathers};
ghost use Rattle.slots.specs.Settling.{Sub, Settles, JoinSettles};

use refusals::{Refusal, Stopped};

// The words of a slot, and where its trees stand in it.
pub const SLOT: usize = 1282;

pub const TREES: usize = 1025;

// The most nodes of a result's trees, and the most results.
const NODES: usize = 256;

const RESULTS: usize = 4;

// What a search found: how many results there are, and the count of steps after it.
#[derive(Clone, Copy, Debug, PartialEq, Eq)]
pub struct Results {
    pub n: usize,
    pub count: u32,
}

// How many nodes the table at a place has.
fn nodes(ws: &[u32], a: usize) -> usize
    requires { Packed (drop a ws.now) }
    ensures is { result ≡ at ws.now a }
    ensures few { result ≤ 256 }
    ensures room { a + 1025 ≤ length ws.now }
{
    words::next(ws, a)
}

// Copies a table to another slot: the words of the nodes that it has.
fn copy_table(ws: &mut [u32], from: usize, to: usize)
    requires packed { Packed (drop from ws.old) }
    requires to_in_bounds { to + 1282 ≤ length ws.old }
    requires beside { Beside from to }
    ensures { Tabled ws.old ws.new from to }
{
    let n = nodes(ws, from);
    trees::carry_within(ws, from, to, 4 * n + 1)
}

// Copies a table to another slot, without trees.
pub fn copy_table_slot(ws: &mut [u32], from: usize, to: usize)
    requires packed { Packed (drop from ws.old) }
    requires to_in_bounds { to + 1282 ≤ length ws.old }
    requires beside { Beside from to }
    ensures { Written ws.old ws.new to (types_of (drop from ws.old), end) }
{
    copy_table(ws, from, to);
    trees::clear(ws, to + TREES)
}

// Copies a slot: the words that its table and its trees have.
pub fn copy_slot(ws: &mut [u32], from: usize, to: usize)
    requires filled { Filled ws.old from }
    requires to_in_bounds { to + 1282 ≤ length ws.old }
    requires beside { Beside from to }
    ensures { Doubles ws.old ws.new from to }
{
    copy_table(ws, from, to);
    trees::copy_within(ws, from + TREES, to + TREES)
}

// How many nodes the trees of a slot have.
fn trees_size(ws: &[u32], a: usize) -> usize
    requires { Filled ws.now a }
    ensures is { result ≡ at ws.now (a + 1025) }
    ensures few { result ≤ 256 }
{
    words::next(ws, a + TREES)
}

// Adds a result, as it stands in a slot, behind n.
pub fn add_result(ws: &mut [u32], n: usize, from: usize) -> Result<(), Refusal>
    requires n_bound { n ≤ 4 }
    requires le_from { 6410 ≤ from }
    requires filled { Filled ws.old from }
    ensures { Gives plain ws.old ws.new n from result }
{
    if n == RESULTS {
        return Err(Refusal::ResultsFull);
    }
    copy_slot(ws, from, SLOT + SLOT * n);
    Ok(())
}

// Adds a result of sub-questions behind n, under the Def of an impl.
pub fn add_wrapped(ws: &mut [u32], n: usize, from: usize, id: u32) -> Result<(), Refusal>
    requires n_bound { n ≤ 4 }
    requires le_from { 6410 ≤ from }
    requires filled { Filled ws.old from }
    requires id_bound { id < 4096 }
    ensures { Gives (under id) ws.old ws.new n from result }
{
    if n == RESULTS {
        return Err(Refusal::ResultsFull);
    }
    if NODES <= trees_size(ws, from) {
        return Err(Refusal::TreesFull);
    }
    let to = SLOT + SLOT * n;
    copy_slot(ws, from, to);
    trees::wrap(ws, to + TREES, id);
    Ok(())
}

// Writes to a slot the types of one result and its trees behind the tree of another.
fn join(ws: &mut [u32], element: usize, from: usize, to: usize)
    requires element { Element ws.old element }
    requires filled { Filled ws.old from }
    requires to_in_bounds { to + 1282 ≤ length ws.old }
    requires beside { Beside element to }
    requires beside_2 { Beside from to }
    requires from_bound { at ws.old (element + 1025) + at ws.old (from + 1025) ≤ 256 }
    ensures { Joined ws.old ws.new element from to }
{
    copy_table(ws, from, to);
    trees::copy_within(ws, element + TREES, to + TREES);
    trees::append_within(ws, from + TREES, to + TREES)
}

// Adds a result of the sub-questions that are left behind n: its trees behind the tree of the element that they were asked of.
pub fn add_joined(ws: &mut [u32], n: usize, element: usize, from: usize) -> Result<(), Refusal>
    requires n_bound { n ≤ 4 }
    requires le_element { 6410 ≤ element }
    requires le_from { 6410 ≤ from }
    requires element { Element ws.old element }
    requires filled { Filled ws.old from }
    ensures { Joins ws.old ws.new n element from result }
{
    if n == RESULTS {
        return Err(Refusal::ResultsFull);
    }
    let first = trees_size(ws, element);
    let rest = trees_size(ws, from);
    if NODES < first + rest {
        return Err(Refusal::TreesFull);
    }
    join(ws, element, from, SLOT + SLOT * n);
    Ok(())
}

// Adds the types that stand in a slot with a leaf behind n.
pub fn add_leaf(ws: &mut [u32], n: usize, from: usize, kind: u32, id: u32) -> Result<(), Refusal>
    requires n_bound { n ≤ 4 }
    requires packed { Packed (drop from ws.old) }
    requires aside { Aside from n }
    requires in_bounds { 6410 ≤ length ws.old }
    requires kind_bound { kind < 8 }
    requires id_bound { id < 4096 }
    ensures { Adds ws.old ws.new n (types_of (drop from ws.old), leaf kind id) result }
{
    if n == RESULTS {
        return Err(Refusal::ResultsFull);
    }
    let to = SLOT + SLOT * n;
    copy_table(ws, from, to);
    trees::put_leaf(ws, to + TREES, kind, id);
    Ok(())
}

// Adds the results of sub-questions behind n, each under the Def of an impl.
fn gather_wrapped(
    ws: &mut [u32],
    n: usize,
    from: usize,
    sub: Results,
    id: u32,
) -> Result<Results, Stopped>
    requires n_bound { n ≤ 4 }
    requires sub_n_bound { sub.n ≤ 4 }
    requires le_from { 6410 ≤ from }
    requires from_in_bounds { from + 5128 ≤ length ws.old }
    requires row { Row ws.old from sub.n }
    requires sub_count_bound { sub.count ≤ 4000000000 }
    requires id_bound { id < 4096 }
    ensures { Gathers (under id) ws.old ws.new n from sub result }
{
    let count = sub.count;
    let mut found = n;
    for k in 0..sub.n {
        if let Err(refusal) = add_wrapped(ws, found, from + SLOT * k, id) {
            return Err(Stopped { refusal, count });
        }
        found += 1;
    }
    Ok(Results { n: found, count })
}

// Adds the results of the sub-questions that are left behind n, each behind the tree of the element that they were asked of.
// (One function for both ways to add, with a closure, would have to say that the element still stands at each call: no plainer.)
fn gather_joined(
    ws: &mut [u32],
    n: usize,
    element: usize,
    from: usize,
    sub: Results,
) -> Result<Results, Stopped>
    requires n_bound { n ≤ 4 }
    requires sub_n_bound { sub.n ≤ 4 }
    requires le_element { 6410 ≤ element }
    requires le_from { 6410 ≤ from }
    requires from_in_bounds { from + 5128 ≤ length ws.old }
    requires element { Element ws.old element }
    requires row { Row ws.old from sub.n }
    requires sub_count_bound { sub.count ≤ 4000000000 }
    ensures { JoinGathers ws.old ws.new n element from sub result }
{
    let count = sub.count;
    let mut found = n;
    for k in 0..sub.n {
        if let Err(refusal) = add_joined(ws, found, element, from + SLOT * k) {
            return Err(Stopped { refusal, count });
        }
        found += 1;
    }
    Ok(Results { n: found, count })
}

// Adds what sub-questions answered behind n, each result under the Def of an impl; a refusal is handed on.
pub fn settle_wrapped(
    ws: &mut [u32],
    asked: Result<Results, Stopped>,
    n: usize,
    from: usize,
    id: u32,
) -> Result<Results, Stopped>
    requires n_bound { n ≤ 4 }
    requires le_from { 6410 ≤ from }
    requires from_in_bounds { from + 5128 ≤ length ws.old }
    requires sub { Sub ws.old from asked }
    requires id_bound { id < 4096 }
    ensures { Settles (under id) ws.old ws.new n from asked result }
{
    let sub = asked?;
    gather_wrapped(ws, n, from, sub, id)
}

// Adds what the sub-questions that are left answered behind n, each result behind the tree of an element; a refusal is handed on.
pub fn settle_joined(
    ws: &mut [u32],
    asked: Result<Results, Stopped>,
    n: usize,
    element: usize,
    from: usize,
) -> Result<Results, Stopped>
    requires n_bound { n ≤ 4 }
    requires le_element { 6410 ≤ element }
    requires le_from { 6410 ≤ from }
    requires from_in_bounds { from + 5128 ≤ length ws.old }
    requires element { Element ws.old element }
    requires sub { Sub ws.old from asked }
    ensures { JoinSettles ws.old ws.new n element from asked result }
{
    let sub = asked?;
    gather_joined(ws, n, element, from, sub)
}
