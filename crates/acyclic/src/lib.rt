// Checks 9 and 13: no type of a table reaches itself. A table takes time linear in its nodes and cells: each node is finished once,
// and the first way down of as many steps as there are nodes ends the walk. Calls nest no deeper than the table has nodes.
#![tactic(auto)]

ghost use Rattle.std.specs.Prelude.{◌≡◌, ◌+◌, ◌<◌, ◌≤◌, T, length, set};
ghost use Rattle.rules.specs.Sheet.{at, chain};
ghost use Rattle.rules.specs.Layout.{question_table};
ghost use Rattle.rules.specs.Values.{sheet_values};
ghost use Rattle.rules.specs.Transfer.{table};
ghost use Rattle.rules.specs.Acyclic.{acyclic, sheet_acyclic, question_acyclic};
ghost use Rattle.acyclic.specs.Nodes.{children_head, cell_node, Inside};
ghost use Rattle.acyclic.specs.Sheets.{all_acyclic, AllInside, Outside};
ghost use Rattle.acyclic.specs.Walk.{Walking, Walked};

use chart::layout;

// The head of the children of the node at a place: an unknown has none. One kind alone is told from the others, so its number is compared and no `Kind` made.
fn children_head(s: &[u32], p: usize) -> usize
    ensures { result ≡ children_head s.now p }
{
    if chart::field_at(s, p, layout::NODE_KIND) == layout::KIND_UNKNOWN {
        return 0;
    }
    chart::field_at(s, p, layout::NODE_CHILDREN)
}

// The node that a cell names.
fn cell_node(s: &[u32], c: usize) -> usize
    ensures { result ≡ cell_node s.now c }
{
    chart::field_at(s, c, layout::CELL_TYPE) / 2
}

// Marks a node as finished.
fn finish(ws: &mut [u32], node: usize)
    ensures { ws.new ≡ set ws.old node 0 }
{
    if node < ws.len() {
        ws[node] = 0;
    }
}

// Walks down from a node and finishes all that it reaches; false where there is a way down of `fuel` steps.
// Word n of the buffer is the place of node n, and 0 once it is finished.
#[tactic(auto, using(crate::specs::Walk::walked_before))]
fn walk(s: &[u32], ws: &mut [u32], head: u32, node: usize, fuel: usize) -> bool
    requires walking { Walking s.now head ws.old }
    requires node_in_bounds { node < length (chain s.now head) }
    ensures { Walked s.now head node fuel ws.old ws.new result }
{
    let place = words::next(ws, node);
    if place == 0 {
        return true;
    }
    if fuel == 0 {
        return false;
    }
    for cell in words::records(s, children_head(s, place)) {
        let below = cell_node(s, cell);
        // What is finished is passed over here: a call for each cell would take twice the time.
        let open = words::next(ws, below) != 0;
        if open && !walk(s, ws, head, below, fuel - 1) {
            return false;
        }
    }
    finish(ws, node);
    true
}

// Slice and buffer stay two parameters from here on: a struct of both, lent by `&mut`, would have to promise in each contract that the slice stays.

// Whether no type of the table from a head reaches itself, with a buffer as long as the slice.
fn walk_table(s: &[u32], head: u32, ws: &mut [u32]) -> bool
    requires s_in_bounds { length s.now ≤ length ws.old }
    requires inside { Inside s.now head }
    ensures { result ≡ acyclic (table s.now head) }
{
    let n = chart::index_chain(s, head, ws, 0);
    for node in 0..n {
        if !walk(s, ws, head, node, n) {
            return false;
        }
    }
    true
}

// Whether no type of the table from a head reaches itself. The buffer's words from b on are used, as many as the slice has.
pub fn acyclic_table(s: &[u32], head: u32, ws: &mut [u32], b: usize) -> bool
    requires inside { Inside s.now head }
    requires s_in_bounds { b + length s.now ≤ length ws.old }
    ensures value { result ≡ acyclic (table s.now head) }
    ensures outside { Outside b (length s.now) ws.old ws.new }
{
    let e = b + s.len();
    walk_table(s, head, &mut ws[b..e])
}

// Whether that holds of the tables that word k of a chain's records heads.
fn walk_tables(s: &[u32], head: usize, k: usize, ws: &mut [u32]) -> bool
    requires all_inside { AllInside s.now k (chain s.now head) }
    requires s_in_bounds { length s.now ≤ length ws.old }
    ensures { result ≡ all_acyclic s.now k (chain s.now head) }
{
    for place in words::records(s, head) {
        let table = words::offset(s, place, k);
        if !walk_table(s, table, ws) {
            return false;
        }
    }
    true
}

// Whether it holds of the tables of all generics and of all impls.
fn walk_sheet(s: &[u32], ws: &mut [u32]) -> bool
    requires t { T (sheet_values s.now) }
    requires s_in_bounds { length s.now ≤ length ws.old }
    ensures { result ≡ sheet_acyclic s.now }
{
    let generics = words::next(s, layout::GENERICS);
    let impls = words::next(s, layout::IMPLS);
    walk_tables(s, generics, layout::GENERICS_TABLE, ws)
        && walk_tables(s, impls, layout::IMPL_TABLE, ws)
}

// Check 9, of a sheet that passed 8. The buffer's words from b on are used, as many as the sheet has.
pub fn sheet_acyclic(s: &[u32], ws: &mut [u32], b: usize) -> bool
    requires t { T (sheet_values s.now) }
    requires s_in_bounds { b + length s.now ≤ length ws.old }
    ensures value { result ≡ sheet_acyclic s.now }
    ensures outside { Outside b (length s.now) ws.old ws.new }
{
    let e = b + s.len();
    walk_sheet(s, &mut ws[b..e])
}

// Check 13, of a question that passed 12. The buffer's words from b on are used, as many as the question has.
pub fn question_acyclic(q: &[u32], ws: &mut [u32], b: usize) -> bool
    requires inside { Inside q.now (at q.now question_table) }
    requires q_in_bounds { b + length q.now ≤ length ws.old }
    ensures value { result ≡ question_acyclic q.now }
    ensures outside { Outside b (length q.now) ws.old ws.new }
{
    let head = words::word(q, layout::QUESTION_TABLE);
    acyclic_table(q, head, ws, b)
}
