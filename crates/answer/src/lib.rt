// The answer's words: trees, types and flags of a call, written into a lent answer buffer.
#![tactic(auto)]

ghost use Rattle.std.specs.Prelude.{◌≡◌, [], ◌∷◌, ◌+◌, ◌-◌, ◌*◌, ◌<◌, ◌≤◌, min, length};
ghost use Rattle.rules.specs.Sheet.{at};
ghost use Rattle.rules.specs.Limits.{limit_answer, limit_nodes, limit_tree_nodes};
ghost use Rattle.rules.specs.Lists.{bit as bit_of};
ghost use Rattle.rules.specs.AcyclicLaws.{children_at};
ghost use Rattle.rules.specs.Answer.{pack_cells};
ghost use Rattle.table.specs.Packing.{types_of, kind_at, inverted_at, id_at};
ghost use Rattle.answer.specs.Writing.{Wrote, link_of};
ghost use Rattle.trees.specs.Forests.{trees_length, word_kind, word_id};
ghost use Rattle.answer.specs.Nodes.{Noded, Nodes};
ghost use Rattle.answer.specs.Records.{Packs};
ghost use Rattle.answer.specs.Whole.{Treed, Typed, Body, heads_of, Answers};

use chart::layout;

// A head or a next: the place p, or 0 where nothing is left.
#[tactic(auto, using(crate::specs::Writing::link_none, crate::specs::Writing::link_some))]
fn link(left: usize, p: usize) -> u32
    requires { p < 65536 }
    ensures { result ≡ link_of left p }
{
    if left == 0 { 0 } else { p as u32 }
}

// Writes words from a place on: `copy_from_slice`, with the contract that each record's writer needs.
fn put(out: &mut [u32], p: usize, from: &[u32])
    requires { p + length from.now ≤ length out.old }
    ensures { Wrote out.old out.new p from.now }
{
    out[p..p + from.len()].copy_from_slice(from)
}

// How many children node n has: at most eight.
fn arity(table: &[u32], n: u32) -> usize
    ensures is { result ≡ length (children_at (types_of table.now) n) }
    ensures few { result ≤ 8 }
{
    table::child_count(table, n)
}

// Writes the cells of the children of node n: next and type word of each.
fn pack_cells(table: &[u32], n: u32, out: &mut [u32], p: usize)
    requires p_in_bounds { p + 16 ≤ length out.old }
    requires p_bound { p < 32768 }
    ensures { Wrote out.old out.new p (pack_cells p (children_at (types_of table.now) n)) }
{
    let k = arity(table, n);
    for j in 0..k {
        let q = p + layout::CELL_LENGTH * j;
        let next = link(k - (j + 1), q + layout::CELL_LENGTH);
        put(out, q, &[next, table::child(table, n, j)]);
    }
}

// Writes the record of node n, behind which so many are left, and which has k children: next, kind, inverted, id, child head.
fn put_record(table: &[u32], n: u32, left: usize, k: usize, out: &mut [u32], p: usize)
    requires p_in_bounds { p + 21 ≤ length out.old }
    requires p_bound { p < 16384 }
    requires k_bound { k ≤ 8 }
    ensures { Wrote out.old out.new p (link_of left (p + 5 + 2 * k) ∷ kind_at (types_of table.now) n ∷ bit_of (inverted_at (types_of table.now) n) ∷ id_at (types_of table.now) n ∷ link_of k (p + 5) ∷ []) }
{
    let cells = p + layout::NODE_LENGTH;
    let next = link(left, cells + layout::CELL_LENGTH * k);
    let kind = table::kind_of(table, n);
    let inverted = u32::from(table::inverted_of(table, n));
    let id = table::id_of(table, n);
    put(out, p, &[next, kind, inverted, id, link(k, cells)])
}

// Writes node n, behind which so many are left, and its cells. The result is the place behind them.
fn pack_node(table: &[u32], n: u32, left: usize, out: &mut [u32], p: usize) -> usize
    requires p_in_bounds { p + 21 ≤ length out.old }
    requires p_bound { p < 16384 }
    requires left_value { left ≡ length (types_of table.now) - (n + 1) }
    ensures { Noded (types_of table.now) out.old out.new n p result }
{
    let k = arity(table, n);
    put_record(table, n, left, k, out, p);
    let cells = p + layout::NODE_LENGTH;
    pack_cells(table, n, out, cells);
    cells + layout::CELL_LENGTH * k
}

// Writes the nodes of a table. The result is the place behind them.
fn pack_nodes(table: &[u32], out: &mut [u32], p: usize) -> usize
    requires p_in_bounds { p + 5376 ≤ length out.old }
    requires p_bound { p < 8192 }
    ensures { Nodes (types_of table.now) out.old out.new p result }
{
    let count = table::count(table);
    let mut q = p;
    for n in 0..count {
        let left = count - (n + 1);
        q = pack_node(table, n, left as usize, out, q);
    }
    q
}

// Writes the record of the tree whose word stands at lo: m nodes are below it, and so many behind those: next sibling, kind, id, child head.
fn put_tree_record(ws: &[u32], lo: usize, m: usize, left: usize, out: &mut [u32], p: usize)
    requires p_in_bounds { p + 4 ≤ length out.old }
    requires m_bound { p + 4 + 4 * m < 65536 }
    ensures { Wrote out.old out.new p (link_of left (p + 4 + 4 * m) ∷ word_kind (at ws.now lo) ∷ word_id (at ws.now lo) ∷ link_of m (p + 4) ∷ []) }
{
    let inner = p + layout::TREE_LENGTH;
    let next = link(left, inner + layout::TREE_LENGTH * m);
    let kind = trees::kind(ws, lo);
    let id = trees::id(ws, lo);
    put(out, p, &[next, kind, id, link(m, inner)])
}

// Writes the records of the trees whose words stand from lo up to hi.
fn pack_trees(ws: &[u32], lo: usize, hi: usize, out: &mut [u32], p: usize)
    requires lo_le_hi { lo ≤ hi }
    requires hi_in_bounds { hi ≤ length ws.now }
    requires lo_in_bounds { p + 4 * (hi - lo) ≤ length out.old }
    requires lo_bound { p + 4 * (hi - lo) < 65536 }
    ensures { Packs ws.now lo hi out.old out.new p }
{
    if lo == hi {
        return;
    }
    let rest = hi - lo - 1;
    let m = trees::below(ws, lo).min(rest);
    let e = lo + 1 + m;
    put_tree_record(ws, lo, m, rest - m, out, p);
    let inner = p + layout::TREE_LENGTH;
    pack_trees(ws, lo + 1, e, out, inner);
    pack_trees(ws, e, hi, out, inner + layout::TREE_LENGTH * m)
}

// Writes the trees of a buffer. The result is the place behind them.
fn write_trees(ws: &[u32], out: &mut [u32], p: usize) -> usize
    requires trees_length_in_bounds { trees_length ≤ length ws.now }
    requires bound { at ws.now 0 ≤ limit_tree_nodes }
    requires p_in_bounds { p + 1024 ≤ length out.old }
    requires p_bound { p < 8192 }
    ensures { Treed ws.now 0 out.old out.new p result }
{
    let n = words::next(ws, 0);
    pack_trees(ws, 1, 1 + n, out, p);
    p + layout::TREE_LENGTH * n
}

// Writes the type words. The result is the place behind them.
fn write_types(types: &[u32], out: &mut [u32], p: usize) -> usize
    requires types_len_bound { length types.now ≤ limit_nodes }
    requires p_in_bounds { p + 256 ≤ length out.old }
    ensures { Typed types.now out.old out.new p result }
{
    put(out, p, types);
    p + types.len()
}

// Writes the answer behind its first six words: trees, nodes, type words. The result is the place behind them.
fn write_body(fork: &[u32], drop: &[u32], table: &[u32], types: &[u32], out: &mut [u32]) -> usize
    requires trees_length_in_bounds { trees_length ≤ length fork.now }
    requires fork_bound { at fork.now 0 ≤ limit_tree_nodes }
    requires trees_length_in_bounds_2 { trees_length ≤ length drop.now }
    requires drop_bound { at drop.now 0 ≤ limit_tree_nodes }
    requires types_len_bound { length types.now ≤ limit_nodes }
    requires limit_answer_in_bounds { limit_answer ≤ length out.old }
    ensures { Body fork.now 0 drop.now 0 (types_of table.now) types.now out.old out.new result }
{
    let p = write_trees(fork, out, layout::ANSWER_LENGTH);
    let q = write_trees(drop, out, p);
    let e = pack_nodes(table, out, q);
    write_types(types, out, e)
}

// Writes the first six words: tree head, drop tree head, table head, words used, inverted, self-inverse. n and m tree nodes and c type nodes follow: the lengths
// of what was written behind them, of which nothing is read here.
fn write_head(
    n: usize,
    m: usize,
    c: usize,
    used: usize,
    inverted: bool,
    self_inverse: bool,
    out: &mut [u32],
)
    requires n_bound { n ≤ 256 }
    requires m_bound { m ≤ 256 }
    requires used_bound { used < 65536 }
    requires in_bounds { 6 ≤ length out.old }
    ensures { Wrote out.old out.new 0 (heads_of n m c used inverted self_inverse) }
{
    let p = layout::ANSWER_LENGTH + layout::TREE_LENGTH * n;
    let q = p + layout::TREE_LENGTH * m;
    let f = link(n, layout::ANSWER_LENGTH);
    let d = link(m, p);
    let t = link(c, q);
    put(
        out,
        0,
        &[
            f,
            d,
            t,
            used as u32,
            u32::from(inverted),
            u32::from(self_inverse),
        ],
    )
}

// Writes an answer, and gives how many words it has. The buffers fork and drop hold the two trees (for an impl call its tree and none);
// table and types are what exporting the caller's types gives for the question's nodes: the table, and a type word for each.
pub fn write_answer(
    fork: &[u32],
    drop: &[u32],
    inverted: bool,
    self_inverse: bool,
    table: &[u32],
    types: &[u32],
    out: &mut [u32],
) -> usize
    requires trees_length_in_bounds { trees_length ≤ length fork.now }
    requires fork_bound { at fork.now 0 ≤ limit_tree_nodes }
    requires trees_length_in_bounds_2 { trees_length ≤ length drop.now }
    requires drop_bound { at drop.now 0 ≤ limit_tree_nodes }
    requires types_len_bound { length types.now ≤ limit_nodes }
    requires limit_answer_in_bounds { limit_answer ≤ length out.old }
    ensures { Answers fork.now 0 drop.now 0 inverted self_inverse table.now types.now out.old out.new result }
{
    let used = write_body(fork, drop, table, types, out);
    let n = words::next(fork, 0);
    let m = words::next(drop, 0);
    let c = table::count(table) as usize;
    write_head(n, m, c, used, inverted, self_inverse, out);
    used
}
