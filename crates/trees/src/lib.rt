// Trees of impls (`TirImpl` of the Rust) in a lent slice of words, for the results of a search: a count of nodes, and a word for each, in pre-order.
// Only the functions of this file know where the words stand.
// A buffer is named by its place, since all that a search keeps lies in one lent workspace: two buffers of it are in use at once, and could not be lent as two
// slices without being split off at each call. For the same reason `copy` and `append` each have a twin for buffers of one slice, which is lent but once.
#![tactic(auto)]

ghost use Rattle.std.specs.Prelude.{◌≡◌, ◌+◌, ◌*◌, ◌<◌, ◌≤◌, length};
ghost use Rattle.rules.specs.Sheet.{at};
ghost use Rattle.rules.specs.Limits.{limit_tree_nodes};
ghost use Rattle.rules.specs.Search.{end, leaf};
ghost use Rattle.trees.specs.Forests.{trees_length, node_word, word_kind, word_id, word_below, Held, Apart};
ghost use Rattle.trees.specs.Carries.{Carries};
ghost use Rattle.trees.specs.Changes.{Copies, Appends, Wraps};

// The words of a buffer: the count, and room for 256 nodes.
pub const TREES: usize = 257;

// The kind of a Def. (A leaf's kind may be any number below 8, so kinds stay numbers here.)
const DEF: u32 = 2;

// How many kinds and ids there is room for in a node's word.
const KINDS: u32 = 8;

const IDS: u32 = 4096;

// Carries n words from one slice into another.
pub fn carry(from: &[u32], a: usize, to: &mut [u32], b: usize, n: usize)
    requires n_in_bounds { a + n ≤ length from.now }
    requires n_in_bounds_2 { b + n ≤ length to.old }
    ensures { Carries from.now to.old to.new a b n }
{
    to[b..b + n].copy_from_slice(&from[a..a + n]);
}

// Carries n words within a slice.
pub fn carry_within(ws: &mut [u32], a: usize, b: usize, n: usize)
    requires n_in_bounds { a + n ≤ length ws.old }
    requires n_in_bounds_2 { b + n ≤ length ws.old }
    ensures { Carries ws.old ws.old ws.new a b n }
{
    ws.copy_within(a..a + n, b);
}

// How many nodes the trees of the buffer at b have.
pub fn size(ws: &[u32], b: usize) -> u32
    ensures { result ≡ at ws.now b }
{
    words::word(ws, b)
}

// The word of a node.
fn node(kind: u32, id: u32, below: u32) -> u32
    requires kind_bound { kind < 8 }
    requires id_bound { id < 4096 }
    requires below_le_limit_tree_nodes { below ≤ limit_tree_nodes }
    ensures { result ≡ node_word kind id below }
{
    kind + KINDS * (id + IDS * below)
}

// Makes a buffer without trees.
pub fn clear(ws: &mut [u32], b: usize)
    requires { b + trees_length ≤ length ws.old }
    ensures { Held ws.old ws.new b end }
{
    ws[b] = 0;
}

// Makes a buffer with one leaf: a Param, a closure, duplicate or erase.
pub fn put_leaf(ws: &mut [u32], b: usize, kind: u32, id: u32)
    requires trees_length_in_bounds { b + trees_length ≤ length ws.old }
    requires kind_bound { kind < 8 }
    requires id_bound { id < 4096 }
    ensures { Held ws.old ws.new b (leaf kind id) }
{
    let w = node(kind, id, 0);
    ws[b] = 1;
    ws[b + 1] = w;
}

// Copies trees to a buffer apart.
pub fn copy_within(ws: &mut [u32], a: usize, b: usize)
    requires trees_length_in_bounds { a + trees_length ≤ length ws.old }
    requires trees_length_in_bounds_2 { b + trees_length ≤ length ws.old }
    requires a_bound { at ws.old a ≤ limit_tree_nodes }
    requires apart { Apart a b }
    ensures { Copies ws.old ws.old ws.new a b }
{
    let n = words::next(ws, a);
    carry_within(ws, a, b, n + 1)
}

// Copies trees to a buffer of another slice.
pub fn copy(from: &[u32], a: usize, to: &mut [u32], b: usize)
    requires trees_length_in_bounds { a + trees_length ≤ length from.now }
    requires trees_length_in_bounds_2 { b + trees_length ≤ length to.old }
    requires a_bound { at from.now a ≤ limit_tree_nodes }
    ensures { Copies from.now to.old to.new a b }
{
    let n = words::next(from, a);
    carry(from, a, to, b, n + 1)
}

// Puts the trees of the buffer at a behind the tree of that at b.
pub fn append_within(ws: &mut [u32], a: usize, b: usize)
    requires trees_length_in_bounds { a + trees_length ≤ length ws.old }
    requires trees_length_in_bounds_2 { b + trees_length ≤ length ws.old }
    requires a_bound { at ws.old b + at ws.old a ≤ limit_tree_nodes }
    requires apart { Apart a b }
    ensures { Appends ws.old ws.old ws.new a b }
{
    let n = words::next(ws, b);
    let m = words::next(ws, a);
    carry_within(ws, a + 1, b + 1 + n, m);
    ws[b] = (n + m) as u32;
}

// Puts the trees of a buffer of another slice behind the tree of the buffer at b.
pub fn append(from: &[u32], a: usize, to: &mut [u32], b: usize)
    requires trees_length_in_bounds { a + trees_length ≤ length from.now }
    requires trees_length_in_bounds_2 { b + trees_length ≤ length to.old }
    requires a_bound { at to.old b + at from.now a ≤ limit_tree_nodes }
    ensures { Appends from.now to.old to.new a b }
{
    let n = words::next(to, b);
    let m = words::next(from, a);
    carry(from, a + 1, to, b + 1 + n, m);
    to[b] = (n + m) as u32;
}

// Puts a Def over the trees of the buffer at b.
pub fn wrap(ws: &mut [u32], b: usize, id: u32)
    requires trees_length_in_bounds { b + trees_length ≤ length ws.old }
    requires b_bound { at ws.old b < limit_tree_nodes }
    requires id_bound { id < 4096 }
    ensures { Wraps ws.old ws.new b id }
{
    let n = words::next(ws, b);
    let w = node(DEF, id, n as u32);
    carry_within(ws, b + 1, b + 2, n);
    ws[b] = n as u32 + 1;
    ws[b + 1] = w;
}

// Of the node whose word stands at a place: its kind,
pub fn kind(ws: &[u32], i: usize) -> u32
    ensures { result ≡ word_kind (at ws.now i) }
{
    words::word(ws, i) % KINDS
}

// its id,
pub fn id(ws: &[u32], i: usize) -> u32
    ensures { result ≡ word_id (at ws.now i) }
{
    words::word(ws, i) / KINDS % IDS
}

// and how many nodes the trees below it have.
pub fn below(ws: &[u32], i: usize) -> usize
    ensures { result ≡ word_below (at ws.now i) }
{
    (words::word(ws, i) / (KINDS * IDS)) as usize
}
