// A type table (`Types` of the Rust) in a lent slice of words. Only the functions of this file know where its words stand.
// Types cross functions as type words: 2 * node, plus 1 if inverted.
// What a table's words are stands in each contract: tried, a struct that holds the `&mut` and says it is proved, but its callers learn nothing of the words behind it.
#![tactic(auto)]

ghost use Rattle.std.specs.Prelude.{◌≡◌, false, ◌+◌, ◌*◌, ◌/◌, ◌%◌, ◌<◌, ◌≤◌, length, get_or, set, [], map, ◌≢◌, eqb, IfSome, IfNone, MatchResult};
ghost use Rattle.rules.specs.Sheet.{at};
ghost use Rattle.rules.specs.Lists.{bit};
ghost use Rattle.rules.specs.Types.{unknown, known, new_node, node_at, xor as xor_of, invert_if, invert_state, find as find_in, state_at, size_at, relabel, or_else, hang as hang_in, join as join_in};
ghost use Rattle.rules.specs.Solutions.{rep};
ghost use Rattle.rules.specs.AcyclicLaws.{children_at};
ghost use Rattle.rules.specs.Transfer.{type_of_word};
ghost use Rattle.rules.specs.Answer.{word_of_type};
ghost use Rattle.table.specs.Reads.{digit};
ghost use Rattle.rules.specs.Limits.{limit_nodes};
ghost use Rattle.table.specs.Packing.{table_length, types_of, node_from, with_head, Packed, Put, Rewritten, Pushes, Becomes, Roots, up_at, kind_at, inverted_at, id_at};
ghost use Rattle.table.specs.Joins.{moved, root_node};
ghost use Rattle.table.specs.Alike.{Matched, Alike};
ghost use Rattle.table.specs.Pushed.{pushed_number};
ghost use Rattle.table.specs.ChildTypes.{type_in, types_row, types_at, row_at, OwnArity, ChildTypes};

use refusals::Refusal;

mod fields;
mod known;

use fields::Head;
pub use known::KnownType;

// The words of a table of the most nodes, and its most nodes.
pub const TABLE: usize = 1025;

pub const NODES: u32 = 256;

// The most children of a node.
const MOST: usize = 8;

// The words of a node, counted from 1: a head, and three words of children, the last with the id above them. Word 0 of the table counts the nodes.
const NODE: usize = 4;

const HEAD: usize = 1;

const CHILDREN: usize = 2;

const MORE_CHILDREN: usize = 3;

const LAST_CHILDREN: usize = 4;

// Word k of node n.
fn field(ws: &[u32], n: u32, k: usize) -> u32
    ensures { result ≡ at ws.now (4 * n + k) }
{
    words::offset(ws, NODE * n as usize, k)
}

// How many nodes there are.
pub fn count(ws: &[u32]) -> u32
    ensures { result ≡ length (types_of ws.now) }
{
    words::word(ws, 0).min(NODES)
}

// The head of node n, if there is such a node.
fn head_of(ws: &[u32], n: u32) -> Option<Head>
    ensures there { IfSome result (λ h. n < length (types_of ws.now)) }
    ensures is { IfSome result (λ h. h.0 ≡ at ws.now (4 * n + 1)) }
    ensures past { IfNone result (length (types_of ws.now) ≤ n) }
{
    if n < count(ws) {
        Some(Head(field(ws, n, HEAD)))
    } else {
        None
    }
}

// The head of node n, if it is known.
fn known_head(ws: &[u32], n: u32) -> Option<Head>
    ensures known { IfSome result (λ h. kind_at (types_of ws.now) n ≢ 0) }
    ensures is { IfSome result (λ h. h.0 ≡ at ws.now (4 * n + 1)) }
    ensures none { IfNone result (kind_at (types_of ws.now) n ≡ 0) }
{
    let h = head_of(ws, n)?;
    if h.kind() == 0 {
        return None;
    }
    Some(h)
}

// Which type of its root node n is.
pub fn up_of(ws: &[u32], n: u32) -> u32
    ensures { result ≡ word_of_type (up_at (types_of ws.now) n) }
{
    match head_of(ws, n) {
        Some(h) => h.up(),
        None => 0,
    }
}

// The root of node n.
pub fn root_of(ws: &[u32], n: u32) -> u32
    ensures { result ≡ rep (types_of ws.now) n }
{
    up_of(ws, n) / 2
}

// The size of the class of root n.
pub fn size_of(ws: &[u32], n: u32) -> u32
    ensures is { result ≡ size_at (types_of ws.now) n }
    ensures small { result < 512 }
{
    match head_of(ws, n) {
        Some(h) => h.size(),
        None => 1,
    }
}

// The kind of node n; 0 where it is unknown.
pub fn kind_of(ws: &[u32], n: u32) -> u32
    ensures { result ≡ kind_at (types_of ws.now) n }
{
    match head_of(ws, n) {
        Some(h) => h.kind(),
        None => 0,
    }
}

// Whether node n is inverted; false where it is unknown.
pub fn inverted_of(ws: &[u32], n: u32) -> bool
    ensures { result ≡ inverted_at (types_of ws.now) n }
{
    match known_head(ws, n) {
        Some(h) => h.is_inverted(),
        None => false,
    }
}

// The id of node n; 0 where it is unknown.
pub fn id_of(ws: &[u32], n: u32) -> u32
    ensures { result ≡ id_at (types_of ws.now) n }
{
    let Some(h) = known_head(ws, n) else {
        return 0;
    };
    let z = field(ws, n, LAST_CHILDREN);
    if h.arity() == 0 { z } else { z / 262144 }
}

// How many children node n has.
pub fn child_count(ws: &[u32], n: u32) -> usize
    ensures { result ≡ length (children_at (types_of ws.now) n) }
{
    match known_head(ws, n) {
        Some(h) => MOST.min(h.arity() as usize),
        None => 0,
    }
}

// The j-th of three type words in a word.
fn digit_of(j: usize, w: u32) -> u32
    ensures { result ≡ digit j w }
{
    match j {
        0 => w % 512,
        1 => w / 512 % 512,
        _ => w / 262144 % 512,
    }
}

// Child j of node n.
pub fn child(ws: &[u32], n: u32, j: usize) -> u32
    ensures { result ≡ word_of_type (get_or (children_at (types_of ws.now) n) j (false, 0)) }
{
    if j < child_count(ws, n) {
        digit_of(j % 3, field(ws, n, CHILDREN + j / 3))
    } else {
        0
    }
}

// The first n of eight types: all eight are computed at once, without tests, so that they stand in no slice.
#[derive(Clone, Copy)]
pub struct Row {
    pub n: usize,
    pub types: [u32; 8],
}

// The type of a root that the type of a word below 512 is, read without tests.
fn type_read(ws: &[u32], t: u32) -> u32
    requires packed { Packed ws.now }
    requires t_bound { t < 512 }
    ensures { result ≡ word_of_type (type_in ws.now (type_of_word t)) }
{
    let u = Head(ws[NODE * (t / 2) as usize + HEAD]).up();
    u / 2 * 2 + (u + t) % 2
}

// The first n of the types of roots that the types in three words of children are.
fn types_read(ws: &[u32], n: usize, x: u32, y: u32, z: u32) -> Row
    requires { Packed ws.now }
    ensures { result ≡ types_row ws.now n x y z }
{
    let types = [
        type_read(ws, x % 512),
        type_read(ws, x / 512 % 512),
        type_read(ws, x / 262144 % 512),
        type_read(ws, y % 512),
        type_read(ws, y / 512 % 512),
        type_read(ws, y / 262144 % 512),
        type_read(ws, z % 512),
        type_read(ws, z / 512 % 512),
    ];
    Row { n, types }
}

// How many children node n with head h has, if it is its own root.
fn own_arity(h: Head, n: u32) -> Option<usize>
    ensures { IfSome result (OwnArity h.0 n) }
{
    if h.up() / 2 != n {
        return None;
    }
    let m = h.arity() as usize;
    if m <= MOST { Some(m) } else { None }
}

// The types of roots that the children of known node n are, read without tests, if the node is its own root.
#[tactic(auto, using(crate::specs::ChildTypes::known_words))]
pub fn child_types(ws: &[u32], n: u32) -> Option<Row>
    requires packed { Packed ws.now }
    requires n_nonzero { kind_at (types_of ws.now) n ≢ 0 }
    ensures { IfSome result (ChildTypes ws.now n) }
{
    let w = NODE * n as usize;
    let m = own_arity(Head(ws[w + HEAD]), n)?;
    Some(types_read(
        ws,
        m,
        ws[w + CHILDREN],
        ws[w + MORE_CHILDREN],
        ws[w + LAST_CHILDREN],
    ))
}

// How many children known node n has, if it is its own root.
#[tactic(auto, using(crate::specs::ChildTypes::known_words))]
pub fn own_children(ws: &[u32], n: u32) -> Option<usize>
    requires packed { Packed ws.now }
    requires n_nonzero { kind_at (types_of ws.now) n ≢ 0 }
    ensures { IfSome result (λ m. ChildTypes ws.now n (row_at ws.now n m)) }
{
    own_arity(Head(ws[NODE * n as usize + HEAD]), n)
}

// The type of a root that child j of node n is, read without tests.
pub fn child_type(ws: &[u32], n: u32, j: usize) -> u32
    requires packed { Packed ws.now }
    requires n_bound { n < 256 }
    requires j_bound { j < 8 }
    ensures { result ≡ at (types_at ws.now n) j }
{
    let w = ws[NODE * n as usize + (CHILDREN + j / 3)];
    type_read(ws, digit_of(j % 3, w))
}

// Whether a type is inverted.
pub fn is_inverted(t: u32) -> bool
    ensures { result ≡ (type_of_word t).0 }
{
    t % 2 == 1
}

// `invert_if`.
pub fn invert_if(inverted: bool, t: u32) -> u32
    ensures { result ≡ word_of_type (invert_if inverted (type_of_word t)) }
{
    t ^ u32::from(inverted)
}

// Whether children j of nodes x and y are of one root and side, that of y inverted or not, read without tests.
fn are_alike(ws: &[u32], x: u32, y: u32, j: usize, inverted: bool) -> bool
    requires packed { Packed ws.now }
    requires x_bound { x < 256 }
    requires y_bound { y < 256 }
    requires j_bound { j < 8 }
    ensures { result ≡ eqb (at (types_at ws.now x) j) (word_of_type (invert_if inverted (type_of_word (at (types_at ws.now y) j)))) }
{
    let a = child_type(ws, x, j);
    let b = child_type(ws, y, j);
    a == invert_if(inverted, b)
}

// The first child from i on, of m, at which nodes x and y have children that are not of one root and side, those of y inverted or not; m where there is none.
pub fn next_apart(ws: &[u32], x: u32, y: u32, i: usize, m: usize, inverted: bool) -> usize
    requires packed { Packed ws.now }
    requires cases { Matched (types_of ws.now) x y m }
    ensures { Alike (types_of ws.now) x y inverted i m result }
{
    for j in i..m {
        if !are_alike(ws, x, y, j, inverted) {
            return j;
        }
    }
    i.max(m)
}

// `find`: the type of a root that a type is.
pub fn find(ws: &[u32], t: u32) -> u32
    ensures { result ≡ word_of_type (find_in (types_of ws.now) (type_of_word t)) }
{
    invert_if(is_inverted(t), up_of(ws, t / 2))
}

// Writes the four words of node n.
fn put(ws: &mut [u32], n: u32, h: Head, x: u32, y: u32, z: u32)
    requires n_lt_limit_nodes { n < limit_nodes }
    requires table_length_in_bounds { table_length ≤ length ws.old }
    ensures { Put ws.old ws.new n (node_from h.0 x y z) }
{
    let w = n as usize;
    ws[NODE * w + HEAD] = h.0;
    ws[NODE * w + CHILDREN] = x;
    ws[NODE * w + MORE_CHILDREN] = y;
    ws[NODE * w + LAST_CHILDREN] = z;
}

// Writes the head of node n, and leaves its other words.
fn put_head(ws: &mut [u32], n: u32, h: Head)
    requires n_lt_limit_nodes { n < limit_nodes }
    requires table_length_in_bounds { table_length ≤ length ws.old }
    ensures { Put ws.old ws.new n (with_head h.0 ws.old n) }
{
    ws[NODE * n as usize + HEAD] = h.0;
}

// Writes a new unknown at node n.
fn write_unknown(ws: &mut [u32], n: u32)
    requires n_lt_limit_nodes { n < limit_nodes }
    requires table_length_in_bounds { table_length ≤ length ws.old }
    ensures { Put ws.old ws.new n (new_node n unknown) }
{
    put_head(ws, n, Head::new(0, false, 0, 2 * n, 1))
}

// Writes a new known type at node n.
fn write_known(ws: &mut [u32], n: u32, t: &KnownType)
    requires n_lt_limit_nodes { n < limit_nodes }
    requires table_length_in_bounds { table_length ≤ length ws.old }
    ensures { Put ws.old ws.new n (new_node n (known t.now.inverted t.now.kind t.now.id (map type_of_word t.now.children.now))) }
{
    let h = Head::new(t.kind, t.inverted, t.children.len() as u32, 2 * n, 1);
    put(ws, n, h, t.triple(0), t.triple(3), t.last())
}

// The number of the next node, where there is room for it.
#[tactic(auto, using(crate::specs::Nodes::types_few))]
fn next_number(ws: &[u32]) -> Result<u32, Refusal>
    ensures number { pushed_number result ≡ length (types_of ws.now) }
    ensures room { MatchResult result (λ n. n < limit_nodes) (λ refusal. refusal ≡ Refusal.TypesFull) }
{
    let n = count(ws);
    if n < NODES {
        Ok(n)
    } else {
        Err(Refusal::TypesFull)
    }
}

// `new_var`: pushes an unknown and gives its number. At the limit nothing changes.
pub fn new_var(ws: &mut [u32]) -> Result<u32, Refusal>
    requires { Packed ws.old }
    ensures pushes { Pushes ws.old ws.new unknown (pushed_number result) }
    ensures room { MatchResult result (λ n. n < limit_nodes) (λ refusal. refusal ≡ Refusal.TypesFull) }
{
    let n = next_number(ws)?;
    write_unknown(ws, n);
    ws[0] = n + 1;
    Ok(n)
}

// Pushes a known type and gives its number. At the limit nothing changes.
pub fn new_known(ws: &mut [u32], t: &KnownType) -> Result<u32, Refusal>
    requires { Packed ws.old }
    ensures pushes { Pushes ws.old ws.new (known t.now.inverted t.now.kind t.now.id (map type_of_word t.now.children.now)) (pushed_number result) }
    ensures room { MatchResult result (λ n. n < limit_nodes) (λ refusal. refusal ≡ Refusal.TypesFull) }
{
    let n = next_number(ws)?;
    write_known(ws, n, t);
    ws[0] = n + 1;
    Ok(n)
}

// Makes root n, a class of its own, known.
pub fn set_known(ws: &mut [u32], n: u32, t: &KnownType)
    requires packed { Packed ws.old }
    requires n_in_bounds { n < length (types_of ws.old) }
    requires n_value { rep (types_of ws.old) n ≡ n }
    requires n_value_2 { size_at (types_of ws.old) n ≡ 1 }
    ensures { Becomes ws.new (set (types_of ws.old) n (new_node n (known t.now.inverted t.now.kind t.now.id (map type_of_word t.now.children.now)))) }
{
    write_known(ws, n, t)
}

// Copies a table: the words of the nodes that it has.
pub fn copy_table(from: &[u32], to: &mut [u32])
    requires packed { Packed from.now }
    requires table_length_in_bounds { table_length ≤ length to.old }
    ensures { Becomes to.new (types_of from.now) }
{
    words::copy(from, to, NODE * count(from) as usize + 1)
}

// Makes a table without nodes.
pub fn clear_table(ws: &mut [u32])
    requires { table_length ≤ length ws.old }
    ensures { Becomes ws.new [] }
{
    ws[0] = 0;
}

// The type word of node n, inverted or not.
pub fn type_of(inverted: bool, n: u32) -> u32
    requires { n < limit_nodes }
    ensures is { result ≡ word_of_type (inverted, n) }
    ensures small { result < 512 }
{
    2 * n + u32::from(inverted)
}

// The head of a node.
fn head_at(ws: &[u32], n: u32) -> Head
    requires table_length_in_bounds { table_length ≤ length ws.now }
    requires n_lt_limit_nodes { n < limit_nodes }
    ensures { result.0 ≡ at ws.now (4 * n + 1) }
{
    Head(ws[NODE * n as usize + HEAD])
}

// Which type of its root node n is, where there is such a node.
fn up_there(ws: &[u32], n: u32) -> u32
    requires table_length_in_bounds { table_length ≤ length ws.now }
    requires n_in_bounds { n < length (types_of ws.now) }
    ensures { result ≡ word_of_type (up_at (types_of ws.now) n) }
{
    head_at(ws, n).up()
}

// Makes node n type u of its root.
fn set_up(ws: &mut [u32], n: u32, u: u32)
    requires table_length_in_bounds { table_length ≤ length ws.old }
    requires n_in_bounds { n < length (types_of ws.old) }
    requires u_bound { u < 512 }
    ensures { Rewritten ws.old ws.new (set (types_of ws.old) n (moved (type_of_word u) (node_at (types_of ws.old) n))) }
{
    let h = Head(field(ws, n, HEAD));
    put_head(ws, n, h.with_up(u))
}

// Node n, if it is of the class of root lo, goes into the class of which type t is.
fn relabel_node(ws: &mut [u32], n: u32, lo: u32, t: u32)
    requires table_length_in_bounds { table_length ≤ length ws.old }
    requires n_in_bounds { n < length (types_of ws.old) }
    requires t_bound { t < 512 }
    ensures { Rewritten ws.old ws.new (set (types_of ws.old) n (relabel lo (type_of_word t) (node_at (types_of ws.old) n))) }
{
    let u = up_there(ws, n);
    if u / 2 != lo {
        return;
    }
    let v = invert_if(is_inverted(u), t);
    set_up(ws, n, v)
}

// The class of root lo goes into the class of which type t is.
fn relabel_class(ws: &mut [u32], lo: u32, t: u32)
    requires table_length_in_bounds { table_length ≤ length ws.old }
    requires t_bound { t < 512 }
    ensures { Rewritten ws.old ws.new (map (relabel lo (type_of_word t)) (types_of ws.old)) }
{
    for i in 0..count(ws) {
        relabel_node(ws, i, lo, t);
    }
}

// `relabel_class`, where the root may be the only node of its class: it alone changes then.
fn relabel_members(ws: &mut [u32], lo: u32, t: u32)
    requires packed { Packed ws.old }
    requires lo_in_bounds { lo < length (types_of ws.old) }
    requires lo_value { rep (types_of ws.old) lo ≡ lo }
    requires t_bound { t < 512 }
    ensures { Rewritten ws.old ws.new (map (relabel lo (type_of_word t)) (types_of ws.old)) }
{
    if size_of(ws, lo) != 1 {
        relabel_class(ws, lo, t);
        return;
    }
    relabel_node(ws, lo, lo, t)
}

// Copies the words of node m to node n, all but the head.
fn copy_node(ws: &mut [u32], n: u32, m: u32, h: Head)
    requires n_lt_limit_nodes { n < limit_nodes }
    requires table_length_in_bounds { table_length ≤ length ws.old }
    ensures { Put ws.old ws.new n (with_head h.0 ws.old m) }
{
    let x = field(ws, m, CHILDREN);
    let y = field(ws, m, MORE_CHILDREN);
    let z = field(ws, m, LAST_CHILDREN);
    put(ws, n, h, x, y, z)
}

// Makes node n a root of a size that is what node m is, inverted or not.
fn write_state(ws: &mut [u32], n: u32, m: u32, inverted: bool, size: u32)
    requires table_length_in_bounds { table_length ≤ length ws.old }
    requires n_in_bounds { n < length (types_of ws.old) }
    requires m_in_bounds { m < length (types_of ws.old) }
    requires size_bound { size < 512 }
    ensures { Rewritten ws.old ws.new (set (types_of ws.old) n (root_node n (invert_state inverted (state_at (types_of ws.old) m)) size)) }
{
    let h = Head(field(ws, m, HEAD));
    copy_node(ws, n, m, h.at_root(n, size, inverted))
}

// Makes root n of a size know what either of n and m is, m inverted or not.
fn set_root(ws: &mut [u32], n: u32, m: u32, inverted: bool, size: u32)
    requires table_length_in_bounds { table_length ≤ length ws.old }
    requires n_in_bounds { n < length (types_of ws.old) }
    requires m_in_bounds { m < length (types_of ws.old) }
    requires size_bound { size < 512 }
    ensures { Rewritten ws.old ws.new (set (types_of ws.old) n (root_node n (or_else (state_at (types_of ws.old) n) (invert_state inverted (state_at (types_of ws.old) m))) size)) }
{
    if kind_of(ws, n) == 0 {
        write_state(ws, n, m, inverted, size);
        return;
    }
    write_state(ws, n, n, false, size)
}

// The sizes of two roots together.
fn sizes(ws: &[u32], lo: u32, hi: u32) -> u32
    requires packed { Packed ws.now }
    requires roots { Roots (types_of ws.now) (type_of_word lo) (type_of_word hi) }
    ensures is { result ≡ size_at (types_of ws.now) (hi / 2) + size_at (types_of ws.now) (lo / 2) }
    ensures small { result < 512 }
{
    size_of(ws, hi / 2) + size_of(ws, lo / 2)
}

// Whether two types are inverted to each other.
pub fn opposed(a: u32, b: u32) -> bool
    ensures { result ≡ xor_of (type_of_word a).0 (type_of_word b).0 }
{
    is_inverted(a) != is_inverted(b)
}

// The class of root lo goes under that of root hi.
fn hang(ws: &mut [u32], lo: u32, hi: u32)
    requires packed { Packed ws.old }
    requires roots { Roots (types_of ws.old) (type_of_word lo) (type_of_word hi) }
    ensures { Becomes ws.new (hang_in (types_of ws.old) (type_of_word lo) (type_of_word hi)) }
{
    let size = sizes(ws, lo, hi);
    let b = opposed(hi, lo);
    let t = type_of(b, hi / 2);
    relabel_members(ws, lo / 2, t);
    set_root(ws, hi / 2, lo / 2, b, size)
}

// Joining puts the smaller class under the larger, on a tie the first under the second.
pub fn join(ws: &mut [u32], a: u32, b: u32)
    requires packed { Packed ws.old }
    requires roots { Roots (types_of ws.old) (type_of_word a) (type_of_word b) }
    ensures { Becomes ws.new (join_in (types_of ws.old) (type_of_word a) (type_of_word b)) }
{
    if size_of(ws, b / 2) < size_of(ws, a / 2) {
        hang(ws, b, a);
        return;
    }
    hang(ws, a, b)
}
