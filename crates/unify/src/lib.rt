// `unify` of the Rust, over a type table in words. All pairs of children are tried, even after a failure (`whole`), with a memo of those that did not succeed;
// or, where only success counts, none after the first that does not succeed. Layers as in the rules: roots, then what they are, then two known types, then their children.
// Table and marks are two parameters, and no struct of both: tried, the proof did not close, since a call that takes two fields of a lent struct, each a `&mut`, is not covered by the borrow check.
#![tactic(auto)]

ghost use Rattle.std.specs.Prelude.{◌≡◌, true, false, not, ◌&&◌, ◌||◌, List, [], ◌∷◌, map, suc, ◌/◌, ◌<◌, ◌≤◌, eqb, length, get_or};
ghost use Rattle.rules.specs.Sheet.{kind_flag, row_may_meet};
ghost use Rattle.rules.specs.Types.{invert_if, occurs, self_inverse as inverse_of, success, last_of, state_at, unify_each as each_of, unify_children as children_of, bind_unknown as bind_of, join_on_success as success_of, unify_states as states_of, unify_roots as roots_of, unify_in, unify_types as types_unified, unify as unify_of, unify_impl_type as impl_type_unified, approx_eq as approx_of, Ty};
ghost use Rattle.rules.specs.AcyclicLaws.{children_at};
ghost use Rattle.rules.specs.Transfer.{type_of_word};
ghost use Rattle.rules.specs.Answer.{word_of_type};
ghost use Rattle.table.specs.Packing.{types_of, kind_at, id_at, Packed, Good, Roots};
ghost use Rattle.unify.specs.Lists.{Nodes};
ghost use Rattle.memo.specs.Memo.{Aside};
ghost use Rattle.memo.specs.Verdicts.{result_of};
ghost use Rattle.unify.specs.Results.{Stops, Unifies, Joined, Joins, TwoRoots, KnownRoots, met_inverted, unify_fields};
ghost use Rattle.table.specs.Alike.{Matched};
ghost use Rattle.unify.specs.Passing.{Passes};
ghost use Rattle.unify.specs.Trying.{Ready, Fuelled, Noted, Binds, Met, Went, Left};

use chart::{kinds, layout};
use memo::Pair;
pub use memo::UnifyResult;

// The kind of node n; 0 where it is unknown. It is compared with the names of `layout`: each test asks for one kind, so that a `Kind` would be made for a single comparison.
fn kind(ws: &[u32], n: u32) -> usize
    ensures { result ≡ kind_at (types_of ws.now) n }
{
    table::kind_of(ws, n) as usize
}

// Whether no further pair is tried.
fn stops(whole: bool, v: UnifyResult) -> bool
    ensures { Stops whole v result }
{
    !whole && v != UnifyResult::Success
}

// `occurs`, with marks in front of the memo.
fn occurs_at(ws: &[u32], marks: &mut [u32], v: u32, t: u32) -> bool
    requires good { Good ws.now }
    requires t_in_bounds { t / 2 < length (types_of ws.now) }
    requires in_bounds { 256 ≤ length marks.old }
    ensures is { result ≡ occurs (types_of ws.now) v (type_of_word t) }
    ensures aside { Aside marks.old marks.new }
{
    walks::occurs(ws, &mut marks[..memo::MARKS], v, t)
}

// `self_inverse` with new marks.
fn own_inverse_anew(s: &[u32], ws: &[u32], marks: &mut [u32], t: u32) -> bool
    requires good { Good ws.now }
    requires t_in_bounds { t / 2 < length (types_of ws.now) }
    requires in_bounds { 256 ≤ length marks.old }
    ensures is { result ≡ inverse_of s.now (types_of ws.now) (type_of_word t) }
    ensures aside { Aside marks.old marks.new }
{
    walks::self_inverse(s, ws, &mut marks[..memo::MARKS], t)
}

// `self_inverse` with the marks that stand: a type that is its own inverse stays so through a join.
fn own_inverse_kept(s: &[u32], ws: &[u32], marks: &mut [u32], t: u32) -> bool
    requires good { Good ws.now }
    requires t_in_bounds { t / 2 < length (types_of ws.now) }
    requires ready { Ready s.now (types_of ws.now) marks.old }
    requires in_bounds { 512 ≤ length marks.old }
    ensures is { result ≡ inverse_of s.now (types_of ws.now) (type_of_word t) }
    ensures noted { Noted s.now (types_of ws.now) marks.old (types_of ws.now) marks.new }
{
    walks::self_inverse_in(s, ws, &mut marks[memo::MARKS..memo::ALL_MARKS], t)
}

// `self_inverse`, with marks in front of the memo.
fn own_inverse(s: &[u32], ws: &[u32], marks: &mut [u32], t: u32) -> bool
    requires good { Good ws.now }
    requires t_in_bounds { t / 2 < length (types_of ws.now) }
    requires ready { Ready s.now (types_of ws.now) marks.old }
    ensures is { result ≡ inverse_of s.now (types_of ws.now) (type_of_word t) }
    ensures noted { Noted s.now (types_of ws.now) marks.old (types_of ws.now) marks.new }
{
    if marks.len() < memo::ALL_MARKS {
        return own_inverse_anew(s, ws, marks, t);
    }
    own_inverse_kept(s, ws, marks, t)
}

// Whether either of two roots occurs in the other.
fn occurs_either(ws: &[u32], marks: &mut [u32], x: u32, y: u32) -> bool
    requires good { Good ws.now }
    requires roots { Roots (types_of ws.now) (type_of_word x) (type_of_word y) }
    requires in_bounds { 256 ≤ length marks.old }
    ensures is { result ≡ (occurs (types_of ws.now) (x / 2) (type_of_word y) || occurs (types_of ws.now) (y / 2) (type_of_word x)) }
    ensures aside { Aside marks.old marks.new }
{
    occurs_at(ws, marks, x / 2, y) || occurs_at(ws, marks, y / 2, x)
}

// An unknown and another root: an unknown never joins a type that contains it.
fn bind_unknown(ws: &mut [u32], marks: &mut [u32], x: u32, y: u32) -> UnifyResult
    requires good { Good ws.old }
    requires roots { Roots (types_of ws.old) (type_of_word x) (type_of_word y) }
    requires in_bounds { 256 ≤ length marks.old }
    ensures { Binds (types_of ws.old) marks.old ws.new marks.new result (bind_of (types_of ws.old) (type_of_word x) (type_of_word y)) }
{
    if occurs_either(ws, marks, x, y) {
        return UnifyResult::Failure;
    }
    table::join(ws, x, y);
    memo::forget(marks);
    UnifyResult::Success
}

// Two roots whose children were met: joined on success.
fn join_on_success(ws: &mut [u32], marks: &mut [u32], v: UnifyResult, x: u32, y: u32) -> UnifyResult
    requires packed { Packed ws.old }
    requires roots { result_of v ≡ success → Roots (types_of ws.old) (type_of_word x) (type_of_word y) }
    ensures { Binds (types_of ws.old) marks.old ws.new marks.new result (success_of (result_of v, types_of ws.old) (type_of_word x) (type_of_word y)) }
{
    if v == UnifyResult::Success {
        table::join(ws, x, y);
        memo::forget(marks);
    }
    v
}

// Whether two known roots meet inverted.
fn inverted_to(ws: &[u32], x: u32, y: u32) -> bool
    ensures { result ≡ met_inverted (types_of ws.now) (type_of_word x) (type_of_word y) }
{
    let a = table::inverted_of(ws, x / 2) ^ table::is_inverted(x);
    let b = table::inverted_of(ws, y / 2) ^ table::is_inverted(y);
    a ^ b
}

// Whether nodes x and y are of one kind and id, and may meet, inverted or not.
fn may_meet(s: &[u32], ws: &[u32], x: u32, y: u32, inverted: bool) -> bool
    ensures { result ≡ (eqb (kind_at (types_of ws.now) x) (kind_at (types_of ws.now) y) && eqb (id_at (types_of ws.now) x) (id_at (types_of ws.now) y) && (not inverted || kind_flag s.now row_may_meet (kind_at (types_of ws.now) x) (id_at (types_of ws.now) x))) }
{
    let k = table::kind_of(ws, x);
    let d = table::id_of(ws, x);
    k == table::kind_of(ws, y)
        && d == table::id_of(ws, y)
        && (!inverted || kinds::kind_flag(s, layout::ROW_MAY_MEET, k as usize, d as usize))
}

// Child j of node n, inverted or not.
fn met_child(ws: &[u32], n: u32, j: usize, inverted: bool) -> u32
    ensures { result ≡ word_of_type (invert_if inverted (get_or (children_at (types_of ws.now) n) j (false, 0))) }
{
    table::invert_if(inverted, table::child(ws, n, j))
}

// The rules' `unify-in`: to `left` levels.
#[cycle(joining)]
fn unify_in(
    s: &[u32],
    ws: &mut [u32],
    marks: &mut [u32],
    whole: bool,
    a: u32,
    b: u32,
    left: u32,
) -> UnifyResult
    requires good { Good ws.old }
    requires a_in_bounds { a / 2 < length (types_of ws.old) }
    requires b_in_bounds { b / 2 < length (types_of ws.old) }
    requires ready { Ready s.now (types_of ws.old) marks.old }
    requires fuelled { Fuelled left (types_of ws.old) (type_of_word a ∷ []) }
    ensures { Went whole s.now (types_of ws.old) marks.old ws.new marks.new result (unify_in left s.now (types_of ws.old) (type_of_word a) (type_of_word b)) }
{
    if left == 0 {
        return UnifyResult::Failure;
    }
    let x = table::find(ws, a);
    let y = table::find(ws, b);
    if whole {
        return unify_noted(s, ws, marks, x, y, left - 1);
    }
    unify_roots(s, ws, marks, whole, x, y, left - 1)
}

// Two roots, through the memo: a pair that did not succeed and left the table as it is comes to the same again.
#[cycle(joining)]
fn unify_noted(
    s: &[u32],
    ws: &mut [u32],
    marks: &mut [u32],
    x: u32,
    y: u32,
    left: u32,
) -> UnifyResult
    requires good { Good ws.old }
    requires two_roots { TwoRoots (types_of ws.old) (type_of_word x) (type_of_word y) }
    requires ready { Ready s.now (types_of ws.old) marks.old }
    requires fuelled { Fuelled (suc left) (types_of ws.old) (type_of_word x ∷ []) }
    ensures { Met true s.now (types_of ws.old) marks.old ws.new marks.new result (roots_of (unify_in left s.now) s.now (types_of ws.old) (type_of_word x) (type_of_word y)) }
{
    let pair = Pair { x, y };
    if let Some(kept) = memo::recall(marks, pair) {
        return kept;
    }
    let before = memo::begin(marks);
    let r = unify_roots(s, ws, marks, true, x, y, left);
    memo::end(marks, before, pair, r);
    r
}

// Two roots. A type against its own inverse succeeds if `self_inverse` holds.
#[cycle(joining)]
fn unify_roots(
    s: &[u32],
    ws: &mut [u32],
    marks: &mut [u32],
    whole: bool,
    x: u32,
    y: u32,
    left: u32,
) -> UnifyResult
    requires good { Good ws.old }
    requires two_roots { TwoRoots (types_of ws.old) (type_of_word x) (type_of_word y) }
    requires ready { Ready s.now (types_of ws.old) marks.old }
    requires fuelled { Fuelled (suc left) (types_of ws.old) (type_of_word x ∷ []) }
    ensures { Met whole s.now (types_of ws.old) marks.old ws.new marks.new result (roots_of (unify_in left s.now) s.now (types_of ws.old) (type_of_word x) (type_of_word y)) }
{
    if x / 2 != y / 2 {
        return unify_states(s, ws, marks, whole, x, y, left);
    }
    if x == y {
        return UnifyResult::Success;
    }
    UnifyResult::from(own_inverse(s, ws, marks, x))
}

// Two different roots, by what they are. An unknown joins Error.
#[cycle(joining)]
fn unify_states(
    s: &[u32],
    ws: &mut [u32],
    marks: &mut [u32],
    whole: bool,
    x: u32,
    y: u32,
    left: u32,
) -> UnifyResult
    requires good { Good ws.old }
    requires roots { Roots (types_of ws.old) (type_of_word x) (type_of_word y) }
    requires ready { Ready s.now (types_of ws.old) marks.old }
    requires fuelled { Fuelled (suc left) (types_of ws.old) (type_of_word x ∷ []) }
    ensures { Met whole s.now (types_of ws.old) marks.old ws.new marks.new result (states_of (unify_in left s.now) s.now (types_of ws.old) (type_of_word x) (type_of_word y) (state_at (types_of ws.old) (x / 2)) (state_at (types_of ws.old) (y / 2))) }
{
    if kind(ws, x / 2) == layout::KIND_UNKNOWN || kind(ws, y / 2) == layout::KIND_UNKNOWN {
        return bind_unknown(ws, marks, x, y);
    }
    let v = unify_known(s, ws, marks, whole, x, y, left);
    join_on_success(ws, marks, v, x, y)
}

// Two known types. Error against a known type is indeterminate. Met inverted, only kinds whose flag allows it go on, their children met inverted.
#[cycle(joining)]
fn unify_known(
    s: &[u32],
    ws: &mut [u32],
    marks: &mut [u32],
    whole: bool,
    x: u32,
    y: u32,
    left: u32,
) -> UnifyResult
    requires good { Good ws.old }
    requires known_roots { KnownRoots (types_of ws.old) (x / 2) (y / 2) }
    requires ready { Ready s.now (types_of ws.old) marks.old }
    requires fuelled { Fuelled (suc left) (types_of ws.old) (type_of_word x ∷ []) }
    ensures { Went whole s.now (types_of ws.old) marks.old ws.new marks.new result (unify_fields (unify_in left s.now) s.now (types_of ws.old) (type_of_word x) (type_of_word y)) }
{
    if kind(ws, x / 2) == layout::KIND_ERROR || kind(ws, y / 2) == layout::KIND_ERROR {
        return UnifyResult::Indeterminate;
    }
    let inverted = inverted_to(ws, x, y);
    if may_meet(s, ws, x / 2, y / 2, inverted) {
        return unify_children(s, ws, marks, whole, x / 2, y / 2, inverted, left);
    }
    UnifyResult::Failure
}

// The children of two types of one kind and id: none is tried where counts differ, but for the return types of Closures.
#[cycle(joining)]
fn unify_children(
    s: &[u32],
    ws: &mut [u32],
    marks: &mut [u32],
    whole: bool,
    x: u32,
    y: u32,
    inverted: bool,
    left: u32,
) -> UnifyResult
    requires good { Good ws.old }
    requires known_roots { KnownRoots (types_of ws.old) x y }
    requires ready { Ready s.now (types_of ws.old) marks.old }
    requires fuelled { Fuelled left (types_of ws.old) (children_at (types_of ws.old) x) }
    ensures { Went whole s.now (types_of ws.old) marks.old ws.new marks.new result (children_of (unify_in left s.now) (types_of ws.old) (kind_at (types_of ws.old) x) (children_at (types_of ws.old) x) (map (invert_if inverted) (children_at (types_of ws.old) y))) }
{
    if table::child_count(ws, x) == table::child_count(ws, y) {
        return unify_each(s, ws, marks, whole, x, y, inverted, left);
    }
    if kind(ws, x) == layout::KIND_CLOSURE {
        unify_last(s, ws, marks, whole, x, y, inverted, left);
    }
    UnifyResult::Failure
}

// The last children of two types.
#[cycle(joining)]
fn unify_last(
    s: &[u32],
    ws: &mut [u32],
    marks: &mut [u32],
    whole: bool,
    x: u32,
    y: u32,
    inverted: bool,
    left: u32,
)
    requires good { Good ws.old }
    requires known_roots { KnownRoots (types_of ws.old) x y }
    requires ready { Ready s.now (types_of ws.old) marks.old }
    requires fuelled { Fuelled left (types_of ws.old) (children_at (types_of ws.old) x) }
    ensures { Left whole s.now (types_of ws.old) marks.old ws.new marks.new (each_of (unify_in left s.now) (types_of ws.old) (last_of (children_at (types_of ws.old) x)) (last_of (map (invert_if inverted) (children_at (types_of ws.old) y)))) }
{
    let m = table::child_count(ws, x);
    let n = table::child_count(ws, y);
    if m == 0 || n == 0 {
        return;
    }
    let a = table::child(ws, x, m - 1);
    let b = met_child(ws, y, n - 1, inverted);
    unify_in(s, ws, marks, whole, a, b, left);
}

// The first pair of children from i on, of m, that is to be met: those of one root and side are passed over while fuel is left.
fn next_pair(ws: &[u32], x: u32, y: u32, inverted: bool, left: u32, i: usize, m: usize) -> usize
    requires packed { Packed ws.now }
    requires cases { Matched (types_of ws.now) x y m }
    ensures { Passes (types_of ws.now) x y inverted left i m result }
{
    if left == 0 {
        return i;
    }
    table::next_apart(ws, x, y, i, m, inverted)
}

// The children of two types in turn.
#[cycle(joining)]
fn unify_each(
    s: &[u32],
    ws: &mut [u32],
    marks: &mut [u32],
    whole: bool,
    x: u32,
    y: u32,
    inverted: bool,
    left: u32,
) -> UnifyResult
    requires good { Good ws.old }
    requires known_roots { KnownRoots (types_of ws.old) x y }
    requires x_len { length (children_at (types_of ws.old) x) ≡ length (children_at (types_of ws.old) y) }
    requires ready { Ready s.now (types_of ws.old) marks.old }
    requires fuelled { Fuelled left (types_of ws.old) (children_at (types_of ws.old) x) }
    ensures { Went whole s.now (types_of ws.old) marks.old ws.new marks.new result (each_of (unify_in left s.now) (types_of ws.old) (children_at (types_of ws.old) x) (map (invert_if inverted) (children_at (types_of ws.old) y))) }
{
    let m = table::child_count(ws, x);
    let mut v = UnifyResult::Success;
    let mut i = 0;
    // No `for`: a step passes over as many pairs as are alike in the table as it is then.
    loop {
        let j = next_pair(ws, x, y, inverted, left, i, m);
        if j >= m {
            return v;
        }
        let a = table::child(ws, x, j);
        let b = met_child(ws, y, j, inverted);
        let r = unify_in(s, ws, marks, whole, a, b, left);
        v = v.and(r);
        if stops(whole, v) {
            return v;
        }
        i = j + 1;
    }
}

// `unify`, or up to the first pair that does not succeed.
fn unify_one(
    s: &[u32],
    ws: &mut [u32],
    marks: &mut [u32],
    whole: bool,
    a: u32,
    b: u32,
) -> UnifyResult
    requires good { Good ws.old }
    requires a_in_bounds { a / 2 < length (types_of ws.old) }
    requires b_in_bounds { b / 2 < length (types_of ws.old) }
    requires in_bounds { 256 ≤ length marks.old }
    ensures { Joined whole ws.new result (unify_of s.now (types_of ws.old) (type_of_word a) (type_of_word b)) }
{
    memo::start(marks);
    let n = table::count(ws);
    unify_in(s, ws, marks, whole, a, b, n + 1)
}

// `unify`. Words behind the first 256 of the marks keep what need not be looked at twice, as far as they go: 524,802 in all keep every pair.
pub fn unify(s: &[u32], ws: &mut [u32], marks: &mut [u32], a: u32, b: u32) -> UnifyResult
    requires good { Good ws.old }
    requires a_in_bounds { a / 2 < length (types_of ws.old) }
    requires b_in_bounds { b / 2 < length (types_of ws.old) }
    requires in_bounds { 256 ≤ length marks.old }
    ensures { Unifies ws.new result (unify_of s.now (types_of ws.old) (type_of_word a) (type_of_word b)) }
{
    unify_one(s, ws, marks, true, a, b)
}

// `unify_types`: none is tried where counts differ.
fn unify_types(
    s: &[u32],
    ws: &mut [u32],
    marks: &mut [u32],
    whole: bool,
    xs: &[u32],
    ys: &[u32],
) -> UnifyResult
    requires good { Good ws.old }
    requires nodes { Nodes (types_of ws.old) xs.now }
    requires nodes_2 { Nodes (types_of ws.old) ys.now }
    requires in_bounds { 256 ≤ length marks.old }
    ensures { Joined whole ws.new result (types_unified (unify_of s.now) (types_of ws.old) (map type_of_word xs.now) (map type_of_word ys.now)) }
{
    if xs.len() != ys.len() {
        return UnifyResult::Failure;
    }
    let mut v = UnifyResult::Success;
    for (a, b) in xs.iter().zip(ys) {
        v = v.and(unify_one(s, ws, marks, whole, *a, *b));
        if stops(whole, v) {
            return v;
        }
    }
    v
}

// Two `ImplType`s: a trait? and its arguments, of either.
fn unify_impl_types(
    s: &[u32],
    ws: &mut [u32],
    marks: &mut [u32],
    whole: bool,
    a: u32,
    xs: &[u32],
    b: u32,
    ys: &[u32],
) -> UnifyResult
    requires good { Good ws.old }
    requires nodes { Nodes (types_of ws.old) xs.now }
    requires nodes_2 { Nodes (types_of ws.old) ys.now }
    requires in_bounds { 256 ≤ length marks.old }
    ensures { Joined whole ws.new result (impl_type_unified s.now (types_of ws.old) (a, map type_of_word xs.now) (b, map type_of_word ys.now)) }
{
    if a == 0 || b == 0 {
        return UnifyResult::Indeterminate;
    }
    if a != b {
        return UnifyResult::Failure;
    }
    unify_types(s, ws, marks, whole, xs, ys)
}

// `unify_impl_type`, with marks and memo as for `unify`.
pub fn unify_impl_type(
    s: &[u32],
    ws: &mut [u32],
    marks: &mut [u32],
    a: u32,
    xs: &[u32],
    b: u32,
    ys: &[u32],
) -> UnifyResult
    requires good { Good ws.old }
    requires nodes { Nodes (types_of ws.old) xs.now }
    requires nodes_2 { Nodes (types_of ws.old) ys.now }
    requires in_bounds { 256 ≤ length marks.old }
    ensures { Unifies ws.new result (impl_type_unified s.now (types_of ws.old) (a, map type_of_word xs.now) (b, map type_of_word ys.now)) }
{
    unify_impl_types(s, ws, marks, true, a, xs, b, ys)
}

// Whether `unify_impl_type` succeeds, with its table if it does: no pair is tried after the first that does not succeed.
pub fn join_impl_type(
    s: &[u32],
    ws: &mut [u32],
    marks: &mut [u32],
    a: u32,
    xs: &[u32],
    b: u32,
    ys: &[u32],
) -> bool
    requires good { Good ws.old }
    requires nodes { Nodes (types_of ws.old) xs.now }
    requires nodes_2 { Nodes (types_of ws.old) ys.now }
    requires in_bounds { 256 ≤ length marks.old }
    ensures { Joins (impl_type_unified s.now (types_of ws.old) (a, map type_of_word xs.now) (b, map type_of_word ys.now)) ws.new result }
{
    unify_impl_types(s, ws, marks, false, a, xs, b, ys) == UnifyResult::Success
}

// `approx_eq`: the same trait, and none is Error. Arguments are not looked at.
#[tactic(auto, unfolding(rules::specs::Types::approx_eq))]
pub fn approx_eq(a: u32, b: u32) -> bool
    ensures { (xs ys : List Ty) → result ≡ approx_of (a, xs) (b, ys) }
{
    a != 0 && a == b
}
