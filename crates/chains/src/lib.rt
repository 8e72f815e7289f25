// Checks 7 and 11, the chain rule for every chain that a head anywhere heads: walks from the heads, in time linear in the records reached.
// Plane k of a slice of n words is the n words of the workspace from k * n on. A walk marks the records that it passes with 1 in the plane
// of their kind, so that a later walk stops where it meets one: 0 cells and the like, 1 type nodes, 2 impl parameters, 3 and 4 other
// records of three and of four words. Definitions, generics and impls have one head each, in the header, and no marks.
// Slice and workspace stay two parameters: a struct of both, lent by `&mut`, would have to promise in each contract that the slice stays.
#![tactic(auto)]

ghost use Rattle.std.specs.Prelude.{ℕ, Bool, ◌≡◌, ◌+◌, ◌*◌, ◌≤◌, ◌<◌, length};
ghost use Rattle.std.specs.Borrow.{MutBor};
ghost use Rattle.rules.specs.Lists.{Words};
ghost use Rattle.rules.specs.Layout.{header_length, header_definitions, header_generics, header_impls, binding_length, member_length, definition_length, generics_length, impl_length};
ghost use Rattle.rules.specs.Sheet.{at};
ghost use Rattle.rules.specs.Chains.{zero_or_from, no_heads, cells_keep, nodes_keep, plain_keep, impl_params_keep, head_keeps, sheet_keeps, impl_question_keeps, flex_question_keeps};
ghost use Rattle.chains.specs.Walks.{ok_at, Kept, Known, Tells, Walked, nothing, Calls, Walks, on};
ghost use Rattle.chains.specs.Planes.{over_cells, Cells, Planes, Goes};
ghost use Rattle.chains.specs.Sheets.{definition_heads, generics_heads, impl_heads, Knows, Run, first_chains, last_chains};

use chart::layout;
use std::ops::ControlFlow;

// A head is zero or at least lo.
fn zero_or_from(lo: usize, h: usize) -> bool
    ensures { result ≡ zero_or_from lo h }
{
    h == 0 || lo <= h
}

// The plane from b marks a place.
fn known(s: &[u32], ws: &[u32], b: usize, p: usize) -> bool
    requires { b + length s.now ≤ length ws.now }
    ensures { Known s.now b p ws.now result }
{
    p < s.len() && ws[b + p] == 1
}

// Walks the chain from head h and tests each record, up to one where the test ends the walk.
fn walk<F: Fn(&mut [u32], usize) -> ControlFlow<bool>>(
    s: &[u32],
    lo: usize,
    ws: &mut [u32],
    h: usize,
    test: F,
) -> bool
    requires { (us : MutBor Words) (p : ℕ) → length us.now ≡ length ws.old → F.pre test us p }
    ensures { Walks (Calls (F.post test)) lo s.now h ws.old ws.new result }
{
    if !zero_or_from(lo, h) {
        return false;
    }
    for p in words::records(s, h) {
        if let ControlFlow::Break(keeps) = test(ws, p) {
            return keeps;
        }
    }
    true
}

// A walk goes on where a record passes, and ends where it does not.
fn goes_on(passes: bool) -> ControlFlow<bool>
    ensures { result ≡ on passes }
{
    if passes {
        ControlFlow::Continue(())
    } else {
        ControlFlow::Break(false)
    }
}

// A record of len words with no heads in it: known in the plane from b, or marked there where it keeps the rule.
fn plain_at(s: &[u32], len: usize, ws: &mut [u32], b: usize, p: usize) -> ControlFlow<bool>
    requires { (0 < len) × (b + length s.now ≤ length ws.old) }
    ensures { Tells nothing 0 s.now len no_heads b p ws.old ws.new result }
{
    if known(s, ws, b, p) {
        return ControlFlow::Break(true);
    }
    if !marks::keeps(s, len, p) {
        return ControlFlow::Break(false);
    }
    ws[b + p] = 1;
    ControlFlow::Continue(())
}

// The chain of such records from head h.
fn plain_keep(s: &[u32], lo: usize, len: usize, ws: &mut [u32], b: usize, h: usize) -> bool
    requires { (0 < len) × (0 < length s.now) × (b + length s.now ≤ length ws.old) }
    ensures { Kept s.now len no_heads b ws.old → Walked nothing 0 lo s.now len no_heads b h ws.old ws.new result }
{
    walk(s, lo, ws, h, |ws, p| plain_at(s, len, ws, b, p))
}

// A record of len words with a head of cells `off` words on: known in the plane from b, or marked there where it keeps the rule.
fn celled_at(
    s: &[u32],
    lo: usize,
    len: usize,
    off: usize,
    ws: &mut [u32],
    b: usize,
    p: usize,
) -> ControlFlow<bool>
    requires { (0 < len) × (0 < length s.now) × (length s.now ≤ b) × (b + length s.now ≤ length ws.old) }
    ensures { Cells s.now ws.old → Tells (Cells s.now) (length s.now) s.now len (over_cells lo s.now off) b p ws.old ws.new result }
{
    if known(s, ws, b, p) {
        return ControlFlow::Break(true);
    }
    if !marks::keeps(s, len, p) {
        return ControlFlow::Break(false);
    }
    let h = chart::field_at(s, p, off);
    if !plain_keep(s, lo, layout::CELL_LENGTH, ws, 0, h) {
        return ControlFlow::Break(false);
    }
    ws[b + p] = 1;
    ControlFlow::Continue(())
}

// The chain of such records from head h.
fn celled_keep(
    s: &[u32],
    lo: usize,
    len: usize,
    off: usize,
    ws: &mut [u32],
    b: usize,
    h: usize,
) -> bool
    requires { (0 < len) × (0 < length s.now) × (length s.now ≤ b) × (b + length s.now ≤ length ws.old) }
    ensures { Cells s.now ws.old → Kept s.now len (over_cells lo s.now off) b ws.old → Walked (Cells s.now) (length s.now) lo s.now len (over_cells lo s.now off) b h ws.old ws.new result }
{
    walk(s, lo, ws, h, |ws, p| {
        celled_at(s, lo, len, off, ws, b, p)
    })
}

// The chain of cells, or of other records of two words, that the word `off` past place p heads.
fn cells_keep(s: &[u32], lo: usize, ws: &mut [u32], p: usize, off: usize) -> bool
    requires { (0 < length s.now) × (length s.now ≤ length ws.old) }
    ensures { Planes lo s.now ws.old → Goes lo s.now (cells_keep lo s.now (at s.now (p + off))) ws.new result }
{
    let h = chart::field_at(s, p, off);
    plain_keep(s, lo, layout::CELL_LENGTH, ws, 0, h)
}

// The chain of type nodes, with their cells.
fn nodes_keep(s: &[u32], lo: usize, ws: &mut [u32], p: usize, off: usize) -> bool
    requires { (0 < length s.now) × (2 * length s.now ≤ length ws.old) }
    ensures { Planes lo s.now ws.old → Goes lo s.now (nodes_keep lo s.now (at s.now (p + off))) ws.new result }
{
    let n = s.len();
    let h = chart::field_at(s, p, off);
    celled_keep(s, lo, layout::NODE_LENGTH, layout::NODE_CHILDREN, ws, n, h)
}

// The chain of impl parameters, with their arguments.
fn impl_params_keep(s: &[u32], ws: &mut [u32], p: usize, off: usize) -> bool
    requires { (0 < length s.now) × (length s.now ≤ 4096) × (3 * length s.now ≤ length ws.old) }
    ensures { Planes header_length s.now ws.old → Goes header_length s.now (impl_params_keep s.now (at s.now (p + off))) ws.new result }
{
    let n = s.len();
    let h = chart::field_at(s, p, off);
    celled_keep(
        s,
        layout::HEADER_LENGTH,
        layout::IMPL_PARAM_LENGTH,
        layout::IMPL_PARAM_ARGS,
        ws,
        2 * n,
        h,
    )
}

// The chain of records of three or of four words with no heads in them: impl bindings, members and others. Their plane has the number of their words.
fn others_keep(s: &[u32], len: usize, ws: &mut [u32], p: usize, off: usize) -> bool
    requires three_or_four { (3 ≤ len) × (len ≤ 4) }
    requires room { (0 < length s.now) × (length s.now ≤ 4096) × (5 * length s.now ≤ length ws.old) }
    ensures { Planes header_length s.now ws.old → Goes header_length s.now (plain_keep s.now len (at s.now (p + off))) ws.new result }
{
    let b = len * s.len();
    let h = chart::field_at(s, p, off);
    plain_keep(s, layout::HEADER_LENGTH, len, ws, b, h)
}

// A definition, with its impl bindings, named members and implicit members.
fn definition_at(s: &[u32], ws: &mut [u32], p: usize) -> bool
    requires { (0 < length s.now) × (length s.now ≤ 4096) × (5 * length s.now ≤ length ws.old) }
    ensures { Planes header_length s.now ws.old → Goes header_length s.now (ok_at s.now definition_length (definition_heads s.now) p) ws.new result }
{
    marks::keeps(s, layout::DEFINITION_LENGTH, p)
        && others_keep(
            s,
            layout::BINDING_LENGTH,
            ws,
            p,
            layout::DEFINITION_BINDINGS,
        )
        && others_keep(s, layout::MEMBER_LENGTH, ws, p, layout::DEFINITION_NAMED)
        && others_keep(s, layout::MEMBER_LENGTH, ws, p, layout::DEFINITION_IMPLICIT)
}

// A record of generics, with its table and impl parameters.
fn generics_at(s: &[u32], ws: &mut [u32], p: usize) -> bool
    requires { (0 < length s.now) × (length s.now ≤ 4096) × (5 * length s.now ≤ length ws.old) }
    ensures { Planes header_length s.now ws.old → Goes header_length s.now (ok_at s.now generics_length (generics_heads s.now) p) ws.new result }
{
    marks::keeps(s, layout::GENERICS_LENGTH, p)
        && nodes_keep(s, layout::HEADER_LENGTH, ws, p, layout::GENERICS_TABLE)
        && impl_params_keep(s, ws, p, layout::GENERICS_IMPL_PARAMS)
}

// An impl, with its table and arguments.
fn impl_at(s: &[u32], ws: &mut [u32], p: usize) -> bool
    requires { (0 < length s.now) × (length s.now ≤ 4096) × (5 * length s.now ≤ length ws.old) }
    ensures { Planes header_length s.now ws.old → Goes header_length s.now (ok_at s.now impl_length (impl_heads s.now) p) ws.new result }
{
    marks::keeps(s, layout::IMPL_LENGTH, p)
        && nodes_keep(s, layout::HEADER_LENGTH, ws, p, layout::IMPL_TABLE)
        && cells_keep(s, layout::HEADER_LENGTH, ws, p, layout::IMPL_ARGS)
}

// The chain that header word k heads, whose records a test knows.
fn headed_keep<F: Fn(&mut [u32], usize) -> ControlFlow<bool>>(
    s: &[u32],
    ws: &mut [u32],
    k: usize,
    test: F,
) -> bool
    requires { (us : MutBor Words) (p : ℕ) → length us.now ≡ length ws.old → F.pre test us p }
    ensures { (len : ℕ) (heads : ℕ → Bool) → 0 < len → 0 < length s.now → Knows (F.post test) s.now len heads → Planes header_length s.now ws.old → Goes header_length s.now (head_keeps header_length s.now len heads (at s.now k)) ws.new result }
{
    walk(s, layout::HEADER_LENGTH, ws, words::next(s, k), test)
}

// The chains of definitions, generics, traits, impls and opaques.
fn first_heads(s: &[u32], ws: &mut [u32]) -> bool
    requires { (0 < length s.now) × (length s.now ≤ 4096) × (5 * length s.now ≤ length ws.old) }
    ensures { Planes header_length s.now ws.old → Run header_length s.now (first_chains s.now) ws.new result }
{
    headed_keep(
        s,
        ws,
        layout::DEFINITIONS,
        |ws, p| goes_on(definition_at(s, ws, p)),
    ) && headed_keep(
        s,
        ws,
        layout::GENERICS,
        |ws, p| goes_on(generics_at(s, ws, p)),
    ) && others_keep(s, layout::TRAIT_LENGTH, ws, 0, layout::TRAITS)
        && headed_keep(s, ws, layout::IMPLS, |ws, p| goes_on(impl_at(s, ws, p)))
        && cells_keep(s, layout::HEADER_LENGTH, ws, 0, layout::OPAQUES)
}

// The chains of structs, enums, unions, closures and imports.
fn last_heads(s: &[u32], ws: &mut [u32]) -> bool
    requires { (0 < length s.now) × (length s.now ≤ 4096) × (5 * length s.now ≤ length ws.old) }
    ensures { Planes header_length s.now ws.old → Run header_length s.now (last_chains s.now) ws.new result }
{
    others_keep(s, layout::STRUCT_LENGTH, ws, 0, layout::STRUCTS)
        && cells_keep(s, layout::HEADER_LENGTH, ws, 0, layout::ENUMS)
        && others_keep(s, layout::UNION_LENGTH, ws, 0, layout::UNIONS)
        && cells_keep(s, layout::HEADER_LENGTH, ws, 0, layout::CLOSURES)
        && cells_keep(s, layout::HEADER_LENGTH, ws, 0, layout::IMPORTS)
}

// 7: every chain of the sheet keeps the rule.
pub fn sheet_keeps(s: &[u32], ws: &mut [u32]) -> bool
    requires { (0 < length s.now) × (length s.now ≤ 4096) × (5 * length s.now ≤ length ws.old) }
    ensures { result ≡ sheet_keeps s.now }
{
    words::clear(ws, 5 * s.len());
    first_heads(s, ws) && last_heads(s, ws)
}

// 11: every chain of an impl question keeps the rule.
pub fn impl_question_keeps(q: &[u32], ws: &mut [u32]) -> bool
    requires { (0 < length q.now) × (length q.now ≤ 4096) × (2 * length q.now ≤ length ws.old) }
    ensures { result ≡ impl_question_keeps q.now }
{
    words::clear(ws, 5 * q.len());
    nodes_keep(q, layout::QUESTION_LENGTH, ws, 0, layout::QUESTION_TABLE)
        && cells_keep(q, layout::QUESTION_LENGTH, ws, 0, layout::QUESTION_ARGS)
}

// 11: every chain of a flex question keeps the rule.
pub fn flex_question_keeps(q: &[u32], ws: &mut [u32]) -> bool
    requires { (0 < length q.now) × (length q.now ≤ 4096) × (2 * length q.now ≤ length ws.old) }
    ensures { result ≡ flex_question_keeps q.now }
{
    words::clear(ws, 5 * q.len());
    nodes_keep(q, layout::QUESTION_LENGTH, ws, 0, layout::QUESTION_TABLE)
}
