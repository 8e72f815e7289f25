// What is noted of a place by itself, and the passes that note the most of it along each chain.
ghost use Rattle.std.specs.Prelude.{◌≡◌};
ghost use Rattle.rules.specs.Layout.{node_children, impl_param_args};
ghost use Rattle.rules.specs.Values.{binding_ok, member_ok};
ghost use Rattle.values.specs.NodeLaws.{bad, cell_need, node_need};
ghost use Rattle.values.specs.Known.{Known};
ghost use Rattle.values.specs.Value.{node_mark, param_mark, inner_mark};
ghost use Rattle.values.specs.Tables.{plane_lengths, plane_bounds, plane_cores, plane_needs, plane_kids, plane_bindings, plane_members, plane_params, plane_args, Space, Most};

use crate::fits::{self, Noted};
use crate::{folds, limits};
use chart::layout;

// What a cell asks of the table: its node.
fn cell_need(w: &[u32], p: usize) -> u32
    ensures { result ≡ cell_need w.now p }
{
    let t = words::offset(w, p, layout::CELL_TYPE);
    t / 2 + 1
}

impl<'a> Noted<'a> {
    // Whether a node of a slice w is out of range by itself, where the plane from b has the lengths of chains.
    fn node_mark(self, w: &[u32], b: usize, p: usize) -> u32
        ensures { result ≡ node_mark self.entry.s.now w.now self.entry.ws.now b p }
    {
        let k = chart::field_at(w, p, layout::NODE_KIND);
        let inv = chart::field_at(w, p, layout::NODE_INVERTED);
        let id = chart::field_at(w, p, layout::NODE_ID);
        let c = chart::field_at(w, p, layout::NODE_CHILDREN);
        let n = folds::chain_count(self.ws, b, c);
        fits::bad(self.core(k, inv, id, n))
    }

    // Whether an impl parameter has a trait? and as many arguments as its arity.
    fn param_mark(self, b: usize, p: usize) -> u32
        ensures { result ≡ param_mark self.entry.s.now self.entry.ws.now b p }
    {
        let t = chart::field_at(self.s, p, layout::IMPL_PARAM_TRAIT);
        let c = chart::field_at(self.s, p, layout::IMPL_PARAM_ARGS);
        let n = folds::chain_count(self.ws, b, c);
        fits::bad(self.args_core(t, n))
    }
}

// What a node asks of the count of type parameters. One kind alone is told from the others, so its number is compared and no `Kind` made.
fn node_need(w: &[u32], p: usize) -> u32
    ensures { result ≡ node_need w.now p }
{
    let k = chart::field_at(w, p, layout::NODE_KIND);
    if k != layout::KIND_PARAM {
        return 0;
    }
    let id = words::offset(w, p, layout::NODE_ID);
    id.checked_add(1).unwrap_or(0)
}

// What the plane from b has of the chain that a record heads in word k.
fn inner_mark(w: &[u32], ws: &[u32], b: usize, k: usize, p: usize) -> u32
    ensures { result ≡ inner_mark w.now ws.now b k p }
{
    let h = chart::field_at(w, p, k);
    folds::chain_mark(ws, b, h)
}

// The passes: each notes in its plane the most that is said of a record of the chain from each place. Each is one call of `folds::note`, whose
// closure says what; they stay functions, since each has its own contract. Slices and workspace stay parameters of what writes: a struct of them, lent by
// `&mut`, would have to promise in each contract that the slices stay.

// What a cell asks of its table.
pub fn note_cells(s: &[u32], w: &[u32], ws: &mut [u32])
    requires { Space s.now w.now ws.old }
    ensures { Most s.now w.now ws.old ws.new (cell_need w.now) plane_bounds }
{
    folds::note(
        w,
        ws,
        limits::BOUNDS,
        |_, i, next| cell_need(w, i).max(next),
    );
}

// Whether a node is out of range by itself.
pub fn note_nodes(s: &[u32], w: &[u32], ws: &mut [u32])
    requires { Space s.now w.now ws.old }
    ensures { Most s.now w.now ws.old ws.new (node_mark s.now w.now ws.old plane_lengths) plane_cores }
{
    folds::note(
        w,
        ws,
        limits::CORES,
        |ws: &[u32], i, next|
            requires { Known s.now ws.now }
        { Noted { s, ws }.node_mark(w, limits::LENGTHS, i).max(next) },
    );
}

// What a node asks of the type parameters.
pub fn note_needs(s: &[u32], w: &[u32], ws: &mut [u32])
    requires { Space s.now w.now ws.old }
    ensures { Most s.now w.now ws.old ws.new (node_need w.now) plane_needs }
{
    folds::note(w, ws, limits::NEEDS, |_, i, next| node_need(w, i).max(next));
}

// What a node's children ask of the table.
pub fn note_children(s: &[u32], w: &[u32], ws: &mut [u32])
    requires { Space s.now w.now ws.old }
    ensures { Most s.now w.now ws.old ws.new (inner_mark w.now ws.old plane_bounds node_children) plane_kids }
{
    folds::note(w, ws, limits::KIDS, |ws, i, next| {
        inner_mark(w, ws, limits::BOUNDS, layout::NODE_CHILDREN, i).max(next)
    });
}

// Whether a binding is out of range.
pub fn note_bindings(s: &[u32], ws: &mut [u32])
    requires { Space s.now s.now ws.old }
    ensures { Most s.now s.now ws.old ws.new (bad (binding_ok s.now)) plane_bindings }
{
    folds::note(
        s,
        ws,
        limits::BINDINGS,
        |ws: &[u32], i, next|
            requires { Known s.now ws.now }
        { fits::bad(Noted { s, ws }.binding_ok(i)).max(next) },
    );
}

// Whether a member is out of range.
pub fn note_members(s: &[u32], ws: &mut [u32])
    requires { Space s.now s.now ws.old }
    ensures { Most s.now s.now ws.old ws.new (bad (member_ok s.now)) plane_members }
{
    folds::note(
        s,
        ws,
        limits::MEMBERS,
        |ws: &[u32], i, next|
            requires { Known s.now ws.now }
        { fits::bad(Noted { s, ws }.member_ok(i)).max(next) },
    );
}

// Whether an impl parameter is out of range, but for what its arguments name.
pub fn note_params(s: &[u32], ws: &mut [u32])
    requires { Space s.now s.now ws.old }
    ensures { Most s.now s.now ws.old ws.new (param_mark s.now ws.old plane_lengths) plane_params }
{
    folds::note(
        s,
        ws,
        limits::PARAMS,
        |ws: &[u32], i, next|
            requires { Known s.now ws.now }
        { Noted { s, ws }.param_mark(limits::LENGTHS, i).max(next) },
    );
}

// What an impl parameter's arguments ask of the table.
pub fn note_args(s: &[u32], ws: &mut [u32])
    requires { Space s.now s.now ws.old }
    ensures { Most s.now s.now ws.old ws.new (inner_mark s.now ws.old plane_bounds impl_param_args) plane_args }
{
    folds::note(s, ws, limits::ARGS, |ws, i, next| {
        inner_mark(s, ws, limits::BOUNDS, layout::IMPL_PARAM_ARGS, i).max(next)
    });
}
