// Numbered edges in the order of `for_each_child`, as rows of bits over nodes (3 × definition + level): to which nodes an edge leads,
// and to which an edge leads whose vis lets the source in. Sheet and workspace stay two parameters of what writes: a struct of both, lent by `&mut`, would
// have to promise in each contract that the sheet stays.
ghost use Rattle.std.specs.Prelude.{◌≡◌, [], ◌∷◌, ◌+◌, ◌*◌, ◌≤◌, ◌<◌, length};
ghost use Rattle.rules.specs.Lists.{concat_map};
ghost use Rattle.rules.specs.Sheet.{chain};
ghost use Rattle.rules.specs.Candidates.{member_edges, binding_edges, edges};
ghost use Rattle.candidates.specs.Layout.{rows_end};
ghost use Rattle.candidates.specs.Links.{Linking, LinkingAll, Adds, trait_edges, LinksDefinition, Built};

use crate::index::Records;
use crate::layout;
use crate::rows::set_bit;
use crate::source::visible;
use chart::layout as sheet;

// The vis of an edge that every source may take.
const PUBLIC: u32 = 0;

// Adds an edge from node x, of a vis, to node y.
fn link(ws: &mut [u32], x: usize, vis: u32, y: usize)
    requires { (x < 384) × (rows_end ≤ length ws.old) }
    ensures { Adds x ((vis, y) ∷ []) ws.old ws.new }
{
    if layout::NODES <= y {
        return;
    }
    let open = visible(ws, vis);
    set_bit(ws, layout::LINKS + layout::ROW * x, y);
    if open {
        set_bit(ws, layout::OPEN + layout::ROW * x, y);
    }
}

// Adds the edge of a vis into the definition of a trait?.
fn link_trait(s: &[u32], ws: &mut [u32], x: usize, vis: u32, t: usize)
    requires { Linking x s.now ws.old }
    ensures { Adds x (trait_edges s.now vis t) ws.old ws.new }
{
    if let Some(t) = t.checked_sub(1) {
        let d = Records { s, ws }.trait_def(t) as usize;
        link(ws, x, vis, 3 * d + 1);
    }
}

// Adds the edges of a member: to a child, or to the definition? of an import.
fn link_member(s: &[u32], ws: &mut [u32], x: usize, m: usize)
    requires { Linking x s.now ws.old }
    ensures { Adds x (member_edges s.now m) ws.old ws.new }
{
    let vis = words::offset(s, m, sheet::MEMBER_VIS);
    let id = words::offset(s, m, sheet::MEMBER_ID) as usize;
    if words::offset(s, m, sheet::MEMBER_IMPORT) == 0 {
        link(ws, x, vis, 3 * id);
    } else if let Some(d) = (Records { s, ws }.import_def(id) as usize).checked_sub(1) {
        link(ws, x, vis, 3 * d);
    }
}

// Adds the edges of an impl binding, where the impl is named or not as asked.
fn link_binding(s: &[u32], ws: &mut [u32], x: usize, named: bool, m: usize)
    requires { Linking x s.now ws.old }
    ensures { Adds x (binding_edges s.now named m) ws.old ws.new }
{
    let vis = words::offset(s, m, sheet::BINDING_VIS);
    let i = words::offset(s, m, sheet::BINDING_IMPL) as usize;
    let records = Records { s, ws };
    if records.impl_flag(i, sheet::FLAG_NAMED) == named {
        let t = records.impl_word(i, sheet::IMPL_TRAIT) as usize;
        link_trait(s, ws, x, vis, t);
    }
}

// Adds the edges of the members on a chain. This and `link_bindings` are a loop of one call each: with the call as a closure the contract would say of the
// closure what it says of the call.
fn link_members(s: &[u32], ws: &mut [u32], x: usize, head: usize)
    requires { Linking x s.now ws.old }
    ensures { Adds x (concat_map (member_edges s.now) (chain s.now head)) ws.old ws.new }
{
    for m in words::records(s, head) {
        link_member(s, ws, x, m);
    }
}

// Adds the edges of the impl bindings on a chain, of named impls or of the others.
fn link_bindings(s: &[u32], ws: &mut [u32], x: usize, named: bool, head: usize)
    requires { Linking x s.now ws.old }
    ensures { Adds x (concat_map (binding_edges s.now named) (chain s.now head)) ws.old ws.new }
{
    for m in words::records(s, head) {
        link_binding(s, ws, x, named, m);
    }
}

// Adds the edges of a definition's direct level: its trait, named impls, implicit members.
fn link_direct(s: &[u32], ws: &mut [u32], d: usize)
    requires { Linking (3 * d) s.now ws.old }
    ensures { Adds (3 * d) (edges s.now (3 * d)) ws.old ws.new }
{
    let records = Records { s, ws };
    let vis = records.definition(d, sheet::DEFINITION_TRAIT_VIS);
    let t = records.definition(d, sheet::DEFINITION_TRAIT) as usize;
    let bindings = records.definition(d, sheet::DEFINITION_BINDINGS) as usize;
    let members = records.definition(d, sheet::DEFINITION_IMPLICIT) as usize;
    link_trait(s, ws, 3 * d, vis, t);
    link_bindings(s, ws, 3 * d, true, bindings);
    link_members(s, ws, 3 * d, members);
}

// Adds the edges of a definition's level within: the direct level, named members, unnamed impls.
fn link_within(s: &[u32], ws: &mut [u32], d: usize)
    requires { Linking (3 * d + 1) s.now ws.old }
    ensures { Adds (3 * d + 1) (edges s.now (3 * d + 1)) ws.old ws.new }
{
    let records = Records { s, ws };
    let bindings = records.definition(d, sheet::DEFINITION_BINDINGS) as usize;
    let members = records.definition(d, sheet::DEFINITION_NAMED) as usize;
    link(ws, 3 * d + 1, PUBLIC, 3 * d);
    link_members(s, ws, 3 * d + 1, members);
    link_bindings(s, ws, 3 * d + 1, false, bindings);
}

// Adds the edges of a definition's level within ancestors: the level within, and the parent's ancestors or the prelude.
fn link_ancestors(s: &[u32], ws: &mut [u32], d: usize)
    requires { Linking (3 * d + 2) s.now ws.old }
    ensures { Adds (3 * d + 2) (edges s.now (3 * d + 2)) ws.old ws.new }
{
    let parent = Records { s, ws }.definition(d, sheet::DEFINITION_PARENT) as usize;
    let prelude = words::next(s, sheet::PRELUDE);
    link(ws, 3 * d + 2, PUBLIC, 3 * d + 1);
    if let Some(p) = parent.checked_sub(1) {
        link(ws, 3 * d + 2, PUBLIC, 3 * p + 2);
    } else if let Some(q) = prelude.checked_sub(1) {
        link(ws, 3 * d + 2, PUBLIC, 3 * q + 1);
    }
}

// Adds the edges of a definition's three nodes.
fn link_definition(s: &[u32], ws: &mut [u32], d: usize)
    requires { Linking (3 * d + 2) s.now ws.old }
    ensures { LinksDefinition s.now d ws.old ws.new }
{
    link_direct(s, ws, d);
    link_within(s, ws, d);
    link_ancestors(s, ws, d);
}

// Adds the edges of all nodes of the first n definitions. `sets::bind_all` is the same loop over another step, whose contract is another.
pub fn link_all(s: &[u32], ws: &mut [u32], n: usize)
    requires { LinkingAll n s.now ws.old }
    ensures { Built s.now (3 * n) ws.old ws.new }
{
    for d in 0..n {
        link_definition(s, ws, d);
    }
}
