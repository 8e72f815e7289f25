// Walks down a type table: `occurs`, `self_inverse` and `get_mod`. The first two visit a shared node once: a node that is finished is marked, in a lent word of its own.
#![tactic(auto)]

ghost use Rattle.std.specs.Prelude.{◌≡◌, ◌/◌, ◌<◌, ◌≤◌, length};
ghost use Rattle.rules.specs.Types.{occurs as occurs_of, self_inverse};
ghost use Rattle.rules.specs.Transfer.{type_of_word};
ghost use Rattle.rules.specs.Solutions.{rep};
ghost use Rattle.table.specs.Packing.{types_of, id_at, kind_at, Good};
ghost use Rattle.chart.specs.Numbers.{number_of};
ghost use Rattle.rules.specs.Search.{get_mod};
ghost use Rattle.walks.specs.Modules.{module_of, own_module};
ghost use Rattle.walks.specs.Marking.{is_marked, with_mark};
ghost use Rattle.walks.specs.Occurs.{Clean, Walked, Among};
ghost use Rattle.walks.specs.SelfInverse.{own_inverse, Own, Inverted, AllInverted};

use chart::kinds::Kind;
use chart::{kinds, layout};
use refusals::Refusal;

// Whether node n is marked.
fn marked(marks: &[u32], n: u32) -> bool
    ensures { result ≡ is_marked marks.now n }
{
    words::word(marks, n as usize) != 0
}

// Marks node n.
fn mark(marks: &mut [u32], n: u32)
    requires { n < length marks.old }
    ensures { marks.new ≡ with_mark marks.old n }
{
    marks[n as usize] = 1;
}

// Whether the class of root v is that of a type, or of a type within it. Marked nodes have nothing of v within them.
#[cycle(occurs_walk)]
fn occurs_in(ws: &[u32], marks: &mut [u32], v: u32, t: u32) -> bool
    requires good { Good ws.now }
    requires t_in_bounds { t / 2 < length (types_of ws.now) }
    requires ws_in_bounds { length (types_of ws.now) ≤ length marks.old }
    requires clean { Clean (types_of ws.now) v marks.old }
    ensures { Walked (types_of ws.now) v t marks.new result }
{
    let n = table::root_of(ws, t / 2);
    if n == v {
        return true;
    }
    if marked(marks, n) {
        return false;
    }
    if occurs_among(ws, marks, v, n) {
        return true;
    }
    mark(marks, n);
    false
}

// Whether it is that of a type within root n.
#[cycle(occurs_walk)]
fn occurs_among(ws: &[u32], marks: &mut [u32], v: u32, n: u32) -> bool
    requires good { Good ws.now }
    requires n_in_bounds { n < length (types_of ws.now) }
    requires n_value { rep (types_of ws.now) n ≡ n }
    requires ws_in_bounds { length (types_of ws.now) ≤ length marks.old }
    requires clean { Clean (types_of ws.now) v marks.old }
    ensures { Among (types_of ws.now) v n marks.new result }
{
    for i in 0..table::child_count(ws, n) {
        if occurs_in(ws, marks, v, table::child(ws, n, i)) {
            return true;
        }
    }
    false
}

// `occurs`: whether the class of root v is that of a type, or of a type within it.
pub fn occurs(ws: &[u32], marks: &mut [u32], v: u32, t: u32) -> bool
    requires good { Good ws.now }
    requires t_in_bounds { t / 2 < length (types_of ws.now) }
    requires ws_in_bounds { length (types_of ws.now) ≤ length marks.old }
    ensures { result ≡ occurs_of (types_of ws.now) v (type_of_word t) }
{
    words::clear(marks, table::count(ws) as usize);
    occurs_in(ws, marks, v, t)
}

// Whether the kind of node n is its own inverse, its children aside.
fn own_inverse_of(s: &[u32], ws: &[u32], n: u32) -> bool
    ensures { result ≡ own_inverse s.now (types_of ws.now) n }
{
    let k = table::kind_of(ws, n);
    let d = table::id_of(ws, n);
    k != 0 && kinds::kind_flag(s, layout::ROW_OWN_INVERSE, k as usize, d as usize)
}

// Whether every type in a type is its own inverse. Marked nodes are.
#[cycle(self_inverse_walk)]
pub fn self_inverse_in(s: &[u32], ws: &[u32], marks: &mut [u32], t: u32) -> bool
    requires good { Good ws.now }
    requires t_in_bounds { t / 2 < length (types_of ws.now) }
    requires ws_in_bounds { length (types_of ws.now) ≤ length marks.old }
    requires own { Own s.now (types_of ws.now) marks.old }
    ensures { Inverted s.now (types_of ws.now) t marks.new result }
{
    let n = table::root_of(ws, t / 2);
    if marked(marks, n) {
        return true;
    }
    if !own_inverse_of(s, ws, n) {
        return false;
    }
    if !self_inverse_all(s, ws, marks, n) {
        return false;
    }
    mark(marks, n);
    true
}

// Whether the types within root n are.
#[cycle(self_inverse_walk)]
fn self_inverse_all(s: &[u32], ws: &[u32], marks: &mut [u32], n: u32) -> bool
    requires good { Good ws.now }
    requires n_in_bounds { n < length (types_of ws.now) }
    requires n_value { rep (types_of ws.now) n ≡ n }
    requires ws_in_bounds { length (types_of ws.now) ≤ length marks.old }
    requires own { Own s.now (types_of ws.now) marks.old }
    ensures { AllInverted s.now (types_of ws.now) n marks.new result }
{
    for i in 0..table::child_count(ws, n) {
        if !self_inverse_in(s, ws, marks, table::child(ws, n, i)) {
            return false;
        }
    }
    true
}

// `self_inverse`: whether every type in a type is its own inverse.
pub fn self_inverse(s: &[u32], ws: &[u32], marks: &mut [u32], t: u32) -> bool
    requires good { Good ws.now }
    requires t_in_bounds { t / 2 < length (types_of ws.now) }
    requires ws_in_bounds { length (types_of ws.now) ≤ length marks.old }
    ensures { result ≡ self_inverse s.now (types_of ws.now) (type_of_word t) }
{
    words::clear(marks, table::count(ws) as usize);
    self_inverse_in(s, ws, marks, t)
}

// The definition in whose module a type of a kind, neither Error nor Ref, and an id stands; none where it has no module.
fn own_module_of(s: &[u32], k: Kind, id: usize) -> Option<usize>
    ensures { module_of (Ok result) ≡ own_module s.now (number_of k) id }
{
    match k {
        Kind::Opaque => Some(chart::opaque_def(s, id)),
        Kind::Struct => Some(chart::struct_def(s, id)),
        Kind::Enum => Some(chart::enum_def(s, id)),
        Kind::Union => Some(chart::union_def(s, id)),
        _ => None,
    }
}

// `get_mod`: the definition in whose module a type stands, looked for through Ref.
pub fn get_mod(s: &[u32], ws: &[u32], t: u32) -> Result<Option<usize>, Refusal>
    ensures { module_of result ≡ get_mod s.now (types_of ws.now) (type_of_word t) }
{
    let mut at = t;
    for _i in 0..table::count(ws) as usize + 1 {
        let n = table::root_of(ws, at / 2);
        let Some(kind) = Kind::from_word(table::kind_of(ws, n) as usize) else {
            return Ok(None);
        };
        match kind {
            Kind::Error => return Err(Refusal::ErrorType),
            Kind::Ref => at = table::child(ws, n, 0),
            _ => return Ok(own_module_of(s, kind, table::id_of(ws, n) as usize)),
        }
    }
    Ok(None)
}
