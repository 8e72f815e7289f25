// 8 and 12: every value of every record is in range and within its limit, in time that goes with the slice's length whatever chains share.
// Planes of the workspace hold what is noted of the chain from each place (limits::PLANE words each): its length, and the most that its
// records ask for. A test of a whole chain is then one read.
#![tactic(auto)]

ghost use Rattle.std.specs.Prelude.{◌≡◌, ◌≤◌, T, length};
ghost use Rattle.rules.specs.Limits.{limit_sheet};
ghost use Rattle.rules.specs.Chains.{sheet_keeps, impl_question_keeps, flex_question_keeps};
ghost use Rattle.rules.specs.Values.{sheet_values, impl_question_values, flex_question_values};
ghost use Rattle.values.specs.Tables.{planes_room};

pub mod fits; // fits.rt: the tests of one record
pub mod folds; // folds.rt: what is noted of a chain, and the pass that notes lengths
pub mod limits; // limits.rt: the limits of document 01, and the planes
pub mod planes; // planes.rt: what is noted of each place, and the passes over all
pub mod prepare; // prepare.rt: the planes that 8 and 12 read
pub mod records; // records.rt: the values of each record, read off the planes

use records::{Linked, Tabled};

// 8: the values of a sheet whose chains keep the rule.
pub fn sheet_values(s: &[u32], ws: &mut [u32]) -> bool
    requires { T (sheet_keeps s.now) × (length s.now ≤ limit_sheet) × (planes_room ≤ length ws.old) }
    ensures { result ≡ sheet_values s.now }
{
    prepare::prepare_sheet(s, ws);
    Linked { s, ws }.sheet_ok()
}

// 12: the values of an impl question whose chains keep the rule, asked under generics g.
pub fn impl_question_values(s: &[u32], g: usize, q: &[u32], ws: &mut [u32]) -> bool
    requires { T (impl_question_keeps q.now) × (length s.now ≤ limit_sheet) × (length q.now ≤ limit_sheet) × (planes_room ≤ length ws.old) }
    ensures { result ≡ impl_question_values s.now g q.now }
{
    prepare::prepare_question(s, q, ws);
    Tabled { s, w: q, ws }.impl_question_ok(g)
}

// 12: the values of a flex question. It has in common with the impl question that its planes are made first, which is one call.
pub fn flex_question_values(s: &[u32], g: usize, q: &[u32], ws: &mut [u32]) -> bool
    requires { T (flex_question_keeps q.now) × (length s.now ≤ limit_sheet) × (length q.now ≤ limit_sheet) × (planes_room ≤ length ws.old) }
    ensures { result ≡ flex_question_values s.now g q.now }
{
    prepare::prepare_question(s, q, ws);
    Tabled { s, w: q, ws }.flex_question_ok(g)
}
