// A call after its search: the last import of a result into the caller's types, the closing join, and the answer's words.
// A result stands in a slot, a table and its trees; the caller's types in a table of their own. `memo` is the slice that the search has left: the joins keep their memo of pairs in it, which is lent them as long as it is.
#![tactic(auto)]

ghost use Rattle.std.specs.Prelude.{◌≡◌, ◌+◌, ◌≤◌, ◌||◌, ltb, is_ok, IfErr, map as map_list, length, drop, take};
ghost use Rattle.std.specs.Option.{option_copied};
ghost use Rattle.std.specs.Bool.{then_some};
ghost use Rattle.std.proofs.Math.Option.{none};
ghost use Rattle.rules.specs.Limits.{limit_answer, limit_tree_nodes};
ghost use Rattle.rules.specs.Sheet.{at};
ghost use Rattle.rules.specs.Types.{unify_impl_type as impl_type_unified};
ghost use Rattle.rules.specs.Solutions.{AllIn};
ghost use Rattle.rules.specs.Neat.{Neat};
ghost use Rattle.rules.specs.Search.{end};
ghost use Rattle.rules.specs.Transfer.{type_of_word, import_types};
ghost use Rattle.refusals.specs.Numbers.{verdict_number, end_number, end_count};
ghost use Rattle.table.specs.Packing.{types_of, Packed};
ghost use Rattle.transfer.specs.Imports.{types_in, Inside, Imports};
ghost use Rattle.trees.specs.Forests.{trees_length, Holds};
ghost use Rattle.slots.specs.Copies.{Filled};
ghost use Rattle.slots.specs.Turns.{count_of};
ghost use Rattle.unify.specs.Results.{Leaves};
ghost use Rattle.unify.specs.Lists.{Nodes};
ghost use Rattle.queries.specs.Queries.{query_of};
ghost use Rattle.loading.specs.Exports.{Asks};
ghost use Rattle.closing.specs.Rows.{Row, Exported, Writes};
ghost use Rattle.closing.specs.Impl.{WritesImpl, ClosesImpl};
ghost use Rattle.closing.specs.Flex.{types_if, Offers, FilledIf, Brings, JoinsFirst, TreesOf, WritesFlex};
ghost use Rattle.closing.specs.FlexEnd.{Joining, ClosesJoined, Caller, ClosesFound};
ghost use Rattle.closing.specs.FlexResults.{several_of, bi_flexible, inverted_of, chosen, ClosesFlex};
ghost use Rattle.closing.specs.Ends.{IfOne, IfFound, EndsResults, EndsImpl};

use queries::Query;
use refusals::{Refusal, Stopped};
use slots::Results;
use transfer::PackedTable;
use unify::UnifyResult;

// The most nodes of a table, and the words of one.
const NODES: usize = 256;

const TABLE: usize = 1025;

// How many results the four flex questions have: fork's, drop's, and those of the inverted type.
#[derive(Clone, Copy, Debug, PartialEq, Eq)]
pub struct Counts {
    pub forks: usize,
    pub drops: usize,
    pub inverse_forks: usize,
    pub inverse_drops: usize,
}

impl Counts {
    // Whether the type as it stands has results.
    pub fn is_upright(self) -> bool
        ensures { result ≡ (ltb 0 self.forks || ltb 0 self.drops) }
    {
        0 < self.forks || 0 < self.drops
    }

    // Whether the inverted type has.
    fn has_inverse(self) -> bool
        ensures { result ≡ (ltb 0 self.inverse_forks || ltb 0 self.inverse_drops) }
    {
        0 < self.inverse_forks || 0 < self.inverse_drops
    }

    // Whether only the inverted type has.
    #[tactic(auto, unfolding(crate::specs::FlexResults::inverted_of))]
    fn is_inverted(self) -> bool
        ensures { result ≡ inverted_of self.forks self.drops self.inverse_forks self.inverse_drops }
    {
        !self.is_upright() && self.has_inverse()
    }

    // Whether both ways have results, of a type that is not its own inverse.
    #[tactic(auto, unfolding(crate::specs::FlexResults::bi_flexible))]
    fn is_bi_flexible(self, own: bool) -> bool
        ensures { result ≡ bi_flexible self.forks self.drops self.inverse_forks self.inverse_drops own }
    {
        self.is_upright() && self.has_inverse() && !own
    }

    // Whether one question has more than one.
    #[tactic(auto, unfolding(crate::specs::FlexResults::several_of))]
    fn has_several(self) -> bool
        ensures { result ≡ several_of self.forks self.drops self.inverse_forks self.inverse_drops }
    {
        1 < self.forks || 1 < self.drops || 1 < self.inverse_forks || 1 < self.inverse_drops
    }

    // Whether the fork question of the way that counts has results.
    #[tactic(auto, unfolding(crate::specs::FlexResults::chosen))]
    fn has_fork(self) -> bool
        ensures { result ≡ chosen (inverted_of self.forks self.drops self.inverse_forks self.inverse_drops) self.forks self.inverse_forks }
    {
        if self.is_inverted() {
            0 < self.inverse_forks
        } else {
            0 < self.forks
        }
    }

    // Whether its drop question has.
    #[tactic(auto, unfolding(crate::specs::FlexResults::chosen))]
    fn has_drop(self) -> bool
        ensures { result ≡ chosen (inverted_of self.forks self.drops self.inverse_forks self.inverse_drops) self.drops self.inverse_drops }
    {
        if self.is_inverted() {
            0 < self.inverse_drops
        } else {
            0 < self.drops
        }
    }
}

// What a flex answer tells beside its types: the first results of fork and of drop, where there are such, whether they are of the inverted type,
// and whether the type is its own inverse.
#[derive(Clone, Copy)]
struct Flexes<'a> {
    fork: Option<&'a [u32]>,
    drop: Option<&'a [u32]>,
    inverted: bool,
    own: bool,
}

// The last import: the first m types of ts, in place, from the result in a slot; 14 where there is no room.
fn import_result(found: &[u32], table: &mut [u32], ts: &mut [u32], m: usize) -> Result<(), Refusal>
    requires neat { Neat (types_of found.now) }
    requires packed { Packed table.old }
    requires m_in_bounds { m ≤ length ts.old }
    requires inside { Inside (types_of found.now) (take m ts.old) }
    ensures imports { Imports (import_types (types_of found.now) none (types_in m ts.old) (types_of table.old)) table.new ts.old ts.new m (is_ok result) }
    ensures full { IfErr result (λ refusal. refusal ≡ Refusal.TypesFull) }
{
    let mut map = [0u32; NODES];
    transfer::import_types(&PackedTable(found), table, &mut map, None, ts, m)
}

// The type words of nodes 0, 1, 2 and on, upright, n of them.
fn fill_row(row: &mut [u32], n: usize)
    requires n_bound { n ≤ 256 }
    requires n_in_bounds { n ≤ length row.old }
    ensures { Row row.new n }
{
    for i in 0..n {
        row[i] = 2 * i as u32;
    }
}

// `export` of the caller's types for the question's nodes, n of them: their table, and the type word of each.
fn export_nodes(table: &[u32], n: usize, out: &mut [u32], row: &mut [u32])
    requires neat { Neat (types_of table.now) }
    requires n_in_bounds { n ≤ length (types_of table.now) }
    requires n_in_bounds_2 { n ≤ length row.old }
    requires in_bounds { 1025 ≤ length out.old }
    ensures { Exported (types_of table.now) n out.new row.new }
{
    fill_row(row, n);
    let mut map = [0u32; NODES];
    let _ = transfer::export_types(&PackedTable(table), out, &mut map, row, n);
}

// Writes an answer: two trees, two flags, and the caller's types for the question's nodes, n of them.
fn write_closing(
    fork: &[u32],
    drop: &[u32],
    inverted: bool,
    self_inverse: bool,
    table: &[u32],
    n: usize,
    answer: &mut [u32],
)
    requires trees_length_in_bounds { trees_length ≤ length fork.now }
    requires fork_bound { at fork.now 0 ≤ limit_tree_nodes }
    requires trees_length_in_bounds_2 { trees_length ≤ length drop.now }
    requires drop_bound { at drop.now 0 ≤ limit_tree_nodes }
    requires neat { Neat (types_of table.now) }
    requires n_in_bounds { n ≤ length (types_of table.now) }
    requires limit_answer_in_bounds { limit_answer ≤ length answer.old }
    ensures { Writes fork.now 0 drop.now 0 inverted self_inverse (types_of table.now) n answer.old answer.new }
{
    let mut out = [0u32; TABLE];
    let mut row = [0u32; NODES];
    export_nodes(table, n, &mut out, &mut row);
    let types = &row[..n];
    answer::write_answer(fork, drop, inverted, self_inverse, &out, types, answer);
}

// The closing join: the query as asked, and then as the last import brought it.
fn join_query(sheet: &[u32], table: &mut [u32], memo: &mut [u32], query: Query, tr: u32, ys: &[u32])
    requires asks { Asks (types_of table.old) query }
    requires packed { Packed table.old }
    requires nodes { Nodes (types_of table.old) ys.now }
    requires in_bounds { 256 ≤ length memo.old }
    ensures { Leaves table.new (impl_type_unified sheet.now (types_of table.old) (query_of query) (tr, map_list type_of_word ys.now)) }
{
    let Query { tr: asked, n, args } = query;
    unify::unify_impl_type(sheet, table, memo, asked, &args[..n], tr, ys);
}

// The trees of a result, from its slot.
fn trees_in(slot: &[u32]) -> &[u32]
    requires { 1025 ≤ length slot.now }
    ensures { result.now ≡ drop 1025 slot.now }
{
    &slot[slots::TREES..]
}

// Writes the answer of an impl call: the tree of the result in a slot, and none.
fn write_impl(found: &[u32], table: &[u32], n: usize, answer: &mut [u32])
    requires filled { Filled found.now 0 }
    requires neat { Neat (types_of table.now) }
    requires n_in_bounds { n ≤ length (types_of table.now) }
    requires limit_answer_in_bounds { limit_answer ≤ length answer.old }
    ensures { WritesImpl found.now 0 (types_of table.now) n answer.old answer.new }
{
    let none = [0u32; trees::TREES];
    write_closing(trees_in(found), &none, false, false, table, n, answer)
}

// Joins the query with what the last import brought, ys, and writes the answer.
fn finish_impl(
    sheet: &[u32],
    query: Query,
    tr: u32,
    ys: &[u32],
    found: &[u32],
    table: &mut [u32],
    n: usize,
    memo: &mut [u32],
    answer: &mut [u32],
)
    requires packed { Packed table.old }
    requires asks { Asks (types_of table.old) query }
    requires nodes { Nodes (types_of table.old) ys.now }
    requires filled { Filled found.now 0 }
    requires n_in_bounds { n ≤ length (types_of table.old) }
    requires in_bounds { 256 ≤ length memo.old }
    requires limit_answer_in_bounds { limit_answer ≤ length answer.old }
    ensures { WritesImpl found.now 0 (impl_type_unified sheet.now (types_of table.old) (query_of query) (tr, map_list type_of_word ys.now)).1 n answer.old answer.new }
{
    join_query(sheet, table, memo, query, tr, ys);
    write_impl(found, table, n, answer)
}

// What one result of an impl call comes to: 14, or the answer's words. `query` is the call's, over the caller's types; `asked` is what was exported
// of it, over the types of the result in the slot.
pub fn close_impl(
    sheet: &[u32],
    query: Query,
    asked: Query,
    found: &[u32],
    table: &mut [u32],
    memo: &mut [u32],
    answer: &mut [u32],
) -> Result<(), Refusal>
    requires packed { Packed table.old }
    requires asks { Asks (types_of table.old) query }
    requires filled { Filled found.now 0 }
    requires asks_2 { Asks (types_of found.now) asked }
    requires in_bounds { 256 ≤ length memo.old }
    requires limit_answer_in_bounds { limit_answer ≤ length answer.old }
    ensures { ClosesImpl sheet.now (types_of table.old) (query_of query) (query_of asked) found.now 0 answer.old answer.new (verdict_number result) }
{
    let n = table::count(table) as usize;
    let Query { tr, n: m, mut args } = asked;
    import_result(found, table, &mut args, m)?;
    let ys = &args[..m];
    finish_impl(sheet, query, tr, ys, found, table, n, memo, answer);
    Ok(())
}

// What n results of an impl call come to, whose first stands in slot 1: 20 where there is none, 21 where there are several, or the end of the call with the one.
pub fn end_results(
    sheet: &[u32],
    query: Query,
    asked: Query,
    n: usize,
    found: &[u32],
    table: &mut [u32],
    memo: &mut [u32],
    answer: &mut [u32],
) -> Result<(), Refusal>
    requires packed { Packed table.old }
    requires asks { Asks (types_of table.old) query }
    requires if_one { IfOne n asked found.now }
    requires in_bounds { 256 ≤ length memo.old }
    requires limit_answer_in_bounds { limit_answer ≤ length answer.old }
    ensures { EndsResults sheet.now (types_of table.old) (query_of query) (query_of asked) n found.now answer.old answer.new (verdict_number result) }
{
    match n {
        0 => Err(Refusal::CannotFindImpl),
        1 => {
            let first = &found[slots::SLOT..];
            close_impl(sheet, query, asked, first, table, memo, answer)
        }
        _ => Err(Refusal::AmbiguousImpl),
    }
}

// What the search of an impl call comes to: its refusal, or what its results come to, of which the first stands in slot 1; with the count after the search.
pub fn end_impl(
    sheet: &[u32],
    query: Query,
    asked: Query,
    searched: Result<Results, Stopped>,
    found: &[u32],
    table: &mut [u32],
    memo: &mut [u32],
    answer: &mut [u32],
) -> Result<u32, Stopped>
    requires packed { Packed table.old }
    requires asks { Asks (types_of table.old) query }
    requires if_found { IfFound searched asked found.now }
    requires in_bounds { 256 ≤ length memo.old }
    requires limit_answer_in_bounds { limit_answer ≤ length answer.old }
    ensures ends { EndsImpl sheet.now (types_of table.old) (query_of query) (query_of asked) searched found.now answer.old answer.new (end_number result) }
    ensures count { end_count result ≡ count_of searched }
{
    match searched {
        Ok(Results { n, count }) => {
            match end_results(sheet, query, asked, n, found, table, memo, answer) {
                Ok(()) => Ok(count),
                Err(refusal) => Err(Stopped { refusal, count }),
            }
        }
        Err(stopped) => Err(stopped),
    }
}

// The last import of the exported type t from the first result of a flex question, if there is one; 14 where there is no room.
fn import_type(found: Option<&[u32]>, table: &mut [u32], t: u32) -> Result<Option<u32>, Refusal>
    requires offers { Offers (option_copied found) t }
    requires packed { Packed table.old }
    ensures { Brings (option_copied found.entry) t (types_of table.old) table.new result }
{
    let Some(slot) = found else {
        return Ok(None);
    };
    let mut ts = [t];
    import_result(slot, table, &mut ts, 1)?;
    Ok(Some(ts[0]))
}

// Joins two types, each of which may be absent, where both are there; true where that failed.
fn join_types(
    sheet: &[u32],
    table: &mut [u32],
    memo: &mut [u32],
    x: Option<u32>,
    y: Option<u32>,
) -> bool
    requires packed { Packed table.old }
    requires neat { Neat (types_of table.old) }
    requires all_in { AllIn (length (types_of table.old)) (types_if x) }
    requires all_in_2 { AllIn (length (types_of table.old)) (types_if y) }
    requires in_bounds { 256 ≤ length memo.old }
    ensures { JoinsFirst sheet.now (types_of table.old) (types_if x) (types_if y) table.new result }
{
    let (Some(x), Some(y)) = (x, y) else {
        return false;
    };
    matches!(unify::unify(sheet, table, memo, x, y), UnifyResult::Failure)
}

// The trees of the first result of a flex question, or none.
fn trees_of<'a>(found: Option<&'a [u32]>, none: &'a [u32]) -> &'a [u32]
    requires filled_if { FilledIf (option_copied found) }
    requires holds { Holds none.now 0 end }
    requires trees_length_in_bounds { trees_length ≤ length none.now }
    ensures { TreesOf (option_copied found.entry) result.now }
{
    match found {
        Some(slot) => trees_in(slot),
        None => none,
    }
}

// Writes the answer of a flex call: the trees of its fork and drop results, where there are such.
fn write_flex(flexes: Flexes, table: &[u32], n: usize, answer: &mut [u32])
    requires filled_if { FilledIf (option_copied flexes.fork) }
    requires filled_if_2 { FilledIf (option_copied flexes.drop) }
    requires neat { Neat (types_of table.now) }
    requires n_in_bounds { n ≤ length (types_of table.now) }
    requires limit_answer_in_bounds { limit_answer ≤ length answer.old }
    ensures { WritesFlex (option_copied flexes.entry.fork) (option_copied flexes.entry.drop) flexes.entry.inverted flexes.entry.own (types_of table.now) n answer.old answer.new }
{
    let none = [0u32; trees::TREES];
    let fork = trees_of(flexes.fork, &none);
    let drop = trees_of(flexes.drop, &none);
    write_closing(fork, drop, flexes.inverted, flexes.own, table, n, answer)
}

// Joins fork's type with drop's, 26 where that fails; then the closing join: the type as asked, and then fork's, or drop's alone. Then the answer is written.
fn close_joined(
    sheet: &[u32],
    t: u32,
    x: Option<u32>,
    y: Option<u32>,
    flexes: Flexes,
    table: &mut [u32],
    n: usize,
    memo: &mut [u32],
    answer: &mut [u32],
) -> Result<(), Refusal>
    requires filled_if { FilledIf (option_copied flexes.fork) }
    requires filled_if_2 { FilledIf (option_copied flexes.drop) }
    requires joining { Joining table.old t x y n }
    requires in_bounds { 256 ≤ length memo.old }
    requires limit_answer_in_bounds { limit_answer ≤ length answer.old }
    ensures { ClosesJoined sheet.now (types_of table.old) t x (option_copied flexes.entry.fork) y (option_copied flexes.entry.drop) flexes.entry.inverted flexes.entry.own n answer.old answer.new (verdict_number result) }
{
    if join_types(sheet, table, memo, x, y) {
        return Err(Refusal::IncompatibleForkDropInference);
    }
    join_types(sheet, table, memo, Some(t), x.or(y));
    write_flex(flexes, table, n, answer);
    Ok(())
}

// The last import of fork's result and then drop's, where there are such: 14 where there is no room; then the joins and the answer.
// t is the type as asked, over the caller's types, and e what was exported of it.
fn close_found(
    sheet: &[u32],
    t: u32,
    e: u32,
    flexes: Flexes,
    table: &mut [u32],
    memo: &mut [u32],
    answer: &mut [u32],
) -> Result<(), Refusal>
    requires offers { Offers (option_copied flexes.fork) e }
    requires offers_2 { Offers (option_copied flexes.drop) e }
    requires caller { Caller table.old t }
    requires in_bounds { 256 ≤ length memo.old }
    requires limit_answer_in_bounds { limit_answer ≤ length answer.old }
    ensures { ClosesFound sheet.now (types_of table.old) t e (option_copied flexes.entry.fork) (option_copied flexes.entry.drop) flexes.entry.inverted flexes.entry.own answer.old answer.new (verdict_number result) }
{
    let n = table::count(table) as usize;
    let x = import_type(flexes.fork, table, e)?;
    let y = import_type(flexes.drop, table, e)?;
    close_joined(sheet, t, x, y, flexes, table, n, memo, answer)
}

// What the results of the four flex questions come to: 21, 25, 14, 26, or the answer's words. t is the type as asked, over the
// caller's types, and e what was exported of it. The first results of the fork and the drop question that count, upright or inverted, stand in the slots
// fork and drop, where there are such.
pub fn close_flex(
    sheet: &[u32],
    t: u32,
    e: u32,
    counts: Counts,
    fork: &[u32],
    drop: &[u32],
    table: &mut [u32],
    memo: &mut [u32],
    answer: &mut [u32],
) -> Result<(), Refusal>
    requires offers { Offers (then_some (chosen (inverted_of counts.forks counts.drops counts.inverse_forks counts.inverse_drops) counts.forks counts.inverse_forks) fork.now) e }
    requires offers_2 { Offers (then_some (chosen (inverted_of counts.forks counts.drops counts.inverse_forks counts.inverse_drops) counts.drops counts.inverse_drops) drop.now) e }
    requires caller { Caller table.old t }
    requires in_bounds { 256 ≤ length memo.old }
    requires limit_answer_in_bounds { limit_answer ≤ length answer.old }
    ensures { ClosesFlex sheet.now (types_of table.old) t e counts.forks counts.drops counts.inverse_forks counts.inverse_drops fork.now drop.now answer.old answer.new (verdict_number result) }
{
    if counts.has_several() {
        return Err(Refusal::AmbiguousImpl);
    }
    let mut marks = [0u32; NODES];
    let own = walks::self_inverse(sheet, table, &mut marks, t);
    if counts.is_bi_flexible(own) {
        return Err(Refusal::BiFlexible);
    }
    let flexes = Flexes {
        fork: counts.has_fork().then_some(fork),
        drop: counts.has_drop().then_some(drop),
        inverted: counts.is_inverted(),
        own,
    };
    close_found(sheet, t, e, flexes, table, memo, answer)
}
