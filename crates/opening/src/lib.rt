// What a question does with one candidate impl before its sub-questions, and with one impl parameter: fresh unknowns, imports from the sheet, and the join
// with the question. It is work on one lent type table; `places` and `map` are lent for the time of a call.
#![tactic(auto)]

ghost use Rattle.std.specs.Prelude.{◌≡◌, true, map as map_list, ◌+◌, ◌*◌, ◌<◌, ◌≤◌, length};
ghost use Rattle.std.specs.Result.{is_ok, IfErr};
ghost use Rattle.std.proofs.Math.Option.{none, some};
ghost use Rattle.rules.specs.Layout.{header_generics, header_impls};
ghost use Rattle.rules.specs.Sheet.{field, many};
ghost use Rattle.rules.specs.Solutions.{AllIn};
ghost use Rattle.rules.specs.Types.{unify_impl_type};
ghost use Rattle.rules.specs.Transfer.{type_of_word, table as table_of, import_types, import_impl_type, import_impl_types};
ghost use Rattle.rules.specs.Search.{impl_params};
ghost use Rattle.rules.specs.SearchKeeps.{fresh_count, signed};
ghost use Rattle.rules.specs.Neat.{Neat, Brought, QueriesIn};
ghost use Rattle.table.specs.Packing.{types_of, Packed, Good, TypeWords};
ghost use Rattle.transfer.specs.Moving.{params_of};
ghost use Rattle.transfer.specs.Outcomes.{params_in, GivenWords};
ghost use Rattle.transfer.specs.Imports.{types_in, Imports};
ghost use Rattle.queries.specs.Queries.{query_of, queries_of};
ghost use Rattle.queries.specs.Gathering.{WithinFour};
ghost use Rattle.queries.specs.Rows.{Rowed};
ghost use Rattle.unify.specs.Results.{Joins};
ghost use Rattle.unify.specs.Lists.{Nodes};
ghost use Rattle.opening.specs.Fresh.{Freshens};
ghost use Rattle.opening.specs.Standing.{standing, Stands};
ghost use Rattle.opening.specs.Bringing.{Lent};
ghost use Rattle.opening.specs.Sound.{Sound};
ghost use Rattle.opening.specs.Signing.{signed_by, Leaves};
ghost use Rattle.opening.specs.Needing.{needed_by, Needs, Follows};
ghost use Rattle.opening.specs.Meeting.{imported, Meets};

use chart::layout;
use queries::{Queries, Query};
use refusals::Refusal;
use transfer::Records;

// Pushes n fresh unknowns to a table. Refused where there is no room.
#[tactic(auto, using(crate::specs::Fresh::fresh_more, crate::specs::Fresh::fresh_full, crate::specs::Fresh::fresh_done))]
fn fresh(ws: &mut [u32], n: usize) -> Result<(), Refusal>
    requires { Packed ws.old }
    ensures freshens { Freshens ws.old ws.new n (is_ok result) }
    ensures full { IfErr result (λ refusal. refusal ≡ Refusal.TypesFull) }
{
    for i in 0..n {
        table::new_var(ws)?;
    }
    Ok(())
}

// Writes the types that stand for n type parameters: the nodes from base on.
#[tactic(auto, using(crate::specs::Standing::standing_more))]
fn stand(base: u32, n: usize, ps: &mut [u32])
    requires n_bound { base + n ≤ 256 }
    requires n_in_bounds { n ≤ length ps.old }
    ensures { Stands base n ps.new }
{
    for k in 0..n {
        ps[k] = 2 * (base + k as u32);
    }
}

// Word k of record `id` of the chain that header word h heads.
pub fn word_of(s: &[u32], h: usize, id: usize, k: usize) -> u32
    ensures { result ≡ field s.now h id k }
{
    let head = words::next(s, h);
    let p = words::place(s, head, id);
    words::offset(s, p, k)
}

// `import` of the first m types of ts, in place, from the sheet's table at a head. Refused where there is no room.
fn bring(
    sheet: &[u32],
    head: u32,
    dst: &mut [u32],
    places: &mut [u32],
    map: &mut [u32],
    params: Option<&[u32]>,
    ts: &mut [u32],
    m: usize,
) -> Result<(), Refusal>
    requires neat { Neat (table_of sheet.now head) }
    requires lent { Lent sheet.now head places.old map.old }
    requires type_words { GivenWords params }
    requires packed { Packed dst.old }
    requires m_in_bounds { m ≤ length ts.old }
    requires all_in { AllIn (length (table_of sheet.now head)) (types_in m ts.old) }
    ensures imports { Imports (import_types (table_of sheet.now head) (params_in params.entry) (types_in m ts.old) (types_of dst.old)) dst.new ts.old ts.new m (is_ok result) }
    ensures full { IfErr result (λ refusal. refusal ≡ Refusal.TypesFull) }
{
    let n = chart::index_chain(sheet, head, places, 0);
    let places = &places[..n];
    transfer::import_types(&Records { sheet, places }, dst, map, params, ts, m)
}

// The join of a trait? and its arguments with the question: whether it succeeds.
fn joins(sheet: &[u32], dst: &mut [u32], marks: &mut [u32], tr: u32, xs: &[u32], q: Query) -> bool
    requires good { Good dst.old }
    requires nodes { Nodes (types_of dst.old) xs.now }
    requires all_in { AllIn (length (types_of dst.old)) (query_of q).1 }
    requires n_bound { q.n ≤ 4 }
    requires in_bounds { 256 ≤ length marks.old }
    ensures { Joins (unify_impl_type sheet.now (types_of dst.old) (tr, map_list type_of_word xs.now) (query_of q)) dst.new result }
{
    unify::join_impl_type(sheet, dst, marks, tr, xs, q.tr, &q.args[..q.n])
}

// Imports the first n types of xs, in place, from the sheet's table at a head, and joins them, as the arguments of a trait?, with the question: whether they unify.
// Refused where the table would pass its limit.
fn meet_types(
    sheet: &[u32],
    head: u32,
    dst: &mut [u32],
    places: &mut [u32],
    map: &mut [u32],
    params: Option<&[u32]>,
    tr: u32,
    xs: &mut [u32],
    n: usize,
    q: Query,
) -> Result<bool, Refusal>
    requires neat { Neat (table_of sheet.now head) }
    requires lent { Lent sheet.now head places.old map.old }
    requires type_words { GivenWords params }
    requires packed { Packed dst.old }
    requires n_in_bounds { n ≤ length xs.old }
    requires all_in { AllIn (length (table_of sheet.now head)) (types_in n xs.old) }
    requires n_bound { q.n ≤ 4 }
    requires all_in_2 { AllIn (length (types_of dst.old)) (query_of q).1 }
    requires brought { Brought (types_of dst.old) (imported (table_of sheet.now head) (params_in params) tr n xs.old dst.old).0.1 (imported (table_of sheet.now head) (params_in params) tr n xs.old dst.old).1 }
    ensures { Meets sheet.now (imported (table_of sheet.now head) (params_in params.entry) tr n xs.old dst.old) (query_of q) result dst.new }
{
    bring(sheet, head, dst, places, map, params, xs, n)?;
    Ok(joins(sheet, dst, map, tr, &xs[..n], q))
}

// Imports p from the sheet's table at a head, and joins it with question q.
fn meet(
    sheet: &[u32],
    head: u32,
    dst: &mut [u32],
    places: &mut [u32],
    map: &mut [u32],
    params: Option<&[u32]>,
    p: Query,
    q: Query,
) -> Result<bool, Refusal>
    requires neat { Neat (table_of sheet.now head) }
    requires lent { Lent sheet.now head places.old map.old }
    requires type_words { GivenWords params }
    requires packed { Packed dst.old }
    requires n_bound { p.n ≤ 4 }
    requires all_in { AllIn (length (table_of sheet.now head)) (query_of p).1 }
    requires n_bound_2 { q.n ≤ 4 }
    requires all_in_2 { AllIn (length (types_of dst.old)) (query_of q).1 }
    requires brought { Brought (types_of dst.old) (import_impl_type (table_of sheet.now head) (params_in params) (query_of p) (types_of dst.old)).0.1 (import_impl_type (table_of sheet.now head) (params_in params) (query_of p) (types_of dst.old)).1 }
    ensures { Meets sheet.now (import_impl_type (table_of sheet.now head) (params_in params.entry) (query_of p) (types_of dst.old)) (query_of q) result dst.new }
{
    let mut xs = p.args;
    meet_types(sheet, head, dst, places, map, params, p.tr, &mut xs, p.n, q)
}

// An impl parameter p of generics, imported and met with question q.
pub fn meet_param(
    sheet: &[u32],
    generics: usize,
    dst: &mut [u32],
    places: &mut [u32],
    map: &mut [u32],
    q: Query,
    p: Query,
) -> Result<bool, Refusal>
    requires sound { Sound sheet.now }
    requires generics_bound { generics < many sheet.now header_generics }
    requires sheet_len_bound { length sheet.now ≤ 5 * length places.old }
    requires sheet_len_bound_2 { (length sheet.now ≤ 5 * length map.old) × (256 ≤ length map.old) }
    requires packed { Packed dst.old }
    requires neat { Neat (types_of dst.old) }
    requires n_bound { q.n ≤ 4 }
    requires all_in { AllIn (length (types_of dst.old)) (query_of q).1 }
    requires n_bound_2 { p.n ≤ 4 }
    requires all_in_2 { AllIn (length (impl_params sheet.now generics).0) (query_of p).1 }
    ensures { Meets sheet.now (import_impl_type (impl_params sheet.now generics).0 none (query_of p) (types_of dst.old)) (query_of q) result dst.new }
{
    let head = word_of(sheet, layout::GENERICS, generics, layout::GENERICS_TABLE);
    meet(sheet, head, dst, places, map, None, p, q)
}

// The signature of impl i, imported with the parameters ps and met with question q.
fn sign_with(
    sheet: &[u32],
    dst: &mut [u32],
    places: &mut [u32],
    map: &mut [u32],
    ps: &[u32],
    q: Query,
    i: usize,
) -> Result<bool, Refusal>
    requires sound { Sound sheet.now }
    requires i_bound { i < many sheet.now header_impls }
    requires sheet_len_bound { length sheet.now ≤ 5 * length places.old }
    requires sheet_len_bound_2 { (length sheet.now ≤ 5 * length map.old) × (256 ≤ length map.old) }
    requires packed { Packed dst.old }
    requires n_bound { q.n ≤ 4 }
    requires all_in { AllIn (length (types_of dst.old)) (query_of q).1 }
    requires type_words { TypeWords ps.now }
    requires leaves { Leaves (types_of dst.old) (signed_by sheet.now i (params_of true ps.now) (types_of dst.old)) }
    ensures { Meets sheet.now (signed_by sheet.now i (params_of true ps.now) (types_of dst.old)) (query_of q) result dst.new }
{
    let tr = word_of(sheet, layout::IMPLS, i, layout::IMPL_TRAIT);
    let args = chart::impl_args(sheet, i);
    let p = queries::read_query(sheet, tr, args);
    let head = word_of(sheet, layout::IMPLS, i, layout::IMPL_TABLE);
    meet(sheet, head, dst, places, map, Some(ps), p, q)
}

// The same with the n nodes from base on as parameters.
fn sign_from(
    sheet: &[u32],
    dst: &mut [u32],
    places: &mut [u32],
    map: &mut [u32],
    base: u32,
    n: usize,
    q: Query,
    i: usize,
) -> Result<bool, Refusal>
    requires sound { Sound sheet.now }
    requires i_bound { i < many sheet.now header_impls }
    requires sheet_len_bound { length sheet.now ≤ 5 * length places.old }
    requires sheet_len_bound_2 { (length sheet.now ≤ 5 * length map.old) × (256 ≤ length map.old) }
    requires packed { Packed dst.old }
    requires n_bound { q.n ≤ 4 }
    requires all_in { AllIn (length (types_of dst.old)) (query_of q).1 }
    requires n_bound_2 { n ≤ 8 }
    requires n_bound_3 { base + n ≤ 256 }
    requires leaves { Leaves (types_of dst.old) (signed_by sheet.now i (some (standing base n)) (types_of dst.old)) }
    ensures { Meets sheet.now (signed_by sheet.now i (some (standing base n)) (types_of dst.old)) (query_of q) result dst.new }
{
    let mut ps = [0u32; 8];
    stand(base, n, &mut ps);
    sign_with(sheet, dst, places, map, &ps[..n], q, i)
}

// Candidate i up to its join with question q: fresh unknowns for its type parameters, and its signature.
pub fn sign(
    sheet: &[u32],
    dst: &mut [u32],
    places: &mut [u32],
    map: &mut [u32],
    q: Query,
    i: usize,
) -> Result<bool, Refusal>
    requires sound { Sound sheet.now }
    requires i_bound { i < many sheet.now header_impls }
    requires sheet_len_bound { length sheet.now ≤ 5 * length places.old }
    requires sheet_len_bound_2 { (length sheet.now ≤ 5 * length map.old) × (256 ≤ length map.old) }
    requires packed { Packed dst.old }
    requires n_bound { q.n ≤ 4 }
    requires all_in { AllIn (length (types_of dst.old)) (query_of q).1 }
    requires neat { Neat (types_of dst.old) }
    ensures { Meets sheet.now (signed sheet.now (types_of dst.old) i) (query_of q) result dst.new }
{
    let base = table::count(dst);
    let g = chart::impl_generics(sheet, i);
    let n = chart::type_params(sheet, g);
    fresh(dst, n)?;
    sign_from(sheet, dst, places, map, base, n, q, i)
}

// Imports sub-questions qs, whose type words are the first m of ts, from the sheet's table at a head with the parameters ps.
fn bring_row(
    sheet: &[u32],
    head: u32,
    dst: &mut [u32],
    places: &mut [u32],
    map: &mut [u32],
    ps: &[u32],
    qs: Queries,
    ts: &mut [u32],
    m: usize,
) -> Result<Queries, Refusal>
    requires neat { Neat (table_of sheet.now head) }
    requires lent { Lent sheet.now head places.old map.old }
    requires type_words { TypeWords ps.now }
    requires packed { Packed dst.old }
    requires within_four { WithinFour qs }
    requires queries_in { QueriesIn (length (table_of sheet.now head)) (queries_of qs) }
    requires in_bounds { 16 ≤ length ts.old }
    requires rowed { Rowed qs ts.old m }
    ensures { Needs (import_impl_types (table_of sheet.now head) (params_of true ps.now) (queries_of qs) (types_of dst.old)) result dst.new }
{
    bring(sheet, head, dst, places, map, Some(ps), ts, m)?;
    Ok(queries::unrow(qs, ts))
}

// Imports sub-questions qs from the sheet's table at a head with the parameters ps.
fn bring_queries(
    sheet: &[u32],
    head: u32,
    dst: &mut [u32],
    places: &mut [u32],
    map: &mut [u32],
    ps: &[u32],
    qs: Queries,
) -> Result<Queries, Refusal>
    requires neat { Neat (table_of sheet.now head) }
    requires lent { Lent sheet.now head places.old map.old }
    requires type_words { TypeWords ps.now }
    requires packed { Packed dst.old }
    requires within_four { WithinFour qs }
    requires queries_in { QueriesIn (length (table_of sheet.now head)) (queries_of qs) }
    ensures { Needs (import_impl_types (table_of sheet.now head) (params_of true ps.now) (queries_of qs) (types_of dst.old)) result dst.new }
{
    let mut ts = [0u32; 16];
    let m = queries::row(qs, &mut ts);
    bring_row(sheet, head, dst, places, map, ps, qs, &mut ts, m)
}

// The impl parameters of impl i, imported with the parameters ps.
fn need_with(
    sheet: &[u32],
    dst: &mut [u32],
    places: &mut [u32],
    map: &mut [u32],
    ps: &[u32],
    i: usize,
) -> Result<Queries, Refusal>
    requires sound { Sound sheet.now }
    requires i_bound { i < many sheet.now header_impls }
    requires sheet_len_bound { length sheet.now ≤ 5 * length places.old }
    requires sheet_len_bound_2 { (length sheet.now ≤ 5 * length map.old) × (256 ≤ length map.old) }
    requires packed { Packed dst.old }
    requires type_words { TypeWords ps.now }
    ensures { Needs (needed_by sheet.now i (params_of true ps.now) (types_of dst.old)) result dst.new }
{
    let g = chart::impl_generics(sheet, i);
    let qs = queries::read_params(sheet, g);
    let head = word_of(sheet, layout::GENERICS, g, layout::GENERICS_TABLE);
    bring_queries(sheet, head, dst, places, map, ps, qs)
}

// The sub-questions of candidate i after `sign`: its impl parameters, with its fresh unknowns, from node base on, for its type parameters.
// Refused where there is no room.
pub fn need(
    sheet: &[u32],
    dst: &mut [u32],
    places: &mut [u32],
    map: &mut [u32],
    base: u32,
    i: usize,
) -> Result<Queries, Refusal>
    requires sound { Sound sheet.now }
    requires i_bound { i < many sheet.now header_impls }
    requires sheet_len_bound { length sheet.now ≤ 5 * length places.old }
    requires sheet_len_bound_2 { (length sheet.now ≤ 5 * length map.old) × (256 ≤ length map.old) }
    requires packed { Packed dst.old }
    requires i_in_bounds { base + fresh_count sheet.now i ≤ length (types_of dst.old) }
    ensures { Follows sheet.now i base dst.old result dst.new }
{
    let g = chart::impl_generics(sheet, i);
    let n = chart::type_params(sheet, g);
    let mut ps = [0u32; 8];
    stand(base, n, &mut ps);
    need_with(sheet, dst, places, map, &ps[..n], i)
}
