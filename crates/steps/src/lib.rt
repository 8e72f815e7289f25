// What a question does outside the cycle of the search: built-in fork and drop, the generics' impl parameters, its candidates one by one, and a candidate's sub-questions.
// A question's part of the lent slice has the table that is asked about in slot 0 and its results in slots 1 to 4; behind slot 4 is room for one table more, and for sub-questions.
#![tactic(auto)]

ghost use Rattle.std.specs.Prelude.{◌≡◌, true, [], ◌+◌, ◌<◌, ◌≤◌, eqb, length, drop};
ghost use Rattle.rules.specs.Layout.{header_impls};
ghost use Rattle.rules.specs.Sheet.{at, many};
ghost use Rattle.rules.specs.Types.{approx_eq};
ghost use Rattle.rules.specs.Search.{impl_params};
ghost use Rattle.rules.specs.SearchKeeps.{fresh_count};
ghost use Rattle.table.specs.Packing.{types_of, Packed};
ghost use Rattle.slots.specs.Adding.{Aside};
ghost use Rattle.slots.specs.Gathering.{Row};
ghost use Rattle.candidates.specs.Index.{Indexes};
ghost use Rattle.admitted.specs.Found.{Stands, Finds, Gives};
ghost use Rattle.queries.specs.Queries.{query_of};
ghost use Rattle.queries.specs.Takes.{SignatureTakes, ParamTakes, Taken};
ghost use Rattle.opening.specs.Sound.{Sound as SoundSheet};
ghost use Rattle.opening.specs.Needing.{Follows};
ghost use Rattle.steps.specs.Asking.{finder_of, Sound, sets_of, takes_of, Scratch, Asking, Begins, Opens};
ghost use Rattle.steps.specs.Behind.{brought, Behind, ParamIn};
ghost use Rattle.steps.specs.Built.{NoneLeft, LeafStep, SmallIds, Autos};
ghost use Rattle.steps.specs.Params.{ParamStep, ParamsStep};
ghost use Rattle.steps.specs.Candidate.{PartOpens};

use admitted::Found;
use chart::layout;
use meeting::Notes;
use queries::{Queries, Query};
use refusals::{Refusal, Stopped};
use slots::Results;

// What a search keeps: its source and generics, and the step limit.
#[derive(Clone, Copy)]
pub struct Finder {
    pub source: usize,
    pub generics: usize,
    pub limit: u32,
}

// Where a question's results end: a candidate's sub-questions begin there.
pub const SUB: usize = 6410;

// The words of a source's candidate sets. Behind them is what imports take: a word for each of 128 signatures, and for each of 4 impl parameters of the generics.
pub const SETS: usize = 34948;

const SETS_PARAMS: usize = 35076;

pub const SETS_END: usize = 35080;

// No sub-questions are left: the table itself, without trees.
pub fn none_left(ws: &mut [u32], count: u32) -> Result<Results, Stopped>
    requires packed { Packed ws.old }
    requires in_bounds { 6410 ≤ length ws.old }
    requires count_bound { count ≤ 4000000000 }
    ensures { NoneLeft ws.old count result ws.new }
{
    slots::copy_table_slot(ws, 0, slots::SLOT);
    Ok(Results { n: 1, count })
}

// Adds the types that stand in a slot with a leaf behind those found.
fn leaf_step(
    ws: &mut [u32],
    found: Results,
    from: usize,
    kind: u32,
    id: u32,
) -> Result<Results, Stopped>
    requires found_n_bound { found.n ≤ 4 }
    requires packed { Packed (drop from ws.old) }
    requires aside { Aside from found.n }
    requires in_bounds { 6410 ≤ length ws.old }
    requires kind_bound { kind < 8 }
    requires id_bound { id < 4096 }
    requires found_count_bound { found.count ≤ 4000000000 }
    ensures { LeafStep ws.old found from kind id result ws.new }
{
    let Results { n, count } = found;
    match slots::add_leaf(ws, n, from, kind, id) {
        Ok(()) => Ok(Results { n: n + 1, count }),
        Err(refusal) => Err(Stopped { refusal, count }),
    }
}

// Built-in fork and drop: adds what `find_auto_impls` finds.
fn add_autos(sheet: &[u32], ws: &mut [u32], q: Query, count: u32) -> Result<Results, Stopped>
    requires packed { Packed ws.old }
    requires in_bounds { 6410 ≤ length ws.old }
    requires n_bound { q.n ≤ 4 }
    requires small_ids { SmallIds sheet.now (types_of ws.old) }
    requires count_bound { count ≤ 4000000000 }
    ensures { Autos sheet.now ws.old (query_of q) count result ws.new }
{
    let none = Results { n: 0, count };
    match auto::find_auto_impls(sheet, ws, q.tr, &q.args[..q.n]) {
        None => Ok(none),
        Some(leaf) => leaf_step(ws, none, 0, leaf.kind, leaf.id),
    }
}

// An impl parameter p of the generics is met with question q behind slot 4.
fn meet_behind(
    sheet: &[u32],
    ws: &mut [u32],
    places: &mut [u32],
    map: &mut [u32],
    f: Finder,
    q: Query,
    p: Query,
) -> Result<bool, Refusal>
    requires sound { Sound (finder_of sheet.now f) }
    requires scratch { Scratch sheet.now places.old map.old }
    requires asking { Asking ws.old q }
    requires in_bounds { 7692 ≤ length ws.old }
    requires param_in { ParamIn (finder_of sheet.now f) p }
    ensures { Behind sheet.now ws.old (brought (finder_of sheet.now f) (types_of ws.old) (query_of p)) (query_of q) result ws.new }
{
    slots::copy_table_slot(ws, 0, SUB);
    opening::meet_param(sheet, f.generics, &mut ws[SUB..], places, map, q, p)
}

// Impl parameter k of the generics, of the question's trait, is met with the question: added behind those found where they unify.
fn param_opened(
    sheet: &[u32],
    ws: &mut [u32],
    places: &mut [u32],
    map: &mut [u32],
    f: Finder,
    q: Query,
    p: Query,
    k: usize,
    found: Results,
) -> Result<Results, Stopped>
    requires sound { Sound (finder_of sheet.now f) }
    requires scratch { Scratch sheet.now places.old map.old }
    requires asking { Asking ws.old q }
    requires in_bounds { 7692 ≤ length ws.old }
    requires param_in { ParamIn (finder_of sheet.now f) p }
    requires p_value { approx_eq (query_of q) (query_of p) ≡ true }
    requires k_bound { k < 4 }
    requires found_n_bound { found.n ≤ 4 }
    requires found_count_bound { found.count ≤ 4000000000 }
    ensures { ParamStep (finder_of sheet.now f) ws.old (query_of q) (query_of p) k found result ws.new }
{
    let count = found.count;
    match meet_behind(sheet, ws, places, map, f, q, p) {
        Err(refusal) => Err(Stopped { refusal, count }),
        Ok(false) => Ok(found),
        Ok(true) => leaf_step(ws, found, SUB, layout::TREE_PARAM as u32, k as u32),
    }
}

// Impl parameter k of the generics, of the question's trait: added behind those found where it unifies with the question. One that clashes with the question is passed over before that.
fn param_met(
    sheet: &[u32],
    sets: &[u32],
    ws: &mut [u32],
    places: &mut [u32],
    map: &mut [u32],
    f: Finder,
    q: Query,
    p: Query,
    k: usize,
    found: Results,
) -> Result<Results, Stopped>
    requires sound { Sound (finder_of sheet.now f) }
    requires scratch { Scratch sheet.now places.old map.old }
    requires asking { Asking ws.old q }
    requires in_bounds { 7692 ≤ length ws.old }
    requires param_in { ParamIn (finder_of sheet.now f) p }
    requires p_value { approx_eq (query_of q) (query_of p) ≡ true }
    requires k_bound { k < 4 }
    requires found_n_bound { found.n ≤ 4 }
    requires found_count_bound { found.count ≤ 4000000000 }
    requires param_takes { ParamTakes sheet.now f.generics (query_of p) (at sets.now (35076 + k)) }
    ensures { ParamStep (finder_of sheet.now f) ws.old (query_of q) (query_of p) k found result ws.new }
{
    let takes = chart::field_at(sets, SETS_PARAMS, k);
    if clash::param_clashes(sheet, ws, places, f.generics, p, q, takes) {
        return Ok(found);
    }
    param_opened(sheet, ws, places, map, f, q, p, k, found)
}

// Impl parameter k of the generics, whatever its trait.
fn add_param(
    sheet: &[u32],
    sets: &[u32],
    ws: &mut [u32],
    places: &mut [u32],
    map: &mut [u32],
    f: Finder,
    q: Query,
    p: Query,
    k: usize,
    found: Results,
) -> Result<Results, Stopped>
    requires sound { Sound (finder_of sheet.now f) }
    requires scratch { Scratch sheet.now places.old map.old }
    requires asking { Asking ws.old q }
    requires in_bounds { 7692 ≤ length ws.old }
    requires param_in { ParamIn (finder_of sheet.now f) p }
    requires k_bound { k < 4 }
    requires found_n_bound { found.n ≤ 4 }
    requires found_count_bound { found.count ≤ 4000000000 }
    requires param_takes { ParamTakes sheet.now f.generics (query_of p) (at sets.now (35076 + k)) }
    ensures { ParamStep (finder_of sheet.now f) ws.old (query_of q) (query_of p) k found result ws.new }
{
    if unify::approx_eq(q.tr, p.tr) {
        return param_met(sheet, sets, ws, places, map, f, q, p, k, found);
    }
    Ok(found)
}

// The generics' impl parameters: those that unify with the question are added behind those found.
fn add_params(
    sheet: &[u32],
    sets: &[u32],
    ws: &mut [u32],
    places: &mut [u32],
    map: &mut [u32],
    f: Finder,
    q: Query,
    found: Results,
) -> Result<Results, Stopped>
    requires sound { Sound (finder_of sheet.now f) }
    requires scratch { Scratch sheet.now places.old map.old }
    requires asking { Asking ws.old q }
    requires in_bounds { 7692 ≤ length ws.old }
    requires row { Row ws.old 1282 found.n }
    requires found_n_bound { found.n ≤ 4 }
    requires found_count_bound { found.count ≤ 4000000000 }
    requires taken { Taken sheet.now f.generics (takes_of sets.now) }
    ensures { ParamsStep (finder_of sheet.now f) ws.old (query_of q) found result ws.new }
{
    let ps = queries::read_params(sheet, f.generics);
    let mut found = found;
    for k in 0..ps.n {
        let p = ps.items[k];
        found = add_param(sheet, sets, ws, places, map, f, q, p, k, found)?;
    }
    Ok(found)
}

// Built-in fork and drop, then the generics' impl parameters.
pub fn before_candidates(
    sheet: &[u32],
    sets: &[u32],
    ws: &mut [u32],
    places: &mut [u32],
    map: &mut [u32],
    f: Finder,
    basic: u32,
    q: Query,
    count: u32,
) -> Result<Results, Stopped>
    requires sound { Sound (finder_of sheet.now f) }
    requires scratch { Scratch sheet.now places.old map.old }
    requires asking { Asking ws.old q }
    requires in_bounds { 7692 ≤ length ws.old }
    requires basic_bound { basic < 2 }
    requires count_bound { count ≤ 4000000000 }
    requires taken { Taken sheet.now f.generics (takes_of sets.now) }
    ensures { Begins (finder_of sheet.now f) (eqb basic 1) ws.old (query_of q) count result ws.new }
{
    if basic == 1 {
        return Ok(Results { n: 0, count });
    }
    let found = add_autos(sheet, ws, q, count)?;
    add_params(sheet, sets, ws, places, map, f, q, found)
}

// Whether the generics have no impl parameters.
pub fn no_params(sheet: &[u32], f: Finder) -> bool
    ensures { result ≡ true → (impl_params sheet.now f.generics).1 ≡ [] }
{
    chart::impl_params_head(sheet, f.generics) == 0
}

// How a question begins where the generics have no impl parameters: built-in fork and drop alone.
pub fn built_ins(
    sheet: &[u32],
    ws: &mut [u32],
    f: Finder,
    basic: u32,
    q: Query,
    count: u32,
) -> Result<Results, Stopped>
    requires sound { Sound (finder_of sheet.now f) }
    requires asking { Asking ws.old q }
    requires in_bounds { 6410 ≤ length ws.old }
    requires generics_value { (impl_params sheet.now f.generics).1 ≡ [] }
    requires count_bound { count ≤ 4000000000 }
    ensures { Begins (finder_of sheet.now f) (eqb basic 1) ws.old (query_of q) count result ws.new }
{
    if basic == 1 {
        return Ok(Results { n: 0, count });
    }
    add_autos(sheet, ws, q, count)
}

// The sub-questions of candidate i, whose signature has been met with the question of a table of `base` nodes.
fn seek(
    sheet: &[u32],
    dst: &mut [u32],
    places: &mut [u32],
    map: &mut [u32],
    base: u32,
    i: usize,
) -> Result<Queries, Refusal>
    requires sound_sheet { SoundSheet sheet.now }
    requires scratch { Scratch sheet.now places.old map.old }
    requires i_bound { i < many sheet.now header_impls }
    requires packed { Packed dst.old }
    requires i_in_bounds { base + fresh_count sheet.now i ≤ length (types_of dst.old) }
    ensures { Follows sheet.now i base dst.old result dst.new }
{
    let g = chart::impl_generics(sheet, i);
    if chart::impl_params_head(sheet, g) == 0 {
        return Ok(Queries::default());
    }
    opening::need(sheet, dst, places, map, base, i)
}

// Opens candidate i in a part that has the question's table: its sub-questions, or none where it does not unify with the question. Refused where there is no room.
fn open_part(
    sheet: &[u32],
    dst: &mut [u32],
    places: &mut [u32],
    map: &mut [u32],
    q: Query,
    i: usize,
) -> Result<Option<Queries>, Refusal>
    requires sound_sheet { SoundSheet sheet.now }
    requires scratch { Scratch sheet.now places.old map.old }
    requires asking { Asking dst.old q }
    requires i_bound { i < many sheet.now header_impls }
    ensures { PartOpens sheet.now (types_of dst.old) (query_of q) i result dst.new }
{
    let base = table::count(dst);
    if !opening::sign(sheet, dst, places, map, q, i)? {
        return Ok(None);
    }
    let qs = seek(sheet, dst, places, map, base, i)?;
    Ok(Some(qs))
}

// Opens a candidate behind slot 4, in a copy of the table.
fn open_copy(
    sheet: &[u32],
    ws: &mut [u32],
    places: &mut [u32],
    map: &mut [u32],
    f: Finder,
    q: Query,
    i: usize,
) -> Result<Option<Queries>, Refusal>
    requires sound { Sound (finder_of sheet.now f) }
    requires scratch { Scratch sheet.now places.old map.old }
    requires asking { Asking ws.old q }
    requires in_bounds { 7692 ≤ length ws.old }
    requires i_bound { i < many sheet.now header_impls }
    ensures { Opens sheet.now ws.old (query_of q) i result ws.new }
{
    slots::copy_table_slot(ws, 0, SUB);
    open_part(sheet, &mut ws[SUB..], places, map, q, i)
}

// Opens a candidate behind slot 4: the table there is that of its sub-questions. One that clashes with the question is found unfit before that. One that is found unfit only by the copy is told to the notes.
pub fn open_candidate(
    sheet: &[u32],
    sets: &[u32],
    ws: &mut [u32],
    places: &mut [u32],
    map: &mut [u32],
    notes: &mut Notes,
    f: Finder,
    q: Query,
    i: usize,
) -> Result<Option<Queries>, Refusal>
    requires sound { Sound (finder_of sheet.now f) }
    requires scratch { Scratch sheet.now places.old map.old }
    requires asking { Asking ws.old q }
    requires in_bounds { 7692 ≤ length ws.old }
    requires i_bound { i < many sheet.now header_impls }
    requires signature_takes { SignatureTakes sheet.now i (at sets.now (34948 + i)) }
    ensures { Opens sheet.now ws.old (query_of q) i result ws.new }
{
    let takes = chart::field_at(sets, SETS, i);
    if clash::clashes(sheet, ws, places, notes, q, i, takes) {
        return Ok(None);
    }
    let opened = open_copy(sheet, ws, places, map, f, q, i);
    if let Ok(None) = opened {
        notes.miss();
    }
    opened
}

// `find_impl_candidates` for a question.
pub fn find_candidates(
    sheet: &[u32],
    sets: &[u32],
    ws: &[u32],
    f: Finder,
    basic: u32,
    q: Query,
) -> Result<Found, Refusal>
    requires stands { Stands sheet.now f.source (sets_of sets.now) }
    requires in_bounds { 34948 ≤ length sets.now }
    requires n_bound { q.n ≤ 4 }
    ensures { Finds sheet.now f.source (types_of ws.now) (query_of q) basic result }
{
    admitted::find_impl_candidates(
        sheet,
        &sets[..SETS],
        f.source,
        ws,
        q.tr,
        &q.args[..q.n],
        basic,
    )
}

// The next candidate from an id on.
pub fn next_id(s: &[u32], sets: &[u32], f: Found, from: usize) -> Option<usize>
    requires indexes { Indexes s.now (sets_of sets.now) }
    requires in_bounds { 34948 ≤ length sets.now }
    requires n_bound { f.nodes.n ≤ 6 }
    ensures { Gives s.now (sets_of sets.now) f from result }
{
    admitted::next(s, &sets[..SETS], f, from)
}
