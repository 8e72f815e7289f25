// `TypeTransfer` of the Rust: types moved from one table to another, with all that they reach.
// The source is of any form (sources.rt), the table that is filled is packed. The mapping has a word for each node of the source: 0, or 1 and the type word of what it
// became (words, since the caller lends them). Where parameters are given, a Param is the type in its place.
// The table and the mapping are two parameters, and no struct of both: a call that takes two fields of a lent struct, each a `&mut`, is not covered by the borrow check, so that a proof does not close.
// Types are the first m of a buffer, and not the part of it alone: a part that is lent comes back to a proof as two lists, to be joined by each caller.
#![tactic(auto)]

ghost use Rattle.std.specs.Prelude.{◌≡◌, false, not, map as map_list, suc, ◌+◌, ◌*◌, ◌/◌, ◌<◌, ◌≤◌, length, take, IfErr, MatchResult};
ghost use Rattle.std.specs.Result.{is_ok};
ghost use Rattle.rules.specs.Limits.{limit_nodes};
ghost use Rattle.rules.specs.Sheet.{at};
ghost use Rattle.rules.specs.Slim.{Slim};
ghost use Rattle.rules.specs.Neat.{Neat};
ghost use Rattle.rules.specs.Transfer.{type_of_word, transfer_in, transfer_each, transfer_types, import_types, export_types};
ghost use Rattle.table.specs.Packing.{types_of, Packed, TypeWords};
ghost use Rattle.table.specs.Pushed.{pushed_number};
ghost use Rattle.transfer.specs.Moving.{Mapping, Level, Levels, Rooted, Own, Known, Alike, Param, Gone, GoneRecord, Settles, Enters, Typed, Fills, Transfers, TransfersAll, fresh, filled};
ghost use Rattle.transfer.specs.Imports.{types_in, Inside, Imports, ImportsImpl, ImportsImpls};
ghost use Rattle.transfer.specs.Outcomes.{params_in, GivenWords, given_once, stands, went};

mod chained; // chained.rt: a table as the records of a chain
mod sources; // sources.rt: what a source is, and packed words as one

pub use chained::Records;
use chart::layout;
use refusals::Refusal;
pub use sources::{PackedTable, Source};
use table::KnownType;

// What types are moved from: a table, and type words for its Params, where they are given.
#[derive(Drop)]
pub struct Origin<'a, S: Source> {
    pub table: &'a S,
    pub params: Option<&'a [u32]>,
    pub ghost given: { GivenWords params } by { given_once params },
}

// What root type r stands for as a Param. (One kind is asked for, by its number.)
fn param_type<S: Source>(from: &Origin<S>, r: u32) -> Option<u32>
    ensures { Param (S.types from.now.table.now) (params_in from.now.params) r (stands result) }
{
    let Some(ps) = from.params else {
        return None;
    };
    let src = from.table;
    if src.kind_of(r / 2) as usize != layout::KIND_PARAM {
        return None;
    }
    let p = words::word(ps, src.id_of(r / 2) as usize);
    let u = table::invert_if(src.inverted_of(r / 2), p);
    Some(table::invert_if(table::is_inverted(r), u))
}

// Where root type r went.
fn mapped_type(map: &[u32], r: u32) -> Option<u32>
    requires r_in_bounds { r / 2 < length map.now }
    requires r_bound { at map.now (r / 2) ≤ 512 }
    ensures { Gone map.now r (stands result) }
{
    let q = map[(r / 2) as usize];
    if q == 0 {
        return None;
    }
    Some(table::invert_if(table::is_inverted(r), q - 1))
}

// The same of a type of a source whose nodes are their own roots; not told of any other.
fn gone_type<S: Source>(src: &S, map: &[u32], t: u32) -> Option<u32>
    requires t_in_bounds { t / 2 < length map.now }
    requires t_bound { at map.now (t / 2) ≤ 512 }
    ensures { GoneRecord (not S.is_rooted) map.now t (stands result) }
{
    if src.has_own_roots() {
        mapped_type(map, t)
    } else {
        None
    }
}

// What stands for root type r already, where it went or its parameter.
fn settled_type<S: Source>(from: &Origin<S>, map: &[u32], r: u32) -> Option<u32>
    requires mapping { Mapping (length (S.types from.now.table.now)) map.now }
    requires r_in_bounds { r / 2 < length (S.types from.now.table.now) }
    ensures { Settles (S.types from.now.table.now) (params_in from.now.params) map.now r (stands result) }
{
    match mapped_type(map, r) {
        Some(t) => Some(t),
        None => param_type(from, r),
    }
}

// Pushes a node for root type r, unknown as yet, and gives its number. At the limit nothing changes.
fn push_node(dst: &mut [u32], map: &mut [u32], r: u32) -> Result<u32, Refusal>
    requires packed { Packed dst.old }
    requires r_in_bounds { r / 2 < length map.old }
    ensures enters { Enters dst.old map.old dst.new map.new r (pushed_number result) }
    ensures room { MatchResult result (λ n. n < limit_nodes) (λ refusal. refusal ≡ Refusal.TypesFull) }
{
    let n = table::new_var(dst)?;
    map[(r / 2) as usize] = 2 * n + 1;
    Ok(n)
}

// The type of node n, inverted as root type r is.
fn new_type(n: u32, r: u32) -> u32
    requires { n < 256 }
    ensures { Typed r n (result + 1) }
{
    2 * n + r % 2
}

// Fills node n in as root type r of the source is, with the children cs, and gives its type.
fn fill<S: Source>(src: &S, r: u32, dst: &mut [u32], n: u32, cs: &[u32]) -> u32
    requires packed { Packed dst.old }
    requires own { Own (types_of dst.old) n }
    requires known { Known (S.types src.now) (r / 2) }
    requires alike { Alike (S.types src.now) (r / 2) (length cs.now) }
    requires type_words { TypeWords cs.now }
    ensures { Fills (S.types src.now) dst.old dst.new cs.now r n (result + 1) }
{
    let known = KnownType {
        inverted: src.inverted_of(r / 2),
        kind: src.kind_of(r / 2),
        id: src.id_of(r / 2),
        children: cs,
    };
    table::set_known(dst, n, &known);
    new_type(n, r)
}

// `transfer_type`: moves a type, with all that it reaches, from which every way down has at most `left` steps. Its type word in the table that is filled;
// refused where that has no room.
#[cycle(transfer)]
pub fn transfer_type<S: Source>(
    from: &Origin<S>,
    dst: &mut [u32],
    map: &mut [u32],
    t: u32,
    left: usize,
) -> Result<u32, Refusal>
    requires neat { Neat (S.types from.now.table.now) }
    requires packed { Packed dst.old }
    requires mapping { Mapping (length (S.types from.now.table.now)) map.old }
    requires level { Level (S.types from.now.table.now) (type_of_word t) (suc left) }
    ensures moves { Transfers (S.types from.now.table.now) (transfer_in (suc left) (S.types from.now.table.now) (params_in from.now.params) (type_of_word t)) dst.old map.old dst.new map.new (went result) }
    ensures full { IfErr result (λ refusal. refusal ≡ Refusal.TypesFull) }
{
    let r = from.table.find(t);
    match settled_type(from, map, r) {
        Some(u) => Ok(u),
        None => transfer_root(from, dst, map, r, left),
    }
}

// Moves root type r, for which nothing stands yet: a new node, and then its children.
#[cycle(transfer)]
fn transfer_root<S: Source>(
    from: &Origin<S>,
    dst: &mut [u32],
    map: &mut [u32],
    r: u32,
    left: usize,
) -> Result<u32, Refusal>
    requires neat { Neat (S.types from.now.table.now) }
    requires packed { Packed dst.old }
    requires mapping { Mapping (length (S.types from.now.table.now)) map.old }
    requires rooted { Rooted (S.types from.now.table.now) (r / 2) (suc left) }
    ensures moves { Transfers (S.types from.now.table.now) (fresh left (S.types from.now.table.now) (params_in from.now.params) (type_of_word r)) dst.old map.old dst.new map.new (went result) }
    ensures full { IfErr result (λ refusal. refusal ≡ Refusal.TypesFull) }
{
    let n = push_node(dst, map, r)?;
    if from.table.kind_of(r / 2) == 0 {
        return Ok(new_type(n, r));
    }
    transfer_known(from, dst, map, r, n, left)
}

// Moves the children of root type r, and fills its node n in.
#[cycle(transfer)]
fn transfer_known<S: Source>(
    from: &Origin<S>,
    dst: &mut [u32],
    map: &mut [u32],
    r: u32,
    n: u32,
    left: usize,
) -> Result<u32, Refusal>
    requires neat { Neat (S.types from.now.table.now) }
    requires packed { Packed dst.old }
    requires mapping { Mapping (length (S.types from.now.table.now)) map.old }
    requires rooted { Rooted (S.types from.now.table.now) (r / 2) (suc left) }
    requires known { Known (S.types from.now.table.now) (r / 2) }
    requires own { Own (types_of dst.old) n }
    ensures moves { Transfers (S.types from.now.table.now) (filled left (S.types from.now.table.now) (params_in from.now.params) (type_of_word r) n) dst.old map.old dst.new map.new (went result) }
    ensures full { IfErr result (λ refusal. refusal ≡ Refusal.TypesFull) }
{
    let mut cs = [0u32; 8];
    let m = from.table.read_children(r / 2, &mut cs);
    transfer_each(from, dst, map, &mut cs, m, left)?;
    Ok(fill(from.table, r, dst, n, &cs[..m]))
}

// Moves the first m types of ts, in place, from each of which every way down has fewer than `left` steps; refused where there is no room.
#[cycle(transfer)]
fn transfer_each<S: Source>(
    from: &Origin<S>,
    dst: &mut [u32],
    map: &mut [u32],
    ts: &mut [u32],
    m: usize,
    left: usize,
) -> Result<(), Refusal>
    requires neat { Neat (S.types from.now.table.now) }
    requires packed { Packed dst.old }
    requires mapping { Mapping (length (S.types from.now.table.now)) map.old }
    requires m_in_bounds { m ≤ length ts.old }
    requires levels { Levels (S.types from.now.table.now) (take m ts.old) left }
    ensures moves { TransfersAll (S.types from.now.table.now) (transfer_each (transfer_in left (S.types from.now.table.now) (params_in from.now.params)) (map_list type_of_word (take m ts.old))) dst.old map.old dst.new map.new ts.old ts.new m (is_ok result) }
    ensures full { IfErr result (λ refusal. refusal ≡ Refusal.TypesFull) }
{
    for i in 0..m {
        let t = ts[i];
        ts[i] = match gone_type(from.table, map, t) {
            Some(u) => u,
            None => transfer_type(from, dst, map, t, left - 1)?,
        };
    }
    Ok(())
}

// `transfer` of the first m types of ts, in place: the mapping goes on. Refused where there is no room.
pub fn transfer_types<S: Source>(
    from: &Origin<S>,
    dst: &mut [u32],
    map: &mut [u32],
    ts: &mut [u32],
    m: usize,
) -> Result<(), Refusal>
    requires neat { Neat (S.types from.now.table.now) }
    requires packed { Packed dst.old }
    requires mapping { Mapping (length (S.types from.now.table.now)) map.old }
    requires m_in_bounds { m ≤ length ts.old }
    requires inside { Inside (S.types from.now.table.now) (take m ts.old) }
    ensures moves { TransfersAll (S.types from.now.table.now) (transfer_types (S.types from.now.table.now) (params_in from.now.params) (types_in m ts.old)) dst.old map.old dst.new map.new ts.old ts.new m (is_ok result) }
    ensures full { IfErr result (λ refusal. refusal ≡ Refusal.TypesFull) }
{
    let n = from.table.count();
    transfer_each(from, dst, map, ts, m, n + 1)
}

// `import` of the first m types of ts, in place. Refused where there is no room.
pub fn import_types<S: Source>(
    src: &S,
    dst: &mut [u32],
    map: &mut [u32],
    params: Option<&[u32]>,
    ts: &mut [u32],
    m: usize,
) -> Result<(), Refusal>
    requires neat { Neat (S.types src.now) }
    requires type_words { GivenWords params }
    requires packed { Packed dst.old }
    requires places_in_bounds { length (S.types src.now) ≤ length map.old }
    requires m_in_bounds { m ≤ length ts.old }
    requires inside { Inside (S.types src.now) (take m ts.old) }
    ensures imports { Imports (import_types (S.types src.now) (params_in params.entry) (types_in m ts.old) (types_of dst.old)) dst.new ts.old ts.new m (is_ok result) }
    ensures full { IfErr result (λ refusal. refusal ≡ Refusal.TypesFull) }
{
    words::clear(map, src.count());
    let from = Origin { table: src, params };
    transfer_types(&from, dst, map, ts, m)
}

// `export` of the first m types of ts, in place, into a table of its own. Refused where there is no room.
pub fn export_types<S: Source>(
    src: &S,
    dst: &mut [u32],
    map: &mut [u32],
    ts: &mut [u32],
    m: usize,
) -> Result<(), Refusal>
    requires neat { Neat (S.types src.now) }
    requires in_bounds { 1025 ≤ length dst.old }
    requires places_in_bounds { length (S.types src.now) ≤ length map.old }
    requires m_in_bounds { m ≤ length ts.old }
    requires inside { Inside (S.types src.now) (take m ts.old) }
    ensures exports { Imports (export_types (S.types src.now) (types_in m ts.old)) dst.new ts.old ts.new m (is_ok result) }
    ensures full { IfErr result (λ refusal. refusal ≡ Refusal.TypesFull) }
{
    table::clear_table(dst);
    import_types(src, dst, map, None, ts, m)
}

// `import` of an `ImplType` of any trait, whose arguments are the first m types of ts, in place. Refused where there is no room.
pub fn import_impl_type<S: Source>(
    from: &Origin<S>,
    dst: &mut [u32],
    map: &mut [u32],
    ts: &mut [u32],
    m: usize,
) -> Result<(), Refusal>
    requires neat { Neat (S.types from.now.table.now) }
    requires packed { Packed dst.old }
    requires places_in_bounds { length (S.types from.now.table.now) ≤ length map.old }
    requires m_in_bounds { m ≤ length ts.old }
    requires inside { Inside (S.types from.now.table.now) (take m ts.old) }
    ensures imports { ImportsImpl (S.types from.now.table.now) (params_in from.now.params) dst.old dst.new ts.old ts.new m (is_ok result) }
    ensures full { IfErr result (λ refusal. refusal ≡ Refusal.TypesFull) }
{
    import_types(from.table, dst, map, from.params, ts, m)
}

// `import` of some `ImplType`s, whose arguments are in one row the first m types of ts, in place. Refused where there is no room.
pub fn import_impl_types<S: Source>(
    from: &Origin<S>,
    dst: &mut [u32],
    map: &mut [u32],
    ts: &mut [u32],
    m: usize,
) -> Result<(), Refusal>
    requires neat { Neat (S.types from.now.table.now) }
    requires packed { Packed dst.old }
    requires places_in_bounds { length (S.types from.now.table.now) ≤ length map.old }
    requires m_in_bounds { m ≤ length ts.old }
    requires inside { Inside (S.types from.now.table.now) (take m ts.old) }
    ensures imports { ImportsImpls (S.types from.now.table.now) (params_in from.now.params) dst.old dst.new ts.old ts.new m (is_ok result) }
    ensures full { IfErr result (λ refusal. refusal ≡ Refusal.TypesFull) }
{
    import_types(from.table, dst, map, from.params, ts, m)
}
