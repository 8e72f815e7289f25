// A stored step: what is done to a type table, and whether it gives what is stored. Its words are read as they are (those that are missing are 0, those that are too many are passed
// over), and tested before they are used: a step whose types are no nodes is not made, and is wrong. oracle/stored/README.md says how it is laid out.
ghost use Rattle.std.specs.Prelude.{◌≡◌, true, ◌≢◌, ◌<◌, ◌≤◌, length, take};
ghost use Rattle.table.specs.Packing.{types_of};
ghost use Rattle.type_cases.specs.Steps.{IdFits};
ghost use Rattle.type_cases.specs.Sound.{Sound, Tested, BothTested, Fitting, Loaded};
ghost use Rattle.type_cases.specs.Given.{FittingIn};

use refusals::Refusal;
use table::KnownType;
use transfer::PackedTable;
use unify::UnifyResult;

// The most types in a row.
const ROW: usize = 8;

// What stands for a row that is not there.
static NOTHING: [u32; ROW] = [0; ROW];

// The number of a node for which there is no room.
const FULL: u32 = 256;

// Kinds are below this.
const KINDS: u32 = 16;

// A closure's kind; its id is that of a record of a sheet, below 4,096, and so is that of a type with children.
const CLOSURE: u32 = 8;

const IDS: u32 = 4096;

// No sheet has so many definitions; a module behind them counts as none.
const DEFINITIONS: usize = 4096;

// What a step does, and what the Rust gives for it.
#[derive(Clone, Copy, Debug)]
enum Operation<'a> {
    Unknown {
        node: u32,
    },
    Known {
        kind: u32,
        inverted: bool,
        id: u32,
        children: &'a [u32],
        node: u32,
    },
    Unify {
        a: u32,
        b: u32,
        verdict: Stored,
    },
    Occurs {
        v: u32,
        t: u32,
        found: bool,
    },
    SelfInverse {
        t: u32,
        found: bool,
    },
    GetMod {
        t: u32,
        module: Result<Option<usize>, Refusal>,
    },
    UnifyImplTypes {
        a: u32,
        xs: &'a [u32],
        b: u32,
        ys: &'a [u32],
        verdict: Stored,
    },
    Import {
        row: &'a [u32],
        params: Option<&'a [u32]>,
        types: &'a [u32],
        moved: Option<Result<&'a [u32], Refusal>>,
    },
    Export {
        types: &'a [u32],
        moved: &'a [u32],
    },
    Nodes {
        count: u32,
        nodes: &'a [u32],
    },
}

// A stored verdict, with one for types that are no nodes; none where the number is that of neither.
type Stored = Option<Option<UnifyResult>>;

// `TryFrom` is of no use here: it and the verdict are of other crates.
fn verdict(n: u32) -> Stored {
    match n {
        0 => Some(Some(UnifyResult::Success)),
        1 => Some(Some(UnifyResult::Failure)),
        2 => Some(Some(UnifyResult::Indeterminate)),
        3 => Some(None),
        _ => None,
    }
}

// A module as it is stored: none, an Error type's, or that of a definition.
fn module(n: u32) -> Result<Option<usize>, Refusal> {
    match n {
        0 => Ok(None),
        1 => Err(Refusal::ErrorType),
        _ => Ok(Some(n as usize - 2)),
    }
}

// How many types are in a row, by the word at a place.
fn row_length(o: &[u32], at: usize) -> usize
    ensures { result ≤ ROW }
{
    words::next(o, at).min(ROW)
}

// A row of m types from a place on; zeros where the step ends before it does.
fn row(o: &[u32], at: usize, m: usize) -> &[u32]
    requires { m ≤ ROW }
    ensures { length result.now ≡ m }
{
    let row = words::record(o, at, m);
    if row.len() == m { row } else { &NOTHING[..m] }
}

// What is behind a place.
fn behind(o: &[u32], at: usize) -> &[u32] {
    o.get(at..).unwrap_or(&[])
}

impl<'a> Operation<'a> {
    fn known(o: &'a [u32]) -> Self {
        let m = row_length(o, 5);
        Operation::Known {
            kind: words::word(o, 2),
            inverted: words::word(o, 3) == 1,
            id: words::word(o, 4),
            children: words::record(o, 6, m),
            node: words::word(o, 6 + m),
        }
    }

    fn unify_impl_types(o: &'a [u32]) -> Self {
        let n = row_length(o, 4);
        let m = row_length(o, 5);
        Operation::UnifyImplTypes {
            a: words::word(o, 2),
            xs: words::record(o, 6, n),
            b: words::word(o, 3),
            ys: words::record(o, 6 + n, m),
            verdict: verdict(words::word(o, 6 + n + m)),
        }
    }

    fn import(o: &'a [u32]) -> Self {
        let n = row_length(o, 3);
        let m = row_length(o, 4);
        let params = words::record(o, 5, n);
        Operation::Import {
            row: params,
            params: if words::word(o, 2) == 1 {
                Some(params)
            } else {
                None
            },
            types: row(o, 5 + n, m),
            moved: match words::word(o, 5 + n + m) {
                0 => Some(Err(Refusal::TypesFull)),
                1 => Some(Ok(behind(o, 6 + n + m))),
                _ => None,
            },
        }
    }

    fn export(o: &'a [u32]) -> Self {
        let m = row_length(o, 2);
        Operation::Export {
            types: row(o, 3, m),
            moved: behind(o, 3 + m),
        }
    }

    // A step by its number, its table, and the words behind these.
    fn parse(o: &'a [u32]) -> Option<Self> {
        let (a, b, c) = (words::word(o, 2), words::word(o, 3), words::word(o, 4));
        match words::word(o, 0) {
            0 => Some(Operation::Unknown { node: a }),
            1 => Some(Operation::known(o)),
            2 => Some(Operation::Unify {
                a,
                b,
                verdict: verdict(c),
            }),
            3 => Some(Operation::Occurs {
                v: a,
                t: b,
                found: c == 1,
            }),
            4 => Some(Operation::SelfInverse {
                t: a,
                found: b == 1,
            }),
            5 => Some(Operation::GetMod {
                t: a,
                module: module(b),
            }),
            6 => Some(Operation::unify_impl_types(o)),
            7 => Some(Operation::import(o)),
            8 => Some(Operation::export(o)),
            9 => {
                let nodes = o.get(3..)?;
                Some(Operation::Nodes { count: a, nodes })
            }
            _ => None,
        }
    }
}

// Whether some types are nodes of a table of n.
fn below(xs: &[u32], n: u32) -> bool
    ensures { Tested n xs.now result }
{
    xs.iter().all(|t| t / 2 < n)
}

// Adds an unknown.
#[tactic(auto, using(crate::specs::Sound::sound_unknown))]
fn unknown(ws: &mut [u32], node: u32) -> bool
    requires { Sound ws.old }
    ensures { Sound ws.new }
{
    table::new_var(ws).unwrap_or(FULL) == node
}

// Whether a kind, and the id of a type with n children, are such as a sheet has: a closure's id, and that of a type with children, is that of a record.
fn id_fits(kind: u32, id: u32, n: usize) -> bool
    ensures { IdFits kind id n result }
{
    if kind >= KINDS {
        return false;
    }
    if id < IDS {
        return true;
    }
    if kind == CLOSURE {
        return false;
    }
    n == 0
}

// Adds a type of a kind with some children.
fn known(ws: &mut [u32], kind: u32, inverted: bool, id: u32, children: &[u32], node: u32) -> bool
    requires { Sound ws.old }
    ensures { Sound ws.new }
{
    if kind == 0 || ROW < children.len() {
        return false;
    }
    if !id_fits(kind, id, children.len()) {
        return false;
    }
    let c = table::count(ws);
    if !below(children, c) {
        return false;
    }
    let known = KnownType {
        inverted,
        kind,
        id,
        children,
    };
    table::new_known(ws, &known).unwrap_or(FULL) == node
}

// Joins two types, where they are nodes.
#[tactic(auto, using(crate::specs::Sound::sound_good, crate::specs::Steps::marks_room))]
fn unify_two(s: &[u32], ws: &mut [u32], marks: &mut [u32], a: u32, b: u32) -> Option<UnifyResult>
    requires sound { Sound ws.old }
    requires in_bounds { 256 ≤ length marks.old }
    ensures { Sound ws.new }
{
    let c = table::count(ws);
    if a / 2 >= c || b / 2 >= c {
        return None;
    }
    Some(unify::unify(s, ws, marks, a, b))
}

// Whether the types of two rows are nodes of a table.
fn both_below(xs: &[u32], ys: &[u32], ws: &[u32]) -> bool
    ensures { BothTested ws.now xs.now ys.now result }
{
    let c = table::count(ws);
    below(xs, c) && below(ys, c)
}

// Joins two of trait? and arguments, where these are nodes.
#[tactic(auto, using(crate::specs::Sound::sound_good, crate::specs::Steps::marks_room, crate::specs::Steps::left_nodes, crate::specs::Steps::right_nodes))]
fn unify_rows(
    s: &[u32],
    ws: &mut [u32],
    marks: &mut [u32],
    a: u32,
    xs: &[u32],
    b: u32,
    ys: &[u32],
) -> Option<UnifyResult>
    requires sound { Sound ws.old }
    requires in_bounds { 256 ≤ length marks.old }
    ensures { Sound ws.new }
{
    if !both_below(xs, ys, ws) {
        return None;
    }
    Some(unify::unify_impl_type(s, ws, marks, a, xs, b, ys))
}

// Whether a type occurs in another, where that is a node.
#[tactic(auto, using(crate::specs::Sound::sound_good, crate::specs::Steps::marks_room))]
fn occurs(ws: &[u32], marks: &mut [u32], v: u32, t: u32) -> Option<bool>
    requires sound { Sound ws.now }
    requires in_bounds { 256 ≤ length marks.old }
{
    if t / 2 >= table::count(ws) {
        return None;
    }
    let v = table::root_of(ws, v / 2);
    Some(walks::occurs(ws, marks, v, t))
}

// Whether every type in a type is its own inverse, where that is a node.
#[tactic(auto, using(crate::specs::Sound::sound_good, crate::specs::Steps::marks_room))]
fn self_inverse(s: &[u32], ws: &[u32], marks: &mut [u32], t: u32) -> Option<bool>
    requires sound { Sound ws.now }
    requires in_bounds { 256 ≤ length marks.old }
{
    if t / 2 >= table::count(ws) {
        return None;
    }
    Some(walks::self_inverse(s, ws, marks, t))
}

// Whether the types of a move come to be as they are stored; what is missing is 0.
fn moved_as(stored: &[u32], types: &[u32]) -> bool {
    types
        .iter()
        .enumerate()
        .all(|(i, &t)| words::word(stored, i) == t)
}

// Whether parameters are nodes of a table, and there is a node for a Param that has none.
fn params_fit(params: Option<&[u32]>, ws: &[u32]) -> bool
    ensures { FittingIn params.entry ws.now result }
{
    let c = table::count(ws);
    match params {
        Some(ps) => c != 0 && below(ps, c),
        None => true,
    }
}

// Takes types to the front of a buffer; whether they are nodes of a table.
fn load(types: &[u32], ws: &[u32], ts: &mut [u32]) -> bool
    requires { length types.now ≤ length ts.old }
    ensures { Loaded ws.now (length types.now) ts.new result }
{
    let m = types.len();
    words::copy(types, ts, m);
    below(&ts[..m], table::count(ws))
}

// Moves the first m of some types to another table; empties that where it has no room.
fn move_types(
    own: &[u32],
    other: &mut [u32],
    map: &mut [u32],
    params: Option<&[u32]>,
    ts: &mut [u32],
    m: usize,
) -> Result<(), Refusal>
    requires sound { Sound own.now }
    requires sound_2 { Sound other.old }
    requires in_bounds { 256 ≤ length map.old }
    requires m_in_bounds { m ≤ length ts.old }
    requires loaded { Loaded own.now m ts.old true }
    requires fitting { FittingIn params other.old true }
    ensures { Sound other.new }
{
    if let Err(refusal) = transfer::import_types(&PackedTable(own), other, map, params, ts, m) {
        table::clear_table(other);
        return Err(refusal);
    }
    Ok(())
}

// Moves types to the other table, with parameters or without; whether there was room, and what they became.
fn import(
    own: &[u32],
    other: &mut [u32],
    map: &mut [u32],
    params: Option<&[u32]>,
    types: &[u32],
    moved: Option<Result<&[u32], Refusal>>,
) -> bool
    requires sound { Sound own.now }
    requires sound_2 { Sound other.old }
    requires in_bounds { 256 ≤ length map.old }
    ensures { Sound other.new }
{
    let mut ts = [0u32; ROW];
    let m = types.len();
    if ROW < m || !params_fit(params, other) || !load(types, own, &mut ts) {
        return false;
    }
    match (move_types(own, other, map, params, &mut ts, m), moved) {
        (Ok(()), Some(Ok(moved))) => moved_as(moved, &ts[..m]),
        (Err(_), Some(Err(_))) => true,
        _ => false,
    }
}

// Makes the other table anew of types of this one.
fn export(own: &[u32], other: &mut [u32], map: &mut [u32], types: &[u32], moved: &[u32]) -> bool
    requires sound { Sound own.now }
    requires sound_2 { Sound other.old }
    requires in_bounds { 256 ≤ length map.old }
    ensures { Sound other.new }
{
    let mut ts = [0u32; ROW];
    let m = types.len();
    if ROW < m || !load(types, own, &mut ts) {
        return false;
    }
    let done = transfer::export_types(&PackedTable(own), other, map, &mut ts, m);
    done.is_ok() && moved_as(moved, &ts[..m])
}

// What is behind the words of root n, where they are size, kind, inversion, id and children.
fn behind_root<'a>(stored: &'a [u32], ws: &[u32], n: u32) -> Option<&'a [u32]> {
    let [size, kind, inverted, id, m, rest @ ..] = stored else {
        return None;
    };
    let (children, rest) = rest.split_at_checked(*m as usize)?;
    let same = *size == table::size_of(ws, n)
        && *kind == table::kind_of(ws, n)
        && (*inverted == 1) == table::inverted_of(ws, n)
        && *id == table::id_of(ws, n)
        && *m as usize == table::child_count(ws, n)
        && children
            .iter()
            .enumerate()
            .all(|(j, t)| *t == table::child(ws, n, j));
    if same { Some(rest) } else { None }
}

// What is behind the words of node n, where they are which type of its root it is, and what that is if it is itself.
fn behind_node<'a>(stored: &'a [u32], ws: &[u32], n: u32) -> Option<&'a [u32]> {
    let (up, rest) = stored.split_first()?;
    if *up != table::up_of(ws, n) {
        return None;
    }
    if up / 2 == n {
        return behind_root(rest, ws, n);
    }
    Some(rest)
}

// Whether all nodes of a table are as stored.
fn nodes_as(ws: &[u32], count: u32, stored: &[u32]) -> bool {
    let mut rest = stored;
    for n in 0..table::count(ws) {
        let Some(behind) = behind_node(rest, ws, n) else {
            return false;
        };
        rest = behind;
    }
    count == table::count(ws) && rest.is_empty()
}

// Makes a step on the first of two tables; whether it gives what is stored.
pub fn step(s: &[u32], o: &[u32], own: &mut [u32], other: &mut [u32], marks: &mut [u32]) -> bool
    requires sound { Sound own.old }
    requires sound_2 { Sound other.old }
    requires in_bounds { 256 ≤ length marks.old }
    ensures own { Sound own.new }
    ensures other { Sound other.new }
{
    let Some(operation) = Operation::parse(o) else {
        return false;
    };
    match operation {
        Operation::Unknown { node } => unknown(own, node),
        Operation::Known {
            kind,
            inverted,
            id,
            children,
            node,
        } => known(own, kind, inverted, id, children, node),
        Operation::Unify { a, b, verdict } => {
            let seen = unify_two(s, own, marks, a, b);
            seen.is_some() && Some(seen) == verdict
        }
        Operation::Occurs { v, t, found } => occurs(own, marks, v, t) == Some(found),
        Operation::SelfInverse { t, found } => self_inverse(s, own, marks, t) == Some(found),
        Operation::GetMod { t, module } => {
            walks::get_mod(s, own, t).map(|d| d.filter(|&d| d < DEFINITIONS)) == module
        }
        Operation::UnifyImplTypes {
            a,
            xs,
            b,
            ys,
            verdict,
        } => Some(unify_rows(s, own, marks, a, xs, b, ys)) == verdict,
        Operation::Import {
            row,
            params,
            types,
            moved,
        } => {
            // Parameters that are not given have to be nodes all the same.
            below(row, table::count(other)) && import(own, other, marks, params, types, moved)
        }
        Operation::Export { types, moved } => export(own, other, marks, types, moved),
        Operation::Nodes { count, nodes } => nodes_as(own, count, nodes),
    }
}
