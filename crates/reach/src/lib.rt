// How many nodes the import of a signature, or of an impl parameter of the caller's generics, adds to a table: counted once a call.
// The nodes that the import makes are those that the arguments reach. They are marked and queued, from the arguments on: word n of `places` is the place of node n's record, and 0 once
// the node is marked; the queue has the places of the records of marked nodes, and the number of marks is its end. A Param that is given is left out: the import makes no node for it.
#![tactic(auto)]

ghost use Rattle.std.specs.Prelude.{◌≡◌, ◌+◌, ◌*◌, ◌<◌, ◌≤◌, length, IfSome};
ghost use Rattle.rules.specs.Sheet.{at, chain};
ghost use Rattle.queries.specs.Takes.{Taken};
ghost use Rattle.reach.specs.Walk.{Spares, Enters, EntersCells, Ends};
ghost use Rattle.reach.specs.Counts.{Tells, Counts};
ghost use Rattle.reach.specs.Impls.{Called, Checked, Generics, params_at, PutsSignature, Signatures};
ghost use Rattle.reach.specs.Params.{PutsParam, PutsParams, ParamsPut};

use chart::layout;

// As many nodes as a walk goes to: no table of a search has more.
const NODES: usize = 256;

// So many nodes of a table are not looked at.
const SMALL: usize = 4;

// From which word on impl parameters stand.
const PARAMS: usize = 128;

// Whether the node of the record at p is a Param, where parameters are given.
fn is_given<const GIVEN: bool>(sheet: &[u32], p: usize) -> bool
    ensures { Spares sheet.now GIVEN p result }
{
    GIVEN && chart::field_at(sheet, p, layout::NODE_KIND) == layout::KIND_PARAM
}

// The records of marked nodes, as many as `end` says.
#[derive(Drop)]
struct Queue {
    records: [u32; 256],
    end: usize,
}

// Marks node k and queues its record, unless it is marked already or a Param that is given. None where the queue is full.
#[tactic(auto, using(crate::specs::Walk::enters_new))]
fn enter<const GIVEN: bool>(
    sheet: &[u32],
    places: &mut [u32],
    queue: &mut Queue,
    k: usize,
) -> Option<()>
    ensures { IfSome result (λ _. Enters sheet.now GIVEN places.old queue.old.records queue.old.end k places.new queue.new.records queue.new.end) }
{
    let p = words::word(places, k);
    if p == 0 || is_given::<GIVEN>(sheet, p as usize) {
        return Some(());
    }
    if queue.end >= NODES {
        return None;
    }
    places[k] = 0;
    queue.records[queue.end] = p;
    queue.end += 1;
    Some(())
}

// The same for the nodes that the cells of a chain name.
#[tactic(auto, using(crate::specs::Walk::turning_on, crate::specs::Walk::turning_end))]
fn enter_cells<const GIVEN: bool>(
    sheet: &[u32],
    places: &mut [u32],
    queue: &mut Queue,
    head: usize,
) -> Option<()>
    ensures { IfSome result (λ _. EntersCells sheet.now GIVEN places.old queue.old.records queue.old.end head places.new queue.new.records queue.new.end) }
{
    for c in words::records(sheet, head) {
        let t = words::offset(sheet, c, layout::CELL_TYPE);
        enter::<GIVEN>(sheet, places, queue, t as usize / 2)?;
    }
    Some(())
}

// Works off the queue, which grows. None where it is full.
#[tactic(auto, using(crate::specs::Walk::running_on))]
fn run<const GIVEN: bool>(sheet: &[u32], places: &mut [u32], queue: &mut Queue) -> Option<()>
    ensures { IfSome result (λ _. Ends sheet.now GIVEN places.old queue.old.records queue.old.end places.new queue.new.records queue.new.end) }
{
    for k in 0..NODES {
        if k >= queue.end {
            break;
        }
        let head = words::offset(sheet, queue.records[k] as usize, layout::NODE_CHILDREN);
        enter_cells::<GIVEN>(sheet, places, queue, head as usize)?;
    }
    Some(())
}

// How many nodes the import of the arguments from a head makes; none where a walk would go to more than NODES. The table's records are at the places given.
#[tactic(auto, using(crate::specs::Counts::tells_walked))]
fn walk<const GIVEN: bool>(sheet: &[u32], places: &mut [u32], args: u32) -> Option<usize>
    ensures { IfSome result (Tells sheet.now GIVEN places.old args) }
{
    let mut queue = Queue {
        records: [0u32; 256],
        end: 0,
    };
    enter_cells::<GIVEN>(sheet, places, &mut queue, args as usize)?;
    run::<GIVEN>(sheet, places, &mut queue)?;
    Some(queue.end)
}

// The same; all nodes of the table where a walk would go to more, and of a small table.
#[tactic(auto, using(crate::specs::Counts::tells_all))]
fn tell<const GIVEN: bool>(sheet: &[u32], places: &mut [u32], args: u32) -> usize
    ensures { Tells sheet.now GIVEN places.old args result }
{
    let n = places.len();
    if n <= SMALL {
        return n;
    }
    walk::<GIVEN>(sheet, places, args).unwrap_or(n)
}

// The same for the table from a head. The places of its records are written to `places`.
fn count<const GIVEN: bool>(sheet: &[u32], places: &mut [u32], head: u32, args: u32) -> usize
    requires sheet_len_bound { length sheet.now ≤ 4096 }
    requires head_in_bounds { 5 * length (chain sheet.now head) ≤ length sheet.now }
    requires sheet_len_bound_2 { length sheet.now ≤ 5 * length places.old }
    ensures { Counts sheet.now head args GIVEN result }
{
    let n = chart::index_chain(sheet, head, places, 0);
    tell::<GIVEN>(sheet, &mut places[..n], args)
}

// How many type parameters the generics of the impl whose record is at p have. Word g of `generics` is the place of the record of generics g.
fn type_params(sheet: &[u32], generics: &[u32], p: usize) -> u32
    ensures { result ≡ params_at sheet.now generics.now p }
{
    let g = words::offset(sheet, p, layout::IMPL_GENERICS);
    let at = words::next(generics, g as usize);
    words::offset(sheet, at, layout::GENERICS_TYPE_PARAMS)
}

// Writes what the signature of impl i takes, whose record is at p.
fn put_signature(
    sheet: &[u32],
    places: &mut [u32],
    generics: &[u32],
    taken: &mut [u32],
    p: usize,
    i: usize,
)
    requires sheet_len_bound { length sheet.now ≤ 4096 }
    requires p_in_bounds { 5 * length (chain sheet.now (at sheet.now (p + 4))) ≤ length sheet.now }
    requires sheet_len_bound_2 { length sheet.now ≤ 5 * length places.old }
    requires p_bound { params_at sheet.now generics.now p ≤ 8 }
    requires i_in_bounds { i < length taken.old }
    ensures { PutsSignature sheet.now generics.now p i taken.old taken.new }
{
    let head = words::offset(sheet, p, layout::IMPL_TABLE);
    let args = words::offset(sheet, p, layout::IMPL_ARGS);
    let n = count::<true>(sheet, places, head, args);
    let m = type_params(sheet, generics, p);
    taken[i] = n as u32 + m;
}

// Writes what the signatures of all impls take.
fn put_signatures(sheet: &[u32], places: &mut [u32], generics: &[u32], taken: &mut [u32])
    requires checked { Checked sheet.now }
    requires generics { Generics sheet.now generics.now }
    requires sheet_len_bound { length sheet.now ≤ 5 * length places.old }
    requires in_bounds { 132 ≤ length taken.old }
    ensures { Signatures sheet.now taken.new }
{
    let impls = words::records(sheet, words::next(sheet, layout::IMPLS));
    for (i, p) in impls.enumerate() {
        put_signature(sheet, places, generics, taken, p, i);
    }
}

// Writes what impl parameter k takes, whose record is at p, over the table from a head.
fn put_param(sheet: &[u32], places: &mut [u32], taken: &mut [u32], head: u32, p: usize, k: usize)
    requires sheet_len_bound { length sheet.now ≤ 4096 }
    requires head_in_bounds { 5 * length (chain sheet.now head) ≤ length sheet.now }
    requires sheet_len_bound_2 { length sheet.now ≤ 5 * length places.old }
    requires k_in_bounds { 128 + k < length taken.old }
    ensures { PutsParam sheet.now head p k taken.old taken.new }
{
    let args = words::offset(sheet, p, layout::IMPL_PARAM_ARGS);
    let n = count::<false>(sheet, places, head, args);
    taken[PARAMS + k] = n as u32;
}

// Writes what all impl parameters of a chain take.
#[tactic(auto, using(crate::specs::Params::adding_index, crate::specs::Params::adding_on, crate::specs::Params::adding_end))]
fn put_chain(sheet: &[u32], places: &mut [u32], taken: &mut [u32], head: u32, first: u32)
    requires sheet_len_bound { length sheet.now ≤ 4096 }
    requires head_in_bounds { 5 * length (chain sheet.now head) ≤ length sheet.now }
    requires sheet_len_bound_2 { length sheet.now ≤ 5 * length places.old }
    requires first_len_bound { length (chain sheet.now first) ≤ 4 }
    requires in_bounds { 132 ≤ length taken.old }
    ensures { PutsParams sheet.now head first taken.old taken.new }
{
    for (k, p) in words::records(sheet, first as usize).enumerate() {
        put_param(sheet, places, taken, head, p, k);
    }
}

// Writes what the impl parameters of generics g take.
fn put_params(sheet: &[u32], places: &mut [u32], generics: &[u32], taken: &mut [u32], g: usize)
    requires called { Called sheet.now g }
    requires generics { Generics sheet.now generics.now }
    requires sheet_len_bound { length sheet.now ≤ 5 * length places.old }
    requires in_bounds { 132 ≤ length taken.old }
    ensures { ParamsPut sheet.now g taken.old taken.new }
{
    let p = words::next(generics, g);
    let head = words::offset(sheet, p, layout::GENERICS_TABLE);
    let first = words::offset(sheet, p, layout::GENERICS_IMPL_PARAMS);
    put_chain(sheet, places, taken, head, first);
}

// Writes how many nodes the imports of a call take at most, each into whatever table: word i for the signature of impl i, with its type parameters, and word 128 + k for
// impl parameter k of the caller's generics.
pub fn fill(sheet: &[u32], generics: usize, taken: &mut [u32])
    requires called { Called sheet.now generics }
    requires in_bounds { 132 ≤ length taken.old }
    ensures { Taken sheet.now generics taken.new }
{
    let mut places = [0u32; 820];
    let mut records = [0u32; 1024];
    chart::index(sheet, layout::GENERICS, &mut records, 0);
    put_signatures(sheet, &mut places, &records, taken);
    put_params(sheet, &mut places, &records, taken, generics);
}
