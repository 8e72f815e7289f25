// Whether a candidate's signature, or an impl parameter of the caller's generics, and the question cannot unify: a test made before it is opened.
// It goes by classes of types that have to be the same, and finds a clash where two types of one class differ, or a class would contain itself (`meeting`), or where an unknown that meets its own inverse stays free (`loose`). Where it finds none nothing is said.
// Notes tell for later candidates of the same question what an earlier one was tested for; whatever they hold, a clash that is found is one.
#![tactic(auto)]

ghost use Rattle.std.specs.Prelude.{◌≡◌, ◌+◌, ◌*◌, ◌<◌, ◌≤◌, length};
ghost use Rattle.rules.specs.Sheet.{at, many};
ghost use Rattle.rules.specs.Layout.{header_impls};
ghost use Rattle.rules.specs.Search.{impl_params};
ghost use Rattle.rules.specs.Transfer.{cell_types};
ghost use Rattle.rules.specs.Solutions.{AllIn};
ghost use Rattle.rules.specs.Neat.{Neat};
ghost use Rattle.table.specs.Packing.{types_of, Packed};
ghost use Rattle.queries.specs.Queries.{query_of};
ghost use Rattle.queries.specs.Takes.{SignatureTakes, ParamTakes};
ghost use Rattle.opening.specs.Sound.{Sound};
ghost use Rattle.clash.specs.Signatures.{Against, Room, ImplAt, Clashes};
ghost use Rattle.clash.specs.Params.{Calling, ParamClashes};

use arguments::Arguments;
use chart::layout;
use meeting::Notes;
use queries::Query;
use refs::Sides;

mod arguments;

// The most nodes that a table has.
const ROOM: usize = 256;

// Whether a table has room for n nodes more.
fn has_room(ws: &[u32], n: usize) -> bool
    ensures { Room (types_of ws.now) n result }
{
    n <= ROOM && table::count(ws) as usize <= ROOM - n
}

// The place of the record of impl i.
fn impl_place(sheet: &[u32], i: usize) -> usize
    ensures { ImplAt sheet.now i result }
{
    let head = words::next(sheet, layout::IMPLS);
    words::place(sheet, head, i)
}

// Whether the signature of the impl whose record is at p clashes with question q.
fn clash_at(sides: &Sides, notes: &mut Notes, q: Query, p: usize) -> bool
    requires n_bound { q.n ≤ 4 }
    requires p_len_bound { length (cell_types sides.now.sheet.now (at sides.now.sheet.now (p + 5))) ≤ 4 }
    ensures { Against sides.now.sheet.now sides.now.places.now sides.now.table.now q p result }
{
    let tr = words::offset(sides.sheet, p, layout::IMPL_TRAIT);
    let args = words::offset(sides.sheet, p, layout::IMPL_ARGS);
    let a = queries::read_query(sides.sheet, tr, args as usize);
    if a.n != q.n {
        return false;
    }
    let arguments = Arguments {
        signature: a,
        question: q,
        given: true,
    };
    arguments.clash(sides, notes)
}

// Whether candidate i, whose signature takes n nodes, and question q clash. The places of the nodes of its signature's table are written to `places`.
pub fn clashes(
    sheet: &[u32],
    ws: &[u32],
    places: &mut [u32],
    notes: &mut Notes,
    q: Query,
    i: usize,
    n: usize,
) -> bool
    requires signature_takes { SignatureTakes sheet.now i n }
    requires sound { Sound sheet.now }
    requires i_bound { i < many sheet.now header_impls }
    requires sheet_len_bound { length sheet.now ≤ 5 * length places.old }
    requires packed { Packed ws.now }
    requires neat { Neat (types_of ws.now) }
    requires all_in { AllIn (length (types_of ws.now)) (query_of q).1 }
    requires n_bound { q.n ≤ 4 }
    ensures { Clashes sheet.now (types_of ws.now) (query_of q) i result }
{
    if !has_room(ws, n) {
        return false;
    }
    let p = impl_place(sheet, i);
    let head = words::offset(sheet, p, layout::IMPL_TABLE);
    let m = chart::index_chain(sheet, head, places, 0);
    let sides = Sides {
        sheet,
        places: &places[..m],
        table: ws,
    };
    clash_at(&sides, notes, q, p)
}

// Whether impl parameter p of the caller's generics g, which takes n nodes, and question q clash. The places of the nodes of the generics' table are written to `places`.
pub fn param_clashes(
    sheet: &[u32],
    ws: &[u32],
    places: &mut [u32],
    g: usize,
    p: Query,
    q: Query,
    n: usize,
) -> bool
    requires param_takes { ParamTakes sheet.now g (query_of p) n }
    requires calling { Calling sheet.now g }
    requires sheet_len_bound { length sheet.now ≤ 5 * length places.old }
    requires packed { Packed ws.now }
    requires neat { Neat (types_of ws.now) }
    requires all_in { AllIn (length (types_of ws.now)) (query_of q).1 }
    requires n_bound { q.n ≤ 4 }
    requires all_in_2 { AllIn (length (impl_params sheet.now g).0) (query_of p).1 }
    ensures { ParamClashes sheet.now g (types_of ws.now) (query_of p) (query_of q) result }
{
    if p.n != q.n || !has_room(ws, n) {
        return false;
    }
    let head = opening::word_of(sheet, layout::GENERICS, g, layout::GENERICS_TABLE);
    let m = chart::index_chain(sheet, head, places, 0);
    let sides = Sides {
        sheet,
        places: &places[..m],
        table: ws,
    };
    let arguments = Arguments {
        signature: p,
        question: q,
        given: false,
    };
    arguments.clash(&sides, &mut Notes::new())
}
