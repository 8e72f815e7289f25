// Types of the question and of a signature, of a candidate or an impl parameter, by their refs: what is read of a ref, and links between types that are the same.
// A type is twice a ref, and one more if it is inverted. Refs are read modulo 2,048: up to 255 roots of the question's table, from 256 on type parameters, from 1,024 on nodes of the signature's table by their records.
// `links` has for each ref 0, or 1 and the type that the ref is, of the same class.
#![tactic(auto)]

ghost use Rattle.std.specs.Prelude.{◌≡◌, ◌+◌, ◌/◌, ◌%◌, IfSome, length, min};
ghost use Rattle.rules.specs.Sheet.{at};
ghost use Rattle.refs.specs.Refs.{place, KindOf, IdOf, side_of, type_side, apart as Apart_of, Alike};
ghost use Rattle.refs.specs.Meaning.{turn as turn_of, record_side};
ghost use Rattle.refs.specs.Links.{Finds, Links, Settles};
ghost use Rattle.refs.specs.Children.{Cells};

use chart::layout;
use table::Row;

mod tables;

pub use tables::Sides;

pub const NODES: u32 = 256;

pub const PARAMS: u32 = 256;

pub const RECORDS: u32 = 1024;

pub const PARAM: u32 = 1;

// How many records there are, at most 1,024.
pub fn record_count(places: &[u32]) -> u32
    ensures { result ≡ min (length places.now) 1024 }
{
    places.len().min(1024) as u32
}

// The place of the record of a ref; 0 where there is none, as in every chain: what is read there is 0 or the header's, so that callers need no other case.
pub fn place_of(places: &[u32], r: u32) -> usize
    ensures { result ≡ place places.now r }
{
    if r < RECORDS {
        return 0;
    }
    words::next(places, (r - RECORDS) as usize)
}

// The kind of a ref; 0, the sheet's own number of an unknown, where it is unknown, and for a Param of the signature.
// This and what follows up to `apart` read any table: as methods they would ask for the packed one of `Sides`, which is more than they asked.
pub fn kind(sheet: &[u32], places: &[u32], ws: &[u32], r: u32) -> u32
    ensures { KindOf sheet.now places.now ws.now r result }
{
    if r < NODES {
        return table::kind_of(ws, r);
    }
    let p = place_of(places, r);
    if p == 0 {
        return 0;
    }
    let k = words::offset(sheet, p, layout::NODE_KIND);
    if k == PARAM { 0 } else { k }
}

// The id of a ref that has a kind.
pub fn id(sheet: &[u32], places: &[u32], ws: &[u32], r: u32) -> u32
    ensures { IdOf sheet.now places.now ws.now r result }
{
    if r < NODES {
        return table::id_of(ws, r);
    }
    let p = place_of(places, r);
    words::offset(sheet, p, layout::NODE_ID)
}

// Whether the node of the record at p is inverted.
pub fn record_inverted(sheet: &[u32], p: usize) -> bool
    ensures { result ≡ record_side sheet.now p }
{
    words::offset(sheet, p, layout::NODE_INVERTED) == 1
}

// The side of a ref: whether it is inverted.
#[tactic(auto, using(crate::specs::Refs::node_side, crate::specs::Refs::place_side))]
fn inverted(sheet: &[u32], places: &[u32], ws: &[u32], r: u32) -> bool
    ensures { result ≡ side_of sheet.now places.now ws.now r }
{
    if r < NODES {
        return table::inverted_of(ws, r);
    }
    record_inverted(sheet, place_of(places, r))
}

// The side of a type.
#[tactic(auto, using(crate::specs::Refs::turned_side))]
fn side(sheet: &[u32], places: &[u32], ws: &[u32], t: u32) -> bool
    ensures { result ≡ type_side sheet.now places.now ws.now t }
{
    (t % 2 == 1) ^ inverted(sheet, places, ws, t / 2)
}

// Whether two types differ in side.
#[tactic(auto, using(crate::specs::Refs::sides_apart))]
pub fn apart(sheet: &[u32], places: &[u32], ws: &[u32], x: u32, y: u32) -> bool
    ensures { result ≡ Apart_of sheet.now places.now ws.now x y }
{
    side(sheet, places, ws, x) ^ side(sheet, places, ws, y)
}

// A type, inverted if b is odd.
pub fn turn(b: u32, t: u32) -> u32
    ensures { result ≡ turn_of b t }
{
    t / 2 * 2 + (t % 2 + b % 2) % 2
}

// The type parameter that a Param of the signature is; none for any other type.
#[tactic(auto, using(crate::specs::Refs::alike_read))]
pub fn parameter(sheet: &[u32], places: &[u32], x: u32) -> Option<u32>
    ensures { IfSome result (Alike sheet.now places.now x) }
{
    let p = place_of(places, x / 2);
    if p == 0 || words::offset(sheet, p, layout::NODE_KIND) != PARAM {
        return None;
    }
    let d = words::offset(sheet, p, layout::NODE_ID);
    if d >= 8 {
        return None;
    }
    Some(turn(x, 2 * (PARAMS + d) + u32::from(record_inverted(sheet, p))))
}

// A type of the signature.
pub fn own_type(t: u32) -> u32
    ensures { result ≡ 2048 + t % 2048 }
{
    2 * RECORDS + t % 2048
}

// The types in the cells of the chain from a head; none where there are more than eight, or in a sheet of fewer than eight words.
pub fn cells(sheet: &[u32], head: usize) -> Option<Row>
    ensures { IfSome result (Cells sheet.now head) }
{
    if sheet.len() < 8 {
        return None;
    }
    let mut types = [0u32; 8];
    let mut n = 0;
    for c in words::records(sheet, head) {
        if n == types.len() {
            return None;
        }
        types[n] = own_type(words::offset(sheet, c, layout::CELL_TYPE));
        n += 1;
    }
    Some(Row { n, types })
}

// The ref of a type, as an index.
pub fn ref_of(t: u32) -> usize
    ensures { result ≡ t / 2 % 2048 }
{
    t as usize / 2 % 2048
}

// The type that the ref of a type is linked to; none at a root: it has no link, or is linked to its own inverse.
fn link_of(links: &[u32; 2048], t: u32) -> Option<u32>
    ensures { IfSome result (λ up. up + 1 ≡ at links.now (t / 2 % 2048)) }
{
    let up = links[ref_of(t)];
    if up == 0 || (up - 1) / 2 == t / 2 % 2048 {
        return None;
    }
    Some(up - 1)
}

// The last of at most 16 links from a type.
#[tactic(auto, using(crate::specs::Links::finds_on))]
fn find_far(links: &[u32; 2048], t: u32) -> u32
    ensures { Finds links.now t result }
{
    let mut x = t;
    for _ in 0..16 {
        let Some(up) = link_of(links, x) else {
            return x;
        };
        x = turn(x % 2, up);
    }
    x
}

// The type of a root that a type is, or of a ref near it.
pub fn find(links: &[u32; 2048], t: u32) -> u32
    ensures { Finds links.now t result }
{
    match link_of(links, t) {
        Some(up) => find_far(links, turn(t % 2, up)),
        None => t,
    }
}

// Links the ref of x, so that x is y.
#[tactic(auto, using(crate::specs::Links::links_set))]
pub fn link(links: &mut [u32; 2048], x: u32, y: u32)
    ensures { Links links.old x y links.new }
{
    links[ref_of(x)] = turn(x % 2, y) % 4096 + 1;
}

// The same, unless it is the ref of y.
pub fn link_apart(links: &mut [u32; 2048], x: u32, y: u32)
    ensures { Links links.old x y links.new }
{
    if x / 2 != y / 2 {
        link(links, x, y);
    }
}

// A root: a Param of the signature is linked to its type parameter, and the root of that is found.
pub fn settle(sheet: &[u32], places: &[u32], links: &mut [u32; 2048], x: u32) -> u32
    ensures { Settles sheet.now places.now links.old x links.new result }
{
    match parameter(sheet, places, x) {
        Some(p) => {
            link(links, x, p);
            find(links, p)
        }
        None => x,
    }
}
