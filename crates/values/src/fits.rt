// The tests of one record, where the counts of the sheet's records and the places of its traits are known.
ghost use Rattle.std.specs.Prelude.{◌≡◌, not, ◌||◌, eqb, ltb};
ghost use Rattle.rules.specs.Lists.{holds, bit};
ghost use Rattle.rules.specs.Values.{binding_ok, member_ok};
ghost use Rattle.values.specs.NodeLaws.{id_fits, core, args_core};
ghost use Rattle.chart.specs.Numbers.{number_of};
ghost use Rattle.values.specs.Known.{Known, known_prop, is_member_id, Owner, owned};

use crate::limits;
use chart::kinds::{self, Kind};
use chart::layout;

// All of some tests hold.
pub fn holds<const N: usize>(tests: [bool; N]) -> bool
    ensures { result ≡ holds tests.entry }
{
    tests.iter().all(|ok| *ok)
}

// The mark of a test that fails.
pub fn bad(ok: bool) -> u32
    ensures { result ≡ bit (not ok) }
{
    u32::from(!ok)
}

// The header word that heads the records which a kind's id names, where it names one.
fn owner(kind: Kind) -> Option<usize>
    ensures { Owner result (number_of kind) }
{
    match kind {
        Kind::Opaque => Some(layout::OPAQUES),
        Kind::Struct => Some(layout::STRUCTS),
        Kind::Enum => Some(layout::ENUMS),
        Kind::Union => Some(layout::UNIONS),
        Kind::Closure => Some(layout::CLOSURES),
        _ => None,
    }
}

// An unknown is not inverted. The rule says so of every number, and compares it as such.
fn unknown_upright(k: usize, inv: usize) -> bool
    ensures { result ≡ (ltb 0 k || eqb inv 0) }
{
    layout::KIND_UNKNOWN < k || inv == 0
}

// A sheet, and a workspace in which is noted how many records of each kind it has, and where its traits are.
#[derive(Clone, Copy)]
pub struct Noted<'a> {
    pub s: &'a [u32],
    pub ws: &'a [u32],
    pub ghost known: { Known s.now ws.now } by { known_prop s.now ws.now },
}

impl<'a> Noted<'a> {
    // An id names a record of its kind, or is 0 where the kind names none.
    fn owned(self, kind: Kind, id: usize) -> bool
        ensures { result ≡ owned self.entry.s.now (number_of kind) id }
    {
        match owner(kind) {
            Some(h) => id < words::next(self.ws, h),
            None => id == 0,
        }
    }

    // The id of a node is in range, but for a Param's, which depends on the generics concerned.
    fn id_fits(self, kind: Kind, id: usize) -> bool
        ensures { result ≡ id_fits self.entry.s.now (number_of kind) id }
    {
        match kind {
            Kind::Param => id < limits::WORD_MOST,
            Kind::Fn | Kind::Key => true,
            _ => self.owned(kind, id),
        }
    }

    // A node with n children is in range, but for its Param and its children: the six tests are the rule's, though a `Kind` passes the first.
    pub fn core(self, k: usize, inv: usize, id: usize, n: usize) -> bool
        ensures { result ≡ core self.entry.s.now k inv id n }
    {
        let Some(kind) = Kind::from_word(k) else {
            return false;
        };
        let fits = self.id_fits(kind, id);
        let upright = unknown_upright(k, inv);
        let least = kinds::kind_row(k, layout::ROW_LEAST);
        let most = kinds::kind_row(k, layout::ROW_MOST);
        holds([
            k < layout::KIND_COUNT,
            inv <= 1,
            upright,
            fits,
            least <= n,
            n <= most,
        ])
    }

    // binding: vis, impl
    pub fn binding_ok(self, p: usize) -> bool
        ensures { result ≡ binding_ok self.entry.s.now p }
    {
        let vis = chart::field_at(self.s, p, layout::BINDING_VIS);
        let id = chart::field_at(self.s, p, layout::BINDING_IMPL);
        let definitions = words::next(self.ws, layout::DEFINITIONS);
        let impls = words::next(self.ws, layout::IMPLS);
        holds([vis <= definitions, id < impls])
    }

    // The id of a member, of a child or an import.
    fn member_id(self, import: usize, id: usize) -> bool
        ensures { result ≡ is_member_id self.entry.s.now import id }
    {
        if import == 0 {
            id < words::next(self.ws, layout::DEFINITIONS)
        } else {
            id < words::next(self.ws, layout::IMPORTS)
        }
    }

    // member: vis, 0 child or 1 import, id
    pub fn member_ok(self, p: usize) -> bool
        ensures { result ≡ member_ok self.entry.s.now p }
    {
        let vis = chart::field_at(self.s, p, layout::MEMBER_VIS);
        let import = chart::field_at(self.s, p, layout::MEMBER_IMPORT);
        let id = chart::field_at(self.s, p, layout::MEMBER_ID);
        let definitions = words::next(self.ws, layout::DEFINITIONS);
        let there = self.member_id(import, id);
        holds([vis <= definitions, import <= 1, there])
    }

    // A trait? with n arguments: as many as its arity, and none for 0.
    pub fn args_core(self, t: usize, n: usize) -> bool
        ensures { result ≡ args_core self.entry.s.now t n }
    {
        let traits = words::next(self.ws, layout::TRAITS);
        if traits < t {
            return false;
        }
        let Some(id) = t.checked_sub(1) else {
            return n == 0;
        };
        let p = words::offset(self.ws, limits::PLANE, id) as usize;
        n == chart::field_at(self.s, p, layout::TRAIT_ARITY)
    }
}
