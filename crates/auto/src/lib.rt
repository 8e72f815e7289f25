// Built-in fork and drop, `find_auto_impls` of the Rust: what Fn, Default and closures have of themselves.
#![tactic(auto)]

ghost use Rattle.std.specs.Prelude.{◌≡◌, map, ◌/◌, ◌<◌};
ghost use Rattle.rules.specs.Types.{kind, xor as xor_of};
ghost use Rattle.rules.specs.Transfer.{type_of_word};
ghost use Rattle.rules.specs.Search.{find_auto_impl, find_auto_impls};
ghost use Rattle.table.specs.Packing.{types_of, inverted_at};
ghost use Rattle.auto.specs.Built.{leaves, set_leaf, own_leaf, auto_of};

use chart::layout;

// A tree without children.
#[derive(Clone, Copy)]
pub struct Leaf {
    pub kind: u32,
    pub id: u32,
}

// The kind of a tree, and kinds of types.
const DEF: u32 = layout::TREE_DEF as u32;

const FN: u32 = layout::KIND_FN as u32;

const CLOSURE: u32 = layout::KIND_CLOSURE as u32;

const DEFAULT: u32 = layout::KIND_DEFAULT as u32;

// A trait with built-in impls: the header word of duplicate or erase, the bit of a closure's flex, and the kind of a closure's tree.
#[derive(Clone, Copy)]
struct BuiltIn {
    set: usize,
    bit: usize,
    closure: u32,
    ghost some: { 0 < bit },
}

const FORK: BuiltIn = BuiltIn {
    set: layout::DUPLICATE,
    bit: layout::FLEX_FORK,
    closure: layout::TREE_FORK_CLOSURE as u32,
};

const DROP: BuiltIn = BuiltIn {
    set: layout::ERASE,
    bit: layout::FLEX_DROP,
    closure: layout::TREE_DROP_CLOSURE as u32,
};

// duplicate or erase, where header word h has it.
fn set_impl(s: &[u32], h: usize) -> Option<Leaf>
    ensures { leaves result ≡ set_leaf s.now h }
{
    let id = words::word(s, h).checked_sub(1)?;
    Some(Leaf { kind: DEF, id })
}

// A closure's own, where its flex has the bit.
fn closure_impl(s: &[u32], built: BuiltIn, id: u32) -> Option<Leaf>
    ensures { leaves result ≡ own_leaf s.now built.bit built.closure id }
{
    let flex = chart::closure_flex(s, id as usize);
    if flex / built.bit % 2 == 1 {
        Some(Leaf {
            kind: built.closure,
            id,
        })
    } else {
        None
    }
}

// By the kind, the inversion and the id of a type.
fn auto_of(s: &[u32], built: BuiltIn, kind: u32, inverted: bool, id: u32) -> Option<Leaf>
    ensures { leaves result ≡ auto_of s.now built.set built.bit built.closure kind inverted id }
{
    match kind {
        DEFAULT => set_impl(s, built.set),
        FN if !inverted => set_impl(s, built.set),
        CLOSURE if !inverted => closure_impl(s, built, id),
        _ => None,
    }
}

// Whether what the root of a type is, is inverted in the type.
fn inversion(table: &[u32], u: u32) -> bool
    ensures { result ≡ xor_of (type_of_word u).0 (inverted_at (types_of table.now) (u / 2)) }
{
    let flipped = table::is_inverted(u);
    let inverted = table::inverted_of(table, u / 2);
    flipped != inverted
}

// `find_auto_impls_fork` and `_drop`.
fn find_auto_impl(s: &[u32], table: &[u32], t: u32, built: BuiltIn) -> Option<Leaf>
    ensures { leaves result ≡ find_auto_impl s.now built.set built.bit built.closure (kind (types_of table.now) (type_of_word t)) }
{
    let u = table::find(table, t);
    let kind = table::kind_of(table, u / 2);
    let id = table::id_of(table, u / 2);
    let inverted = inversion(table, u);
    auto_of(s, built, kind, inverted, id)
}

// `find_auto_impls`: for a trait? and the type words of its arguments. One trait set as both counts as Fork.
pub fn find_auto_impls(s: &[u32], table: &[u32], tr: u32, args: &[u32]) -> Option<Leaf>
    ensures { leaves result ≡ find_auto_impls s.now (types_of table.now) (tr, map type_of_word args.now) }
{
    if tr == 0 {
        return None;
    }
    let t = words::word(args, 0);
    if tr == words::word(s, layout::FORK) {
        find_auto_impl(s, table, t, FORK)
    } else if tr == words::word(s, layout::DROP) {
        find_auto_impl(s, table, t, DROP)
    } else {
        None
    }
}
