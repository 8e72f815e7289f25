// What each node binds itself (`add_direct_candidate`): the rows from which the candidate sets spread, a bit for each impl.
ghost use Rattle.std.specs.Prelude.{◌≡◌, [], ◌∷◌, ◌<◌};
ghost use Rattle.rules.specs.Layout.{flag_named};
ghost use Rattle.rules.specs.Sheet.{chain, bindings, impl_flag};
ghost use Rattle.rules.specs.Candidates.{may_enter};
ghost use Rattle.rules.specs.Admission.{binding_node};
ghost use Rattle.candidates.specs.Sets.{Binding, BindingAll, Enters, Bound};

use crate::index::Records;
use crate::layout;
use crate::rows::set_bit;
use crate::source::visible;
use chart::layout::{
    BINDING_IMPL, BINDING_VIS, DEFINITION_BINDINGS, FLAG_MANUAL, FLAG_NAMED, FLAG_UNSAFE,
    IMPL_TRAIT,
};

impl<'a> Records<'a> {
    // "Manual, unsafe and Error impls never enter."
    fn may_enter(self, i: usize) -> bool
        ensures { result ≡ may_enter self.entry.s.now i }
    {
        !self.impl_flag(i, FLAG_MANUAL)
            && !self.impl_flag(i, FLAG_UNSAFE)
            && self.impl_word(i, IMPL_TRAIT) != 0
    }

    // The node at which a definition binds an impl: its direct level for a named impl, the level within for another.
    fn binding_node(self, d: usize, i: usize) -> usize
        requires { d < 128 }
        ensures { (result ≡ binding_node (impl_flag self.entry.s.now flag_named i) d) × (result < 384) }
    {
        if self.impl_flag(i, FLAG_NAMED) {
            3 * d
        } else {
            3 * d + 1
        }
    }
}

// Enters the impl of a binding of definition d.
fn bind(s: &[u32], ws: &mut [u32], d: usize, b: usize)
    requires { Binding d s.now ws.old }
    ensures { Enters s.now d (b ∷ []) ws.old ws.new }
{
    let i = words::offset(s, b, BINDING_IMPL) as usize;
    let open = visible(ws, words::offset(s, b, BINDING_VIS));
    let records = Records { s, ws };
    if i < layout::NODES && open && records.may_enter(i) {
        let x = records.binding_node(d, i);
        set_bit(ws, layout::SETS + layout::ROW * x, i);
    }
}

// Enters the impls of the bindings on a chain.
fn bind_chain(s: &[u32], ws: &mut [u32], d: usize, head: usize)
    requires { Binding d s.now ws.old }
    ensures { Enters s.now d (chain s.now head) ws.old ws.new }
{
    for b in words::records(s, head) {
        bind(s, ws, d, b);
    }
}

// Enters the impls that a definition binds.
fn bind_definition(s: &[u32], ws: &mut [u32], d: usize)
    requires { Binding d s.now ws.old }
    ensures { Enters s.now d (bindings s.now d) ws.old ws.new }
{
    let head = Records { s, ws }.definition(d, DEFINITION_BINDINGS) as usize;
    bind_chain(s, ws, d, head);
}

// Enters the impls that the first n definitions bind.
pub fn bind_all(s: &[u32], ws: &mut [u32], n: usize)
    requires { BindingAll n s.now ws.old }
    ensures { Bound s.now n ws.old ws.new }
{
    for d in 0..n {
        bind_definition(s, ws, d);
    }
}
