// Which definition a member names, and what a source may see: by a walk over its ancestors, or by marks of them.
ghost use Rattle.std.specs.Prelude.{◌≡◌, ◌+◌, ◌≤◌, length};
ghost use Rattle.std.specs.Iterator.{YieldsFirst, item_count};
ghost use Rattle.std.specs.Option.{option_to_list};
ghost use Rattle.rules.specs.Layout.{header_definitions};
ghost use Rattle.rules.specs.Sheet.{many};
ghost use Rattle.rules.specs.Lists.{Words, is_in};
ghost use Rattle.rules.specs.Candidates.{get_member, ancestors, visible};
ghost use Rattle.chart.specs.Ancestors.{Ancestors, AncestorsMade, Marked};
ghost use Rattle.chart.specs.Scope.{upward};

use crate::{count_of, field_at, import_def, layout, parent};
use std::marker::Model;

// The definition that a member names, where it names one.
pub fn get_member(s: &[u32], m: usize) -> Option<usize>
    ensures { get_member s.now m ≡ option_to_list result }
{
    let id = field_at(s, m, layout::MEMBER_ID);
    if field_at(s, m, layout::MEMBER_IMPORT) == 0 {
        Some(id)
    } else {
        import_def(s, id).checked_sub(1)
    }
}

// The ancestors that are left: at most `left` of them, the first `next`.
#[derive(Drop)]
pub struct Ancestry<'a> {
    sheet: &'a [u32],
    next: Option<usize>,
    left: usize,
}

// Seen as the list of these definitions.
impl<'a> Model for Ancestry<'a> {
    ghost Value = { Words };

    ghost view = { λ r. upward r.left r.sheet.now r.next };
}

impl<'a> Iterator for Ancestry<'a> {
    type Item = usize;

    ghost next_gives = { YieldsFirst (λ ds. ds) };

    ghost remaining = { item_count (λ ds. ds) };

    fn next(&mut self) -> Option<usize> {
        if self.left == 0 {
            return None;
        }
        let here = self.next?;
        self.next = parent(self.sheet, here).checked_sub(1);
        self.left -= 1;
        Some(here)
    }
}

// The ancestors of a definition: itself, its parent, the parent's parent, and so on.
pub fn ancestors(s: &[u32], src: usize) -> Ancestry<'_>
    ensures { result ≡ ancestors s.now src }
{
    Ancestry {
        sheet: s,
        next: Some(src),
        left: count_of(s, layout::DEFINITIONS),
    }
}

// A definition is another's ancestor.
pub fn is_ancestor(s: &[u32], a: usize, src: usize) -> bool
    ensures { result ≡ is_in a (ancestors s.now src) }
{
    ancestors(s, src).any(|d| a == d)
}

// A vis lets a source in: it is public, or names one of the source's ancestors.
pub fn visible(s: &[u32], src: usize, vis: usize) -> bool
    ensures { result ≡ visible (ancestors s.now src) vis }
{
    match vis.checked_sub(1) {
        None => true,
        Some(d) => is_ancestor(s, d, src),
    }
}

// Marks the ancestors of a source, a word for each definition: 1 for an ancestor and 0 for another.
fn mark_each(s: &[u32], src: usize, marks: &mut [u32])
    ensures { Marked marks.new (ancestors s.now src) }
{
    marks.fill(0);
    for d in ancestors(s, src) {
        if d < marks.len() {
            marks[d] = 1;
        }
    }
}

// The same in the words from b on.
pub fn mark_ancestors(s: &[u32], src: usize, ws: &mut [u32], b: usize)
    requires { b + many s.now header_definitions ≤ length ws.old }
    ensures { AncestorsMade s.now src ws.old ws.new b }
{
    let e = b + count_of(s, layout::DEFINITIONS);
    mark_each(s, src, &mut ws[b..e]);
}

// `visible` by one read, where the source's ancestors are marked from b on.
pub fn visible_marked(s: &[u32], src: usize, ws: &[u32], b: usize, vis: usize) -> bool
    requires { Ancestors s.now src ws.now b × (vis ≤ many s.now header_definitions) }
    ensures { result ≡ visible (ancestors s.now src) vis }
{
    match vis.checked_sub(1) {
        None => true,
        Some(d) => words::offset(ws, b, d) == 1,
    }
}
