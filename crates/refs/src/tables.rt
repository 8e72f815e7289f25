// The two tables that a test goes by, and what it reads of a ref in them.
ghost use Rattle.std.specs.Prelude.{◌≡◌, IfSome};
ghost use Rattle.table.specs.Packing.{Packed};
ghost use Rattle.refs.specs.Refs.{KindOf, IdOf, apart as Apart_of};
ghost use Rattle.refs.specs.Children.{Below, Gathers};

use crate::{NODES, cells, place_of};
use chart::layout;
use table::Row;

// The sheet with the places of the signature's records in it, and the question's table, which is packed.
#[derive(Clone, Copy)]
pub struct Sides<'a> {
    pub sheet: &'a [u32],
    pub places: &'a [u32],
    pub table: &'a [u32],
    pub ghost packed: { Packed table.now },
}

impl<'a> Sides<'a> {
    // The kind of a ref, as `kind` has it.
    pub fn kind(&self, r: u32) -> u32
        ensures { KindOf self.now.sheet.now self.now.places.now self.now.table.now r result }
    {
        crate::kind(self.sheet, self.places, self.table, r)
    }

    // The id of a ref that has a kind.
    pub fn id(&self, r: u32) -> u32
        ensures { IdOf self.now.sheet.now self.now.places.now self.now.table.now r result }
    {
        crate::id(self.sheet, self.places, self.table, r)
    }

    // Whether two types differ in side.
    pub fn apart(&self, x: u32, y: u32) -> bool
        ensures { result ≡ Apart_of self.now.sheet.now self.now.places.now self.now.table.now x y }
    {
        crate::apart(self.sheet, self.places, self.table, x, y)
    }

    // The types below a ref, by its node or its record; none of an unknown node, or of one that is not its own root.
    pub fn below(&self, r: u32) -> Option<Row>
        ensures { IfSome result (Below self.now.sheet.now self.now.places.now self.now.table.now r) }
    {
        if r < NODES {
            if table::kind_of(self.table, r) == 0 {
                return None;
            }
            return table::child_types(self.table, r);
        }
        let p = place_of(self.places, r);
        let head = words::offset(self.sheet, p, layout::NODE_CHILDREN);
        cells(self.sheet, head as usize)
    }

    // The children of a ref, if it is known.
    pub fn children(&self, r: u32) -> Option<Row>
        ensures { IfSome result (Gathers self.now.sheet.now self.now.places.now self.now.table.now r) }
    {
        if self.kind(r) == 0 {
            return None;
        }
        self.below(r)
    }
}
