// The planes that 8 and 12 read: what is known of the sheet, then what is noted of the chains of a slice.
ghost use Rattle.std.specs.Prelude.{◌≤◌, length};
ghost use Rattle.rules.specs.Limits.{limit_sheet};
ghost use Rattle.rules.specs.Layout.{header_length};
ghost use Rattle.values.specs.Known.{Known};
ghost use Rattle.values.specs.Tables.{planes_room, Space, Counted, Cells, CellsMade, NodesMade, LinksMade, Tables, Charted};

use crate::{folds, limits, planes};
use chart::layout;

// Notes how many records each header word's chain has, in the words of the same number.
fn note_counts(s: &[u32], ws: &mut [u32])
    requires { (length s.now ≤ limit_sheet) × (planes_room ≤ length ws.old) }
    ensures { Counted s.now header_length ws.new }
{
    for h in 0..layout::HEADER_LENGTH {
        ws[h] = chart::count_of(s, h) as u32;
    }
}

// Notes the counts, and where each trait's record is.
pub fn prepare_known(s: &[u32], ws: &mut [u32])
    requires { (length s.now ≤ limit_sheet) × (planes_room ≤ length ws.old) }
    ensures { Known s.now ws.new }
{
    note_counts(s, ws);
    chart::index(s, layout::TRAITS, ws, limits::PLANE);
}

// The lengths of chains, and what cells ask of their table.
fn prepare_cells(s: &[u32], w: &[u32], ws: &mut [u32])
    requires { Space s.now w.now ws.old }
    ensures { CellsMade w.now ws.old ws.new }
{
    folds::note_lengths(w, ws, limits::LENGTHS);
    planes::note_cells(s, w, ws);
}

// What nodes ask for.
fn prepare_nodes(s: &[u32], w: &[u32], ws: &mut [u32])
    requires { Space s.now w.now ws.old × Cells w.now ws.old }
    ensures { NodesMade s.now w.now ws.old ws.new }
{
    planes::note_nodes(s, w, ws);
    planes::note_needs(s, w, ws);
    planes::note_children(s, w, ws);
}

// What bindings, members and impl parameters ask for.
fn prepare_links(s: &[u32], ws: &mut [u32])
    requires { Space s.now s.now ws.old × Cells s.now ws.old }
    ensures { LinksMade s.now ws.old ws.new }
{
    planes::note_bindings(s, ws);
    planes::note_members(s, ws);
    planes::note_params(s, ws);
    planes::note_args(s, ws);
}

// The planes of the tables of a slice.
pub fn prepare_tables(s: &[u32], w: &[u32], ws: &mut [u32])
    requires { Space s.now w.now ws.old }
    ensures { Tables s.now w.now ws.new }
{
    prepare_cells(s, w, ws);
    prepare_nodes(s, w, ws);
}

// The planes of a sheet.
pub fn prepare_sheet(s: &[u32], ws: &mut [u32])
    requires { (length s.now ≤ limit_sheet) × (planes_room ≤ length ws.old) }
    ensures { Charted s.now ws.new }
{
    prepare_known(s, ws);
    prepare_tables(s, s, ws);
    prepare_links(s, ws);
}

// The planes of a question's tables.
pub fn prepare_question(s: &[u32], q: &[u32], ws: &mut [u32])
    requires { (length s.now ≤ limit_sheet) × (length q.now ≤ limit_sheet) × (planes_room ≤ length ws.old) }
    ensures { Tables s.now q.now ws.new }
{
    prepare_known(s, ws);
    prepare_tables(s, q, ws);
}
