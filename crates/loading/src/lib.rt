// A question before its search: its table packed into words, node by node, and what is asked in a table of its own.
#![tactic(auto)]

ghost use Rattle.std.specs.Prelude.{◌/◌, ◌≤◌, ◌<◌, [], ◌∷◌, ◌++◌, length};
ghost use Rattle.rules.specs.Limits.{limit_nodes};
ghost use Rattle.rules.specs.Sheet.{chain};
ghost use Rattle.rules.specs.Types.{new_node, invert_if};
ghost use Rattle.rules.specs.Transfer.{type_of_word, node_state};
ghost use Rattle.rules.specs.Neat.{Neat};
ghost use Rattle.rules.specs.Calls.{question_types, impl_query};
ghost use Rattle.table.specs.Packing.{types_of, Packed, Becomes};
ghost use Rattle.loading.specs.Nodes.{Cells, NodeFits, Kind, Fitting};
ghost use Rattle.queries.specs.Queries.{query_of};
ghost use Rattle.loading.specs.Exports.{Reads, Asks, Exports, ExportsType};

use chart::layout;
use queries::Query;
use table::KnownType;
use transfer::PackedTable;

// Reads the type words of the cells from a head, and says how many there are. (The count is asked for behind the loop, where an `enumerate` has none.)
fn read_cells(q: &[u32], head: usize, cs: &mut [u32]) -> usize
    requires head_len_bound { length (chain q.now head) ≤ 8 }
    requires in_bounds { 8 ≤ length cs.old }
    ensures { Cells q.now head cs.new result }
{
    let mut m = 0;
    for p in words::records(q, head) {
        cs[m] = words::offset(q, p, layout::CELL_TYPE);
        m += 1;
    }
    m
}

// Pushes the known type of a kind that the record at p is, with the m children in cs.
fn load_known(q: &[u32], p: usize, kind: u32, dst: &mut [u32])
    requires node_fits { NodeFits q.now p }
    requires kind { Kind q.now p kind }
    requires packed { Packed dst.old }
    requires dst_len_bound { length (types_of dst.old) < limit_nodes }
    ensures { Becomes dst.new (types_of dst.old ++ (new_node (length (types_of dst.old)) (node_state q.now p) ∷ [])) }
{
    let mut cs = [0u32; 8];
    let head = words::offset(q, p, layout::NODE_CHILDREN) as usize;
    let m = read_cells(q, head, &mut cs);
    let known = KnownType {
        inverted: words::offset(q, p, layout::NODE_INVERTED) == 1,
        kind,
        id: words::offset(q, p, layout::NODE_ID),
        children: &cs[..m],
    };
    let _ = table::new_known(dst, &known);
}

// Pushes the node that the record at p is.
fn load_node(q: &[u32], p: usize, dst: &mut [u32])
    requires node_fits { NodeFits q.now p }
    requires packed { Packed dst.old }
    requires dst_len_bound { length (types_of dst.old) < limit_nodes }
    ensures { Becomes dst.new (types_of dst.old ++ (new_node (length (types_of dst.old)) (node_state q.now p) ∷ [])) }
{
    let kind = words::offset(q, p, layout::NODE_KIND);
    if kind == 0 {
        let _ = table::new_var(dst);
    } else {
        load_known(q, p, kind, dst)
    }
}

// The question's table.
pub fn load_table(q: &[u32], dst: &mut [u32])
    requires fitting { Fitting (question_types q.now) }
    requires in_bounds { 1025 ≤ length dst.old }
    ensures { Becomes dst.new (question_types q.now) }
{
    table::clear_table(dst);
    let head = words::next(q, layout::QUESTION_TABLE);
    for p in words::records(q, head) {
        load_node(q, p, dst);
    }
}

// The impl call's query.
pub fn read_question(q: &[u32]) -> Query
    requires { length (impl_query q.now).1 ≤ 4 }
    ensures { Reads (impl_query q.now) result }
{
    let tr = words::word(q, layout::QUESTION_TRAIT);
    let head = words::next(q, layout::QUESTION_ARGS);
    queries::read_query(q, tr, head)
}

// A query of one type, inverted or not.
pub fn type_question(tr: u32, inverted: bool, t: u32) -> Query
    requires { t < 512 }
    ensures { Reads (tr, invert_if inverted (type_of_word t) ∷ []) result }
{
    let args = [table::invert_if(inverted, t), 0, 0, 0];
    Query { tr, n: 1, args }
}

// `export` of a query: its types in a table of their own.
pub fn export_question(table: &[u32], query: Query, dst: &mut [u32], map: &mut [u32]) -> Query
    requires asks { Asks (types_of table.now) query }
    requires in_bounds { 1025 ≤ length dst.old }
    requires in_bounds_2 { 256 ≤ length map.old }
    ensures { Exports (types_of table.now) (query_of query) dst.new result }
{
    let Query { tr, n, mut args } = query;
    let _ = transfer::export_types(&PackedTable(table), dst, map, &mut args, n);
    Query { tr, n, args }
}

// `export` of a type: its word in a table of its own.
pub fn export_type(table: &[u32], t: u32, dst: &mut [u32], map: &mut [u32]) -> u32
    requires neat { Neat (types_of table.now) }
    requires t_in_bounds { t / 2 < length (types_of table.now) }
    requires in_bounds { 1025 ≤ length dst.old }
    requires in_bounds_2 { 256 ≤ length map.old }
    ensures { ExportsType (types_of table.now) t dst.new result }
{
    let mut ts = [t];
    let _ = transfer::export_types(&PackedTable(table), dst, map, &mut ts, 1);
    ts[0]
}
