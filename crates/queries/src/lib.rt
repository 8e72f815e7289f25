// Questions in the code's words: one with its type words, and the sub-questions of a candidate.
#![tactic(auto)]

ghost use Rattle.std.specs.Prelude.{◌≡◌, ◌+◌, ◌<◌, ◌≤◌, length};
ghost use Rattle.rules.specs.Sheet.{chain};
ghost use Rattle.rules.specs.Transfer.{cell_types};
ghost use Rattle.rules.specs.Search.{impl_params};
ghost use Rattle.queries.specs.Queries.{query_of, queries_of};
ghost use Rattle.queries.specs.Few.{Few};
ghost use Rattle.queries.specs.Gathering.{WithinFour, params_from, ParamRead};
ghost use Rattle.queries.specs.Rows.{Put, Rowed, Cut, Unrowed};

use chart::layout;

// `ImplType`: a trait? and the first n of four type words.
#[derive(Clone, Copy, PartialEq, Eq, Debug, Default)]
pub struct Query {
    pub tr: u32,
    pub n: usize,
    pub args: [u32; 4],
}

// The first n of four sub-questions.
#[derive(Clone, Copy, PartialEq, Eq, Debug, Default)]
pub struct Queries {
    pub n: usize,
    pub items: [Query; 4],
}

// The question with a trait? and the type words in the cells of the chain from a head, of which there are at most four.
pub fn read_query(s: &[u32], tr: u32, head: usize) -> Query
    requires { length (cell_types s.now head) ≤ 4 }
    ensures result_value { query_of result ≡ (tr, cell_types s.now head) }
    ensures n_bound { result.n ≤ 4 }
{
    let n = words::chain_length(s, head);
    let b = words::next(s, head);
    let c = words::next(s, b);
    let d = words::next(s, c);
    let args = [
        words::offset(s, head, layout::CELL_TYPE),
        words::offset(s, b, layout::CELL_TYPE),
        words::offset(s, c, layout::CELL_TYPE),
        words::offset(s, d, layout::CELL_TYPE),
    ];
    Query { tr, n, args }
}

// Impl parameter k of the n in the chain from a head; none, with no arguments, past them.
fn read_param(s: &[u32], head: usize, n: usize, k: usize) -> Query
    requires few { Few (params_from s.now head) }
    requires n_value { n ≡ length (chain s.now head) }
    ensures { ParamRead s.now head k result }
{
    if k < n {
        let p = words::place(s, head, k);
        let tr = words::offset(s, p, layout::IMPL_PARAM_TRAIT);
        let args = chart::field_at(s, p, layout::IMPL_PARAM_ARGS);
        return read_query(s, tr, args);
    }
    Query::default()
}

// The impl parameters of generics g.
pub fn read_params(s: &[u32], g: usize) -> Queries
    requires { Few (impl_params s.now g).1 }
    ensures result_value { queries_of result ≡ (impl_params s.now g).1 }
    ensures within_four { WithinFour result }
{
    let head = chart::impl_params_head(s, g);
    let n = words::chain_length(s, head);
    let a = read_param(s, head, n, 0);
    let b = read_param(s, head, n, 1);
    let c = read_param(s, head, n, 2);
    let d = read_param(s, head, n, 3);
    Queries {
        n,
        items: [a, b, c, d],
    }
}

// Writes a question's type words from place m on, and says where they end. All four are written; those that are none of its own are not counted.
fn put_query(q: &Query, ts: &mut [u32], m: usize) -> usize
    requires n_bound { q.now.n ≤ 4 }
    requires m_in_bounds { m + 4 ≤ length ts.old }
    ensures { Put q.now ts.old ts.new m result }
{
    ts[m..m + 4].copy_from_slice(&q.args);
    m + q.n
}

// Writes the type words of all sub-questions, one behind the other, and says how many there are.
#[tactic(auto, using(crate::specs::Rows::rowing_start, crate::specs::Rows::rowing_next, crate::specs::Rows::rowed))]
pub fn row(qs: Queries, ts: &mut [u32]) -> usize
    requires within_four { WithinFour qs }
    requires in_bounds { 16 ≤ length ts.old }
    ensures { Rowed qs ts.new result }
{
    let mut m = 0;
    for k in 0..qs.n {
        m = put_query(&qs.items[k], ts, m);
    }
    m
}

// A question with the type words from place o on, as many as it has.
fn cut(q: &Query, ts: &[u32], o: usize) -> Query
    requires n_bound { q.now.n ≤ 4 }
    requires o_in_bounds { o + 4 ≤ length ts.now }
    ensures { Cut q.now ts.now o result }
{
    let mut args = [0u32; 4];
    args.copy_from_slice(&ts[o..o + 4]);
    Query { args, ..*q }
}

// The sub-questions with the type words of a row, as many to each as it has.
pub fn unrow(qs: Queries, ts: &[u32]) -> Queries
    requires within_four { WithinFour qs }
    requires in_bounds { 16 ≤ length ts.now }
    ensures { Unrowed qs ts.now result }
{
    let a = cut(&qs.items[0], ts, 0);
    let b = cut(&qs.items[1], ts, a.n);
    let o = a.n + b.n;
    let c = cut(&qs.items[2], ts, o);
    let d = cut(&qs.items[3], ts, o + c.n);
    Queries {
        n: qs.n,
        items: [a, b, c, d],
    }
}
