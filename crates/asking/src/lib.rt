// The impl call behind its checks (`try_find_impl` of the Rust): the question is loaded and exported, searched for, and what the search comes to is closed.
// The tables that this needs beside the workspace stand in its own frames.
#![tactic(auto)]

ghost use Rattle.std.specs.Prelude.{◌≡◌, ◌≤◌, ◌<◌, eqb, ltb, length};
ghost use Rattle.rules.specs.Limits.{limit_answer};
ghost use Rattle.rules.specs.Calls.{question_types, impl_query, impl_within};
ghost use Rattle.queries.specs.Queries.{query_of};
ghost use Rattle.loading.specs.Exports.{Exports};
ghost use Rattle.refusals.specs.Numbers.{end_number, end_count};
ghost use Rattle.slots.specs.Turns.{count_of};
ghost use Rattle.closing.specs.Ends.{IfFound, EndsImpl};
ghost use Rattle.closing.specs.Ended.{Ends};
ghost use Rattle.steps.specs.Asking.{finder_of};
ghost use Rattle.asking.specs.Impls.{Questions, Impls};

use queries::Query;
use refusals::Stopped;
use slots::Results;
use steps::Finder;

// The words of a type table, and of a mapping of its nodes.
const TABLE: usize = 1025;

const NODES: usize = 256;

// The words of the question's table and of its first result.
const FRONT: usize = 2564;

// How deep a search goes.
const DEPTH: usize = 16;

// What is asked: the question's query, exported to a table of its own.
fn export_asked(question: &[u32], ws: &mut [u32]) -> Query
    requires questions { Questions question.now }
    requires in_bounds { 1025 ≤ length ws.old }
    ensures { Exports (question_types question.now) (impl_query question.now) ws.new result }
{
    let mut table = [0u32; TABLE];
    let mut map = [0u32; NODES];
    loading::load_table(question, &mut table);
    let query = loading::read_question(question);
    loading::export_question(&table, query, ws, &mut map)
}

// What the search comes to. It is over: its first result is read, and the slice behind it serves the joins' memo.
fn end_asked(
    sheet: &[u32],
    question: &[u32],
    asked: Query,
    searched: Result<Results, Stopped>,
    ws: &mut [u32],
    answer: &mut [u32],
) -> Result<u32, Stopped>
    requires questions { Questions question.now }
    requires if_found { IfFound searched asked ws.old }
    requires in_bounds { 2820 ≤ length ws.old }
    requires limit_answer_in_bounds { limit_answer ≤ length answer.old }
    ensures ends { EndsImpl sheet.now (question_types question.now) (impl_query question.now) (query_of asked) searched ws.old answer.old answer.new (end_number result) }
    ensures count { end_count result ≡ count_of searched }
{
    let (found, memo) = ws.split_at_mut(FRONT);
    let mut table = [0u32; TABLE];
    loading::load_table(question, &mut table);
    let query = loading::read_question(question);
    closing::end_impl(
        sheet, query, asked, searched, found, &mut table, memo, answer,
    )
}

// The impl call, once its checks have passed and the sets of its source stand.
pub fn ask_impl(
    sheet: &[u32],
    sets: &[u32],
    question: &[u32],
    f: Finder,
    basic: u32,
    ws: &mut [u32],
    answer: &mut [u32],
    count: u32,
) -> Result<u32, Stopped>
    requires impls { Impls sheet.now sets.now question.now f basic }
    requires in_bounds { 662794 ≤ length ws.old }
    requires limit_answer_in_bounds { limit_answer ≤ length answer.old }
    requires count_bound { count ≤ 1000000 }
    ensures { Ends (impl_within (ltb f.limit) (finder_of sheet.now f) (eqb basic 1) question.now count) answer.old answer.new result }
{
    let asked = export_asked(question, ws);
    let searched = finder::question(sheet, sets, ws, f, basic, asked, DEPTH, count);
    end_asked(sheet, question, asked, searched, ws, answer)
}
