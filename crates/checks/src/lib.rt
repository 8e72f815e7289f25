// Checks 1 to 13 in their order: the first that refuses, with document 01's number.
#![tactic(auto)]

ghost use Rattle.std.specs.Prelude.{◌≡◌, ◌<◌, ◌≤◌, true, false, not, ◌||◌, ◌++◌, ltb, length};
ghost use Rattle.rules.specs.Check.{of_length, entry, of_sheet, of_ids, impl_checks, flex_checks};
ghost use Rattle.refusals.specs.Numbers.{verdict_number};
ghost use Rattle.checks.specs.Numbers.{number, Required, finder, sheet_tests, impl_question_tests, flex_question_tests};

use chart::layout;
use refusals::Refusal;

pub const SHEET: usize = 4096;

pub const QUESTION: usize = 1024;

pub const ANSWER: usize = 10240;

pub const WORKSPACE: usize = 662794;

pub const COUNT: u32 = 1000000;

// The words of the workspace that the checks use.
pub const ROOM: usize = 90112;

// The number of a refusal, 0 where no check refuses.
pub fn number(checked: Result<(), Refusal>) -> u32
    ensures { result ≡ verdict_number checked }
{
    match checked {
        Ok(()) => 0,
        Err(refusal) => refusal.number(),
    }
}

// A refusal where a test fails.
fn require(passes: bool, refusal: Refusal) -> Result<(), Refusal>
    ensures { Required passes refusal result }
{
    if passes { Ok(()) } else { Err(refusal) }
}

// A length is no lower than one limit and no higher than another.
fn within(n: usize, low: usize, high: usize) -> bool
    ensures { result ≡ not (ltb n low || ltb high n) }
{
    low <= n && n <= high
}

// 1: the sheet's length.
pub fn check_length(s: &[u32]) -> Result<(), Refusal>
    ensures { verdict_number result ≡ number (of_length s.now) }
{
    require(
        within(s.len(), layout::HEADER_LENGTH, SHEET),
        Refusal::SheetLength,
    )
}

// 1 to 5: the lengths of sheet, question, answer buffer and workspace, and the count.
pub fn check_entry(
    s: &[u32],
    q: &[u32],
    answer: usize,
    work: usize,
    count: u32,
) -> Result<(), Refusal>
    ensures { verdict_number result ≡ number (entry s.now q.now answer work count) }
{
    check_length(s)?;
    require(
        within(q.len(), layout::QUESTION_LENGTH, QUESTION),
        Refusal::QuestionLength,
    )?;
    require(ANSWER <= answer, Refusal::AnswerLength)?;
    require(WORKSPACE <= work, Refusal::WorkspaceLength)?;
    require(count <= COUNT, Refusal::StartCount)
}

// 10: source and generics are there, and the basic flag is 0 or 1.
pub fn check_ids(s: &[u32], source: usize, generics: usize, basic: u32) -> Result<(), Refusal>
    ensures { verdict_number result ≡ number (of_ids (finder s.now source generics) basic) }
{
    require(
        source < chart::count_of(s, layout::DEFINITIONS),
        Refusal::Ids,
    )?;
    require(
        generics < chart::count_of(s, layout::GENERICS),
        Refusal::Ids,
    )?;
    require(basic <= 1, Refusal::Ids)
}

// 7 to 9: the sheet's chains, its values, and that no type reaches itself.
fn sheet_tests(s: &[u32], ws: &mut [u32]) -> Result<(), Refusal>
    requires s_nonzero { 0 < length s.now }
    requires s_len_bound { length s.now ≤ 4096 }
    requires in_bounds { 90112 ≤ length ws.old }
    ensures { verdict_number result ≡ number (sheet_tests s.now) }
{
    require(chains::sheet_keeps(s, ws), Refusal::SheetChains)?;
    require(values::sheet_values(s, ws), Refusal::SheetValues)?;
    require(acyclic::sheet_acyclic(s, ws, 0), Refusal::SheetCycle)
}

// 6 to 9: the sheet.
pub fn check_sheet(s: &[u32], ws: &mut [u32]) -> Result<(), Refusal>
    requires s_nonzero { 0 < length s.now }
    requires s_len_bound { length s.now ≤ 4096 }
    requires in_bounds { 90112 ≤ length ws.old }
    ensures { verdict_number result ≡ number (of_sheet s.now) }
{
    require(words::word(s, layout::EDITION) == 1, Refusal::Edition)?;
    sheet_tests(s, ws)
}

// 11 to 13 of an impl question: chains, values, and that no type reaches itself. Those of a flex question differ in the tests,
// whose order on one workspace is all that the two have in common.
fn impl_question_tests(s: &[u32], generics: usize, q: &[u32], ws: &mut [u32]) -> Result<(), Refusal>
    requires q_nonzero { 0 < length q.now }
    requires s_len_bound { length s.now ≤ 4096 }
    requires q_len_bound { length q.now ≤ 4096 }
    requires in_bounds { 90112 ≤ length ws.old }
    ensures { verdict_number result ≡ number (impl_question_tests s.now generics q.now) }
{
    require(chains::impl_question_keeps(q, ws), Refusal::QuestionChains)?;
    require(
        values::impl_question_values(s, generics, q, ws),
        Refusal::QuestionValues,
    )?;
    require(acyclic::question_acyclic(q, ws, 0), Refusal::QuestionCycle)
}

// 11 to 13 of a flex question.
fn flex_question_tests(s: &[u32], generics: usize, q: &[u32], ws: &mut [u32]) -> Result<(), Refusal>
    requires q_nonzero { 0 < length q.now }
    requires s_len_bound { length s.now ≤ 4096 }
    requires q_len_bound { length q.now ≤ 4096 }
    requires in_bounds { 90112 ≤ length ws.old }
    ensures { verdict_number result ≡ number (flex_question_tests s.now generics q.now) }
{
    require(chains::flex_question_keeps(q, ws), Refusal::QuestionChains)?;
    require(
        values::flex_question_values(s, generics, q, ws),
        Refusal::QuestionValues,
    )?;
    require(acyclic::question_acyclic(q, ws, 0), Refusal::QuestionCycle)
}

// The checks of the calls take what document 01's calls are given, parameter by parameter and in its order, since the crates above hand it on so; what the
// slices' lengths are is said in each contract, as `check_impl` and `check_flex` are called by themselves too. The two differ in the basic flag and in the
// tests of the question.

// 6 to 13 of the impl call.
pub fn check_impl(
    s: &[u32],
    q: &[u32],
    source: usize,
    generics: usize,
    basic: u32,
    ws: &mut [u32],
) -> Result<(), Refusal>
    requires s_nonzero { 0 < length s.now }
    requires s_len_bound { length s.now ≤ 4096 }
    requires q_nonzero { 0 < length q.now }
    requires q_len_bound { length q.now ≤ 4096 }
    requires in_bounds { 90112 ≤ length ws.old }
    ensures { verdict_number result ≡ number (impl_checks (finder s.now source generics) basic q.now) }
{
    check_sheet(s, ws)?;
    check_ids(s, source, generics, basic)?;
    impl_question_tests(s, generics, q, ws)
}

// 6 to 13 of the flex call.
pub fn check_flex(
    s: &[u32],
    q: &[u32],
    source: usize,
    generics: usize,
    ws: &mut [u32],
) -> Result<(), Refusal>
    requires s_nonzero { 0 < length s.now }
    requires s_len_bound { length s.now ≤ 4096 }
    requires q_nonzero { 0 < length q.now }
    requires q_len_bound { length q.now ≤ 4096 }
    requires in_bounds { 90112 ≤ length ws.old }
    ensures { verdict_number result ≡ number (flex_checks (finder s.now source generics) q.now) }
{
    check_sheet(s, ws)?;
    check_ids(s, source, generics, 0)?;
    flex_question_tests(s, generics, q, ws)
}

// 1 to 13 of the impl call: entry, then those.
pub fn check_impl_call(
    s: &[u32],
    q: &[u32],
    source: usize,
    generics: usize,
    basic: u32,
    answer: usize,
    count: u32,
    ws: &mut [u32],
) -> Result<(), Refusal>
    ensures { verdict_number result ≡ number (entry s.now q.now answer (length ws.old) count ++ impl_checks (finder s.now source generics) basic q.now) }
{
    check_entry(s, q, answer, ws.len(), count)?;
    check_impl(s, q, source, generics, basic, ws)
}

// 1 to 13 of the flex call: entry, then those.
pub fn check_flex_call(
    s: &[u32],
    q: &[u32],
    source: usize,
    generics: usize,
    answer: usize,
    count: u32,
    ws: &mut [u32],
) -> Result<(), Refusal>
    ensures { verdict_number result ≡ number (entry s.now q.now answer (length ws.old) count ++ flex_checks (finder s.now source generics) q.now) }
{
    check_entry(s, q, answer, ws.len(), count)?;
    check_flex(s, q, source, generics, ws)
}

// 1 and 6 to 9 of the listing: the sheet's length, then the sheet.
pub fn check_listing(s: &[u32], ws: &mut [u32]) -> Result<(), Refusal>
    requires { 90112 ≤ length ws.old }
    ensures { verdict_number result ≡ number (of_length s.now ++ of_sheet s.now) }
{
    check_length(s)?;
    check_sheet(s, ws)
}
