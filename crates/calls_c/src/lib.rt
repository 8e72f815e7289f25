// The C interface of the calls (include/vine_finder.h), as a static library: each export is the function of `calls` of that name.
#![tactic(auto)]

ghost use Rattle.std.specs.Prelude.{◌≡◌, length};
ghost use Rattle.rules.specs.Limits.{limit_workspace, limit_steps};
ghost use Rattle.rules.specs.Calls.{try_find_impl, find_flex};
ghost use Rattle.checks.specs.Numbers.{finder};
ghost use Rattle.calls.specs.Outcomes.{PackedCalls};

// The impl call.
#[unsafe(no_mangle)]
pub extern "C" fn vine_find_impl(
    sheet: &[u32],
    question: &[u32],
    source: u32,
    generics: u32,
    basic: u32,
    answer: &mut [u32],
    work: &mut [u32],
    count: u32,
) -> u64
    ensures { PackedCalls (try_find_impl limit_steps (finder sheet.now source generics) basic question.now (length answer.old) (length work.old) count) answer.old answer.new work.old work.new result }
{
    calls::vine_find_impl(
        sheet, question, source, generics, basic, answer, work, count,
    )
}

// The flex call.
#[unsafe(no_mangle)]
pub extern "C" fn vine_find_flex(
    sheet: &[u32],
    question: &[u32],
    source: u32,
    generics: u32,
    answer: &mut [u32],
    work: &mut [u32],
    count: u32,
) -> u64
    ensures { PackedCalls (find_flex limit_steps (finder sheet.now source generics) question.now (length answer.old) (length work.old) count) answer.old answer.new work.old work.new result }
{
    calls::vine_find_flex(sheet, question, source, generics, answer, work, count)
}

// The workspace's words.
#[unsafe(no_mangle)]
pub extern "C" fn vine_workspace_words() -> u32
    ensures { result ≡ limit_workspace }
{
    calls::vine_workspace_words()
}
