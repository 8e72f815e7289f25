// The C interface of a sitting (include/vine_finder.h), as a static library: each export is the function of `sitting` of that name.
#![tactic(auto)]

ghost use Rattle.std.specs.Prelude.{length};
ghost use Rattle.rules.specs.Limits.{limit_steps};
ghost use Rattle.rules.specs.Calls.{try_find_impl, find_flex};
ghost use Rattle.checks.specs.Numbers.{finder};
ghost use Rattle.sitting.specs.Sits.{tally, Sits};

// The impl call, from the count at `spent`, which it leaves there.
#[unsafe(no_mangle)]
pub extern "C" fn vine_sitting_find_impl(
    sheet: &[u32],
    question: &[u32],
    source: u32,
    generics: u32,
    basic: u32,
    answer: &mut [u32],
    work: &mut [u32],
    spent: &mut u32,
) -> u32
    ensures { Sits (try_find_impl limit_steps (finder sheet.now source generics) basic question.now (length answer.old) (length work.old) spent.old) answer.old answer.new work.old work.new (tally result spent.new) }
{
    sitting::vine_sitting_find_impl(
        sheet, question, source, generics, basic, answer, work, spent,
    )
}

// The flex call.
#[unsafe(no_mangle)]
pub extern "C" fn vine_sitting_find_flex(
    sheet: &[u32],
    question: &[u32],
    source: u32,
    generics: u32,
    answer: &mut [u32],
    work: &mut [u32],
    spent: &mut u32,
) -> u32
    ensures { Sits (find_flex limit_steps (finder sheet.now source generics) question.now (length answer.old) (length work.old) spent.old) answer.old answer.new work.old work.new (tally result spent.new) }
{
    sitting::vine_sitting_find_flex(sheet, question, source, generics, answer, work, spent)
}
