// A sitting: the steps spent so far; it stands for one `Finder` of the Rust. Two thin methods over the calls of `calls`, the same from a count to a count and as numbers, and the C interface with the count behind a pointer.
#![tactic(auto)]

ghost use Rattle.std.specs.Prelude.{◌≡◌, length};
ghost use Rattle.rules.specs.Limits.{limit_steps};
ghost use Rattle.rules.specs.Calls.{try_find_impl, find_flex};
ghost use Rattle.refusals.specs.Numbers.{verdict_number, end_number, end_count};
ghost use Rattle.checks.specs.Numbers.{finder};
ghost use Rattle.sitting.specs.Sits.{tally, Sits};

use calls::Outcome;
use refusals::{Refusal, Stopped};

#[repr(C)]
#[derive(Clone, Copy, Debug, PartialEq, Eq)]
pub struct Sitting {
    pub spent: u32,
}

// What a call comes to as two numbers: 0 where it is answered, and the count after it.
#[derive(Clone, Copy, Debug, PartialEq, Eq)]
pub struct Tally {
    pub number: u32,
    pub count: u32,
}

impl Sitting {
    // Takes over the count that a call ends with, and gives its verdict.
    fn spend(&mut self, outcome: Outcome) -> Result<(), Refusal>
        ensures spent { self.new.spent ≡ end_count outcome }
        ensures number { verdict_number result ≡ end_number outcome }
    {
        let (count, verdict) = match outcome {
            Ok(count) => (count, Ok(())),
            Err(Stopped { refusal, count }) => (count, Err(refusal)),
        };
        self.spent = count;
        verdict
    }

    // The impl call, from the spent count on.
    pub fn find_impl(
        &mut self,
        sheet: &[u32],
        question: &[u32],
        source: u32,
        generics: u32,
        basic: u32,
        answer: &mut [u32],
        work: &mut [u32],
    ) -> Result<(), Refusal>
        ensures { Sits (try_find_impl limit_steps (finder sheet.now source generics) basic question.now (length answer.old) (length work.old) self.old.spent) answer.old answer.new work.old work.new (tally (verdict_number result) self.new.spent) }
    {
        let spent = self.spent;
        let outcome = calls::try_find_impl(
            sheet, question, source, generics, basic, answer, work, spent,
        );
        self.spend(outcome)
    }

    // The flex call.
    pub fn find_flex(
        &mut self,
        sheet: &[u32],
        question: &[u32],
        source: u32,
        generics: u32,
        answer: &mut [u32],
        work: &mut [u32],
    ) -> Result<(), Refusal>
        ensures { Sits (find_flex limit_steps (finder sheet.now source generics) question.now (length answer.old) (length work.old) self.old.spent) answer.old answer.new work.old work.new (tally (verdict_number result) self.new.spent) }
    {
        let spent = self.spent;
        let outcome = calls::find_flex(sheet, question, source, generics, answer, work, spent);
        self.spend(outcome)
    }
}

// A verdict as a number, with the count after it.
fn as_tally(found: Result<(), Refusal>, count: u32) -> Tally
    ensures { result ≡ tally (verdict_number found) count }
{
    Tally {
        number: checks::number(found),
        count,
    }
}

// The impl call, from a count to a count.
pub fn count_impl(
    count: u32,
    sheet: &[u32],
    question: &[u32],
    source: u32,
    generics: u32,
    basic: u32,
    answer: &mut [u32],
    work: &mut [u32],
) -> Tally
    ensures { Sits (try_find_impl limit_steps (finder sheet.now source generics) basic question.now (length answer.old) (length work.old) count) answer.old answer.new work.old work.new result }
{
    let mut sitting = Sitting { spent: count };
    let found = sitting.find_impl(sheet, question, source, generics, basic, answer, work);
    as_tally(found, sitting.spent)
}

// The flex call, from a count to a count.
pub fn count_flex(
    count: u32,
    sheet: &[u32],
    question: &[u32],
    source: u32,
    generics: u32,
    answer: &mut [u32],
    work: &mut [u32],
) -> Tally
    ensures { Sits (find_flex limit_steps (finder sheet.now source generics) question.now (length answer.old) (length work.old) count) answer.old answer.new work.old work.new result }
{
    let mut sitting = Sitting { spent: count };
    let flex = sitting.find_flex(sheet, question, source, generics, answer, work);
    as_tally(flex, sitting.spent)
}

// The impl call in a sitting: its number, 0 where it is answered.
pub fn find_impl(
    s: &mut Sitting,
    sheet: &[u32],
    question: &[u32],
    source: u32,
    generics: u32,
    basic: u32,
    answer: &mut [u32],
    work: &mut [u32],
) -> u32
    ensures { Sits (try_find_impl limit_steps (finder sheet.now source generics) basic question.now (length answer.old) (length work.old) s.old.spent) answer.old answer.new work.old work.new (tally result s.new.spent) }
{
    checks::number(s.find_impl(sheet, question, source, generics, basic, answer, work))
}

// The flex call in a sitting.
pub fn find_flex(
    s: &mut Sitting,
    sheet: &[u32],
    question: &[u32],
    source: u32,
    generics: u32,
    answer: &mut [u32],
    work: &mut [u32],
) -> u32
    ensures { Sits (find_flex limit_steps (finder sheet.now source generics) question.now (length answer.old) (length work.old) s.old.spent) answer.old answer.new work.old work.new (tally result s.new.spent) }
{
    checks::number(s.find_flex(sheet, question, source, generics, answer, work))
}

// The C interface (include/vine_finder.h): the sitting is its count, and a call's result its number, 0 where it is answered.
pub fn vine_sitting_find_impl(
    sheet: &[u32],
    question: &[u32],
    source: u32,
    generics: u32,
    basic: u32,
    answer: &mut [u32],
    work: &mut [u32],
    spent: &mut u32,
) -> u32
    ensures { Sits (try_find_impl limit_steps (finder sheet.now source generics) basic question.now (length answer.old) (length work.old) spent.old) answer.old answer.new work.old work.new (tally result spent.new) }
{
    let count = *spent;
    let found = count_impl(
        count, sheet, question, source, generics, basic, answer, work,
    );
    *spent = found.count;
    found.number
}

// The flex call.
pub fn vine_sitting_find_flex(
    sheet: &[u32],
    question: &[u32],
    source: u32,
    generics: u32,
    answer: &mut [u32],
    work: &mut [u32],
    spent: &mut u32,
) -> u32
    ensures { Sits (find_flex limit_steps (finder sheet.now source generics) question.now (length answer.old) (length work.old) spent.old) answer.old answer.new work.old work.new (tally result spent.new) }
{
    let count = *spent;
    let flex = count_flex(count, sheet, question, source, generics, answer, work);
    *spent = flex.count;
    flex.number
}
