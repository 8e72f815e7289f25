// The two calls of document 01, `try_find_impl` and `find_flex`, for every sheet, question, id, flag, count and buffer: entry checks first, which touch nothing;
// then the checks of sheet and question, the search and the answer, in the workspace's first WORKSPACE words, which are zero at the end.
#![tactic(auto)]

ghost use Rattle.std.specs.Prelude.{◌≡◌, ◌≤◌, ◌<◌, length};
ghost use Rattle.rules.specs.Limits.{limit_answer, limit_workspace, limit_steps};
ghost use Rattle.rules.specs.Check.{refusal};
ghost use Rattle.rules.specs.Calls.{try_find_impl, find_flex};
ghost use Rattle.refusals.specs.Numbers.{verdict_number};
ghost use Rattle.checks.specs.Numbers.{number, finder};
ghost use Rattle.closing.specs.Ended.{Ends};
ghost use Rattle.calls.specs.Prepared.{Passed, Prepared};
ghost use Rattle.calls.specs.Outcomes.{told, Calls, packed_of, PackedCalls};
ghost use Rattle.calls.specs.Kinds.{checks_of, within_of, whole_of, behind};
ghost use Rattle.calls.specs.Behind.{CallPassed, Entered, Behind};

use refusals::{Refusal, Stopped};
use steps::Finder;

// What a call comes to: the count of steps after it, or its refusal with that count.
pub type Outcome = Result<u32, Stopped>;

// What a call asks for: an impl, or how a type is flexible.
#[derive(Clone, Copy)]
enum Kind {
    Impl { basic: u32 },
    Flex,
}

// The workspace's words that a call uses, and clears.
pub const WORKSPACE: usize = 662794;

// The step limit.
const STEPS: u32 = 2000;

// The constant.
pub fn workspace_words() -> usize
    ensures { result ≡ limit_workspace }
{
    WORKSPACE
}

// The candidate sets of a source, and behind them what the imports of a call with these generics take.
fn prepare(sheet: &[u32], sets: &mut [u32], source: usize, generics: usize)
    requires passed { Passed sheet.now source generics }
    requires in_bounds { 35080 ≤ length sets.old }
    ensures { Prepared sheet.now source generics sets.new }
{
    candidates::build(sheet, &mut sets[..steps::SETS], source);
    reach::fill(sheet, generics, &mut sets[steps::SETS..]);
}

// A call: what it asks for, and of which sheet, question, source and generics.
#[derive(Clone, Copy)]
struct Call<'a> {
    kind: Kind,
    sheet: &'a [u32],
    question: &'a [u32],
    source: usize,
    generics: usize,
}

impl<'a> Call<'a> {
    // The checks behind entry.
    fn check(self, ws: &mut [u32]) -> Result<(), Refusal>
        requires s_nonzero { 0 < length self.sheet.now }
        requires s_len_bound { length self.sheet.now ≤ 4096 }
        requires q_nonzero { 0 < length self.question.now }
        requires q_len_bound { length self.question.now ≤ 4096 }
        requires in_bounds { 90112 ≤ length ws.old }
        ensures { verdict_number result ≡ number (checks_of self.entry.kind (finder self.entry.sheet.now self.entry.source self.entry.generics) self.entry.question.now) }
    {
        let Call {
            kind,
            sheet,
            question,
            source,
            generics,
        } = self;
        match kind {
            Kind::Impl { basic } => {
                checks::check_impl(sheet, question, source, generics, basic, ws)
            }
            Kind::Flex => checks::check_flex(sheet, question, source, generics, ws),
        }
    }

    // Once the checks have passed: the candidate sets of the source stand in its own frame.
    fn with_sets(self, ws: &mut [u32], answer: &mut [u32], count: u32) -> Outcome
        requires call_passed { CallPassed self.kind self.sheet.now self.question.now self.source self.generics }
        requires in_bounds { 662794 ≤ length ws.old }
        requires limit_answer_in_bounds { limit_answer ≤ length answer.old }
        requires count_bound { count ≤ 1000000 }
        ensures { Ends (within_of self.entry.kind (finder self.entry.sheet.now self.entry.source self.entry.generics) self.entry.question.now count) answer.old answer.new result }
    {
        let Call {
            kind,
            sheet,
            question,
            source,
            generics,
        } = self;
        let mut sets = [0u32; steps::SETS_END];
        prepare(sheet, &mut sets, source, generics);
        let f = Finder {
            source,
            generics,
            limit: STEPS,
        };
        match kind {
            Kind::Impl { basic } => {
                asking::ask_impl(sheet, &sets, question, f, basic, ws, answer, count)
            }
            Kind::Flex => flexing::ask_flex(sheet, &sets, question, f, ws, answer, count),
        }
    }

    // Behind entry: the checks, and what it comes to once they have passed.
    fn checked(self, ws: &mut [u32], answer: &mut [u32], count: u32) -> Outcome
        requires { Entered self.sheet.now self.question.now (length answer.old) (length ws.old) count }
        ensures { Ends (behind (refusal (checks_of self.entry.kind (finder self.entry.sheet.now self.entry.source self.entry.generics) self.entry.question.now)) (within_of self.entry.kind (finder self.entry.sheet.now self.entry.source self.entry.generics) self.entry.question.now count) count) answer.old answer.new result }
    {
        match self.check(ws) {
            Ok(()) => self.with_sets(ws, answer, count),
            Err(refusal) => Err(Stopped { refusal, count }),
        }
    }

    // The same, in the workspace's first words, which are cleared after it.
    fn within(self, ws: &mut [u32], answer: &mut [u32], count: u32) -> Outcome
        requires { Entered self.sheet.now self.question.now (length answer.old) (length ws.old) count }
        ensures { Behind (behind (refusal (checks_of self.entry.kind (finder self.entry.sheet.now self.entry.source self.entry.generics) self.entry.question.now)) (within_of self.entry.kind (finder self.entry.sheet.now self.entry.source self.entry.generics) self.entry.question.now count) count) answer.old answer.new ws.old ws.new result }
    {
        let outcome = self.checked(ws, answer, count);
        words::clear(ws, WORKSPACE);
        outcome
    }

    // All of it: entry, and what is behind it.
    fn make(self, answer: &mut [u32], work: &mut [u32], count: u32) -> Outcome
        ensures { Calls (whole_of self.entry.kind (finder self.entry.sheet.now self.entry.source self.entry.generics) self.entry.question.now (length answer.old) (length work.old) count) answer.old answer.new work.old work.new result }
    {
        match checks::check_entry(self.sheet, self.question, answer.len(), work.len(), count) {
            Ok(()) => self.within(&mut work[..WORKSPACE], answer, count),
            Err(refusal) => Err(Stopped { refusal, count }),
        }
    }
}

// The impl call.
pub fn try_find_impl(
    sheet: &[u32],
    question: &[u32],
    source: u32,
    generics: u32,
    basic: u32,
    answer: &mut [u32],
    work: &mut [u32],
    count: u32,
) -> Outcome
    ensures { Calls (try_find_impl limit_steps (finder sheet.now source generics) basic question.now (length answer.old) (length work.old) count) answer.old answer.new work.old work.new result }
{
    let call = Call {
        kind: Kind::Impl { basic },
        sheet,
        question,
        source: source as usize,
        generics: generics as usize,
    };
    call.make(answer, work, count)
}

// The flex call.
pub fn find_flex(
    sheet: &[u32],
    question: &[u32],
    source: u32,
    generics: u32,
    answer: &mut [u32],
    work: &mut [u32],
    count: u32,
) -> Outcome
    ensures { Calls (find_flex limit_steps (finder sheet.now source generics) question.now (length answer.old) (length work.old) count) answer.old answer.new work.old work.new result }
{
    let call = Call {
        kind: Kind::Flex,
        sheet,
        question,
        source: source as usize,
        generics: generics as usize,
    };
    call.make(answer, work, count)
}

// An outcome as one number: the count × 2^32, and the number, 0 where it is answered.
fn packed(outcome: Outcome) -> u64
    ensures { result ≡ packed_of (told outcome) }
{
    match outcome {
        Ok(count) => u64::from(count) * 4294967296,
        Err(Stopped { refusal, count }) => {
            u64::from(count) * 4294967296 + u64::from(refusal.number())
        }
    }
}

// The C interface (include/vine_finder.h): the impl call.
pub fn vine_find_impl(
    sheet: &[u32],
    question: &[u32],
    source: u32,
    generics: u32,
    basic: u32,
    answer: &mut [u32],
    work: &mut [u32],
    count: u32,
) -> u64
    ensures { PackedCalls (try_find_impl limit_steps (finder sheet.now source generics) basic question.now (length answer.old) (length work.old) count) answer.old answer.new work.old work.new result }
{
    packed(try_find_impl(
        sheet, question, source, generics, basic, answer, work, count,
    ))
}

// The flex call.
pub fn vine_find_flex(
    sheet: &[u32],
    question: &[u32],
    source: u32,
    generics: u32,
    answer: &mut [u32],
    work: &mut [u32],
    count: u32,
) -> u64
    ensures { PackedCalls (find_flex limit_steps (finder sheet.now source generics) question.now (length answer.old) (length work.old) count) answer.old answer.new work.old work.new result }
{
    packed(find_flex(sheet, question, source, generics, answer, work, count))
}

// The workspace's words.
pub fn vine_workspace_words() -> u32
    ensures { result ≡ limit_workspace }
{
    WORKSPACE as u32
}
