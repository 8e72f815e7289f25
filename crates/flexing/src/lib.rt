// The flex call behind its checks: 22 and 23, its four searches in turn, and what their results come to.
// A search lends its part of the slice; the first result of each is kept aside, in a slot of its own.
#![tactic(auto)]

ghost use Rattle.std.specs.Prelude.{◌≡◌, ◌/◌, ◌<◌, ◌≤◌, ltb, length, slice_index_or, [], ◌∷◌};
ghost use Rattle.rules.specs.Limits.{limit_answer, limit_count};
ghost use Rattle.rules.specs.Layout.{question_type};
ghost use Rattle.rules.specs.Sheet.{at};
ghost use Rattle.rules.specs.Run.{within};
ghost use Rattle.rules.specs.Calls.{question_types, flex_within, flex_searches};
ghost use Rattle.refusals.specs.Numbers.{verdict_number};
ghost use Rattle.slots.specs.Turns.{Answers};
ghost use Rattle.closing.specs.Ended.{Ends};
ghost use Rattle.closing.specs.FlexResults.{inverted_of, chosen};
ghost use Rattle.steps.specs.Asking.{finder_of};
ghost use Rattle.loading.specs.Nodes.{Fitting};
ghost use Rattle.loading.specs.Exports.{ExportsType};
ghost use Rattle.flexing.specs.Asked.{Flexing, flex_question};
ghost use Rattle.flexing.specs.Calls.{finder_in, FlexingIn};
ghost use Rattle.flexing.specs.Kept.{Copied, Settles, Turned};
ghost use Rattle.flexing.specs.Rest.{flex_rest, Behind, kept_of, ClosesAll};
ghost use Rattle.flexing.specs.Sides.{Lends, SideEnds};

use chart::layout;
use closing::Counts;
use refusals::{Refusal, Stopped};
use slots::Results;
use steps::Finder;

// The levels of a search.
const DEPTH: usize = 16;

// The four questions in turn: the header word of the trait, and whether the inverse of the type is asked.
const QUESTIONS: [(usize, bool); 4] = [
    (layout::FORK, false),
    (layout::DROP, false),
    (layout::FORK, true),
    (layout::DROP, true),
];

// Keeps the first result of a search aside: the words of slot 1, as those of a slot alone.
fn keep(ws: &[u32], kept: &mut [u32])
    requires in_bounds { 2564 ≤ length ws.now }
    requires kept_length { length kept.old ≡ 1282 }
    ensures { Copied ws.now kept.new }
{
    kept.copy_from_slice(&ws[slots::SLOT..2 * slots::SLOT])
}

// What a search answered, as the flex call takes it: 18 and 19 count as nothing found.
fn settle(asked: Result<Results, Stopped>) -> Result<Results, Stopped>
    ensures { Settles asked result }
{
    match asked {
        Ok(found) => Ok(found),
        Err(stopped) => match stopped.refusal {
            Refusal::SearchLimit | Refusal::ErrorType => Ok(Results {
                n: 0,
                count: stopped.count,
            }),
            _ => Err(stopped),
        },
    }
}

// What a call behind its checks reads.
#[derive(Clone, Copy)]
struct Call<'a> {
    sheet: &'a [u32],
    sets: &'a [u32],
    question: &'a [u32],
    f: Finder,
}

impl<'a> Call<'a> {
    // `export` of the type that is asked, from the question's table.
    fn export(&self, dst: &mut [u32]) -> u32
        requires flexing { FlexingIn self.now }
        requires in_bounds { 1025 ≤ length dst.old }
        ensures { ExportsType (question_types self.now.question.now) (at self.now.question.now question_type) dst.new result }
    {
        let mut table = [0u32; 1025];
        loading::load_table(self.question, &mut table);
        let mut map = [0u32; 256];
        let t = words::word(self.question, layout::QUESTION_TYPE);
        loading::export_type(&table, t, dst, &mut map)
    }

    // One of the four questions: the trait that header word h names, of the type as asked or of its inverse.
    fn ask_one(
        &self,
        ws: &mut [u32],
        h: usize,
        inverted: bool,
        count: u32,
    ) -> Result<Results, Stopped>
        requires flexing { FlexingIn self.now }
        requires in_bounds { 662794 ≤ length ws.old }
        requires count_bound { count ≤ 4000000000 }
        ensures { Answers (within (ltb self.now.f.limit) (flex_question (finder_in self.now) self.now.question.now h inverted) count) result ws.new }
    {
        let e = self.export(ws);
        let tr = words::word(self.sheet, h);
        let q = loading::type_question(tr, inverted, e);
        finder::question(self.sheet, self.sets, ws, self.f, 0, q, DEPTH, count)
    }

    // One of the four questions, with its first result kept aside.
    fn ask_turn(
        &self,
        ws: &mut [u32],
        kept: &mut [u32],
        h: usize,
        inverted: bool,
        count: u32,
    ) -> Result<Results, Stopped>
        requires flexing { FlexingIn self.now }
        requires in_bounds { 662794 ≤ length ws.old }
        requires kept_length { length kept.old ≡ 1282 }
        requires count_bound { count ≤ 4000000000 }
        ensures { Turned self.now.f.limit (finder_in self.now) self.now.question.now h inverted count kept.new result }
    {
        let asked = self.ask_one(ws, h, inverted, count);
        keep(ws, kept);
        settle(asked)
    }

    // What the four lists of results come to, with the first results of the fork and the drop question that count. The searches are over: their slice serves the joins' memo.
    fn close_side(
        &self,
        counts: Counts,
        fork: &[u32],
        drop: &[u32],
        memo: &mut [u32],
        answer: &mut [u32],
    ) -> Result<(), Refusal>
        requires flexing { FlexingIn self.now }
        requires lends { Lends self.now.question.now (chosen (inverted_of counts.forks counts.drops counts.inverse_forks counts.inverse_drops) counts.forks counts.inverse_forks) fork.now }
        requires lends_2 { Lends self.now.question.now (chosen (inverted_of counts.forks counts.drops counts.inverse_forks counts.inverse_drops) counts.drops counts.inverse_drops) drop.now }
        requires in_bounds { 256 ≤ length memo.old }
        requires limit_answer_in_bounds { limit_answer ≤ length answer.old }
        ensures { SideEnds self.now.sheet.now self.now.question.now counts.forks counts.drops counts.inverse_forks counts.inverse_drops fork.now drop.now answer.old answer.new (verdict_number result) }
    {
        let mut table = [0u32; 1025];
        loading::load_table(self.question, &mut table);
        let mut out = [0u32; 1025];
        let mut map = [0u32; 256];
        let t = words::word(self.question, layout::QUESTION_TYPE);
        let e = loading::export_type(&table, t, &mut out, &mut map);
        closing::close_flex(
            self.sheet, t, e, counts, fork, drop, &mut table, memo, answer,
        )
    }

    // The side that counts: upright where something is found so, else inverted.
    fn close_all(
        &self,
        counts: Counts,
        kept: &[[u32; slots::SLOT]; 4],
        memo: &mut [u32],
        answer: &mut [u32],
    ) -> Result<(), Refusal>
        requires flexing { FlexingIn self.now }
        requires behind { Behind self.now.question.now (kept_of (counts.forks ∷ counts.drops ∷ counts.inverse_forks ∷ counts.inverse_drops ∷ []) kept.now 4) }
        requires in_bounds { 256 ≤ length memo.old }
        requires limit_answer_in_bounds { limit_answer ≤ length answer.old }
        ensures { ClosesAll self.now.sheet.now self.now.question.now counts.forks (slice_index_or kept.now 0 []) counts.drops (slice_index_or kept.now 1 []) counts.inverse_forks (slice_index_or kept.now 2 []) counts.inverse_drops (slice_index_or kept.now 3 []) answer.old answer.new (verdict_number result) }
    {
        if counts.is_upright() {
            self.close_side(counts, &kept[0], &kept[1], memo, answer)
        } else {
            self.close_side(counts, &kept[2], &kept[3], memo, answer)
        }
    }

    // The four searches in turn, each with its first result kept aside; then 24 where the count is above the limit, or what the results come to.
    fn ask_all(&self, ws: &mut [u32], answer: &mut [u32], count: u32) -> Result<u32, Stopped>
        requires flexing { FlexingIn self.now }
        requires in_bounds { 662794 ≤ length ws.old }
        requires limit_answer_in_bounds { limit_answer ≤ length answer.old }
        requires count_le_limit_count { count ≤ limit_count }
        ensures { Ends (flex_rest (ltb self.now.f.limit) (finder_in self.now) self.now.question.now [] (flex_searches (finder_in self.now) self.now.question.now) count) answer.old answer.new result }
    {
        let mut kept = [[0u32; slots::SLOT]; 4];
        let mut found = [0usize; 4];
        let mut count = count;
        for (i, &(h, inverted)) in QUESTIONS.iter().enumerate() {
            let turn = self.ask_turn(ws, &mut kept[i], h, inverted, count)?;
            found[i] = turn.n;
            count = turn.count;
        }
        if self.f.limit < count {
            let refusal = Refusal::FlexSearchLimit;
            return Err(Stopped { refusal, count });
        }
        let [forks, drops, inverse_forks, inverse_drops] = found;
        let counts = Counts {
            forks,
            drops,
            inverse_forks,
            inverse_drops,
        };
        match self.close_all(counts, &kept, ws, answer) {
            Ok(()) => Ok(count),
            Err(refusal) => Err(Stopped { refusal, count }),
        }
    }
}

// The flex call behind its checks, with the sets of its source: 22 and 23, the four searches in turn, and what they come to.
pub fn ask_flex(
    sheet: &[u32],
    sets: &[u32],
    question: &[u32],
    f: Finder,
    ws: &mut [u32],
    answer: &mut [u32],
    count: u32,
) -> Result<u32, Stopped>
    requires flexing { Flexing sheet.now sets.now question.now f }
    requires in_bounds { 662794 ≤ length ws.old }
    requires limit_answer_in_bounds { limit_answer ≤ length answer.old }
    requires count_le_limit_count { count ≤ limit_count }
    ensures { Ends (flex_within (ltb f.limit) (finder_of sheet.now f) question.now count) answer.old answer.new result }
{
    if words::word(sheet, layout::FORK) == 0 {
        let refusal = Refusal::ForkUnset;
        return Err(Stopped { refusal, count });
    }
    if words::word(sheet, layout::DROP) == 0 {
        let refusal = Refusal::DropUnset;
        return Err(Stopped { refusal, count });
    }
    let call = Call {
        sheet,
        sets,
        question,
        f,
    };
    call.ask_all(ws, answer, count)
}
