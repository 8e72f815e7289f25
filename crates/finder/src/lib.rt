// A question and its sub-questions (`Finder` of the Rust) in one lent slice. A part of the slice has the table that is asked about in slot 0 and the results in slots 1 to 4.
#![tactic(auto)]

ghost use Rattle.std.specs.Prelude.{◌≡◌, ◌+◌, ◌-◌, ◌*◌, ◌<◌, ◌≤◌, eqb, ltb, length, drop};
ghost use Rattle.rules.specs.Layout.{header_impls};
ghost use Rattle.rules.specs.Sheet.{many};
ghost use Rattle.rules.specs.Run.{within};
ghost use Rattle.rules.specs.Search.{find_subimpls, try_candidate, question as question_run};
ghost use Rattle.table.specs.Packing.{types_of, Packed};
ghost use Rattle.slots.specs.Gathering.{Row};
ghost use Rattle.slots.specs.Turns.{Answers, Stepped};
ghost use Rattle.queries.specs.Queries.{query_of, queries_of};
ghost use Rattle.steps.specs.Asking.{finder_of, Searching, Asking, Tail, Begins, Opens};
ghost use Rattle.finder.specs.Steps.{finder_in, SearchingIn, ask_below, candidates_left};
ghost use Rattle.finder.specs.Tails.{sub_one};
ghost use Rattle.finder.specs.Members.{CandidateStep, ResultStep};
ghost use Rattle.finder.specs.Cycle.{ElementAt, Elements, Collects};
ghost use Rattle.finder.specs.Recalling.{SameTable, Known, Noted, ToNothing, Keeps, Recalls};

use meeting::Notes;
use queries::{Queries, Query};
use refusals::{Refusal, Stopped};
use slots::Results;
use steps::Finder;

// In a question's part: where a candidate's sub-questions have their results.
const RESULTS: usize = 7692;

// In a part of more than one sub-question: where the first is asked, with its table in the place of the part's own fourth result, which is added only once
// that table has served; where its results stand; and where those that are left are asked.
const FIRST: usize = 5128;

const ELEMENTS: usize = 6410;

const REST: usize = 11538;

// An import from the sheet needs words for the places of a table's records and for its mapping, a fifth of the sheet's: for a small sheet, for one of
// middle size, and for any; and as many for marks as a table has nodes, twice where the sheet is not small. They are zeroed each time, so that fewer are faster.
const SMALL: usize = 64;

const MIDDLE: usize = 256;

const WIDE: usize = 1024;

const MARKS: usize = 512;

const SMALL_SHEET: usize = 320;

const MIDDLE_SHEET: usize = 1280;

// The words of a table's node.
const NODE: usize = 4;

// What a search reads: a checked sheet, its source's candidate sets with what imports take behind them, and source, generics and step limit.
// (That it is so stays a clause of each function: `Searching` has words in it, the question that was checked, and a ghost field takes facts alone.)
#[derive(Clone, Copy)]
struct Search<'a> {
    sheet: &'a [u32],
    sets: &'a [u32],
    f: Finder,
}

// Sub-questions that found nothing, and in how many steps.
#[derive(Clone, Copy)]
struct Nothing {
    questions: Queries,
    steps: u32,
}

// The table of the sub-questions that were asked last and, where they found nothing, which they were.
#[derive(Drop)]
struct Recall {
    table: [u32; 1025],
    nothing: Option<Nothing>,
}

// Whether two tables are the same: the words of the nodes that they have.
fn same_table(a: &[u32], b: &[u32; 1025]) -> bool
    requires { Packed a.now }
    ensures { SameTable a.now b.now result }
{
    let n = NODE * table::count(a) as usize + 1;
    a[..n] == b[..n]
}

// How many steps it took to find nothing, within the limit.
fn steps_to_nothing(found: Results, limit: u32, count: u32) -> Option<u32>
    ensures { ToNothing found limit count result }
{
    if found.n == 0 && found.count <= limit {
        found.count.checked_sub(count)
    } else {
        None
    }
}

impl Recall {
    // The steps in which these sub-questions, of the table in ws, are known to find nothing, within the limit.
    fn known(&self, ws: &[u32], qs: &Queries, limit: u32, count: u32) -> Option<u32>
        requires { Packed ws.now }
        ensures { Known self.now ws.now qs.now limit count result }
    {
        let Some(nothing) = &self.nothing else {
            return None;
        };
        if nothing.questions == *qs
            && same_table(ws, &self.table)
            && count <= limit
            && nothing.steps <= limit - count
        {
            Some(nothing.steps)
        } else {
            None
        }
    }

    // Sub-questions of the table in ws are to be asked: nothing is known of them.
    fn note(&mut self, ws: &[u32])
        requires { Packed ws.now }
        ensures { Noted (types_of ws.now) self.new }
    {
        table::copy_table(ws, &mut self.table);
        self.nothing = None;
    }

    // Keeps what they came to, if they found nothing.
    fn keep(&mut self, qs: &Queries, found: Results, limit: u32, count: u32)
        ensures { Keeps self.old self.new qs.now found limit count }
    {
        if let Some(steps) = steps_to_nothing(found, limit, count) {
            self.nothing = Some(Nothing {
                questions: *qs,
                steps,
            });
        }
    }
}

impl<'a> Search<'a> {
    // Built-in fork and drop, then the generics' impl parameters, in slices of so many words.
    fn begin_in<const PLACES: usize, const MAP: usize>(
        &self,
        ws: &mut [u32],
        basic: u32,
        q: Query,
        count: u32,
    ) -> Result<Results, Stopped>
        requires searching { SearchingIn self.now }
        requires asking { Asking ws.old q }
        requires in_bounds { 7692 ≤ length ws.old }
        requires basic_bound { basic < 2 }
        requires count_bound { count ≤ 4000000000 }
        requires places { (length self.now.sheet.now ≤ 5 * PLACES) × (PLACES ≤ 1024) }
        requires map { (length self.now.sheet.now ≤ 5 * MAP) × (256 ≤ MAP) × (MAP ≤ 1024) }
        ensures { Begins (finder_in self.now) (eqb basic 1) ws.old (query_of q) count result ws.new }
    {
        let mut places = [0u32; PLACES];
        let mut map = [0u32; MAP];
        steps::before_candidates(
            self.sheet,
            self.sets,
            ws,
            &mut places,
            &mut map,
            self.f,
            basic,
            q,
            count,
        )
    }

    // Built-in fork and drop, then the generics' impl parameters, if there are any.
    fn begin(&self, ws: &mut [u32], basic: u32, q: Query, count: u32) -> Result<Results, Stopped>
        requires searching { SearchingIn self.now }
        requires asking { Asking ws.old q }
        requires in_bounds { 7692 ≤ length ws.old }
        requires basic_bound { basic < 2 }
        requires count_bound { count ≤ 4000000000 }
        ensures { Begins (finder_in self.now) (eqb basic 1) ws.old (query_of q) count result ws.new }
    {
        if steps::no_params(self.sheet, self.f) {
            return steps::built_ins(self.sheet, ws, self.f, basic, q, count);
        }
        if self.sheet.len() <= MIDDLE_SHEET {
            return self.begin_in::<MIDDLE, MARKS>(ws, basic, q, count);
        }
        self.begin_in::<WIDE, WIDE>(ws, basic, q, count)
    }

    // Opens a candidate behind slot 4, in slices of so many words.
    fn open_in<const PLACES: usize, const MAP: usize>(
        &self,
        ws: &mut [u32],
        notes: &mut Notes,
        q: Query,
        i: usize,
    ) -> Result<Option<Queries>, Refusal>
        requires searching { SearchingIn self.now }
        requires asking { Asking ws.old q }
        requires in_bounds { 7692 ≤ length ws.old }
        requires i_bound { i < many self.now.sheet.now header_impls }
        requires places { (length self.now.sheet.now ≤ 5 * PLACES) × (PLACES ≤ 1024) }
        requires map { (length self.now.sheet.now ≤ 5 * MAP) × (256 ≤ MAP) × (MAP ≤ 1024) }
        ensures { Opens self.now.sheet.now ws.old (query_of q) i result ws.new }
    {
        let mut places = [0u32; PLACES];
        let mut map = [0u32; MAP];
        steps::open_candidate(
            self.sheet,
            self.sets,
            ws,
            &mut places,
            &mut map,
            notes,
            self.f,
            q,
            i,
        )
    }

    // Opens a candidate behind slot 4: the table there is that of its sub-questions.
    fn open_one(
        &self,
        ws: &mut [u32],
        notes: &mut Notes,
        q: Query,
        i: usize,
    ) -> Result<Option<Queries>, Refusal>
        requires searching { SearchingIn self.now }
        requires asking { Asking ws.old q }
        requires in_bounds { 7692 ≤ length ws.old }
        requires i_bound { i < many self.now.sheet.now header_impls }
        ensures { Opens self.now.sheet.now ws.old (query_of q) i result ws.new }
    {
        if self.sheet.len() <= SMALL_SHEET {
            return self.open_in::<SMALL, MIDDLE>(ws, notes, q, i);
        }
        if self.sheet.len() <= MIDDLE_SHEET {
            return self.open_in::<MIDDLE, MARKS>(ws, notes, q, i);
        }
        self.open_in::<WIDE, WIDE>(ws, notes, q, i)
    }

    // A question, with `depth` levels left for it and what it asks.
    #[cycle(search)]
    fn question(
        &self,
        ws: &mut [u32],
        basic: u32,
        q: Query,
        depth: usize,
        count: u32,
    ) -> Result<Results, Stopped>
        requires searching { SearchingIn self.now }
        requires asking { Asking ws.old q }
        requires depth_in_bounds { 41024 * depth + 6410 ≤ length ws.old }
        requires basic_bound { basic < 2 }
        requires count_bound { count ≤ 4000000000 }
        ensures { Answers (within (ltb self.now.f.limit) (question_run depth (finder_in self.now) (eqb basic 1) (types_of ws.old) (query_of q)) count) result ws.new }
    {
        let count = count + 1;
        if self.f.limit < count {
            return Err(Stopped {
                refusal: Refusal::SearchLimit,
                count,
            });
        }
        if depth == 0 {
            return Err(Stopped {
                refusal: Refusal::TooDeep,
                count,
            });
        }
        let first = self.begin(ws, basic, q, count)?;
        self.candidates(ws, basic, q, depth - 1, first)
    }

    // The candidates of a question by id: what each gives is added behind the results that stand. The notes of their tests are lent from one to the next,
    // and so are the sub-questions that were asked last, with their table.
    #[cycle(search)]
    fn candidates(
        &self,
        ws: &mut [u32],
        basic: u32,
        q: Query,
        depth: usize,
        first: Results,
    ) -> Result<Results, Stopped>
        requires searching { SearchingIn self.now }
        requires asking { Asking ws.old q }
        requires depth_in_bounds { 41024 * depth + 47434 ≤ length ws.old }
        requires basic_bound { basic < 2 }
        requires count_bound { first.count ≤ 4000000000 }
        requires row { Row ws.old 1282 first.n }
        requires n_bound { first.n ≤ 4 }
        ensures { Stepped self.now.f.limit (candidates_left depth (finder_in self.now) (eqb basic 1) (types_of ws.old) (query_of q)) first.n first.count ws.old result ws.new }
    {
        let found = match steps::find_candidates(self.sheet, self.sets, ws, self.f, basic, q) {
            Ok(found) => found,
            Err(refusal) => {
                return Err(Stopped {
                    refusal,
                    count: first.count,
                });
            }
        };
        let mut notes = Notes::new();
        let mut recall = Recall {
            table: [0u32; 1025],
            nothing: None,
        };
        let mut stand = first;
        let mut from = 0;
        while let Some(id) = steps::next_id(self.sheet, self.sets, found, from) {
            stand = self.candidate(ws, &mut notes, &mut recall, q, id, depth, stand)?;
            from = id + 1;
        }
        Ok(stand)
    }

    // One candidate: its sub-questions are asked behind slot 4, and what they give is added behind the results that stand, under its Def.
    #[cycle(search)]
    fn candidate(
        &self,
        ws: &mut [u32],
        notes: &mut Notes,
        recall: &mut Recall,
        q: Query,
        i: usize,
        depth: usize,
        stand: Results,
    ) -> Result<Results, Stopped>
        requires searching { SearchingIn self.now }
        requires asking { Asking ws.old q }
        requires i_bound { i < many self.now.sheet.now header_impls }
        requires depth_in_bounds { 41024 * depth + 47434 ≤ length ws.old }
        requires count_bound { stand.count ≤ 4000000000 }
        requires n_bound { stand.n ≤ 4 }
        requires recalls_2 { Recalls (ask_below depth (finder_in self.now)) recall.old }
        ensures step { CandidateStep self.now.f.limit (try_candidate (ask_below depth (finder_in self.now)) self.now.sheet.now (types_of ws.old) (query_of q) i) stand.n stand.count ws.old result ws.new }
        ensures recalls { Recalls (ask_below depth (finder_in self.now)) recall.new }
    {
        let count = stand.count;
        match self.open_one(ws, notes, q, i) {
            Err(refusal) => Err(Stopped { refusal, count }),
            Ok(None) => Ok(stand),
            Ok(Some(qs)) => {
                let part = &mut ws[steps::SUB..];
                let asked = self.recall_or_ask(part, recall, &qs, depth, count);
                slots::settle_wrapped(ws, asked, stand.n, RESULTS, i as u32)
            }
        }
    }

    // All sub-questions of a candidate. Where the last candidate's were the same, of the same table, and found nothing, these find nothing either, in as many steps.
    #[cycle(search)]
    fn recall_or_ask(
        &self,
        ws: &mut [u32],
        recall: &mut Recall,
        qs: &Queries,
        depth: usize,
        count: u32,
    ) -> Result<Results, Stopped>
        requires searching { SearchingIn self.now }
        requires tail { Tail ws.old qs.now 0 }
        requires depth_in_bounds { 41024 * depth + 41024 ≤ length ws.old }
        requires count_bound { count ≤ 4000000000 }
        requires recalls_2 { Recalls (ask_below depth (finder_in self.now)) recall.old }
        ensures answers { Answers (within (ltb self.now.f.limit) (find_subimpls (ask_below depth (finder_in self.now)) (types_of ws.old) (drop 0 (queries_of qs.now))) count) result ws.new }
        ensures recalls { Recalls (ask_below depth (finder_in self.now)) recall.new }
    {
        if let Some(steps) = recall.known(ws, qs, self.f.limit, count) {
            return Ok(Results {
                n: 0,
                count: count + steps,
            });
        }
        recall.note(ws);
        let found = self.sub_questions(ws, qs, 0, depth, count)?;
        recall.keep(qs, found, self.f.limit, count);
        Ok(found)
    }

    // Sub-questions from one on, from left to right: `find_subimpls`. The last one's results are those of all.
    #[cycle(search)]
    fn sub_questions(
        &self,
        ws: &mut [u32],
        qs: &Queries,
        from: usize,
        depth: usize,
        count: u32,
    ) -> Result<Results, Stopped>
        requires searching { SearchingIn self.now }
        requires tail { Tail ws.old qs.now from }
        requires from_in_bounds { 41024 * depth + 6410 + 11538 * (qs.now.n - from - 1) ≤ length ws.old }
        requires count_bound { count ≤ 4000000000 }
        ensures { Answers (within (ltb self.now.f.limit) (find_subimpls (ask_below depth (finder_in self.now)) (types_of ws.old) (drop from (queries_of qs.now))) count) result ws.new }
    {
        if qs.n <= from {
            return steps::none_left(ws, count);
        }
        let q = qs.items[from];
        if qs.n == from + 1 {
            return self.question(ws, 0, q, depth, count);
        }
        slots::copy_table_slot(ws, 0, FIRST);
        let first = self.question(&mut ws[FIRST..], 0, q, depth, count)?;
        self.results(ws, qs, from + 1, depth, first)
    }

    // The results of a sub-question, which stand in slots 5 to 8, each with the sub-questions that are left, from one on.
    #[cycle(search)]
    fn results(
        &self,
        ws: &mut [u32],
        qs: &Queries,
        from: usize,
        depth: usize,
        first: Results,
    ) -> Result<Results, Stopped>
        requires searching { SearchingIn self.now }
        requires elements { Elements ws.old first.n qs.now from }
        requires from_in_bounds { 41024 * depth + 6410 + 11538 * (qs.now.n - from) ≤ length ws.old }
        requires from_lt_n { from < qs.now.n }
        requires m_bound { first.n ≤ 4 }
        requires count_bound { first.count ≤ 4000000000 }
        ensures { Collects self.now.f.limit (sub_one (ask_below depth (finder_in self.now)) (drop from (queries_of qs.now))) first.n first.count ws.old result ws.new }
    {
        let mut stand = Results {
            n: 0,
            count: first.count,
        };
        for k in 0..first.n {
            stand = self.result(ws, qs, from, depth, k, stand)?;
        }
        Ok(stand)
    }

    // Result k of a sub-question: those that are left are asked of its table behind slot 8, and what they give is added behind the results that stand, behind its tree.
    #[cycle(search)]
    fn result(
        &self,
        ws: &mut [u32],
        qs: &Queries,
        from: usize,
        depth: usize,
        k: usize,
        stand: Results,
    ) -> Result<Results, Stopped>
        requires searching { SearchingIn self.now }
        requires element_at { ElementAt ws.old (6410 + 1282 * k) qs.now from }
        requires from_in_bounds { 41024 * depth + 6410 + 11538 * (qs.now.n - from) ≤ length ws.old }
        requires from_lt_n { from < qs.now.n }
        requires k_bound { k < 4 }
        requires n_bound { stand.n ≤ 4 }
        requires count_bound { stand.count ≤ 4000000000 }
        ensures { ResultStep self.now.f.limit (sub_one (ask_below depth (finder_in self.now)) (drop from (queries_of qs.now))) k stand.n stand.count ws.old result ws.new }
    {
        let element = ELEMENTS + slots::SLOT * k;
        slots::copy_table_slot(ws, element, REST);
        let asked = self.sub_questions(&mut ws[REST..], qs, from, depth, stand.count);
        slots::settle_joined(ws, asked, stand.n, element, REST + slots::SLOT)
    }
}

// A question, with `depth` levels left for it and what it asks: `_find_impl`.
pub fn question(
    sheet: &[u32],
    sets: &[u32],
    ws: &mut [u32],
    f: Finder,
    basic: u32,
    q: Query,
    depth: usize,
    count: u32,
) -> Result<Results, Stopped>
    requires searching { Searching sheet.now sets.now f }
    requires asking { Asking ws.old q }
    requires depth_in_bounds { 41024 * depth + 6410 ≤ length ws.old }
    requires basic_bound { basic < 2 }
    requires count_bound { count ≤ 4000000000 }
    ensures { Answers (within (ltb f.limit) (question_run depth (finder_of sheet.now f) (eqb basic 1) (types_of ws.old) (query_of q)) count) result ws.new }
{
    Search { sheet, sets, f }.question(ws, basic, q, depth, count)
}
