// Replays the stored cases of the files that its arguments name through the two calls, and the stored sittings behind them call by
// call, on buffers full of marks. For each sitting it prints the spent count after each call; for each file how many calls there
// are and how many are wrong in number, count, answer, or in what the buffers hold after, and how many calls got each number (0 for
// an answer).
#![tactic(auto)]

mod compare;
mod sittings;

use calls::Outcome;
use cases::{Case, End, Form, Tally};
use compare::Seen;
use refusals::Stopped;
use std::alloc::Global;
use std::io::Read;
use std::rt::Files;
use std::{env, io};

// The numbers of refusals, and 0.
const NUMBERS: usize = 27;

fn end_of(outcome: Outcome) -> End {
    match outcome {
        Ok(count) => End {
            refusal: None,
            count,
        },
        Err(Stopped { refusal, count }) => End {
            refusal: Some(refusal),
            count,
        },
    }
}

// Replays a case with its stored answer; a listing is no call, and is passed over.
fn replay(case: &Case, stored: &[u32], workspace: &mut [u32]) -> Option<Seen> {
    let sheet = case.sheet.as_slice();
    let question = case.call.question.as_slice();
    let source = case.asker.source;
    let generics = case.asker.generics;
    let count = case.count;
    match case.call.form {
        Form::Impl { basic } => Some(compare::replay(
            &case.call,
            stored,
            workspace,
            |answer, workspace| {
                end_of(calls::try_find_impl(
                    sheet, question, source, generics, basic, answer, workspace, count,
                ))
            },
        )),
        Form::Flex => Some(compare::replay(&case.call, stored, workspace, |answer, workspace| {
            end_of(calls::find_flex(sheet, question, source, generics, answer, workspace, count))
        })),
        Form::Listing => None,
    }
}

// Replays all cases of a file.
fn replay_all<R: Read>(
    alloc: Global,
    source: &mut R,
    workspace: &mut [u32],
    tally: &mut Tally<NUMBERS>,
) -> io::Result<()> {
    for _ in 0..cases::read_word(source)? {
        let case = Case::read(alloc, source)?;
        let stored = cases::read_row(alloc, source, compare::ANSWER)?;
        if let Some(seen) = replay(&case, stored.as_slice(), workspace) {
            tally.count(cases::number(seen.end.refusal), seen.right);
        }
    }
    Ok(())
}

// Prints how many calls there are, how many are wrong, and how many got each number, if there are any.
fn print_tally(rt: &impl Print, path: &str, tally: &Tally<NUMBERS>) -> io::Result<()> {
    print!(rt; "{path}: {} calls, {} wrong", tally.total, tally.wrong)?;
    for (number, n) in tally.numbers.iter().enumerate() {
        if *n != 0 {
            print!(rt; ", {n} of {number}")?;
        }
    }
    println!(rt; "")
}

// Replays a file, and prints what came of it.
fn run(
    rt: &(impl Files + Print + Eprint + AllocGlobal),
    path: &str,
    workspace: &mut [u32],
) -> io::Result<()> {
    let Some(mut source) = programs::open(rt, path)? else {
        return Ok(());
    };
    let mut tally = Tally::new();
    replay_all(rt.alloc(), &mut source, workspace, &mut tally)?;
    sittings::replay_all(rt, &mut source, workspace, &mut tally)?;
    print_tally(rt, path, &tally)
}

// The workspace is the one that document 01 asks for.
fn main(rt: HostRuntime) -> io::Result<()> {
    let args: Vec<String> = env::args(&rt)?.collect(rt.alloc())?;
    let mut workspace = [0u32; 662794];
    for path in args.iter().skip(1) {
        run(&rt, path.as_str(), &mut workspace)?;
    }
    Ok(())
}
