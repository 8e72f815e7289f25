// Replays the stored cases of the files that its arguments name, and prints for each file how many cases it has, how many get each number from checks 1 to 13 (0 for those that pass), and how many get another than is stored.
#![tactic(auto)]

use cases::{Case, Form, Tally};
use refusals::Refusal;
use std::alloc::Global;
use std::io::Read;
use std::rt::Files;
use std::{env, io};

// The numbers of the checks, and 0.
const NUMBERS: usize = 14;

// What the checks say of a call.
fn check(case: &Case, workspace: &mut [u32]) -> Result<(), Refusal> {
    let sheet = case.sheet.as_slice();
    let question = case.call.question.as_slice();
    let source = case.asker.source as usize;
    let generics = case.asker.generics as usize;
    let answer = case.call.lent.answer;
    let lent = case.call.lent.workspace.min(workspace.len());
    match case.call.form {
        Form::Impl { basic } => checks::check_impl_call(
            sheet,
            question,
            source,
            generics,
            basic,
            answer,
            case.count,
            &mut workspace[..lent],
        ),
        Form::Flex => checks::check_flex_call(
            sheet,
            question,
            source,
            generics,
            answer,
            case.count,
            &mut workspace[..lent],
        ),
        // It lends no workspace.
        Form::Listing if workspace.len() < checks::ROOM => Err(Refusal::WorkspaceLength),
        Form::Listing => checks::check_listing(sheet, workspace),
    }
}

// Passes over the words of an answer, behind their number.
fn skip_answer<R: Read>(source: &mut R) -> io::Result<()> {
    for _ in 0..cases::read_word(source)? {
        cases::read_word(source)?;
    }
    Ok(())
}

// Replays all cases of a file; a stored refusal by more than the checks is one that they let pass.
fn replay_all<R: Read>(
    alloc: Global,
    source: &mut R,
    workspace: &mut [u32],
) -> io::Result<Tally<NUMBERS>> {
    let mut tally = Tally::new();
    for _ in 0..cases::read_word(source)? {
        let case = Case::read(alloc, source)?;
        skip_answer(source)?;
        let stored = case
            .call
            .end
            .and_then(|end| end.refusal)
            .filter(|refusal| refusal.number() <= 13);
        let refusal = check(&case, workspace).err();
        tally.count(cases::number(refusal), refusal == stored);
    }
    Ok(tally)
}

// Replays a file, and prints what came of it.
fn run(
    rt: &(impl Files + Print + Eprint + AllocGlobal),
    path: &str,
    workspace: &mut [u32],
) -> io::Result<()> {
    let Some(mut source) = programs::open(rt, path)? else {
        return Ok(());
    };
    let tally = replay_all(rt.alloc(), &mut source, workspace)?;
    println!(rt; "{path} cases {}", tally.total)?;
    print!(rt; "{tally}")
}

// The workspace is the one that document 01 asks for.
fn main(rt: HostRuntime) -> io::Result<()> {
    let args: Vec<String> = env::args(&rt)?.collect(rt.alloc())?;
    let mut workspace = [0u32; 662794];
    for k in 1..4 {
        let path = programs::argument(args.as_slice(), k);
        run(&rt, path, &mut workspace)?;
    }
    Ok(())
}
