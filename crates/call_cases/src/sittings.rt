// Stored sittings: calls in turn on one sheet from one source, each from the spent count that the one before it left.
use crate::compare::Seen;
use crate::{NUMBERS, compare};
use cases::{Asker, Call, End, Form, Sitting, Tally};
use refusals::Refusal;
use std::io;
use std::io::Read;

// What a call of a sitting comes to.
fn end_of(found: Result<(), Refusal>, sitting: sitting::Sitting) -> End {
    End {
        refusal: found.err(),
        count: sitting.spent,
    }
}

// Replays a call of a sitting with its stored answer, from a spent count.
fn replay_call(
    sitting: &Sitting,
    call: &Call,
    stored: &[u32],
    spent: u32,
    workspace: &mut [u32],
) -> Seen {
    let sheet = sitting.sheet.as_slice();
    let question = call.question.as_slice();
    let Asker { source, generics } = sitting.asker;
    match call.form {
        Form::Impl { basic } => compare::replay(call, stored, workspace, |answer, workspace| {
            let mut sitting = sitting::Sitting { spent };
            let found = sitting.find_impl(
                sheet, question, source, generics, basic, answer, workspace,
            );
            end_of(found, sitting)
        }),
        Form::Flex | Form::Listing => {
            compare::replay(call, stored, workspace, |answer, workspace| {
                let mut sitting = sitting::Sitting { spent };
                let found = sitting.find_flex(sheet, question, source, generics, answer, workspace);
                end_of(found, sitting)
            })
        }
    }
}

// Prints the spent count after a call, and its number where it is refused.
fn print_end(rt: &impl Print, end: End) -> io::Result<()> {
    match end.refusal {
        None => print!(rt; " {}", end.count),
        Some(refusal) => print!(rt; " {} ({})", end.count, refusal.number()),
    }
}

// Replays the calls of a sitting, behind their number, and prints how each ends.
fn replay_calls<R: Read>(
    rt: &(impl Print + AllocGlobal),
    source: &mut R,
    sitting: &Sitting,
    workspace: &mut [u32],
    tally: &mut Tally<NUMBERS>,
) -> io::Result<()> {
    let mut spent = sitting.count;
    for _ in 0..cases::read_word(source)? {
        let call = Call::read(rt.alloc(), source)?;
        let stored = cases::read_row(rt.alloc(), source, compare::ANSWER)?;
        let seen = replay_call(sitting, &call, stored.as_slice(), spent, workspace);
        spent = seen.end.count;
        tally.count(cases::number(seen.end.refusal), seen.right);
        print_end(rt, seen.end)?;
    }
    Ok(())
}

// Replays all sittings behind the cases of a file, and prints a line for each.
pub fn replay_all<R: Read>(
    rt: &(impl Print + AllocGlobal),
    source: &mut R,
    workspace: &mut [u32],
    tally: &mut Tally<NUMBERS>,
) -> io::Result<()> {
    for i in 0..cases::read_word(source)? {
        let sitting = Sitting::read(rt.alloc(), source)?;
        print!(rt; "sitting {i} from {}:", sitting.count)?;
        replay_calls(rt, source, &sitting, workspace, tally)?;
        println!(rt; "")?;
    }
    Ok(())
}
