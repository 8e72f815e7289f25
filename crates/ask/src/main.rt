// Asks questions, for a person: a sheet and questions from files of decimal words, and what the calls give as text.
//
//     ask impl SHEET QUESTION SOURCE GENERICS BASIC COUNT [raw]
//     ask flex SHEET QUESTION SOURCE GENERICS COUNT [raw]
//     ask sitting SHEET SOURCE GENERICS COUNT (impl QUESTION BASIC | flex QUESTION).. [raw]
//
// Every question is asked in a sitting, whose spent count goes on from one question to the next. The workspace is lent from main's own frame.
#![tactic(auto)]

mod arguments;
mod failure;
mod files;
mod print;

use arguments::{Call, Numbers, Question, Questions};
use failure::{Failure, Unread};
use print::{Answered, Refused, Steps};
use refusals::Refusal;
use sitting::Sitting;
use std::rt::Files;
use std::{env, io};

// One word more than the limit allows is enough to be refused.
const SHEET: usize = 4097;

const QUESTION: usize = 1025;

const USAGE: &str = "\
usage: ask impl SHEET QUESTION SOURCE GENERICS BASIC COUNT [raw]
       ask flex SHEET QUESTION SOURCE GENERICS COUNT [raw]
       ask sitting SHEET SOURCE GENERICS COUNT (impl QUESTION BASIC | flex QUESTION).. [raw]
SHEET and QUESTION are files of decimal words; spaces, line ends and | stand between words,
and # begins a comment. raw prints the answer's words too. The questions of a sitting are asked
in turn, each from the count of steps that the one before it left; the first from COUNT.";

// What all questions share, and the sitting that they are asked in.
#[derive(Drop)]
struct Asker<'a> {
    sheet: &'a [u32],
    numbers: Numbers,
    raw: bool,
    workspace: &'a mut [u32],
    sitting: Sitting,
}

impl<'a> Asker<'a> {
    // Makes a call.
    fn call(&mut self, call: Call, question: &[u32], answer: &mut [u32]) -> Result<(), Refusal> {
        let Numbers {
            source,
            generics,
            count: _,
        } = self.numbers;
        let sheet = self.sheet;
        let workspace = &mut *self.workspace;
        let sitting = &mut self.sitting;
        match call {
            Call::Impl { basic } => sitting.find_impl(
                sheet, question, source, generics, basic, answer, workspace,
            ),
            Call::Flex => sitting.find_flex(sheet, question, source, generics, answer, workspace),
        }
    }

    // Asks the question of a file, and prints what it gives.
    fn ask<'q>(
        &mut self,
        rt: &(impl Files + Print + AllocGlobal),
        question: Question<'q>,
    ) -> Result<(), Failure<'q>> {
        let words = files::read_file(rt, question.file, QUESTION)?;
        let mut answer = [0u32; 10240];
        let start = self.sitting.spent;
        let outcome = self.call(question.call, words.as_slice(), &mut answer);
        let steps = Steps {
            start,
            count: self.sitting.spent,
        };
        match outcome {
            Err(refusal) => print!(rt; "{}", Refused { refusal, steps })?,
            Ok(()) => {
                let answered = Answered {
                    call: question.call,
                    steps,
                    question: words.as_slice(),
                    answer: &answer,
                    raw: self.raw,
                };
                print!(rt; "{answered}")?;
            }
        }
        Ok(())
    }

    // Asks questions in turn, each by its number, and prints the steps spent so far.
    fn ask_all<'q>(
        &mut self,
        rt: &(impl Files + Print + AllocGlobal),
        questions: &[Question<'q>],
    ) -> Result<(), Failure<'q>> {
        for (i, question) in questions.iter().enumerate() {
            println!(rt; "question {}", i + 1)?;
            self.ask(rt, *question)?;
            println!(rt; "spent: {}", self.sitting.spent)?;
        }
        Ok(())
    }
}

// Asks what the arguments ask for.
fn run<'a>(
    rt: &(impl Files + Print + AllocGlobal),
    args: &'a [String],
    workspace: &mut [u32],
) -> Result<(), Failure<'a>> {
    let asked = arguments::parse(rt.alloc(), args)?;
    let sheet = files::read_file(rt, asked.sheet, SHEET)?;
    let mut asker = Asker {
        sheet: sheet.as_slice(),
        numbers: asked.numbers,
        raw: asked.raw,
        workspace,
        sitting: Sitting {
            spent: asked.numbers.count,
        },
    };
    match asked.questions {
        Questions::One(question) => asker.ask(rt, question),
        Questions::Several(questions) => asker.ask_all(rt, questions.as_slice()),
    }
}

fn main(rt: HostRuntime) -> io::Result<()> {
    let args: Vec<String> = env::args(&rt)?.collect(rt.alloc())?;
    let mut workspace = [0u32; 662794];
    match run(&rt, args.as_slice(), &mut workspace) {
        Ok(()) => Ok(()),
        Err(Failure::Usage) => eprintln!(rt; "{USAGE}"),
        Err(Failure::Unread { path, why }) => match why {
            Unread::Io(why) => programs::fail(&rt, path, &why),
            Unread::NoWord(why) => eprintln!(rt; "{path}: {why}"),
        },
        Err(Failure::Io(why)) => Err(why),
    }
}
