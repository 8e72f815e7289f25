// What the arguments ask for: one question, or several in one sitting.
ghost use Rattle.std.specs.Prelude.{◌<◌, length, IfSome};

use crate::failure::Failure;
use std::alloc::Global;

// Who asks, and the count of steps that the first question begins with.
#[derive(Clone, Copy, Debug, PartialEq, Eq)]
pub struct Numbers {
    pub source: u32,
    pub generics: u32,
    pub count: u32,
}

// Which call a question is for.
#[derive(Clone, Copy, Debug, PartialEq, Eq)]
pub enum Call {
    Impl { basic: u32 },
    Flex,
}

// A question in a file.
#[derive(Clone, Copy, Debug)]
pub struct Question<'a> {
    pub call: Call,
    pub file: &'a str,
}

// One question, or those of a sitting.
#[derive(Debug, Drop)]
pub enum Questions<'a> {
    One(Question<'a>),
    Several(Vec<Question<'a>>),
}

// What is asked for; `raw` asks for the words of the answers too.
#[derive(Debug, Drop)]
pub struct Asked<'a> {
    pub sheet: &'a str,
    pub numbers: Numbers,
    pub questions: Questions<'a>,
    pub raw: bool,
}

fn number(arg: &String) -> Option<u32> {
    notation::read::number(arg.as_bytes())
}

impl Numbers {
    fn parse(source: &String, generics: &String, count: &String) -> Option<Self> {
        Some(Numbers {
            source: number(source)?,
            generics: number(generics)?,
            count: number(count)?,
        })
    }
}

impl<'a> Question<'a> {
    fn of_impl(file: &'a String, basic: &String) -> Option<Self> {
        Some(Question {
            call: Call::Impl {
                basic: number(basic)?,
            },
            file: file.as_str(),
        })
    }

    fn of_flex(file: &'a String) -> Self {
        Question {
            call: Call::Flex,
            file: file.as_str(),
        }
    }
}

// The first question of a sitting, `impl QUESTION BASIC` or `flex QUESTION`, and what is behind it.
fn first_question(args: &[String]) -> Option<(Question<'_>, &[String])>
    ensures { IfSome result (λ found. length found.1.now < length args.now) }
{
    match args {
        [call, file, basic, rest @ ..] if call.as_str() == "impl" => {
            Some((Question::of_impl(file, basic)?, rest))
        }
        [call, file, rest @ ..] if call.as_str() == "flex" => Some((Question::of_flex(file), rest)),
        _ => None,
    }
}

// All questions of a sitting; there has to be one. (How many arguments a question takes is known once it is read.)
fn all_questions(alloc: Global, args: &[String]) -> Result<Vec<Question<'_>>, Failure<'_>> {
    let mut questions = Vec::new(alloc);
    let mut rest = args;
    while !rest.is_empty() {
        let (question, behind) = first_question(rest).ok_or(Failure::Usage)?;
        questions.push(question)?;
        rest = behind;
    }
    if questions.is_empty() {
        return Err(Failure::Usage);
    }
    Ok(questions)
}

// What the arguments ask for.
pub fn parse(alloc: Global, args: &[String]) -> Result<Asked<'_>, Failure<'_>> {
    let (args, raw) = match args {
        [front @ .., last] if last.as_str() == "raw" => (front, true),
        _ => (args, false),
    };
    let (sheet, numbers, questions) = match args {
        [_, call, sheet, file, source, generics, basic, count] if call.as_str() == "impl" => {
            let question = Question::of_impl(file, basic).ok_or(Failure::Usage)?;
            (
                sheet,
                Numbers::parse(source, generics, count),
                Questions::One(question),
            )
        }
        [_, call, sheet, file, source, generics, count] if call.as_str() == "flex" => {
            let question = Question::of_flex(file);
            (
                sheet,
                Numbers::parse(source, generics, count),
                Questions::One(question),
            )
        }
        [_, call, sheet, source, generics, count, rest @ ..] if call.as_str() == "sitting" => {
            let questions = all_questions(alloc, rest)?;
            (
                sheet,
                Numbers::parse(source, generics, count),
                Questions::Several(questions),
            )
        }
        _ => return Err(Failure::Usage),
    };
    Ok(Asked {
        sheet: sheet.as_str(),
        numbers: numbers.ok_or(Failure::Usage)?,
        questions,
        raw,
    })
}
