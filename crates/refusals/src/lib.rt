// Why a call is turned away: a case for each of document 01's numbers, 1 to 26, in its order. The names of 18, 20, 21 and 24 to 26 are those of the Rust.
#![tactic(auto)]

ghost use Rattle.std.specs.Prelude.{◌≡◌};
ghost use Rattle.refusals.specs.Numbers.{number_of, Reads};

use std::error::Error;
use std::fmt;

#[derive(Clone, Copy, Debug, PartialEq, Eq)]
pub enum Refusal {
    SheetLength,
    QuestionLength,
    AnswerLength,
    WorkspaceLength,
    StartCount,
    Edition,
    SheetChains,
    SheetValues,
    SheetCycle,
    Ids,
    QuestionChains,
    QuestionValues,
    QuestionCycle,
    TypesFull,
    TooDeep,
    ResultsFull,
    TreesFull,
    SearchLimit,
    ErrorType,
    CannotFindImpl,
    AmbiguousImpl,
    ForkUnset,
    DropUnset,
    FlexSearchLimit,
    BiFlexible,
    IncompatibleForkDropInference,
}

use Refusal::{
    AmbiguousImpl, AnswerLength, BiFlexible, CannotFindImpl, DropUnset, Edition, ErrorType,
    FlexSearchLimit, ForkUnset, Ids, IncompatibleForkDropInference, QuestionChains, QuestionCycle,
    QuestionLength, QuestionValues, ResultsFull, SearchLimit, SheetChains, SheetCycle, SheetLength,
    SheetValues, StartCount, TooDeep, TreesFull, TypesFull, WorkspaceLength,
};

impl Refusal {
    // Document 01's number.
    pub fn number(self) -> u32
        ensures { result ≡ number_of self }
    {
        match self {
            SheetLength => 1,
            QuestionLength => 2,
            AnswerLength => 3,
            WorkspaceLength => 4,
            StartCount => 5,
            Edition => 6,
            SheetChains => 7,
            SheetValues => 8,
            SheetCycle => 9,
            Ids => 10,
            QuestionChains => 11,
            QuestionValues => 12,
            QuestionCycle => 13,
            TypesFull => 14,
            TooDeep => 15,
            ResultsFull => 16,
            TreesFull => 17,
            SearchLimit => 18,
            ErrorType => 19,
            CannotFindImpl => 20,
            AmbiguousImpl => 21,
            ForkUnset => 22,
            DropUnset => 23,
            FlexSearchLimit => 24,
            BiFlexible => 25,
            IncompatibleForkDropInference => 26,
        }
    }

    // The refusal of a number; none for a number that document 01 does not have.
    pub fn from_number(n: u32) -> Option<Refusal>
        ensures { Reads n result }
    {
        Some(match n {
            1 => SheetLength,
            2 => QuestionLength,
            3 => AnswerLength,
            4 => WorkspaceLength,
            5 => StartCount,
            6 => Edition,
            7 => SheetChains,
            8 => SheetValues,
            9 => SheetCycle,
            10 => Ids,
            11 => QuestionChains,
            12 => QuestionValues,
            13 => QuestionCycle,
            14 => TypesFull,
            15 => TooDeep,
            16 => ResultsFull,
            17 => TreesFull,
            18 => SearchLimit,
            19 => ErrorType,
            20 => CannotFindImpl,
            21 => AmbiguousImpl,
            22 => ForkUnset,
            23 => DropUnset,
            24 => FlexSearchLimit,
            25 => BiFlexible,
            26 => IncompatibleForkDropInference,
            _ => return None,
        })
    }
}

// What a number means, in a line.
impl fmt::Display for Refusal {
    fn fmt<W: fmt::Write>(&self, f: &mut fmt::Formatter<W>) -> fmt::Result {
        f.write_str(match self {
            SheetLength => "the sheet has under 16 or over 4,096 words",
            QuestionLength => "the question has under 3 or over 1,024 words",
            AnswerLength => "the answer buffer has under 10,240 words",
            WorkspaceLength => "the workspace has under 662,794 words",
            StartCount => "the start count is over 1,000,000",
            Edition => "the sheet's edition is not 1",
            SheetChains => {
                "a head or next of the sheet breaks the chain rule, or a record passes its end"
            }
            SheetValues => "a value of the sheet is out of range or over a limit",
            SheetCycle => "a type of the sheet reaches itself",
            Ids => "the source or the generics are absent, or the basic flag is over 1",
            QuestionChains => {
                "a head or next of the question breaks the chain rule, or a record passes its end"
            }
            QuestionValues => "a value of the question is out of range or over a limit",
            QuestionCycle => "a type of the question reaches itself",
            TypesFull => "a type table would pass 256 nodes",
            TooDeep => "a question is nested deeper than 16",
            ResultsFull => {
                "the results of one question, or of one tail of sub-questions, would pass 4"
            }
            TreesFull => "the trees of one result would pass 256 nodes",
            SearchLimit => {
                "the search passed 2,000 steps, or an inherent argument is unknown (SearchLimit)"
            }
            ErrorType => "an Error type stands where a module is sought",
            CannotFindImpl => "no impl is found (CannotFindImpl)",
            AmbiguousImpl => "two or more impls are found (AmbiguousImpl)",
            ForkUnset => "the sheet sets no Fork",
            DropUnset => "the sheet sets no Drop",
            FlexSearchLimit => "the searches passed 2,000 steps (FlexSearchLimit)",
            BiFlexible => "the type and its inverse are both flexible (BiFlexible)",
            IncompatibleForkDropInference => {
                "fork and drop want types that do not agree (IncompatibleForkDropInference)"
            }
        })
    }
}

impl Error for Refusal {}

// A run that counts its steps is turned away, with its count.
#[derive(Clone, Copy, Debug, PartialEq, Eq)]
pub struct Stopped {
    pub refusal: Refusal,
    pub count: u32,
}
