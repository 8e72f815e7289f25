// Types of the question and of a signature that have to be the same are met: their classes are joined, and what is below them is met in turn.
// A clash is found where two types of one class differ in kind, id or number of children, or are different Errors, or differ in side where the kind is not its own inverse, so that a type is met inverted that may not be
// (where a type meets its own inverse, its children meet theirs; where an unknown did and is bound afterwards, what it is bound to meets its own); or where a class would contain itself, which is the occurs check (`cycles`). Where none is found nothing is said.
// Refs, types and links are told in `refs`. Kinds stay the words that they are in both tables: they are compared with each other, and a `Kind` would be read from each of them first.
#![tactic(auto)]

mod below;
mod cycles;
mod notes;
mod state;
mod turns;
mod types;

pub use cycles::is_cyclic;
pub use notes::Notes;
pub use state::{Clash, Meeting, sided_near};
