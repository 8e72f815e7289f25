// Words as text for a person, both ways: decimal words read from text (`read`), and what a call gave as text (`tree`, `types`).
// Every function is total: it reads any bytes, and prints any words.
#![tactic(auto)]

pub mod read;
pub mod tree;
pub mod types;
