// Document 01 as definitions: everything stands in specs/. This crate has no code of its own.
#![tactic(auto)]
