// Code only: what the programs that keep bytes share: building a text line by line, changing bytes and showing them.
#![tactic(auto)]

pub mod build;
pub mod lent;
pub mod raw;
