// What the programs that answer stored questions share: reading standard input and the fields of a line, and writing answers.
#![tactic(auto)]

pub mod ask;
pub mod input;
pub mod show;
