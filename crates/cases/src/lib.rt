// What the programs that run stored cases share: reading lines of numbers, printing answers and lists.
#![tactic(auto)]

pub mod lines;
pub mod read;
pub mod show;
