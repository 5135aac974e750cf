// What the program that runs whole runs of the engine is asked for and prints: commands, and the answers to them.
#![tactic(auto)]

pub mod script;
pub mod tell;
