// The lines that a user types: which of them are commands, what each does, what is replied, and the
// memory in which one is collected.
#![tactic(auto)]

mod asking;
pub mod buffer;
pub mod command;
pub mod jobs;
pub mod lines;
pub mod program;
pub mod reply;
pub mod session;
#[cfg(test)]
mod tests;
