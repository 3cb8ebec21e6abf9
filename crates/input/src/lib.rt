// Standard input and standard output of a program, together, and whether the command line has words.
#![tactic(auto)]

mod source;
mod streams;
mod words;

pub use source::{Coming, Source};
pub use streams::Streams;
pub use words::has_word;
