// What the programs share: a command line's options and files, and what is said on standard error. No contract can say what
// an argument's bytes are, nor what is read or written; what an argument is, by its bytes, is in specs/Argument.antt.
#![tactic(auto)]

pub mod argument;
pub mod files;
pub mod input;
pub mod number;
pub mod option;
pub mod output;
pub mod path;
pub mod program;
pub mod say;
pub mod usage;
pub mod word;
