// A sheet's records from an input, one at a time, and reading an input twice. The definitions are sheet_format's
// (specs/Stream.antt); by value they are in specs/Progress.antt and specs/Step.antt.
#![tactic(auto)]

pub mod input;
pub mod progress;
pub mod step;
pub mod twice;
