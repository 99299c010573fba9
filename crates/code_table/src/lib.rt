// A table's bytes: its header and codewords, the check that every call makes, and the plain table.
#![tactic(auto)]

pub mod check;
pub mod entry;
pub mod header;
pub mod plain;
