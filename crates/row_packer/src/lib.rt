// Packing one row under a table, and how much room a row may take.
#![tactic(auto)]

mod encode;
mod field;
mod header;
mod item;
mod measure;
pub mod pack;
pub mod room;
mod row;
mod table;
mod write;
