// The calls on a shelf of tables that two parties share: open it, put and remove a table, and pack, unpack and ask for room under
// the table of a place. Document 02, ticket 6; the definitions are in shelf_format.
#![tactic(auto)]

mod fill;
pub mod open;
mod party;
mod place;
pub mod put;
pub mod remove;
pub mod row;
mod table;
