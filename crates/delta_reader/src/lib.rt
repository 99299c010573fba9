// Reading a row of a height model in the DELTA form. Document 02, ticket 7; the definitions are in delta_format.
#![tactic(auto)]

mod data;
mod element;
mod flag;
mod give;
mod put;
mod repeat;
pub mod row;
mod step;
mod stretch;
mod value;
mod walk;
