// Writing the records of a sheet. What the one call answers is defined in sheet_format's specs/Writing.antt. A kind that
// needs no table is written alike in every sheet of which the given state is kept, and its functions say so.
#![tactic(auto)]

mod done;
mod fields;
mod line;
mod number;
mod numbers;
mod packed;
mod plain;
mod record;
mod table;

// Of the kinds a packed row alone has its own way in, for a caller whose table is known to be accepted.
pub use packed::write_packed;
pub use record::write_record;
