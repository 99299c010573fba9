// A binary PGM's header, rows and samples: one call for the header, one for each row that becomes a packed row of a sheet, and the
// writers of a header and of a row's samples. What they answer is defined in pgm_format's specs.
#![tactic(auto)]

mod field;
mod gap;
mod header;
pub mod put;
mod row;

pub use header::pgm_header;
pub use row::pgm_row;
