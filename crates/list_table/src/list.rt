// A table's listing from an input.
use crate::print::print_listing;
use crate::sheet::begins_sheet;
use command::input::Input;
use command::program::Unwritten;

// Where reading fails, that is said on standard error and nothing is printed.
pub fn list_input(input: &Input) -> Result<(), Unwritten> {
    // a table has at most 32772 bytes: with one more that is read it is refused, however much follows. The first record of a
    // sheet has at most 32778
    let mut table = [0u8; 32778];
    match input.fill(&mut table) {
        Ok(n) => list_bytes(input, &table[..n]),
        Err(_) => Ok(()),
    }
}

// The listing, and a hint where the bytes are a sheet's.
fn list_bytes(input: &Input, table: &[u8]) -> Result<(), Unwritten> {
    let printed = print_listing(input.program, table);
    if printed.judged.is_err() && begins_sheet(table) {
        input.hint(b"this looks like a sheet; list_sheet lists it");
    }
    printed.written?;
    Ok(())
}
