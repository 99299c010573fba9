// What rows have in common, packed or plain: their fields and their place.
ghost use Rattle.sheet_reader.specs.Row.{RowFieldsOf};

use answer::refusal::Refusal;
use bitstream::number::read_u16;
use sheet_format::SheetState;

// A row's number, and its pixels.
#[derive(Clone, Copy)]
pub struct RowFields {
    pub row: u32,
    pub count: u32,
}

// 14 where the fields are missing, 16 where the row may not stand here.
pub fn row_fields(body: &[u8], state: SheetState) -> Result<RowFields, Refusal>
    ensures { RowFieldsOf body.now state result }
{
    if body.len() < 4 {
        return Err(Refusal::Record);
    }
    let row = read_u16(body, 0);
    let count = read_u16(body, 2);
    state.row_place(row)?;
    Ok(RowFields { row, count })
}
