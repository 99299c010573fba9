// The fields in front of a record's content. `record_bytes` counts the whole record, its length field only what follows it.
ghost use Rattle.std.specs.Prelude.{◌≡◌, ◌++◌, ◌≤◌, length, drop};
ghost use Rattle.sheet_format.specs.Kinds.{kind_code};
ghost use Rattle.sheet_writer.specs.Fields.{record_fields, row_fields, line_fields};

use bitstream::number::{put_u16, put_u32};
use sheet_format::kind::RecordKind;

// Length 4, kind 2, row number 2 and pixel count 2.
pub const ROW_FIELD_BYTES: usize = 10;

// Of every record: its length and its kind.
pub fn put_record_fields(kind: RecordKind, record_bytes: u32, out: &mut [u8])
    requires le_record_bytes { 6 ≤ record_bytes }
    requires in_bounds { 6 ≤ length out.old }
    ensures { out.new ≡ record_fields (kind_code kind) record_bytes ++ drop 6 out.old }
{
    put_u32(out, 0, record_bytes - 4);
    put_u16(out, 4, kind.code());
}

// Of a row: also its number and its pixel count.
pub fn put_row_fields(kind: RecordKind, row: u32, pixels: u32, record_bytes: u32, out: &mut [u8])
    requires le_record_bytes { 6 ≤ record_bytes }
    requires in_bounds { 10 ≤ length out.old }
    ensures { out.new ≡ row_fields (kind_code kind) row pixels record_bytes ++ drop 10 out.old }
{
    put_record_fields(kind, record_bytes, out);
    put_u16(out, 6, row);
    put_u16(out, 8, pixels);
}

// Of a line: also its count of numbers.
pub fn put_line_fields(kind: RecordKind, numbers: u32, record_bytes: u32, out: &mut [u8])
    requires le_record_bytes { 6 ≤ record_bytes }
    requires in_bounds { 8 ≤ length out.old }
    ensures { out.new ≡ line_fields (kind_code kind) numbers record_bytes ++ drop 8 out.old }
{
    put_record_fields(kind, record_bytes, out);
    put_u16(out, 6, numbers);
}
