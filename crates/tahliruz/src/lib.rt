// The calls that C links: each passes its arguments on to the proved call of the same name. include/tahliruz.h declares them.
#![tactic(auto)]

pub mod item;

ghost use Rattle.std.specs.Prelude.{◌≡◌};
ghost use Rattle.answer.specs.Outcome.{outcome};
ghost use Rattle.row_format.specs.Calls.{checked, packed, unpacked, room};
ghost use Rattle.code_table.specs.Plain.{plain_lent};
ghost use Rattle.tahliruz.specs.Items.{reader_opened, next_item};
ghost use Rattle.adaptive.specs.Calls.{signed_read, unsigned_read, signed_written, unsigned_written};
ghost use Rattle.sheet_format.specs.Context.{context_of};
ghost use Rattle.sheet_format.specs.Reading.{record_judged, record_read};
ghost use Rattle.sheet_format.specs.Writing.{record_written};
ghost use Rattle.fits_format.specs.Header.{header_read};
ghost use Rattle.fits_format.specs.Image.{image_row};
ghost use Rattle.map_format.specs.Calls.{map_read, map_written};
ghost use Rattle.shelf_format.specs.Calls.{shelf_opened, shelf_put, shelf_removed, shelf_packed, shelf_unpacked, shelf_room};
ghost use Rattle.delta_format.specs.Calls.{delta_outcome, delta_row};

use adaptive::{SignedRead, UnsignedRead};
use answer::{Answer, LongAnswer};
use delta_format::RowPlaces;
use fits_format::ImageHeader;
use item::{ItemAnswer, ReaderOpened, ReaderPlace};
use row_format::RowUnpacked;
use sheet_format::{RecordRead, RecordWritten, SheetState};
use shelf_format::PlaceChanged;

#[unsafe(no_mangle)]
pub extern "C" fn tahliruz_check(table: &[u8]) -> Answer
    ensures { result ≡ checked table.now }
{
    code_table::check::check(table)
}

#[unsafe(no_mangle)]
pub extern "C" fn tahliruz_plain_table(out: &mut [u8]) -> Answer
    ensures { outcome result out.new ≡ plain_lent out.old }
{
    code_table::plain::plain_table(out)
}

#[unsafe(no_mangle)]
pub extern "C" fn tahliruz_pack(table: &[u8], pixels: &[u8], words: &mut [u8]) -> Answer
    ensures { outcome result words.new ≡ packed table.now pixels.now words.old }
{
    row_packer::pack::pack(table, pixels, words)
}

#[unsafe(no_mangle)]
pub extern "C" fn tahliruz_unpack(
    table: &[u8],
    words: &[u8],
    n: u64,
    pixels: &mut [u8],
) -> RowUnpacked
    ensures { outcome result pixels.new ≡ unpacked table.now words.now n pixels.old }
{
    row_unpacker::unpack::unpack(table, words, n, pixels)
}

#[unsafe(no_mangle)]
pub extern "C" fn tahliruz_room(table: &[u8], n: u64) -> Answer
    ensures { result ≡ room table.now n }
{
    row_packer::room::room(table, n)
}

#[unsafe(no_mangle)]
pub extern "C" fn tahliruz_open(table: &[u8]) -> ReaderOpened
    ensures { result ≡ reader_opened table.now }
{
    let start = row_reader::step::Place::start(table);
    ReaderOpened {
        number: start.opening,
        place: item::flat_place(start),
    }
}

#[unsafe(no_mangle)]
pub extern "C" fn tahliruz_next(table: &[u8], words: &[u8], place: ReaderPlace) -> ItemAnswer
    ensures { result ≡ next_item table.now words.now place }
{
    match item::next(table, words, place) {
        Ok(given) => given,
        Err(refusal) => item::refused(refusal.number(), place),
    }
}

#[unsafe(no_mangle)]
pub extern "C" fn tahliruz_read_signed(bytes: &[u8]) -> SignedRead
    ensures { result ≡ signed_read bytes.now }
{
    adaptive::read_signed(bytes)
}

#[unsafe(no_mangle)]
pub extern "C" fn tahliruz_read_unsigned(bytes: &[u8]) -> UnsignedRead
    ensures { result ≡ unsigned_read bytes.now }
{
    adaptive::read_unsigned(bytes)
}

#[unsafe(no_mangle)]
pub extern "C" fn tahliruz_write_signed(value: i32, out: &mut [u8]) -> Answer
    ensures { outcome result out.new ≡ signed_written value out.old }
{
    adaptive::write_signed(value, out)
}

#[unsafe(no_mangle)]
pub extern "C" fn tahliruz_write_unsigned(value: u32, out: &mut [u8]) -> Answer
    ensures { outcome result out.new ≡ unsigned_written value out.old }
{
    adaptive::write_unsigned(value, out)
}

#[unsafe(no_mangle)]
pub extern "C" fn tahliruz_judge_record(table: &[u8], sheet: &[u8], state: SheetState) -> RecordRead
    ensures { result ≡ record_judged (context_of table.now state) sheet.now }
{
    sheet_reader::judge_record(table, sheet, state)
}

#[unsafe(no_mangle)]
pub extern "C" fn tahliruz_read_record(
    table: &[u8],
    sheet: &[u8],
    state: SheetState,
    content: &mut [u8],
) -> RecordRead
    ensures { outcome result content.new ≡ record_read (context_of table.now state) sheet.now content.old }
{
    sheet_reader::read_record(table, sheet, state, content)
}

#[unsafe(no_mangle)]
pub extern "C" fn tahliruz_write_record(
    kind: u32,
    row: u32,
    content: &[u8],
    table: &[u8],
    state: SheetState,
    out: &mut [u8],
) -> RecordWritten
    ensures { outcome result out.new ≡ record_written kind (record { row = row })
        (context_of table.now state) content.now out.old }
{
    sheet_writer::write_record(kind, row, content, table, state, out)
}

#[unsafe(no_mangle)]
pub extern "C" fn tahliruz_fits_header(fits: &[u8], out: &mut [u8]) -> ImageHeader
    ensures { outcome result out.new ≡ header_read fits.now out.old }
{
    fits_reader::fits_header(fits, out)
}

#[unsafe(no_mangle)]
pub extern "C" fn tahliruz_fits_row(width: u64, row: u64, image: &[u8], out: &mut [u8]) -> Answer
    ensures { outcome result out.new ≡ image_row width row image.now out.old }
{
    fits_reader::fits_row(width, row, image, out)
}

#[unsafe(no_mangle)]
pub extern "C" fn tahliruz_read_map(
    group: u32,
    bytes: &[u8],
    total: u64,
    counts: &mut [u8],
) -> Answer
    ensures { outcome result counts.new ≡ map_read group bytes.now total counts.old }
{
    mat_map::read_map(group, bytes, total, counts)
}

#[unsafe(no_mangle)]
pub extern "C" fn tahliruz_write_map(group: u32, counts: &[u8], out: &mut [u8]) -> Answer
    ensures { outcome result out.new ≡ map_written group counts.now out.old }
{
    mat_map::write_map(group, counts, out)
}

#[unsafe(no_mangle)]
pub extern "C" fn tahliruz_shelf_open(
    table0: &[u8],
    table1: &[u8],
    table2: &[u8],
    table3: &[u8],
    shelf: &mut [u8],
) -> Answer
    ensures { outcome result shelf.new ≡ shelf_opened table0.now table1.now table2.now
        table3.now shelf.old }
{
    table_shelf::open::open(table0, table1, table2, table3, shelf)
}

#[unsafe(no_mangle)]
pub extern "C" fn tahliruz_shelf_put(shelf: &mut [u8], party: u32, table: &[u8]) -> PlaceChanged
    ensures { outcome result shelf.new ≡ shelf_put shelf.old party table.now }
{
    table_shelf::put::put(shelf, party, table)
}

#[unsafe(no_mangle)]
pub extern "C" fn tahliruz_shelf_remove(shelf: &mut [u8], party: u32, place: u32) -> PlaceChanged
    ensures { outcome result shelf.new ≡ shelf_removed shelf.old party place }
{
    table_shelf::remove::remove(shelf, party, place)
}

#[unsafe(no_mangle)]
pub extern "C" fn tahliruz_shelf_pack(
    shelf: &[u8],
    party: u32,
    place: u32,
    pixels: &[u8],
    words: &mut [u8],
) -> Answer
    ensures { outcome result words.new ≡ shelf_packed shelf.now party place pixels.now
        words.old }
{
    table_shelf::row::pack(shelf, party, place, pixels, words)
}

#[unsafe(no_mangle)]
pub extern "C" fn tahliruz_shelf_unpack(
    shelf: &[u8],
    party: u32,
    place: u32,
    words: &[u8],
    n: u64,
    pixels: &mut [u8],
) -> RowUnpacked
    ensures { outcome result pixels.new ≡ shelf_unpacked shelf.now party place words.now n
        pixels.old }
{
    table_shelf::row::unpack(shelf, party, place, words, n, pixels)
}

#[unsafe(no_mangle)]
pub extern "C" fn tahliruz_shelf_room(shelf: &[u8], party: u32, place: u32, n: u64) -> Answer
    ensures { result ≡ shelf_room shelf.now party place n }
{
    table_shelf::row::room(shelf, party, place, n)
}

#[unsafe(no_mangle)]
pub extern "C" fn tahliruz_delta_row(
    n: u64,
    data_bits: u32,
    data: &[u8],
    value_bits: u32,
    value: &[u8],
    repeat: &[u8],
    first: RowPlaces,
    row: &mut [u8],
    marks: &mut [u8],
) -> LongAnswer
    ensures { delta_outcome result row.new marks.new ≡ delta_row n (record {
      data_bits = data_bits;
      data_bytes = «data».now;
      value_bits = value_bits;
      value_bytes = value.now;
      repeat_bytes = repeat.now;
    }) first
        row.old marks.old }
{
    delta_reader::row::read_row(
        n, data_bits, data, value_bits, value, repeat, first, row, marks,
    )
}
