// Whether a sheet has a picture, and why not.
ghost use Rattle.std.specs.Prelude.{◌≡◌, None, OnOk};
ghost use Rattle.pgm_format.specs.Shape.{row_missing, row_unequal};
ghost use Rattle.sheet_to_pgm.specs.LineShape.{ShapeFound};
ghost use Rattle.sheet_to_pgm.specs.Written.{Reason, PictureFound, FaultFound};

use crate::shape::{LineShape, RowFault};
use command::input::Input;
use command::program::{Unread, Unwritten};
use text::number::{put_field, put_fields};
use text::put::put_bytes;

// There is no picture, or no more of it; standard error has said why.
#[derive(Clone, Copy)]
pub struct NoPicture;

impl From<Unread> for NoPicture {
    fn from(_unread: Unread) -> NoPicture {
        NoPicture
    }
}

impl From<Unwritten> for NoPicture {
    fn from(_unwritten: Unwritten) -> NoPicture {
        NoPicture
    }
}

// Whether there is one.
pub fn check_shape(input: &Input, pads: Option<u16>, shape: LineShape) -> Result<(), NoPicture>
    requires { ShapeFound shape }
    ensures { OnOk result (PictureFound pads shape.width shape.count) }
{
    if shape.width == 0 {
        say_reason(input, pads, b"there are no heights");
        return Err(NoPicture);
    }
    match pads {
        Some(_) => Ok(()),
        None => check_rows(input, shape),
    }
}

// The same of one that has heights, where nothing is filled in.
fn check_rows(input: &Input, shape: LineShape) -> Result<(), NoPicture>
    requires shape_found { ShapeFound shape }
    requires fact { shape.width ≡ 0 → ⊥ }
    ensures { OnOk result (PictureFound None shape.width shape.count) }
{
    let Some(fault) = shape.fault else {
        return Ok(());
    };
    match fault {
        RowFault::Missing(n) => say_missing(input, n),
        RowFault::Unequal(n, k, w) => say_unequal(input, n, k, w),
    }
    Err(NoPicture)
}

// `row 3 is missing`
fn say_missing(input: &Input, row: u32)
    requires { FaultFound (row_missing row) }
{
    let mut text = [0u8; 128];
    let next = put_field(&mut text, 0, b"row ", row as u64);
    let end = put_bytes(&mut text, next, b" is missing");
    say_reason(input, None, &text[..end]);
}

// `row 7 has 12 heights and row 0 has 16`
fn say_unequal(input: &Input, row: u32, heights: u32, first: u32)
    requires { FaultFound (row_unequal row heights first) }
{
    let mut text = [0u8; 128];
    let next = put_fields(&mut text, 0, b"row ", row as u64, b" has ", heights as u64);
    let end = put_field(&mut text, next, b" heights and row 0 has ", first as u64);
    say_reason(input, None, &text[..end]);
}

// Nothing else is said of why there is no picture.
fn say_reason(input: &Input, pads: Option<u16>, text: &[u8])
    requires { Reason pads text.now }
{
    input.hint(text);
}
