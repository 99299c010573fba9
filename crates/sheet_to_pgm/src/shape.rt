// The shape of a sheet's rows as the lines of a picture, a row at a time.
ghost use Rattle.std.specs.Prelude.{◌≡◌, ◌<◌};
ghost use Rattle.sheet_to_pgm.specs.LineShape.{shape_none, fault_with, first_with, shape_with};

// What may be wrong with a row: it is missing, or it has so many heights and row 0 so many.
#[derive(Clone, Copy)]
pub enum RowFault {
    Missing(u32),
    Unequal(u32, u32, u32),
}

// width   the heights of the longest row
// count   the rows to the last one
// first   the heights of row 0
// fault   the first fault in row order, where there is one
#[derive(Clone, Copy)]
pub struct LineShape {
    pub width: u32,
    pub count: u32,
    pub first: u32,
    pub fault: Option<RowFault>,
}

impl LineShape {
    // Of no rows.
    pub fn none() -> LineShape
        ensures { result ≡ shape_none }
    {
        LineShape {
            width: 0,
            count: 0,
            first: 0,
            fault: None,
        }
    }

    // With row `row`, which comes after all of them and has so many heights.
    pub fn with_row(self, row: u32, heights: u32) -> LineShape
        requires { row < 65536 }
        ensures { result ≡ shape_with self row heights }
    {
        let first = if row == 0 { heights } else { self.first };
        LineShape {
            width: self.width.max(heights),
            count: row + 1,
            first,
            fault: self.fault.or(fault_with(self.count, row, heights, first)),
        }
    }
}

// What is at fault with such a row, where `count` is the number that is next and row 0 has `first` heights.
fn fault_with(count: u32, row: u32, heights: u32, first: u32) -> Option<RowFault>
    ensures { result ≡ fault_with count row heights first }
{
    if count < row {
        return Some(RowFault::Missing(count));
    }
    if heights == first {
        return None;
    }
    Some(RowFault::Unequal(row, heights, first))
}
