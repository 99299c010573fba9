// The kinds of records, and what a record of a kind holds.
ghost use Rattle.std.specs.Prelude.{◌≡◌};
ghost use Rattle.sheet_format.specs.Kind.{is_table, is_row};
ghost use Rattle.sheet_format.specs.Kinds.{kind_of, kind_code, CodeKnown};

use answer::refusal::Refusal;

#[derive(Clone, Copy)]
pub enum RecordKind {
    Table,
    PackedRow,
    PlainRow,
    ContourLine,
}

impl RecordKind {
    // Its code in a record.
    pub fn code(self) -> u32
        ensures { result ≡ kind_code self }
    {
        match self {
            RecordKind::Table => 1,
            RecordKind::PackedRow => 2,
            RecordKind::PlainRow => 3,
            RecordKind::ContourLine => 4,
        }
    }
}

impl TryFrom<u32> for RecordKind {
    type Error = Refusal;

    ghost try_from_gives = { CodeKnown };

    fn try_from(code: u32) -> Result<Self, Refusal> {
        match code {
            1 => Ok(RecordKind::Table),
            2 => Ok(RecordKind::PackedRow),
            3 => Ok(RecordKind::PlainRow),
            4 => Ok(RecordKind::ContourLine),
            _ => Err(Refusal::Kind),
        }
    }
}

// By the code in the answer that C has, which is 0 where no record is accepted.
pub fn is_table(kind: u32) -> bool
    ensures { result ≡ is_table (kind_of kind).holds }
{
    matches!(RecordKind::try_from(kind), Ok(RecordKind::Table))
}

pub fn is_row(kind: u32) -> bool
    ensures { result ≡ is_row (kind_of kind).holds }
{
    matches!(
        RecordKind::try_from(kind),
        Ok(RecordKind::PackedRow | RecordKind::PlainRow)
    )
}
