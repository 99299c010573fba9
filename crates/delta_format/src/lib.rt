// What source document 004 and the customer say of height models in the DELTA form. The definitions are in specs/; here are the
// places where a row begins, each of a type of its own, so that the compiler takes none for another.
#![tactic(auto)]

// FIRST_DATA: "the zero-based index into the DATA array at which the first element of the corresponding row of values is stored"
#[repr(C)]
#[derive(Clone, Copy)]
pub struct FirstData(pub u64);

// FIRST_VALUE: "the zero-based index of the first value of the VALUE array to be used"
#[repr(C)]
#[derive(Clone, Copy)]
pub struct FirstValue(pub u64);

// FIRST_REPEAT: "the zero-based index of the first value of the REPEAT array to be used"
#[repr(C)]
#[derive(Clone, Copy)]
pub struct FirstRepeat(pub u64);

// The three, by their names.
#[repr(C)]
#[derive(Clone, Copy)]
pub struct RowPlaces {
    pub data: FirstData,
    pub value: FirstValue,
    pub repeat: FirstRepeat,
}
