// What every call of the library answers. The definitions are in specs/.
#![tactic(auto)]

pub mod refusal;

// A number of document 01's table, 0 for done, and a count, which is 0 for every refusal.
#[repr(C)]
#[derive(Clone, Copy)]
pub struct Answer {
    pub number: u32,
    pub count: u32,
}

// The same where the count may be above 32 bits.
#[repr(C)]
#[derive(Clone, Copy)]
pub struct LongAnswer {
    pub number: u32,
    pub count: u64,
}
