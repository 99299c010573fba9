// A reader that keeps the lent words and its bit place between pixels and gives one item, with its pixel, a call. The work is
// done by `item_at`, whose parameters are plain; `Reader` holds the slices and the place, and its functions are thin.
#![tactic(auto)]

pub mod reader;
pub mod step;
