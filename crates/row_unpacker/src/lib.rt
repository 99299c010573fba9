// Reading: one item at a place of a row's words, and a whole row of pixels.
#![tactic(auto)]

pub mod hints;
pub mod item;
pub mod row;
pub mod search;
pub mod unpack;
pub mod view;
