// The text of a map's counts, 128 lines of 128, and counts from text. The definitions are in specs/MapText.antt and
// specs/Scan.antt; `text-back` in specs/Theorems.antt says that the text gives the counts back.
#![tactic(auto)]

pub mod counts;
pub mod map;
pub mod scan;
pub mod spaced;
