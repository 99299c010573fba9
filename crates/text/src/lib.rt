// Text into lent bytes: words, numbers and the lines of the programs; numbers from text. Every writer takes the place
// to write at and answers the place after what it wrote. The texts are defined in specs/Text.antt and
// specs/Lines.antt, what text is read as in specs/Number.antt.
#![tactic(auto)]

pub mod line;
pub mod number;
pub mod put;
pub mod read;
