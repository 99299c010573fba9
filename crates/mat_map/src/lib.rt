// Pressure mat maps: the calls that read and write one. What they answer is defined in map_format's specs/Calls.antt.
#![tactic(auto)]

mod code;
mod count;
mod field;
mod group;
mod groups;
mod pixel;
mod pixels;
mod put_group;
mod put_pixel;
mod read;
mod size;
mod sum;
mod write;

pub use read::read_map;
pub use write::write_map;
