// What w and m make of a catalogue, as numbers; and refusals 1 to 3, with which every entry point begins.
#![tactic(auto)]

mod accepted;
mod shape;

pub use accepted::{Accepted, refused_early};
pub use shape::{ListedShape, listed, tables};
