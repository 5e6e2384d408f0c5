// Linear equations over a small field, solved by Gauss-Jordan elimination in a lent buffer of bytes.
// The augmented matrix lies row after row; its last column is the right side. Over the field of two elements a byte holds eight entries.
#![tactic(auto)]

pub mod bit_matrix;
pub mod element_matrix;
mod eliminating;
pub mod matrix;
pub mod packing;
mod reading_off;
pub mod rows;
pub mod solving;

pub use bit_matrix::BitMatrix;
pub use element_matrix::ElementMatrix;
pub use packing::put_bit;
pub use solving::{NoSolution, solve};
