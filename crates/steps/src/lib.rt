// Steps of masked computations in code: the machine that takes them, its counts, its random elements and its recorder.
// The operations Split and Join are `splitting::split` and `joining::join`.
#![tactic(auto)]

pub mod calling;
mod columns;
pub mod counts;
pub mod drawing;
pub mod filling;
pub mod joining;
pub mod machine;
pub mod recording;
pub mod share_count;
pub mod splitting;

pub use counts::{Counts, Taken};
pub use drawing::{bytes_for, draw, refuse_large_random};
pub use filling::{filled, padded};
pub use joining::join;
pub use share_count::ShareCount;
pub use splitting::split;
