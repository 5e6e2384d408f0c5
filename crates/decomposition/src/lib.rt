// Decompositions of tables. The operations are `reading::read` and `checking::check` for their records, `fitting::fit` and `fitting::house_fit` to find them.
#![tactic(auto, using(crate::proofs::Whole::sizes_of))]

mod bit_equations;
pub mod checking;
mod decomposing;
mod equations;
pub mod fitting;
pub mod layouts;
mod polynomial;
mod problems;
pub mod reading;
pub mod records;

pub use checking::check;
pub use fitting::{fit, house_fit};
pub use layouts::Layout;
pub use reading::{head_of, outputs_of, read};
pub use records::Record;
