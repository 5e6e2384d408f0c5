// The masked S-box. The operations S-box and Watch S-box are `substituting::sbox` and `watching::watch_sbox`; both take their steps in `run`, whose parts
// are the modules from `evaluation` on whose names end in `rows`.
#![tactic(auto)]

mod arguments;
mod calling;
mod evaluation;
mod figures;
mod narrow_fields;
mod polynomial_rows;
mod power_rows;
mod product_rows;
pub mod substituting;
pub mod watching;

pub use evaluation::run;
pub use substituting::sbox;
pub use watching::watch_sbox;
