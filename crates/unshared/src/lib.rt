// PRESENT-80 without shares, both ways, by tables. The operations Encrypt and Decrypt are `ciphering::encrypt` and `ciphering::decrypt`; both
// call `process_blocks`, which takes many blocks with one key, at their `Direction`.
#![tactic(auto)]

pub mod blocks;
pub mod ciphering;
mod decryption_table;
pub mod direction;
mod encryption_table;
mod lookup;
mod rounds;

pub use blocks::process_blocks;
pub use ciphering::{decrypt, encrypt};
pub use direction::{Decryption, Direction, Encryption};
