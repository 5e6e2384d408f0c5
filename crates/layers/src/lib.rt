// The state of a masked block in bytes, and the layers of PRESENT on it: a block is a `[u8; 72]`, a key a `[u8; 90]`.
#![tactic(auto)]

pub mod bytes;
pub mod key;
pub mod permutation;
pub mod share;
pub mod shares;

pub use key::Round;
pub use share::{InversePermutation, InverseRotation, Permutation, Rotation, ShareMap, nibble};
pub use shares::{add_round_keys, add_round_number, column, map_shares, replace_column};
