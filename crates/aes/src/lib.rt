// Masked AES-128. The operations AES block and Watch AES block are `enciphering::block` and `watching::watch_block`; both take their steps in
// `run` of `encryption`, whose parts are the modules `key_expansion`, `rounds`, `layers`, `substitution`, `inversion` and `recording`.
#![tactic(auto)]

pub mod enciphering;
mod encryption;
pub mod figures;
mod inversion;
mod key_expansion;
mod layers;
mod parts;
mod recording;
mod rounds;
mod substitution;
pub mod watching;

pub use enciphering::block;
pub use watching::watch_block;
