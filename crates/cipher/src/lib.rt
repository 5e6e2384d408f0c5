// Masked PRESENT-80. The operations Block and Watch block are `enciphering::block` and `enciphering::watch_block`, Open and Watch open are
// `opening::open` and `opening::watch_open`. Each parses its records and then makes a call or a watch (`steps::calling`); what it runs is its `run`, over
// `rounds`, `undoing` and what these call.
#![tactic(auto)]

pub mod enciphering;
pub mod figures;
mod key_schedule;
mod linear_parts;
mod nibble_box;
pub mod opening;
mod recording;
mod rounds;
mod undoing;

pub use enciphering::{block, watch_block};
pub use opening::{open, watch_open};
