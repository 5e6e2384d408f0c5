// Masked AES-128 as a masked operation of a key and a block.
ghost use Rattle.std.proofs.Common.{rules};
ghost use Rattle.aes.specs.Operations.{aes_128};

use crate::figures::block_counts;
use crate::key_expansion::expand;
use crate::parts::{BlockShares, load};
use crate::rounds::cipher;
use steps::ShareCount;
use steps::calling::Ciphering;
use steps::machine::Machine;

// AES-128, masked. It has no records.
#[derive(Clone, Copy)]
pub struct Aes128;

impl Ciphering<8, 144> for Aes128 {
    ghost KEY = { 16 };

    ghost BLOCK = { 16 };

    ghost cipher = { λ _. aes_128 };

    fn key_bytes(&self) -> usize {
        16
    }

    fn block_bytes(&self) -> usize {
        16
    }

    fn draw_count(&self, s: ShareCount) -> usize {
        block_counts(s).random
    }

    fn step_count(&self, s: ShareCount) -> u32 {
        block_counts(s).steps
    }

    fn run<M: Machine>(
        &self,
        machine: &mut M,
        s: ShareCount,
        key: &[u8],
        block: &[u8],
    ) -> BlockShares {
        let schedule = expand(machine, s, &load(key));
        cipher(machine, s, &schedule, &load(block))
    }

    ghost sizes = { Prim.search rules };
}
