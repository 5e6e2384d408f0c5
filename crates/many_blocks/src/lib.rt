// For bench/run alone: many blocks with one key as C functions, since C can call no inner function.
#![tactic(auto)]

ghost use Rattle.std.specs.Prelude.{◌≡◌};
ghost use Rattle.steps.specs.Bytes.{from_bytes};
ghost use Rattle.present.specs.Present.{size80, encrypt};
ghost use Rattle.present.specs.Decrypt.{decrypt};
ghost use Rattle.many_blocks.specs.Many.{fits, many};

use unshared::{Decryption, Direction, Encryption, process_blocks};

// Whether key, blocks and output have 10, 8 n and 8 n bytes.
#[tactic(auto, unfolding(crate::specs::Many::fits))]
fn lengths_fit(key: usize, blocks: usize, out: usize) -> bool
    ensures { result ≡ fits key blocks out }
{
    key == 10 && blocks % 8 == 0 && out == blocks
}

// Writes what becomes of the blocks, where the lengths fit.
fn process<D: Direction>(key: &[u8], blocks: &[u8], out: &mut [u8])
    ensures { out.new ≡ many (D.image (from_bytes key.now)) key.now blocks.now out.old }
{
    if lengths_fit(key.len(), blocks.len(), out.len()) {
        process_blocks::<D>(key, blocks, out);
    }
}

// Encrypts the blocks.
#[unsafe(no_mangle)]
pub extern "C" fn many_encrypt(key: &[u8], blocks: &[u8], out: &mut [u8])
    ensures { out.new ≡ many (encrypt size80 (from_bytes key.now)) key.now blocks.now out.old }
{
    process::<Encryption>(key, blocks, out);
}

// Decrypts the blocks.
#[unsafe(no_mangle)]
pub extern "C" fn many_decrypt(key: &[u8], blocks: &[u8], out: &mut [u8])
    ensures { out.new ≡ many (decrypt size80 (from_bytes key.now)) key.now blocks.now out.old }
{
    process::<Decryption>(key, blocks, out);
}
