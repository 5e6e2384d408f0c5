// The operations Encrypt and Decrypt.
ghost use Rattle.std.specs.Prelude.{◌≡◌, length};
ghost use Rattle.refusal.specs.Outcome.{Answered};
ghost use Rattle.refusal.specs.Refusals.{report, nothing};
ghost use Rattle.steps.specs.Bytes.{from_bytes, to_bytes};
ghost use Rattle.present.specs.Present.{size80};
ghost use Rattle.unshared.specs.Operations.{unshared_lengths, unshared_outcome, encrypt_output, decrypt_output};

use crate::blocks::process_blocks;
use crate::direction::{Decryption, Direction, Encryption};
use refusal::{Refusal, refuse_unless};

// Writes the ciphertext of a block of 8 bytes under a key of 10, high byte first. Not masked: for a place where nobody measures.
// Refused: 2 a length. Then `out` is unchanged.
#[tactic(auto, unfolding(crate::specs::Operations::encrypt_output))]
pub fn encrypt(key: &[u8], block: &[u8], out: &mut [u8]) -> Result<(), Refusal>
    ensures { Answered (unshared_outcome size80 (length key.now) (length block.now) (length out.old))
        (encrypt_output size80 key.now block.now) out.old (report nothing result) out.new }
{
    process::<Encryption>(key, block, out)
}

// Writes the block of which this is the ciphertext, both of 8 bytes, under a key of 10, high byte first. Not masked: for a place where nobody measures.
// Refused: 2 a length. Then `out` is unchanged.
#[tactic(auto, unfolding(crate::specs::Operations::decrypt_output))]
pub fn decrypt(key: &[u8], block: &[u8], out: &mut [u8]) -> Result<(), Refusal>
    ensures { Answered (unshared_outcome size80 (length key.now) (length block.now) (length out.old))
        (decrypt_output size80 key.now block.now) out.old (report nothing result) out.new }
{
    process::<Decryption>(key, block, out)
}

// Writes what becomes of a block.
fn process<D: Direction>(key: &[u8], block: &[u8], out: &mut [u8]) -> Result<(), Refusal>
    ensures { Answered (unshared_outcome size80 (length key.now) (length block.now) (length out.old))
        (to_bytes 8 (D.image (from_bytes key.now) (from_bytes block.now))) out.old (report nothing result) out.new }
{
    refuse_unless(
        lengths_fit(key.len(), block.len(), out.len()),
        Refusal::Length,
    )?;
    process_blocks::<D>(key, block, out);
    Ok(())
}

// Whether a key, a block and an output have 10, 8 and 8 bytes.
#[tactic(auto, unfolding(crate::specs::Operations::unshared_lengths))]
fn lengths_fit(key: usize, block: usize, out: usize) -> bool
    ensures { result ≡ unshared_lengths size80 key block out }
{
    key == 10 && block == 8 && out == 8
}
