// One share of a block or of a key: its nibbles, and the parts of a round on it.
ghost use Rattle.std.specs.Prelude.{◌≡◌, ℕ, ◌+◌, ◌*◌, ◌<◌, ◌≤◌, length};
ghost use Rattle.xor.specs.Xor.{◌⊕◌};
ghost use Rattle.present.specs.Present as present;
ghost use Rattle.present.specs.Decrypt as decryption;
ghost use Rattle.present.proofs.Numbers.{permute_linear, unpermute_linear, rotate_linear, unrotate_linear, sound80};
ghost use Rattle.steps.specs.Bytes.{from_bytes};
ghost use Rattle.steps.specs.Linear.{Linear};
ghost use Rattle.steps.specs.ShareBytes.{share_at, Changed};

use crate::bytes::{read_u64, write_u64};
use crate::key::{Key, Round};
use crate::permutation::{permute, unpermute};

// A linear map on the shares of a block or of a key.
pub trait ShareMap {
    ghost BYTES: { ℕ };

    // How many bytes a share has.
    const BYTES: usize;

    // What becomes of the number that a share is.
    ghost image: { ℕ → ℕ };

    // Puts the share in these bytes through the map.
    fn apply(share: &mut [u8])
        requires { length share.old ≡ BYTES }
        ensures { from_bytes share.new ≡ image (from_bytes share.old) };

    ghost linear: { Linear (8 * BYTES) (8 * BYTES) image };
}

// The permutation of a block.
pub struct Permutation;

impl ShareMap for Permutation {
    ghost BYTES = { 8 };

    const BYTES: usize = 8;

    ghost image = { present.permute };

    ghost linear = { permute_linear };

    fn apply(share: &mut [u8]) {
        let x = read_u64(share);
        write_u64(share, permute(x));
    }
}

// The inverse permutation.
pub struct InversePermutation;

impl ShareMap for InversePermutation {
    ghost BYTES = { 8 };

    const BYTES: usize = 8;

    ghost image = { decryption.unpermute };

    ghost linear = { unpermute_linear };

    fn apply(share: &mut [u8]) {
        let x = read_u64(share);
        write_u64(share, unpermute(x));
    }
}

// The rotation of a key left by 61.
pub struct Rotation;

impl ShareMap for Rotation {
    ghost BYTES = { 10 };

    const BYTES: usize = 10;

    ghost image = { present.rotate present.size80 };

    ghost linear = { rotate_linear present.size80 sound80 };

    fn apply(share: &mut [u8]) {
        Key::load(share).rotate().store(share);
    }
}

// The rotation of a key right by 61.
pub struct InverseRotation;

impl ShareMap for InverseRotation {
    ghost BYTES = { 10 };

    const BYTES: usize = 10;

    ghost image = { decryption.unrotate present.size80 };

    ghost linear = { unrotate_linear present.size80 sound80 };

    fn apply(share: &mut [u8]) {
        Key::load(share).unrotate().store(share);
    }
}

// Puts share i through a map.
pub fn map_share<M: ShareMap>(i: usize, l: &mut [u8])
    requires { M.BYTES * i + M.BYTES ≤ length l.old }
    ensures { Changed M.BYTES i (M.image (share_at M.BYTES l.old i)) l.old l.new }
{
    let at = M::BYTES * i;
    M::apply(&mut l[at..at + M::BYTES]);
}

// Adds the round key of share i of a key to share i of a block.
pub fn add_share(i: usize, key: &[u8], block: &mut [u8])
    requires { (10 * i + 10 ≤ length key.now) × (8 * i + 8 ≤ length block.old) }
    ensures { Changed 8 i (present.round_key present.size80 (share_at 10 key.now i) ⊕ share_at 8 block.old i)
        block.old block.new }
{
    let round_key = read_u64(&key[10 * i..10 * i + 8]);
    let share = &mut block[8 * i..8 * i + 8];
    let x = read_u64(share);
    write_u64(share, round_key ^ x);
}

// Nibble k of share i, of w bytes: read and replaced as one, where `bit_at` and `put_bit` of `linear` would take a call for each bit. The bound of k is
// that of a loop over nibbles, or of a number, and a type for it would be made in each turn.
pub fn nibble(w: usize, i: usize, k: usize, l: &[u8]) -> u8
    requires { (k < 2 * w) × (w * i + w ≤ length l.now) }
    ensures { result ≡ present.nibble k (share_at w l.now i) }
{
    let b = l[w * i + (w - 1 - k / 2)];
    (b >> (4 * (k % 2))) % 16
}

// Replaces nibble k of share i, of w bytes, by v.
pub fn replace(w: usize, i: usize, k: usize, v: u8, l: &mut [u8])
    requires { (k < 2 * w) × (w * i + w ≤ length l.old) × (v < 16) }
    ensures { Changed w i (present.replace k (share_at w l.old i) v) l.old l.new }
{
    let at = w * i + (w - 1 - k / 2);
    let shift = 4 * (k % 2);
    let b = l[at];
    let d = ((b >> shift) % 16) ^ v;
    l[at] = b ^ (d << shift);
}

// Adds the number of round r to share 0 of a key.
pub fn add_number(r: Round, key: &mut [u8])
    requires { 10 ≤ length key.old }
    ensures { Changed 10 0 (share_at 10 key.old 0 ⊕ present.round_number present.size80 r.number) key.old key.new }
{
    let share = &mut key[..10];
    Key::load(share).add_number(r).store(share);
}
