// Many blocks with one key: the keys of its rounds are made once.
ghost use Rattle.std.specs.Prelude.{◌≡◌, ◌/◌, length};
ghost use Rattle.steps.specs.Bytes.{from_bytes};
ghost use Rattle.unshared.specs.Operations.{on_blocks, BlocksFit};

use crate::direction::Direction;
use layers::bytes::{read_u64, write_u64};
use layers::key::Key;

// Writes what becomes of each block under the key. By index: nothing is known of what is written through `chunks_exact_mut`.
pub fn process_blocks<D: Direction>(key: &[u8], blocks: &[u8], out: &mut [u8])
    requires key { length key.now ≡ 10 }
    requires fit { BlocksFit blocks.now out.old }
    ensures { out.new ≡ on_blocks (D.image (from_bytes key.now)) (length blocks.now / 8) blocks.now }
{
    let keys = D::round_keys(Key::load(key));
    for i in 0..blocks.len() / 8 {
        let x = read_u64(&blocks[8 * i..8 * i + 8]);
        write_u64(&mut out[8 * i..8 * i + 8], D::process(&keys, x));
    }
}
