// All shares of a block or of a key: the parts of a round on them, and nibbles as sharings of their own. Bytes past the shares in use are kept.
// Loops go by the number of the share: of what is written through `chunks_exact_mut`, or an adapter of `iter_mut`, the library says the length alone.
ghost use Rattle.std.specs.Prelude.{◌≡◌, map, ◌*◌, ◌<◌, ◌≤◌, length};
ghost use Rattle.xor.specs.Xor.{◌⊕◌};
ghost use Rattle.xor.specs.Sum.{join};
ghost use Rattle.steps.specs.Sharing.{Sharing};
ghost use Rattle.present.specs.Present as present;
ghost use Rattle.steps.specs.Sharing.{share_wise, alone};
ghost use Rattle.steps.specs.ShareBytes.{sharing, KeptPast};

use crate::key::Round;
use crate::share::{ShareMap, add_number, add_share, map_share, nibble, replace};
use steps::{ShareCount, filled};

// Puts each share through a map.
pub fn map_shares<M: ShareMap>(s: ShareCount, l: &mut [u8])
    requires { M.BYTES * s.count ≤ length l.old }
    ensures l_after { sharing M.BYTES s.count l.new ≡ map M.image (sharing M.BYTES s.count l.old) }
    ensures kept_past { KeptPast M.BYTES s.count l.old l.new }
{
    for i in 0..s.count {
        map_share::<M>(i, l);
    }
}

// Adds the round key of each share of a key to that share of a block.
pub fn add_round_keys(s: ShareCount, key: &[u8; 90], block: &mut [u8; 72])
    ensures block_after { sharing 8 s.count block.new
        ≡ share_wise ◌⊕◌ (map (present.round_key present.size80) (sharing 10 s.count key.now)) (sharing 8 s.count block.old) }
    ensures kept_past { KeptPast 8 s.count block.old block.new }
{
    for i in 0..s.count {
        add_share(i, key, block);
    }
}

// Adds the number of round r to share 0 of a key.
pub fn add_round_number(s: ShareCount, r: Round, key: &mut [u8; 90])
    requires { 0 < s.count }
    ensures key_after { sharing 10 s.count key.new
        ≡ share_wise ◌⊕◌ (sharing 10 s.count key.old) (alone (present.round_number present.size80 r.number)) }
    ensures kept_past { KeptPast 10 s.count key.old key.new }
{
    add_number(r, key);
}

// Nibble k of each share, of w bytes.
pub fn column(w: usize, s: ShareCount, k: usize, l: &[u8]) -> [u8; 9]
    requires { (k < 2 * w) × (w * s.count ≤ length l.now) }
    ensures { result ≡ map (present.nibble k) (sharing w s.count l.now) }
{
    filled(s.count, |i| nibble(w, i, k, l))
}

// Replaces nibble k of each share, of w bytes, by that share of v.
pub fn replace_column(w: usize, s: ShareCount, k: usize, v: &[u8; 9], l: &mut [u8])
    requires nibble { (k < 2 * w) × (w * s.count ≤ length l.old) }
    requires v_sharing { (length v.now ≡ 9) × Sharing 4 s.count (join v.now) v.now }
    ensures l_after { sharing w s.count l.new ≡ share_wise (present.replace k) (sharing w s.count l.old) v.now }
    ensures kept_past { KeptPast w s.count l.old l.new }
{
    for i in 0..s.count {
        replace(w, i, k, v[i], l);
    }
}
