// The linear parts of a round, and those of a round undone. Bytes past the shares in use are kept: each part says so of its own slice, where a
// struct of the bytes with their count would say of each part that the count is kept.
ghost use Rattle.std.specs.Prelude.{map, ◌*◌, ◌<◌, ◌≤◌, length};
ghost use Rattle.steps.specs.Machine.{Ready, Went};
ghost use Rattle.present.specs.Present.{size80};
ghost use Rattle.present.specs.Masked.{recorded, masked_add_round_key, add_round_number};
ghost use Rattle.steps.specs.ShareBytes.{sharing, KeptPast};

use crate::recording::{record_nibbles, record_shares};
use layers::{Round, ShareMap};
use steps::ShareCount;
use steps::machine::Machine;

// A share count that is not 0, as that of a call: the round number goes to share 0, and what the S-box gives is a sharing.
#[derive(Clone, Copy)]
pub struct NonZeroCount {
    pub shares: ShareCount,
    pub ghost some: { 0 < shares.count },
}

// The shares of a block, 8 bytes each.
pub type BlockShares = [u8; 72];

// The shares of a key, 10 bytes each.
pub type KeyShares = [u8; 90];

// The key addition.
pub fn add_round_key<M: Machine>(
    machine: &mut M,
    s: ShareCount,
    key: &KeyShares,
    block: &mut BlockShares,
)
    requires { Ready (masked_add_round_key size80 s.count (sharing 10 s.count key.now) (sharing 8 s.count block.old)) (M.state machine.old) }
    ensures went { Went (masked_add_round_key size80 s.count (sharing 10 s.count key.now) (sharing 8 s.count block.old)) (M.state machine.old)
        (sharing 8 s.count block.new) (M.state machine.new) }
    ensures kept_past { KeptPast 8 s.count block.old block.new }
{
    layers::add_round_keys(s, key, &mut *block);
    record_shares(machine, 8, s, block);
}

// A linear map on each share: the permutation of a block or the rotation of a key, forth or back.
pub fn linear_map<T: ShareMap, M: Machine>(machine: &mut M, s: ShareCount, l: &mut [u8])
    requires in_bounds { T.BYTES * s.count ≤ length l.old }
    requires ready { Ready (recorded (2 * T.BYTES) s.count (map T.image (sharing T.BYTES s.count l.old))) (M.state machine.old) }
    ensures went { Went (recorded (2 * T.BYTES) s.count (map T.image (sharing T.BYTES s.count l.old))) (M.state machine.old)
        (sharing T.BYTES s.count l.new) (M.state machine.new) }
    ensures kept_past { KeptPast T.BYTES s.count l.old l.new }
{
    layers::map_shares::<T>(s, &mut *l);
    record_shares(machine, T::BYTES, s, l);
}

// The number of round r is added to share 0 of the key.
pub fn round_number<M: Machine>(machine: &mut M, s: NonZeroCount, r: Round, key: &mut KeyShares)
    requires { Ready (add_round_number size80 r.number (sharing 10 s.shares.count key.old)) (M.state machine.old) }
    ensures went { Went (add_round_number size80 r.number (sharing 10 s.shares.count key.old)) (M.state machine.old)
        (sharing 10 s.shares.count key.new) (M.state machine.new) }
    ensures kept_past { KeptPast 10 s.shares.count key.old key.new }
{
    layers::add_round_number(s.shares, r, &mut *key);
    record_nibbles(machine, 10, 0, 3, 5, key);
}
