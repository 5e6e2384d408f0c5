// The rounds of a masked block.
ghost use Rattle.std.specs.Prelude.{◌≡◌, ◌*◌, ◌<◌, length};
ghost use Rattle.steps.specs.Program.{for};
ghost use Rattle.steps.specs.Machine.{Went};
ghost use Rattle.steps.specs.ShareBytes.{sharing};
ghost use Rattle.cipher.specs.Past.{ZeroPastShares};
ghost use Rattle.present.specs.Present.{size80};
ghost use Rattle.present.specs.Masked.{masked_round};

use crate::key_schedule::update_key;
use crate::linear_parts::{BlockShares, KeyShares, NonZeroCount, add_round_key, linear_map};
use crate::nibble_box::NibbleBox;
use layers::{Permutation, Round};
use steps::machine::Machine;
use steps::{ShareCount, padded};

// The shares of a block and of a key between two rounds; the bytes past them are zero. A method that changes it says that the count is as before: the
// share count of its program is that of the state at entry.
#[derive(Clone, Copy)]
pub struct RoundState {
    pub count: NonZeroCount,
    pub block: BlockShares,
    pub key: KeyShares,
    pub ghost zero_past: { ZeroPastShares count.shares.count key block },
}

impl RoundState {
    ghost use Rattle.cipher.specs.Rounds.{sbox_of, sharings, Prepared};

    // The state before round 1.
    pub fn load(shares: ShareCount, key: &[u8], block: &[u8]) -> RoundState
        requires { (0 < shares.count) × (length key.now ≡ 10 * shares.count) × (length block.now ≡ 8 * shares.count) }
        ensures shares { result.count.shares ≡ shares }
        ensures key { sharing 10 shares.count result.key ≡ sharing 10 shares.count key.now }
        ensures block { sharing 8 shares.count result.block ≡ sharing 8 shares.count block.now }
    {
        RoundState {
            count: NonZeroCount { shares },
            block: padded(block),
            key: padded(key),
        }
    }

    // Round r.
    pub fn round<M: Machine>(&mut self, machine: &mut M, nibble_box: &NibbleBox<'_>, r: Round)
        requires { Prepared (masked_round (sbox_of nibble_box.now self.old.count.shares.count) size80 self.old.count.shares.count r.number (sharings self.old))
            (M.state machine.old) }
        ensures went { Went (masked_round (sbox_of nibble_box.now self.old.count.shares.count) size80 self.old.count.shares.count r.number (sharings self.old))
            (M.state machine.old) (sharings self.new) (M.state machine.new) }
        ensures same_count { self.new.count ≡ self.old.count }
    {
        let s = self.count;
        add_round_key(machine, s.shares, &self.key, &mut self.block);
        nibble_box.substitute_block(machine, s, &mut self.block);
        linear_map::<Permutation, M>(machine, s.shares, &mut self.block);
        update_key(machine, nibble_box, s, r, &mut self.key);
    }

    // Rounds 1 to 31.
    pub fn rounds<M: Machine>(&mut self, machine: &mut M, nibble_box: &NibbleBox<'_>)
        requires { Prepared (for 1 32 (masked_round (sbox_of nibble_box.now self.old.count.shares.count) size80 self.old.count.shares.count) (sharings self.old))
            (M.state machine.old) }
        ensures went { Went (for 1 32 (masked_round (sbox_of nibble_box.now self.old.count.shares.count) size80 self.old.count.shares.count) (sharings self.old))
            (M.state machine.old) (sharings self.new) (M.state machine.new) }
        ensures same_count { self.new.count ≡ self.old.count }
    {
        for r in 1..32 {
            self.round(machine, nibble_box, Round { number: r });
        }
    }
}
