// The two directions of the cipher: the keys of a direction's rounds, and what they make of a block.
ghost use Rattle.std.specs.Prelude.{◌≡◌, List, ℕ, ◌^◌, ◌<◌};
ghost use Rattle.present.specs.Present.{size80, encrypt};
ghost use Rattle.present.specs.Decrypt.{decrypt};
ghost use Rattle.layers.specs.Held.{held};
ghost use Rattle.unshared.specs.RoundKeys.{round_keys, inverse_keys};

use crate::decryption_table::decryption_table;
use crate::encryption_table::encryption_table;
use crate::rounds::by_table;
use layers::key::{Key, Round};
use layers::permutation::{permute, unpermute};

// Encryption or decryption. Each has its own table and its own order of the keys, and no other constant would make one of the other.
pub trait Direction {
    // What becomes of a block under a key.
    ghost image: { ℕ → ℕ → ℕ };

    // The keys of the rounds, of a key.
    ghost schedule: { ℕ → List ℕ };

    // The keys of the rounds.
    fn round_keys(key: Key) -> [u64; 32]
        ensures { result ≡ schedule (held size80 key) };

    // What becomes of a block, by the keys of the rounds.
    fn process(keys: &[u64; 32], x: u64) -> u64
        ensures { (k : ℕ) → k < 2 ^ 80 → keys.now ≡ schedule k → result ≡ image k x };
}

// From a block to its ciphertext.
pub struct Encryption;

impl Direction for Encryption {
    ghost image = { encrypt size80 };

    ghost schedule = { round_keys size80 };

    // The loop goes by the number of a round, which its key takes up.
    fn round_keys(key: Key) -> [u64; 32] {
        let mut key = key;
        let mut keys = [key.high; 32];
        for r in 1..32 {
            key = key.update(Round { number: r as u16 });
            keys[r] = key.high;
        }
        keys
    }

    fn process(keys: &[u64; 32], x: u64) -> u64 {
        by_table(encryption_table(), keys, x)
    }
}

// From a ciphertext to its block. The rounds hold a block as the inverse permutation leaves it.
pub struct Decryption;

impl Direction for Decryption {
    ghost image = { decrypt size80 };

    ghost schedule = { inverse_keys size80 };

    // The round keys, the last first, each by the inverse permutation, where they are: `map` would make another array.
    fn round_keys(key: Key) -> [u64; 32] {
        let mut keys = Encryption::round_keys(key);
        for k in keys.iter_mut() {
            *k = unpermute(*k);
        }
        keys.reverse();
        keys
    }

    fn process(keys: &[u64; 32], x: u64) -> u64 {
        permute(by_table(decryption_table(), keys, unpermute(x)))
    }
}
