// A key of 80 bits, or a share of one, in two parts, and what the key schedule does to it.
ghost use Rattle.std.specs.Prelude.{◌≡◌, ◌<◌, length};
ghost use Rattle.xor.specs.Xor.{◌⊕◌};
ghost use Rattle.steps.specs.Bytes.{from_bytes};
ghost use Rattle.present.specs.Present as present;
ghost use Rattle.present.specs.Decrypt as decryption;
ghost use Rattle.layers.specs.Held.{held};

use crate::bytes::{read_u64, write_u64};

// PRESENT's table, one nibble an entry, entry 0 the lowest. An array would be written out in every round.
const TABLE: u64 = 0x21748FE3DA09B65C;

// The S-box.
#[tactic(auto, using(crate::proofs::KeyParts::nibbles))]
fn substitute(v: u64) -> u64
    requires { v < 16 }
    ensures { (result ≡ present.substitute v) × (result < 16) }
{
    (TABLE >> (4 * v)) % 16
}

// The number of a round, which five bits hold.
#[derive(Clone, Copy)]
pub struct Round {
    pub number: u16,
    pub ghost small: { number < 32 },
}

// The first 64 bits of a key, which are the round key, and its last 16. Rotations forth and back are each written as their definition is: one by the
// other's distance would be two shifts of a number of 80 bits, which no type has.
#[derive(Clone, Copy)]
pub struct Key {
    pub high: u64,
    pub low: u16,
}

impl Key {
    // The key that lies in ten bytes.
    pub fn load(bytes: &[u8]) -> Key
        requires { length bytes.now ≡ 10 }
        ensures { held present.size80 result ≡ from_bytes bytes.now }
    {
        let (high, low) = bytes.split_at(8);
        Key {
            high: read_u64(high),
            low: u16::from_be_bytes(low.try_into().unwrap()),
        }
    }

    // Writes the key to ten bytes.
    pub fn store(self, bytes: &mut [u8])
        requires { length bytes.old ≡ 10 }
        ensures { from_bytes bytes.new ≡ held present.size80 self }
    {
        let (high, low) = bytes.split_at_mut(8);
        write_u64(high, self.high);
        low.copy_from_slice(&self.low.to_be_bytes());
    }

    // The key rotated left by 61.
    #[tactic(auto, using(crate::proofs::KeyParts::rotated_parts))]
    pub fn rotate(self) -> Key
        ensures { held present.size80 result ≡ present.rotate present.size80 (held present.size80 self) }
    {
        let t = self.high;
        let u = u64::from(self.low);
        Key {
            high: t % 8 * 0x2000000000000000 + u * 0x200000000000 + t / 0x80000,
            low: (t / 8 % 0x10000) as u16,
        }
    }

    // The key rotated right by 61.
    #[tactic(auto, using(crate::proofs::KeyParts::unrotated_parts))]
    pub fn unrotate(self) -> Key
        ensures { held present.size80 result ≡ decryption.unrotate present.size80 (held present.size80 self) }
    {
        let t = self.high;
        let u = u64::from(self.low);
        Key {
            high: t % 0x200000000000 * 0x80000 + u * 8 + t / 0x2000000000000000,
            low: (t / 0x200000000000 % 0x10000) as u16,
        }
    }

    // The key with its top nibble put through the S-box.
    #[tactic(auto, using(crate::proofs::KeyParts::top_of))]
    fn substitute_top(self) -> Key
        ensures { held present.size80 result ≡ present.on_top_nibbles present.substitute present.size80 (held present.size80 self) }
    {
        let t = self.high;
        let v = substitute(t / 0x1000000000000000);
        Key {
            high: v * 0x1000000000000000 + t % 0x1000000000000000,
            low: self.low,
        }
    }

    // The key with the number of round r added at bits 19 to 15.
    #[tactic(auto, using(crate::proofs::KeyParts::number_of))]
    pub fn add_number(self, r: Round) -> Key
        ensures { held present.size80 result ≡ held present.size80 self ⊕ present.round_number present.size80 r.number }
    {
        Key {
            high: self.high ^ u64::from(r.number / 2),
            low: self.low ^ (r.number % 2 * 0x8000),
        }
    }

    // The key after round r.
    #[tactic(auto, unfolding(present::specs::Present::update_key))]
    pub fn update(self, r: Round) -> Key
        ensures { held present.size80 result ≡ present.update_key present.size80 r.number (held present.size80 self) }
    {
        self.rotate().substitute_top().add_number(r)
    }
}
