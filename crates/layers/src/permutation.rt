// The permutation and its inverse, by exchanges of bits: eight lines, which a loop over masks forth or back would not make fewer.
ghost use Rattle.std.specs.Prelude.{◌≡◌, ◌<◌};
ghost use Rattle.present.specs.Present as present;
ghost use Rattle.present.specs.Decrypt as decryption;
ghost use Rattle.layers.specs.Swap as spec;

// Exchanges the bits at the places of the mask with those that are k places higher.
fn exchange(x: u64, mask: u64, k: u32) -> u64
    requires { k < 64 }
    ensures { result ≡ spec.exchange mask k x }
{
    let d = ((x >> k) ^ x) & mask;
    (x ^ d) ^ (d << k)
}

// Bit i goes to 16 i mod 63; bit 63 stays.
#[tactic(auto, using(crate::proofs::Exchanges::exchanges_permute))]
pub fn permute(x: u64) -> u64
    ensures { result ≡ present.permute x }
{
    let a = exchange(x, 0x0A0A0A0A0A0A0A0A, 3);
    let b = exchange(a, 0x00CC00CC00CC00CC, 6);
    let c = exchange(b, 0x0000F0F00000F0F0, 12);
    exchange(c, 0x00000000FF00FF00, 24)
}

// The same exchanges in the other order: bit 16 i mod 63 goes to i.
#[tactic(auto, using(crate::proofs::Exchanges::exchanges_unpermute))]
pub fn unpermute(x: u64) -> u64
    ensures { result ≡ decryption.unpermute x }
{
    let a = exchange(x, 0x00000000FF00FF00, 24);
    let b = exchange(a, 0x0000F0F00000F0F0, 12);
    let c = exchange(b, 0x00CC00CC00CC00CC, 6);
    exchange(c, 0x0A0A0A0A0A0A0A0A, 3)
}
