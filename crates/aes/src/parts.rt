// Strings of bytes in shares: made place by place, and parts of them taken and replaced.
ghost use Rattle.std.specs.Prelude.{◌≡◌, [], ℕ, ◌+◌, ◌*◌, ◌/◌, ◌≤◌, ◌<◌, length, replicate};
ghost use Rattle.steps.specs.Fill.{fill, Gives};
ghost use Rattle.rijndael.specs.Strings.{place_of, make_shares, take_at, put_shares, loaded};

use product::Sharing;
use steps::{ShareCount, filled, padded};

// Strings of 4, of 16 and of 176 bytes in nine places, one for each share: share 0 first, 0 past the shares in use. The definitions have such a string as
// one list, so the array is flat too: of `[[u8; N]; 9]` each contract would say that it is the list of its rows, one after the other.
pub type WordShares = [u8; 36];

pub type BlockShares = [u8; 144];

pub type ScheduleShares = [u8; 1584];

// A string of N / 9 bytes in s shares, whose place p `byte` gives.
#[tactic(auto, using(crate::proofs::Bounds::few))]
pub fn make_shares<const N: usize, F: Fn(usize) -> u8>(s: ShareCount, byte: F) -> [u8; N]
    requires { (p : ℕ) → p < s.count * (N / 9) → F.pre byte p }
    ensures { (f : ℕ → ℕ) → Gives (F.post byte) (s.count * (N / 9)) f → result ≡ fill (s.count * (N / 9)) f (replicate N 0) }
{
    filled(s.count * (N / 9), byte)
}

// Byte j of each share of a string of N / 9 bytes.
#[tactic(auto, using(crate::proofs::Places::take_place))]
pub fn take_byte<const N: usize>(s: ShareCount, j: usize, a: &[u8; N]) -> Sharing
    requires { j < N / 9 }
    ensures { result ≡ make_shares s.count (N / 9) 0 1 (take_at j) a.now [] }
{
    make_shares(
        s,
        |i|
            requires { (i < 9) × (j < N / 9) }
            ensures { result ≡ place_of (N / 9) 0 1 (take_at j) a.entry.now [] i }
        { a[i * (N / 9) + j] },
    )
}

// The bytes of `part` replace those of a from number `at` on, in each of s shares. The loop goes by index: of what is written through `chunks_exact_mut`
// the library says the length alone.
pub fn put_shares<const N: usize, const P: usize>(
    s: ShareCount,
    at: usize,
    part: &[u8; P],
    a: &mut [u8; N],
)
    requires { at + P / 9 ≤ N / 9 }
    ensures { a.new ≡ put_shares s.count (N / 9) at (P / 9) a.old part.now }
{
    let (string, part) = (&mut a[..], &part[..]);
    for i in 0..s.count {
        let place = i * (N / 9) + at;
        string[place..place + P / 9].copy_from_slice(&part[i * (P / 9)..(i + 1) * (P / 9)]);
    }
}

// The shares of a string of 16 bytes in nine places, 0 past them.
#[tactic(auto, using(crate::proofs::Fills::loaded_padded))]
pub fn load(a: &[u8]) -> BlockShares
    requires { length a.now ≤ 144 }
    ensures { result ≡ loaded 16 a.now }
{
    padded(a)
}
