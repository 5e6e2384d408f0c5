// Arrays of which the first places are given, and zeros past them.
ghost use Rattle.std.specs.Prelude.{◌≡◌, ℕ, ◌≤◌, ◌<◌, length, replicate};
ghost use Rattle.steps.specs.Fill.{fill, padded, Gives};

// These bytes at the start of an array, and zeros past them.
#[tactic(auto, using(crate::proofs::Fill::padded_copy))]
pub fn padded<const N: usize>(bytes: &[u8]) -> [u8; N]
    requires { length bytes.now ≤ N }
    ensures { result ≡ padded N bytes.now }
{
    let mut array = [0u8; N];
    array[..bytes.len()].copy_from_slice(bytes);
    array
}

// An array whose place p, of the first `count`, `byte` gives, and zeros past them. (The library's `array::from_fn` would ask `byte` for every place.)
#[tactic(auto, using(crate::proofs::Fill::fills))]
pub fn filled<const N: usize, F: Fn(usize) -> u8>(count: usize, byte: F) -> [u8; N]
    requires room { count ≤ N }
    requires callable { (p : ℕ) → p < count → F.pre byte p }
    ensures { (f : ℕ → ℕ) → Gives (F.post byte) count f → result ≡ fill count f (replicate N 0) }
{
    let mut array = [0u8; N];
    for p in 0..count {
        array[p] = byte(p);
    }
    array
}
