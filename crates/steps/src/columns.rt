// Sums over strings of bytes that lie one after the other.
ghost use Rattle.std.specs.Prelude.{◌≡◌, ◌+◌, ◌*◌, ◌<◌, ◌^◌, length};
ghost use Rattle.xor.specs.Sum.{join};
ghost use Rattle.steps.specs.Operations.{column};

// The sum of the bytes of l at j, at j + n and so on, k of them. By index, as the definition has it: a chain of `skip`, `step_by` and `take` is longer,
// and asks that n is not 0.
#[tactic(auto, using(crate::proofs::Operations::columns))]
pub fn column_sum(l: &[u8], n: usize, j: usize, k: usize) -> u8
    requires { (n < 2 ^ 32) × (j + k * n < length l.now + n) }
    ensures { result ≡ join (column l.now n j k) }
{
    let mut sum = 0u8;
    for i in 0..k {
        sum ^= l[j + i * n];
    }
    sum
}
