// Bits in a buffer of bytes, bit 0 first. Each byte holds n of them: 8 in the rows of a matrix, and as many as an element has where the bits of
// elements are written. A place is a byte, where a row or a solution begins, and a bit from there on: slices would have each caller add the two. What two
// slices ask of one another, and what becomes of them (`Added`), stands where they are named.
ghost use Rattle.std.specs.Prelude.{◌≡◌, ◌+◌, ◌*◌, ◌/◌, ◌<◌, ◌≤◌, length};
ghost use Rattle.xor.specs.Sum.{Small};
ghost use Rattle.linear.specs.Buffer.{Written, Overwritten};
ghost use Rattle.linear.specs.Packed.{bits_of, sum_bytes, Added};

// Bit c of those that begin with byte a.
pub fn bit_at(n: usize, bytes: &[u8], a: usize, c: usize) -> u8
    requires { (0 < n) × (n ≤ 8) × (a + c / n < length bytes.now) }
    ensures { result ≡ bits_of n bytes.now (a * n + c) }
{
    let b = bytes[a + c / n];
    (b >> (c % n)) % 2
}

// Sets bit c of those that begin with byte a to v.
pub fn put_bit(n: usize, bytes: &mut [u8], a: usize, c: usize, v: u8)
    requires { (0 < n) × (n ≤ 8) × (a + c / n < length bytes.old) × (v < 2) }
    ensures written { Written (bits_of n bytes.old) (bits_of n bytes.new) (a * n + c) 1 (λ j. v) }
    ensures small { Small n bytes.old → Small n bytes.new }
{
    let at = a + c / n;
    let shift = c % n;
    let b = bytes[at];
    let d = ((b >> shift) % 2) ^ v;
    bytes[at] = b ^ (d << shift);
}

// Adds eight bytes to eight. All are read before any is written, so that they are added as one word.
fn add_eight(row: &mut [u8], other: &[u8])
    requires { (length row.old ≡ 8) × (length other.now ≡ 8) }
    ensures { Added row.old other.now row.new }
{
    let x0 = row[0] ^ other[0];
    let x1 = row[1] ^ other[1];
    let x2 = row[2] ^ other[2];
    let x3 = row[3] ^ other[3];
    let x4 = row[4] ^ other[4];
    let x5 = row[5] ^ other[5];
    let x6 = row[6] ^ other[6];
    let x7 = row[7] ^ other[7];
    row[0] = x0;
    row[1] = x1;
    row[2] = x2;
    row[3] = x3;
    row[4] = x4;
    row[5] = x5;
    row[6] = x6;
    row[7] = x7;
}

// Adds the groups of eight bytes that a row has to those of another. They are lent by range: of what `chunks_exact_mut` lends nothing is known afterwards.
fn add_groups(row: &mut [u8], other: &[u8])
    requires { length other.now ≡ length row.old }
    ensures { Overwritten row.old row.new 0 (length row.old / 8 * 8) (sum_bytes row.old other.now) }
{
    for group in 0..row.len() / 8 {
        let start = group * 8;
        add_eight(&mut row[start..start + 8], &other[start..start + 8]);
    }
}

// Adds bytes one by one. It goes by index over the one, as `rows::add_multiple` does.
pub fn add_bytes(row: &mut [u8], other: &[u8])
    requires { length other.now ≡ length row.old }
    ensures { Added row.old other.now row.new }
{
    for (i, x) in other.iter().enumerate() {
        row[i] ^= *x;
    }
}

// Adds a row of bits to another: groups of eight bytes, and then what is left.
#[inline(always)]
pub fn add_bits(row: &mut [u8], other: &[u8])
    requires { length other.now ≡ length row.old }
    ensures { Added row.old other.now row.new }
{
    let rest = row.len() / 8 * 8;
    add_groups(row, other);
    add_bytes(&mut row[rest..], &other[rest..]);
}
