// The bytes of a block, looked up in a table.
ghost use Rattle.std.specs.Prelude.{◌≡◌, ◌+◌, ◌*◌, ◌/◌, ◌%◌, ◌^◌, ◌<◌};
ghost use Rattle.unshared.specs.Lookup as spec;

// Where the entry of byte j of a block is.
fn place(x: u64, j: usize) -> usize
    requires { j < 8 }
    ensures { (result ≡ 256 * j + x / 2 ^ (8 * j) % 256) × (result < 2048) }
{
    256 * j + ((x >> (8 * j)) % 256) as usize
}

// The entries of the eight bytes of a block, added. The loop goes by the number of a byte, which is in the place of its entry.
pub fn add_entries(table: &[u64; 2048], x: u64) -> u64
    ensures { result ≡ spec.entries table.now x }
{
    let mut y = 0;
    for j in 0..8 {
        y ^= table[place(x, j)];
    }
    y
}
