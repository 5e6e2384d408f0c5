// The rounds of one block, by a table and 32 keys: those of encryption, or of decryption.
ghost use Rattle.std.specs.Prelude.{◌≡◌};
ghost use Rattle.unshared.specs.RoundKeys as spec;

use crate::lookup::add_entries;

// Adds the first key, and then 31 times replaces the block by its entries and adds the next.
pub fn by_table(table: &[u64; 2048], keys: &[u64; 32], x: u64) -> u64
    ensures { result ≡ spec.by_table table.now keys.now x }
{
    let mut y = keys[0] ^ x;
    for key in &keys[1..] {
        y = key ^ add_entries(table, y);
    }
    y
}
