// What a masked call of PRESENT-80 is given on this page: three shares and a record throughout. The operations take each by itself, as C passes them.
use crate::example::SHARES;
use cipher::{block, open, watch_block};
use refusal::Refusal;
use steps::Taken;

// A record, the shares of a key and of a block, and random bytes.
#[derive(Clone, Copy)]
pub struct Inputs<'a> {
    pub record: &'a [u8],
    pub key: &'a [u8],
    pub block: &'a [u8],
    pub random: &'a [u8],
}

impl Inputs<'_> {
    // Seals the block.
    pub fn seal(self, out: &mut [u8]) -> Result<Taken, Refusal> {
        block(self.record, SHARES, self.key, self.block, self.random, out)
    }

    // Seals the block, and writes what the steps of a list record.
    pub fn watch(self, list: &[u32], values: &mut [u8]) -> Result<Taken, Refusal> {
        watch_block(
            self.record,
            SHARES,
            self.key,
            self.block,
            self.random,
            list,
            values,
        )
    }

    // Opens the block, which is then a ciphertext, with a record of the inverse table.
    pub fn open(self, inverse: &[u8], out: &mut [u8]) -> Result<Taken, Refusal> {
        open(
            self.record,
            inverse,
            SHARES,
            self.key,
            self.block,
            self.random,
            out,
        )
    }
}
