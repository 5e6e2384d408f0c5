// Part 5: a block of AES-128.
use crate::example;
use crate::operations::Operation;
use crate::parts::{PartError, named};
use crate::showing::{Expected, show_call, show_split};
use aes::block as aes_block;
use std::io;

// Says what differs from a block of PRESENT-80.
fn introduce(rt: &impl Print) -> io::Result<()> {
    println!(rt; "\n5. A block of AES-128 in three shares\n")?;
    println!(rt; "AES block takes no record. Key and block have 16 bytes each, and each of the")?;
    println!(rt; "2400 random bytes is an element. Key, block and published ciphertext are those")?;
    println!(rt; "of FIPS 197, appendix C.1. Byte i of the masks, and of the random bytes, is")?;
    println!(rt; "here 7 i + 3 modulo 256: a fixed example value.\n")
}

// Splits the key and the block, and prints their shares.
fn split_both(rt: &impl Print, key: &mut [u8], block: &mut [u8]) -> Result<(), PartError> {
    let masks = example::bytes::<64>();
    let (key_masks, block_masks) = masks.split_at(32);
    show_split(rt, "    key     ", example::AES_KEY, key_masks, key)?;
    show_split(rt, "\n    block   ", example::AES_BLOCK, block_masks, block)
}

// Shows the same of AES-128: no record, and strings of 16 bytes.
pub fn part(rt: &impl Print) -> Result<(), PartError> {
    let random = example::bytes::<2400>();
    let mut key = [0u8; 48];
    let mut block = [0u8; 48];
    let mut out = [0u8; 48];
    introduce(rt)?;
    split_both(rt, &mut key, &mut block)?;
    println!(rt)?;
    let sealed = aes_block(example::SHARES, &key, &block, &random, &mut out);
    let taken = named(Operation::AesBlock, sealed)?;
    show_call(
        rt,
        taken,
        &out,
        &Expected::published(example::AES_PUBLISHED),
    )
}
