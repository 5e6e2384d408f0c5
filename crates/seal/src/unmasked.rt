// Part 6: the same block without masking.
use crate::example;
use crate::operations::Operation;
use crate::parts::{PartError, named};
use crate::showing::Hex;
use std::io;
use unshared::{decrypt, encrypt};

// Says what the two operations are for.
fn introduce(rt: &impl Print) -> io::Result<()> {
    println!(rt; "\n6. The same block without masking\n")?;
    println!(rt; "Encrypt takes the key and the block of part 2 as they are, and Decrypt brings")?;
    println!(rt; "the block back. Both are for a place where nobody measures. The ciphertext is")?;
    println!(rt; "what Join wrote in part 3.\n")
}

// Shows that the ciphertext is the one that was joined above, and that it can be read again.
pub fn part(rt: &impl Print) -> Result<(), PartError> {
    let key = example::KEY;
    let block = example::BLOCK;
    let mut ciphertext = [0u8; 8];
    let mut back = [0u8; 8];
    introduce(rt)?;
    println!(rt; "    key      {}", Hex(&key))?;
    println!(rt; "    block    {}", Hex(&block))?;
    named(Operation::Encrypt, encrypt(&key, &block, &mut ciphertext))?;
    println!(rt; "    encrypted{}", Hex(&ciphertext))?;
    named(Operation::Decrypt, decrypt(&key, &ciphertext, &mut back))?;
    println!(rt; "    decrypted{}", Hex(&back))?;
    Ok(())
}
