// Part 3: the ciphertext in shares, and joined.
use crate::example;
use crate::inputs::Inputs;
use crate::operations::Operation;
use crate::parts::{PartError, named};
use crate::showing::{Expected, show_call};

// Shows the sealing itself: shares in, shares out.
pub fn part(rt: &impl Print, inputs: Inputs) -> Result<(), PartError> {
    let mut out = [0u8; 24];
    println!(rt; "\n3. The ciphertext in three shares\n")?;
    println!(rt; "Block takes the record, the shares and 1581 random bytes, each of which holds")?;
    println!(rt; "two elements. It never adds the shares of a secret up, and hands back shares")?;
    println!(rt; "of the ciphertext and what it took. Random byte i is here 7 i + 3 modulo 256:")?;
    println!(rt; "a fixed example value.\n")?;
    let taken = named(Operation::Block, inputs.seal(&mut out))?;
    show_call(rt, taken, &out, &Expected::published(example::PUBLISHED))
}
