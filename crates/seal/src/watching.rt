// Part 4: a few steps watched.
use crate::example::WATCHED;
use crate::inputs::Inputs;
use crate::operations::Operation;
use crate::parts::{PartError, named};
use std::io;

// Prints each step of a list beside the value that it records. The value comes first, as it is always one digit.
fn show_steps(rt: &impl Print, list: &[u32], values: &[u8]) -> io::Result<()> {
    for (step, value) in list.iter().zip(values) {
        println!(rt; "    value {value:x}  at step {step}")?;
    }
    Ok(())
}

// Says what the listed steps are.
fn name_steps(rt: &impl Print) -> io::Result<()> {
    println!(rt; "Watch block takes the same steps and hands back what those of a list record:")?;
    println!(rt; "what a probe on these wires would see. Steps 0, 16 and 32 record the lowest")?;
    println!(rt; "nibble of shares 0, 1 and 2 after the first key addition, step 60 the first")?;
    println!(rt; "random element, and the last three the lowest nibble of each share of the")?;
    println!(rt; "ciphertext.\n")
}

// Says what the values show and what not.
fn judge_steps(rt: &impl Print) -> io::Result<()> {
    println!(rt; "\nWhere masks and random elements are drawn uniformly, one step of a block in")?;
    println!(rt; "three shares shows nothing of the key and the block (docs/AUDIT.md names the")?;
    println!(rt; "theorem). Steps 0, 16 and 32 together touch all three shares: they add up to")?;
    println!(rt; "f, the lowest nibble of the block plus the round key.")
}

// Shows what a probe on a few wires sees of the same run.
pub fn part(rt: &impl Print, inputs: Inputs) -> Result<(), PartError> {
    let list = WATCHED;
    let mut values = [0u8; 7];
    println!(rt; "\n4. A few steps watched\n")?;
    name_steps(rt)?;
    named(Operation::WatchBlock, inputs.watch(&list, &mut values))?;
    show_steps(rt, &list, &values)?;
    judge_steps(rt)?;
    Ok(())
}
