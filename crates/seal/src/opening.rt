// Part 7: the ciphertext opened in shares.
use crate::example;
use crate::fitting::show_fit;
use crate::inputs::Inputs;
use crate::operations::Operation;
use crate::parts::{PartError, named};
use crate::showing::{Expected, Hex, show_call, show_split};
use cipher::opening::INVERSE;
use std::io;

// Says what an opening takes.
fn introduce(rt: &impl Print) -> io::Result<()> {
    println!(rt; "\n7. The ciphertext opened in three shares\n")?;
    println!(rt; "Open takes the record of part 1, a record of the inverse table, which House")?;
    println!(rt; "fit writes too, the shares of the key of part 2, shares of the ciphertext, and")?;
    println!(rt; "1674 random bytes. Like Block it never adds the shares of a secret up.\n")
}

// Fits the inverse table, and prints it and its record.
fn fit_inverse(rt: &impl Print, inverse: &mut [u8; 34]) -> Result<(), PartError> {
    let table = INVERSE;
    println!(rt; "    inverse {}", Hex(&table))?;
    show_fit(rt, &table, inverse)
}

// Opens, and prints what that gives.
fn show_opened(rt: &impl Print, inputs: Inputs, inverse: &[u8]) -> Result<(), PartError> {
    let mut out = [0u8; 24];
    let expected = Expected {
        name: "the block of part 2",
        label: "block",
        value: example::BLOCK,
    };
    println!(rt)?;
    let taken = named(Operation::Open, inputs.open(inverse, &mut out))?;
    show_call(rt, taken, &out, &expected)
}

// Shows the way back: a second record, shares of the ciphertext in, shares of the block out.
pub fn part(rt: &impl Print, record: &[u8], key: &[u8]) -> Result<(), PartError> {
    let mut inverse = [0u8; 34];
    let mut block = [0u8; 24];
    let random = example::bytes::<1674>();
    introduce(rt)?;
    fit_inverse(rt, &mut inverse)?;
    show_split(
        rt,
        "\n    sealed  ",
        example::PUBLISHED,
        &example::BLOCK_MASKS,
        &mut block,
    )?;
    let inputs = Inputs {
        record,
        key,
        block: &block,
        random: &random,
    };
    show_opened(rt, inputs, &inverse)
}
