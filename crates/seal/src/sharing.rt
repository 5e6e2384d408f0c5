// Part 2: the shares of the key and of the block.
use crate::example;
use crate::parts::PartError;
use crate::showing::show_split;

// Shows how secrets come to the library: in shares, whose sum is the secret.
pub fn part(rt: &impl Print, key: &mut [u8], block: &mut [u8]) -> Result<(), PartError> {
    println!(rt; "\n2. The key and the block in three shares\n")?;
    println!(rt; "Split makes share 0 the value plus all masks; shares 1 and 2 are the masks.")?;
    println!(rt; "Plus is exclusive or, so the three shares add up to the value.\n")?;
    show_split(rt, "    key     ", example::KEY, &example::KEY_MASKS, key)?;
    show_split(
        rt,
        "\n    block   ",
        example::BLOCK,
        &example::BLOCK_MASKS,
        block,
    )
}
