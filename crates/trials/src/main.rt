// Runs the library's operations on the cases of another implementation (tests/reference) and compares answers and outputs.
// A line for each case file. Cases are counted from 0.
#![tactic(auto)]

mod fields;
mod files;
mod masked;
mod records;
mod sharings;
mod trials;
mod unmasked;
mod watches;

use files::{TOO_LONG, try_file};
use std::io;

fn main(rt: HostRuntime) -> io::Result<()> {
    // One space for all files, so that it is zeroed once.
    let mut space = [0u8; TOO_LONG];
    let mut agree = true;
    agree &= try_file(&rt, "read", "read.cases", &mut space, records::try_read)?;
    agree &= try_file(&rt, "check", "check.cases", &mut space, records::try_check)?;
    agree &= try_file(&rt, "fit", "fit.cases", &mut space, records::try_fit)?;
    agree &= try_file(
        &rt,
        "house_fit",
        "house_fit.cases",
        &mut space,
        records::try_house_fit,
    )?;
    agree &= try_file(&rt, "sbox", "sbox.cases", &mut space, masked::try_sbox)?;
    agree &= try_file(
        &rt,
        "sbox_watch",
        "sbox_watch.cases",
        &mut space,
        watches::try_sbox_watch,
    )?;
    agree &= try_file(&rt, "block", "block.cases", &mut space, masked::try_block)?;
    agree &= try_file(
        &rt,
        "block_watch",
        "block_watch.cases",
        &mut space,
        watches::try_block_watch,
    )?;
    agree &= try_file(&rt, "open", "open.cases", &mut space, masked::try_open)?;
    agree &= try_file(
        &rt,
        "open_watch",
        "open_watch.cases",
        &mut space,
        watches::try_open_watch,
    )?;
    agree &= try_file(
        &rt,
        "encrypt",
        "encrypt.cases",
        &mut space,
        unmasked::try_encrypt,
    )?;
    agree &= try_file(
        &rt,
        "decrypt",
        "decrypt.cases",
        &mut space,
        unmasked::try_decrypt,
    )?;
    agree &= try_file(
        &rt,
        "aes_block",
        "aes_block.cases",
        &mut space,
        masked::try_aes_block,
    )?;
    agree &= try_file(
        &rt,
        "aes_block_watch",
        "aes_block_watch.cases",
        &mut space,
        watches::try_aes_block_watch,
    )?;
    agree &= try_file(&rt, "split", "split.cases", &mut space, sharings::try_split)?;
    agree &= try_file(&rt, "join", "join.cases", &mut space, sharings::try_join)?;
    if agree {
        println!(rt; "all cases agree")
    } else {
        println!(rt; "not all cases agree")
    }
}
