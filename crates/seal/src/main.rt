// The worked example: a block sealed in three shares, printed as the first page of a manual.
#![tactic(auto)]

mod aes_sealing;
mod example;
mod fitting;
mod inputs;
mod opening;
mod operations;
mod parts;
mod sealing;
mod sharing;
mod showing;
mod unmasked;
mod watching;

use inputs::Inputs;
use parts::end_part;
use std::io;

// Says what the page is, and what in it must not be copied.
fn open_page(rt: &impl Print) -> io::Result<()> {
    println!(rt; "SEALING A BLOCK IN THREE SHARES\n")?;
    println!(rt; "All below is computed by the library from the values of an example. Bytes")?;
    println!(rt; "are in hex. Randomness is outside the library: the caller brings it. The")?;
    println!(rt; "masks and the random elements of this page are fixed example values and must")?;
    println!(rt; "never be used.")
}

// Where a part is refused, the parts after it go on with what it left.
fn main(rt: HostRuntime) -> io::Result<()> {
    let mut record = [0u8; 34];
    let mut key = [0u8; 30];
    let mut block = [0u8; 24];
    let random = example::bytes::<1581>();
    open_page(&rt)?;
    end_part(&rt, fitting::part(&rt, &mut record))?;
    end_part(&rt, sharing::part(&rt, &mut key, &mut block))?;
    let inputs = Inputs {
        record: &record,
        key: &key,
        block: &block,
        random: &random,
    };
    end_part(&rt, sealing::part(&rt, inputs))?;
    end_part(&rt, watching::part(&rt, inputs))?;
    end_part(&rt, aes_sealing::part(&rt))?;
    end_part(&rt, unmasked::part(&rt))?;
    end_part(&rt, opening::part(&rt, &record, &key))
}
