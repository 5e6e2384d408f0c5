// What a masked block takes, for 1, 3 and 5 shares, by the library's own totals: of PRESENT-80, sealed and opened, and then of AES-128.
#![tactic(auto)]

use std::io;
use steps::{Counts, ShareCount};

// Prints a line for each share count, where a random element has so many bits.
fn print_table<F: Fn(ShareCount) -> Counts>(
    rt: &impl Print,
    width: u32,
    counts: F,
) -> io::Result<()>
    requires { F.IsAlwaysCallable counts }
{
    println!(rt; "shares products random steps")?;
    for count in [1, 3, 5] {
        let taken = counts(ShareCount { count }).taken(width);
        println!(rt;
            "{count} {} {} {}",
            taken.products, taken.random, taken.steps
        )?;
    }
    Ok(())
}

fn main(rt: HostRuntime) -> io::Result<()> {
    print_table(&rt, 4, cipher::figures::block_counts)?;
    println!(rt; "\nPRESENT-80, opened")?;
    print_table(&rt, 4, cipher::figures::open_counts)?;
    println!(rt; "\nAES-128")?;
    print_table(&rt, 8, aes::figures::block_counts)
}
