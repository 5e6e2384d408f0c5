// What parts show in the same way: bytes in hex, shares, and what masked calls wrote and took.
ghost use Rattle.std.specs.Prelude.{◌<◌};

use crate::example::SHARES;
use crate::operations::Operation;
use crate::parts::{PartError, named};
use std::{fmt, io};
use steps::{Taken, join, split};

// Bytes as a row of two digits each, as vectors are published.
#[derive(Clone, Copy)]
pub struct Hex<'a>(pub &'a [u8]);

impl fmt::Display for Hex<'_> {
    fn fmt<W: fmt::Write>(&self, f: &mut fmt::Formatter<W>) -> fmt::Result {
        for byte in self.0 {
            write!(f, " {byte:02x}")?;
        }
        Ok(())
    }
}

// What a sum of shares is held to: its name, the label of its row, and its bytes.
#[derive(Clone, Copy)]
pub struct Expected<const N: usize> {
    pub name: &'static str,
    pub label: &'static str,
    pub value: [u8; N],
}

impl<const N: usize> Expected<N> {
    // A ciphertext that is published.
    pub fn published(value: [u8; N]) -> Self {
        Expected {
            name: "the published ciphertext",
            label: "published",
            value,
        }
    }
}

// Prints shares of n bytes, a line for each, so that nobody needs to count bytes to tell them apart.
fn show_shares(rt: &impl Print, n: usize, shares: &[u8]) -> io::Result<()>
    requires { 0 < n }
{
    for (i, share) in shares.chunks(n).enumerate() {
        println!(rt; "    share {i} {}", Hex(share))?;
    }
    Ok(())
}

// Splits a value and prints it and its shares.
pub fn show_split<const N: usize>(
    rt: &impl Print,
    label: &str,
    value: [u8; N],
    masks: &[u8],
    shares: &mut [u8],
) -> Result<(), PartError>
    requires { 0 < N }
{
    println!(rt; "{label}{}", Hex(&value))?;
    named(Operation::Split, split(&value, SHARES, masks, &mut *shares))?;
    show_shares(rt, N, shares)?;
    Ok(())
}

// Prints what a call took, which an auditor can hold to the figures in docs/FORMATS.md.
fn show_taken(rt: &impl Print, taken: Taken) -> io::Result<()> {
    println!(rt; "    masked products  {}", taken.products)?;
    println!(rt; "    random bytes     {}", taken.random)?;
    println!(rt; "    steps            {}", taken.steps)
}

// Joins shares and prints the sum beside what is expected. Says whether the two are the same, so that the reader need not
// compare digits.
fn show_joined<const N: usize>(
    rt: &impl Print,
    shares: &[u8],
    expected: &Expected<N>,
) -> Result<(), PartError> {
    let Expected { name, label, value } = *expected;
    let mut sum = [0u8; N];
    println!(rt; "\nJoin adds these shares up. Below stands {name}.\n")?;
    named(Operation::Join, join(shares, SHARES, &mut sum))?;
    println!(rt; "    joined    {}", Hex(&sum))?;
    println!(rt; "    {label:<10}{}", Hex(&value))?;
    if sum == value {
        println!(rt; "\nThey are the same.")?;
    } else {
        println!(rt; "\nThey differ.")?;
    }
    Ok(())
}

// Prints what a call took, the shares that it wrote, and their sum.
pub fn show_call<const N: usize>(
    rt: &impl Print,
    taken: Taken,
    shares: &[u8],
    expected: &Expected<N>,
) -> Result<(), PartError>
    requires { 0 < N }
{
    show_taken(rt, taken)?;
    println!(rt)?;
    show_shares(rt, N, shares)?;
    show_joined(rt, shares, expected)
}
