// Part 1: the record of the S-box.
use crate::operations::Operation;
use crate::parts::{PartError, named};
use crate::showing::Hex;
use cipher::enciphering::TABLE;
use decomposition::house_fit;
use std::io;

// Prints the parts of a record, so that the reader sees its layout.
fn show_record(rt: &impl Print, record: &[u8; 34]) -> io::Result<()> {
    println!(rt; "    head    {}", Hex(&record[0..7]))?;
    println!(rt; "    q1      {}", Hex(&record[7..16]))?;
    println!(rt; "    p1      {}", Hex(&record[16..25]))?;
    println!(rt; "    p2      {}", Hex(&record[25..34]))
}

// Fits a table and prints its record.
pub fn show_fit(rt: &impl Print, table: &[u8], record: &mut [u8; 34]) -> Result<(), PartError> {
    let mut work = [0u8; 304];
    named(
        Operation::HouseFit,
        house_fit(table, &mut work, &mut *record),
    )?;
    show_record(rt, record)?;
    Ok(())
}

// Shows what every sealing begins with: a table becomes a record, once.
pub fn part(rt: &impl Print, record: &mut [u8; 34]) -> Result<(), PartError> {
    let table = TABLE;
    println!(rt; "\n1. A record of the S-box\n")?;
    println!(rt; "House fit writes PRESENT's S-box as p1(x) q1(x) + p2(x), which can be")?;
    println!(rt; "computed in shares. This is done once. The record is no secret; it has 34")?;
    println!(rt; "bytes: a head (mark, version, width, output bits) and the coefficients of")?;
    println!(rt; "three polynomials.\n")?;
    println!(rt; "    table   {}", Hex(&table))?;
    show_fit(rt, &table, record)
}
