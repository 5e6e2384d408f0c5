// Cases of the watches. The list of steps is the last argument before the slice for their values.
use crate::fields::{FieldError, Fields, LONGEST_LIST};
use crate::masked::Shares;
use crate::trials::try_writing;

pub fn try_sbox_watch(fields: &mut Fields) -> Result<bool, FieldError> {
    let record = fields.bytes()?;
    let s = fields.number()?;
    let shares = fields.bytes()?;
    let random = fields.bytes()?;
    let mut list = [0u32; LONGEST_LIST];
    let steps = fields.list(&mut list)?;
    try_writing(fields, |values| {
        sbox::watch_sbox(record, s, shares, random, steps, values)
    })
}

pub fn try_block_watch(fields: &mut Fields) -> Result<bool, FieldError> {
    let record = fields.bytes()?;
    let Shares {
        s,
        key,
        block,
        random,
    } = Shares::read(fields)?;
    let mut list = [0u32; LONGEST_LIST];
    let steps = fields.list(&mut list)?;
    try_writing(fields, |values| {
        cipher::watch_block(record, s, key, block, random, steps, values)
    })
}

pub fn try_open_watch(fields: &mut Fields) -> Result<bool, FieldError> {
    let record = fields.bytes()?;
    let inverse = fields.bytes()?;
    let Shares {
        s,
        key,
        block,
        random,
    } = Shares::read(fields)?;
    let mut list = [0u32; LONGEST_LIST];
    let steps = fields.list(&mut list)?;
    try_writing(fields, |values| {
        cipher::watch_open(record, inverse, s, key, block, random, steps, values)
    })
}

pub fn try_aes_block_watch(fields: &mut Fields) -> Result<bool, FieldError> {
    let Shares {
        s,
        key,
        block,
        random,
    } = Shares::read(fields)?;
    let mut list = [0u32; LONGEST_LIST];
    let steps = fields.list(&mut list)?;
    try_writing(fields, |values| {
        aes::watch_block(s, key, block, random, steps, values)
    })
}
