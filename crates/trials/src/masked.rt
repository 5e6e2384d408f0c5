// Cases of S-box, Block, Open and AES block.
use crate::fields::{FieldError, Fields};
use crate::trials::try_writing;

// What each masked cipher is given: how many shares, those of the key and of the block, and random bytes. They go together in a case file alone:
// the operations take each by itself, as C passes them.
#[derive(Clone, Copy)]
pub struct Shares<'a> {
    pub s: u32,
    pub key: &'a [u8],
    pub block: &'a [u8],
    pub random: &'a [u8],
}

impl<'a> Shares<'a> {
    pub fn read(fields: &mut Fields<'a>) -> Result<Shares<'a>, FieldError> {
        Ok(Shares {
            s: fields.number()?,
            key: fields.bytes()?,
            block: fields.bytes()?,
            random: fields.bytes()?,
        })
    }
}

pub fn try_sbox(fields: &mut Fields) -> Result<bool, FieldError> {
    let record = fields.bytes()?;
    let s = fields.number()?;
    let shares = fields.bytes()?;
    let random = fields.bytes()?;
    try_writing(fields, |out| sbox::sbox(record, s, shares, random, out))
}

pub fn try_block(fields: &mut Fields) -> Result<bool, FieldError> {
    let record = fields.bytes()?;
    let Shares {
        s,
        key,
        block,
        random,
    } = Shares::read(fields)?;
    try_writing(fields, |out| {
        cipher::block(record, s, key, block, random, out)
    })
}

pub fn try_open(fields: &mut Fields) -> Result<bool, FieldError> {
    let record = fields.bytes()?;
    let inverse = fields.bytes()?;
    let Shares {
        s,
        key,
        block,
        random,
    } = Shares::read(fields)?;
    try_writing(fields, |out| {
        cipher::open(record, inverse, s, key, block, random, out)
    })
}

pub fn try_aes_block(fields: &mut Fields) -> Result<bool, FieldError> {
    let Shares {
        s,
        key,
        block,
        random,
    } = Shares::read(fields)?;
    try_writing(fields, |out| aes::block(s, key, block, random, out))
}
