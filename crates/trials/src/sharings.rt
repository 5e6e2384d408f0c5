// Cases of Split and Join.
use crate::fields::{FieldError, Fields};
use crate::trials::try_writing;

pub fn try_split(fields: &mut Fields) -> Result<bool, FieldError> {
    let value = fields.bytes()?;
    let s = fields.number()?;
    let masks = fields.bytes()?;
    try_writing(fields, |out| steps::split(value, s, masks, out))
}

pub fn try_join(fields: &mut Fields) -> Result<bool, FieldError> {
    let shares = fields.bytes()?;
    let s = fields.number()?;
    try_writing(fields, |out| steps::join(shares, s, out))
}
