// Cases of Encrypt and Decrypt.
use crate::fields::{FieldError, Fields};
use crate::trials::try_writing;

pub fn try_encrypt(fields: &mut Fields) -> Result<bool, FieldError> {
    let key = fields.bytes()?;
    let block = fields.bytes()?;
    try_writing(fields, |out| unshared::encrypt(key, block, out))
}

pub fn try_decrypt(fields: &mut Fields) -> Result<bool, FieldError> {
    let key = fields.bytes()?;
    let block = fields.bytes()?;
    try_writing(fields, |out| unshared::decrypt(key, block, out))
}
