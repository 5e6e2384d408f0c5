// Cases of Read, Check, Fit and House fit.
use crate::fields::{FieldError, Fields};
use crate::trials::{try_fitting, try_reading};

pub fn try_read(fields: &mut Fields) -> Result<bool, FieldError> {
    let record = fields.bytes()?;
    try_reading(fields, decomposition::read(record))
}

pub fn try_check(fields: &mut Fields) -> Result<bool, FieldError> {
    let record = fields.bytes()?;
    let table = fields.bytes()?;
    try_reading(fields, decomposition::check(record, table))
}

pub fn try_fit(fields: &mut Fields) -> Result<bool, FieldError> {
    let width = fields.number()?;
    let bits = fields.number()?;
    let table = fields.bytes()?;
    let basis = fields.bytes()?;
    try_fitting(fields, |work, out| {
        decomposition::fit(width, bits, table, basis, work, out)
    })
}

pub fn try_house_fit(fields: &mut Fields) -> Result<bool, FieldError> {
    let table = fields.bytes()?;
    try_fitting(
        fields,
        |work, out| decomposition::house_fit(table, work, out),
    )
}
