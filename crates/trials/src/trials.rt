// How a case is tried whose arguments are read: the slices that the operation is lent for writing follow, then its answer, and what
// the slices hold afterwards. Answers whether all agree.
use crate::fields::{FieldError, Fields, LONGEST};
use refusal::{HandedBack, Refusal, answer_words};

// Tries an operation that only reads.
pub fn try_reading<T: HandedBack>(
    fields: &mut Fields,
    outcome: Result<T, Refusal>,
) -> Result<bool, FieldError> {
    let answer = answer_words(outcome);
    Ok(answer == fields.answer()?)
}

// Tries an operation that writes to one slice.
pub fn try_writing<T: HandedBack, F: FnOnce(&mut [u8]) -> Result<T, Refusal>>(
    fields: &mut Fields,
    operation: F,
) -> Result<bool, FieldError>
    requires { F.IsAlwaysCallable operation }
{
    let mut area = [0u8; LONGEST];
    let out = fields.lent(&mut area)?;
    let answer = answer_words(operation(&mut *out));
    let expected = fields.answer()?;
    let written = fields.bytes()?;
    Ok(answer == expected && *out == *written)
}

// Tries an operation that writes to a work space, filled with one byte before and after, and to one slice.
pub fn try_fitting<F: FnOnce(&mut [u8], &mut [u8]) -> Result<(), Refusal>>(
    fields: &mut Fields,
    operation: F,
) -> Result<bool, FieldError>
    requires { F.IsAlwaysCallable operation }
{
    let mut work_area = [0u8; LONGEST];
    let mut out_area = [0u8; LONGEST];
    let work = fields.lent_filled(&mut work_area)?;
    let out = fields.lent(&mut out_area)?;
    let answer = answer_words(operation(&mut *work, &mut *out));
    let expected = fields.answer()?;
    let (byte, length) = fields.filled()?;
    let written = fields.bytes()?;
    let worked = work.len() == length && work.iter().all(|x| *x == byte);
    Ok(answer == expected && worked && *out == *written)
}
