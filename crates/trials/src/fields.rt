// The fields of a case file: each is a length in 4 bytes, then that many bytes. Numbers are big-endian.
ghost use Rattle.std.specs.Prelude.{◌≡◌, length, IfOk};

use thiserror::Error;

// No slice of a case is longer.
pub const LONGEST: usize = 65536;

// No list of numbers of 4 bytes is longer.
pub const LONGEST_LIST: usize = 16384;

// Why a case cannot be tried.
#[derive(Debug, Drop, Error)]
pub enum FieldError {
    #[error("the file is malformed")]
    Malformed,
}

// Reads the fields of a file one after the other. A slice that an operation is lent is written to an area of the caller's.
#[derive(Drop)]
pub struct Fields<'a> {
    rest: &'a [u8],
}

impl<'a> Fields<'a> {
    pub fn new(file: &'a [u8]) -> Fields<'a> {
        Fields { rest: file }
    }

    // Whether all is read.
    pub fn is_empty(&self) -> bool {
        self.rest.is_empty()
    }

    // The next 4 bytes, as a number.
    pub fn word(&mut self) -> Result<u32, FieldError> {
        let (word, rest) = self.rest.split_first_chunk().ok_or(FieldError::Malformed)?;
        self.rest = rest;
        Ok(u32::from_be_bytes(*word))
    }

    // The bytes of the next field.
    pub fn bytes(&mut self) -> Result<&'a [u8], FieldError> {
        let length = checked_length(self.word()?)?;
        let (bytes, rest) = self
            .rest
            .split_at_checked(length)
            .ok_or(FieldError::Malformed)?;
        self.rest = rest;
        Ok(bytes)
    }

    // The next field, where it has to be N bytes long.
    fn array<const N: usize>(&mut self) -> Result<&'a [u8; N], FieldError> {
        self.bytes()?.as_array().ok_or(FieldError::Malformed)
    }

    // A field that is a number of 4 bytes.
    pub fn number(&mut self) -> Result<u32, FieldError> {
        Ok(u32::from_be_bytes(*self.array()?))
    }

    // A field that is a list of numbers of 4 bytes.
    pub fn list<'b>(&mut self, area: &'b mut [u32]) -> Result<&'b [u32], FieldError> {
        match self.bytes()?.as_chunks() {
            (numbers, []) => {
                let list = start_of(area, numbers.len())?;
                for (place, number) in list.iter_mut().zip(numbers) {
                    *place = u32::from_be_bytes(*number);
                }
                Ok(list)
            }
            _ => Err(FieldError::Malformed),
        }
    }

    // A slice that an operation is lent for writing.
    pub fn lent<'b>(&mut self, area: &'b mut [u8]) -> Result<&'b mut [u8], FieldError> {
        let bytes = self.bytes()?;
        let lent = start_of(area, bytes.len())?;
        lent.copy_from_slice(bytes);
        Ok(lent)
    }

    // A slice filled with one byte.
    pub fn lent_filled<'b>(&mut self, area: &'b mut [u8]) -> Result<&'b mut [u8], FieldError> {
        let (byte, length) = self.filled()?;
        let lent = start_of(area, length)?;
        lent.fill(byte);
        Ok(lent)
    }

    // A field that stands for a slice filled with one byte: the byte, then the slice's length.
    pub fn filled(&mut self) -> Result<(u8, usize), FieldError> {
        let [byte, a, b, c, d]: [u8; 5] = *self.array()?;
        Ok((byte, checked_length(u32::from_be_bytes([a, b, c, d]))?))
    }

    // An answer: its four words.
    pub fn answer(&mut self) -> Result<[u64; 4], FieldError> {
        let bytes: &[u8; 32] = self.array()?;
        match bytes.as_chunks() {
            ([a, b, c, d], []) => Ok([*a, *b, *c, *d].map(u64::from_be_bytes)),
            _ => Err(FieldError::Malformed),
        }
    }
}

// The length of a slice, where it is not longer than any may be.
fn checked_length(length: u32) -> Result<usize, FieldError> {
    let length = length as usize;
    if LONGEST < length {
        return Err(FieldError::Malformed);
    }
    Ok(length)
}

// The first n elements of an area.
fn start_of<T>(area: &mut [T], n: usize) -> Result<&mut [T], FieldError>
    ensures { IfOk result (λ start. length start.now ≡ n) }
{
    let (start, _) = area.split_at_mut_checked(n).ok_or(FieldError::Malformed)?;
    Ok(start)
}
