// How a part of the page ends.
use crate::operations::Operation;
use refusal::Refusal;
use std::io;
use thiserror::Error;

// Why a part ends early.
#[derive(Debug, Drop, Error)]
pub enum PartError {
    #[error("{operation} refused: {refusal} (docs/FORMATS.md, Refusals). This part stops here.")]
    Refused {
        operation: Operation,
        refusal: Refusal,
    },
    #[error(transparent)]
    Io(#[from] io::Error),
}

// What an operation answers, where a refusal gets the operation's name.
pub fn named<T>(operation: Operation, outcome: Result<T, Refusal>) -> Result<T, PartError> {
    outcome.map_err(|refusal| PartError::Refused { operation, refusal })
}

// Ends a part: one that was refused says so.
pub fn end_part(rt: &impl Print, part: Result<(), PartError>) -> io::Result<()> {
    match part {
        Ok(()) => Ok(()),
        Err(PartError::Io(error)) => Err(error),
        Err(refused) => println!(rt; "{refused}"),
    }
}
