// Trying the cases of a file, and what is printed of it.
ghost use Rattle.std.specs.Prelude.{◌≤◌, length, IfOk};

use crate::fields::{FieldError, Fields};
use std::io::Read;
use std::rt::Files;
use std::{fmt, fs, io};
use thiserror::Error;

// All case files are shorter.
pub const TOO_LONG: usize = 393216;

// Why the cases of a file cannot be tried.
#[derive(Debug, Drop, Error)]
enum FileError {
    #[error(transparent)]
    Io(#[from] io::Error),
    #[error("the file is too long")]
    TooLong,
    // The case at which it is, or the number of cases where bytes are left over after them.
    #[error("the file is malformed at case {case}")]
    Malformed { case: u32 },
}

impl FileError {
    // What ends the trial of a file at a case.
    fn at(case: u32, error: FieldError) -> FileError {
        match error {
            FieldError::Malformed => FileError::Malformed { case },
        }
    }
}

// What a file comes to: how many cases agree, and the first that differs if some do.
#[derive(Clone, Copy)]
struct Tally {
    cases: u32,
    agreed: u32,
    first: Option<u32>,
}

impl fmt::Display for Tally {
    fn fmt<W: fmt::Write>(&self, f: &mut fmt::Formatter<W>) -> fmt::Result {
        write!(f, "{} of {} cases agree", self.agreed, self.cases)?;
        match self.first {
            Some(case) => write!(f, "; the first that differs is case {case}"),
            None => Ok(()),
        }
    }
}

// Tries every case of a file. It begins with the number of cases.
fn try_cases<F: Fn(&mut Fields) -> Result<bool, FieldError>>(
    file: &[u8],
    trial: F,
) -> Result<Tally, FileError>
    requires { F.IsAlwaysCallable trial }
{
    let mut fields = Fields::new(file);
    let cases = fields.word().map_err(|error| FileError::at(0, error))?;
    let mut agreed = 0;
    let mut first = None;
    for case in 0..cases {
        let agrees = trial(&mut fields).map_err(|error| FileError::at(case, error))?;
        agreed += u32::from(agrees);
        if !agrees {
            first = first.or(Some(case));
        }
    }
    if !fields.is_empty() {
        return Err(FileError::Malformed { case: cases });
    }
    Ok(Tally {
        cases,
        agreed,
        first,
    })
}

// Fills the space from a file, as far as the file goes, and answers how many bytes those are.
fn read_full(rt: &impl Files, path: &str, space: &mut [u8]) -> io::Result<usize>
    ensures { IfOk result (λ n. n ≤ length space.old) }
{
    let mut file = fs::open(rt, path)?;
    let mut n = 0;
    for _ in 0..space.len() {
        let more = file.read(&mut space[n..])?;
        if more == 0 {
            return Ok(n);
        }
        n += more;
    }
    Ok(n)
}

// Reads a file of cases. No more of it is read than the space holds, so one without an end is too long.
fn read_cases<'a, R: Files>(
    rt: &R,
    path: &str,
    space: &'a mut [u8],
) -> Result<&'a [u8], FileError> {
    let n = read_full(rt, path, &mut *space)?;
    if n == space.len() {
        return Err(FileError::TooLong);
    }
    Ok(&space[..n])
}

// Tries the cases of a file, which is read into the space, and prints a line. Answers whether all agree.
// Not inlined: else the areas of an operation would lie in the frame of `main` beside those of a further call.
#[inline(never)]
pub fn try_file<R: Files + Print + Eprint, F: Fn(&mut Fields) -> Result<bool, FieldError>>(
    rt: &R,
    name: &str,
    path: &str,
    space: &mut [u8],
    trial: F,
) -> io::Result<bool>
    requires { F.IsAlwaysCallable trial }
{
    let tally = match read_cases(rt, path, space) {
        Ok(file) => try_cases(file, trial),
        Err(error) => Err(error),
    };
    match tally {
        Ok(tally) => {
            println!(rt; "{name}: {tally}")?;
            Ok(tally.first.is_none())
        }
        Err(FileError::Io(error)) => {
            eprintln!(rt; "{path}: {error}")?;
            Ok(false)
        }
        Err(error) => {
            println!(rt; "{name}: {error}")?;
            Ok(false)
        }
    }
}
