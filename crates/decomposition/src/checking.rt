// The operation Check.
ghost use Rattle.std.specs.Prelude.{◌≡◌};
ghost use Rattle.refusal.specs.Refusals.{report, nothing};
ghost use Rattle.decomposition.specs.Check.{check_outcome};

use crate::reading::read;
use refusal::{Refusal, refuse_large, refuse_unless};

// Check: the low output bits of the form of the record are the table. The last test is a `match`: a function of place and variant would take a closure
// that makes the one of the other, and be no shorter.
pub fn check(bytes: &[u8], table: &[u8]) -> Result<(), Refusal>
    ensures { report nothing result ≡ check_outcome bytes.now table.now }
{
    let record = read(bytes)?;
    refuse_unless(
        table.len() == record.layout.inputs as usize,
        Refusal::Length,
    )?;
    refuse_large(record.layout.entries, table, 0)?;
    match record.first_difference(table) {
        Some(place) => Err(Refusal::Differs { place }),
        None => Ok(()),
    }
}
