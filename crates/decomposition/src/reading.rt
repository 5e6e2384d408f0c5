// The operation Read.
ghost use Rattle.std.specs.Prelude.{◌≡◌, ◌≤◌, length};
ghost use Rattle.refusal.specs.Refusals.{report};
ghost use Rattle.decomposition.specs.Layout.{Known, Pair, Sizes, head, layout};
ghost use Rattle.decomposition.specs.Reading.{width_in, HandsBack};
ghost use Rattle.decomposition.specs.Record as spec;
ghost use Rattle.decomposition.specs.Record.{version_of, width_of, layout_of, coefficients_of, coefficients_tests, pair_tests, read_outcome};

use crate::layouts::{HEAD, Layout, SHORT_HEAD, known, layout_of};
use crate::records::Record;
use refusal::{Refusal, refuse_large, refuse_unless};

// Whether the record begins with the letters `DCP` and the version, 1 or 2.
#[tactic(auto, unfolding(crate::specs::Record::marked))]
fn marked(bytes: &[u8]) -> bool
    ensures { result ≡ spec.marked bytes.now }
{
    matches!(bytes, [b'D', b'C', b'P', 0, 1 | 2, ..])
}

// Read's tests of the coefficients, which follow a head of so many bytes.
fn read_at(layout: Layout, head: usize, coefficients: &[u8]) -> Result<Record<'_>, Refusal>
    requires sizes { ∥ Sizes layout ∥₁ }
    requires head { head ≤ 7 }
    ensures outcome { report width_in result ≡ coefficients_tests layout head coefficients.now }
    ensures record { HandsBack result layout coefficients.now }
{
    refuse_unless(coefficients.len() == layout.coefficients, Refusal::Length)?;
    refuse_large(layout.inputs, coefficients, head)?;
    Ok(Record {
        layout,
        coefficients,
    })
}

// Read's tests once the width is known. Each pair is named, so that the number of coefficients is known where they are tested.
fn read_pair(
    width: u8,
    outputs: u8,
    head: usize,
    coefficients: &[u8],
) -> Result<Record<'_>, Refusal>
    requires known { Known width }
    requires head { head ≤ 7 }
    ensures outcome { report width_in result ≡ pair_tests width outputs head coefficients.now }
    ensures record { HandsBack result (layout width outputs) coefficients.now }
{
    match (width, outputs) {
        (4, 4) => read_at(Layout::FOUR, head, coefficients),
        (6, 6) => read_at(Layout::SIX, head, coefficients),
        (6, 4) => read_at(Layout::SIX_TO_FOUR, head, coefficients),
        _ => Err(Refusal::OutputBits),
    }
}

// Read: accepts a record or refuses it. The head is taken apart first and `read_pair` called once, so that it is inlined: called from two places, its answer
// is stored and copied, and a call takes 30 ns where it takes 11.
pub fn read(bytes: &[u8]) -> Result<Record<'_>, Refusal>
    ensures outcome { report width_in result ≡ read_outcome bytes.now }
    ensures record { HandsBack result (layout_of bytes.now) (coefficients_of bytes.now) }
{
    let [_, _, _, _, version, width, rest @ ..] = bytes else {
        return Err(Refusal::Length);
    };
    refuse_unless(marked(bytes), Refusal::Mark)?;
    refuse_unless(known(*width as u32), Refusal::Width)?;
    let (outputs, head, coefficients) = match (*version, rest) {
        (2, [outputs, coefficients @ ..]) => (*outputs, HEAD, coefficients),
        (2, []) => return Err(Refusal::Length),
        _ => (*width, SHORT_HEAD, rest),
    };
    read_pair(*width, outputs, head, coefficients)
}

// ---- what a head says, whether Read accepts the record or not

// The bytes of the record's head.
pub fn head_of(bytes: &[u8]) -> usize
    requires { 6 ≤ length bytes.now }
    ensures { result ≡ head (version_of bytes.now) }
{
    if bytes[4] == 2 { HEAD } else { SHORT_HEAD }
}

// The output bits that the record names.
pub fn outputs_of(bytes: &[u8]) -> u32
    requires { (6 ≤ length bytes.now) × (head (version_of bytes.now) ≤ length bytes.now) }
    ensures { result ≡ spec.outputs_of bytes.now }
{
    if bytes[4] == 2 {
        bytes[6] as u32
    } else {
        bytes[5] as u32
    }
}

// How the record lies in bytes.
pub fn layout_in(bytes: &[u8]) -> Layout
    requires in_bounds { (6 ≤ length bytes.now) × (head (version_of bytes.now) ≤ length bytes.now) }
    requires pair { Pair (width_of bytes.now) (spec.outputs_of bytes.now) }
    ensures { result ≡ layout_of bytes.now }
{
    layout_of(bytes[5] as u32, outputs_of(bytes))
}
