// The operations Fit and House fit.
ghost use Rattle.std.specs.Prelude.{◌≡◌, ◌+◌, ◌≤◌, [], IfOk, length, drop, replicate};
ghost use Rattle.refusal.specs.Refusals.{report, nothing};
ghost use Rattle.decomposition.specs.Layout.{Sizes, record_size};
ghost use Rattle.decomposition.specs.Record.{headed};
ghost use Rattle.decomposition.specs.Fit.{fit_lengths, fit_tests, fit_end, house_end, Found};

use crate::decomposing::decompose;
use crate::layouts::{HEAD, Layout};
use crate::problems::Problem;
use linear::rows::copy_row;
use refusal::{Refusal, refuse_large, refuse_unless};

// The house basis of width 4: q1 = x + x² + x^12.
const HOUSE_BASIS: [u8; 9] = [0, 1, 1, 0, 0, 0, 0, 1, 0];

// Writes the mark, the version, the width, the output bits and the basis.
fn write_head(width: u32, outputs: u32, basis: &[u8], out: &mut [u8])
    requires { (width ≤ 8) × (outputs ≤ 8) × (7 + length basis.now ≤ length out.old) }
    ensures { out.new ≡ headed width outputs basis.now (drop (7 + length basis.now) out.old) }
{
    out[..HEAD].copy_from_slice(&[b'D', b'C', b'P', 0, 2, width as u8, outputs as u8]);
    copy_row(basis, &mut out[HEAD..HEAD + basis.len()]);
}

// Finds the decomposition.
fn find(problem: &Problem, work: &mut [u8], out: &mut [u8]) -> Result<(), Refusal>
    requires { (length work.old ≡ problem.now.layout.work) × (length out.old ≡ record_size 2 problem.now.layout) }
    ensures work_after { work.new ≡ replicate (length work.old) 0 }
    ensures found { Found problem.now.layout
        (record { table = problem.now.table.now; basis = problem.now.basis.now; work = work.old; out = out.old })
        out.new (report nothing result) }
{
    let layout = problem.layout;
    let start = HEAD + layout.basis;
    let solved = decompose(problem, work, &mut out[start..]);
    work.fill(0);
    solved.or(Err(Refusal::Undecomposable))?;
    write_head(layout.width, layout.outputs, problem.basis, out);
    Ok(())
}

// Whether table, basis, work and out, of so many bytes, have the lengths of the layout: four slices of a caller, tested as one.
#[tactic(auto, using(crate::proofs::Whole::sizes_of), unfolding(crate::specs::Fit::fit_lengths))]
fn lengths_fit(layout: Layout, table: usize, basis: usize, work: usize, out: usize) -> bool
    requires { ∥ Sizes layout ∥₁ }
    ensures { result ≡ fit_lengths layout table basis work out }
{
    table == layout.inputs as usize
        && basis == layout.basis
        && work == layout.work
        && out == HEAD + layout.coefficients
}

// Fit's tests once width and output bits are known. Work and out are the lengths of the work and the record.
fn fit_tests<'a>(
    layout: Layout,
    table: &'a [u8],
    basis: &'a [u8],
    work: usize,
    out: usize,
) -> Result<Problem<'a>, Refusal>
    requires { ∥ Sizes layout ∥₁ }
    ensures outcome { report (λ _. []) result ≡ fit_tests layout table.now basis.now work out }
    ensures problem { IfOk result (λ p. (p.layout ≡ layout) × (p.table.now ≡ table.now) × (p.basis.now ≡ basis.now)) }
{
    refuse_unless(
        lengths_fit(layout, table.len(), basis.len(), work, out),
        Refusal::Length,
    )?;
    refuse_large(layout.entries, table, 0)?;
    refuse_large(layout.inputs, basis, table.len())?;
    Ok(Problem {
        layout,
        table,
        basis,
    })
}

// Fit: writes the record of THE decomposition of a table with so many output bits over a basis.
pub fn fit(
    width: u32,
    outputs: u32,
    table: &[u8],
    basis: &[u8],
    work: &mut [u8],
    out: &mut [u8],
) -> Result<(), Refusal>
    ensures { record { outcome = report nothing result; work = work.new; out = out.new }
        ≡ fit_end width outputs (record { table = table.now; basis = basis.now; work = work.old; out = out.old }) }
{
    let layout = Layout::of(width, outputs)?;
    let problem = fit_tests(layout, table, basis, work.len(), out.len())?;
    find(&problem, work, out)
}

// House fit: a fit of width 4 with 4 output bits over the house basis. The basis decomposes every table, so what `find` answers is not asked.
pub fn house_fit(table: &[u8], work: &mut [u8], out: &mut [u8]) -> Result<(), Refusal>
    ensures { record { outcome = report nothing result; work = work.new; out = out.new }
        ≡ house_end table.now work.old out.old }
{
    let basis = HOUSE_BASIS;
    let problem = fit_tests(Layout::FOUR, table, &basis, work.len(), out.len())?;
    let _ = find(&problem, work, out);
    Ok(())
}
