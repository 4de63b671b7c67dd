// The parameter seams of a patch: at which fractions of the four curves the logical lines begin and end. How they are made, and what is
// refused of them (18 to 22).
ghost use Rattle.std.specs.Prelude.{◌≡◌, ◌+◌, ◌<◌, ◌≤◌, length};
ghost use Rattle.base.specs.Refusal.{outcome};
ghost use Rattle.base.specs.Buffers.{splice};
ghost use Rattle.base.specs.Tests.{first_of};
ghost use Rattle.curves.specs.Seam.{uniform_parameters, edge_values, side_seam};
ghost use Rattle.curves.specs.Seam.{value_test, seam_ends_test, seam_test, pair_test, seams_test};
ghost use Rattle.curves.specs.inner.Grids.{lent_seams, ShortSeams};
ghost use Rattle.curves.specs.inner.Lays.{SeamGiven};
ghost use Rattle.curves.specs.Limits.{max_seam, max_cells};

use crate::sides::Sides;
use base::refusal::Refusal;
use floats::scalar::{abs, in_unit};

// The n + 1 values 0, 1/n, .., 1.
pub(crate) fn uniform_parameters(n: u32, out: &mut [f64])
    requires { (n ≤ max_cells) × (n < length out.old) }
    ensures { out.new ≡ splice out.old 0 (uniform_parameters n) }
{
    for i in 0..n + 1 {
        out[i as usize] = f64::from(i) / f64::from(n);
    }
}

// Writes the n values of edge i, from an index on.
fn edge_values(breaks: &[f64], i: usize, n: u32, from: usize, out: &mut [f64])
    requires { (i + 1 < length breaks.now) × (from + n ≤ length out.old) }
    ensures { out.new ≡ splice out.old from (edge_values breaks.now i n) }
{
    let start = breaks[i];
    let span = breaks[i + 1] - start;
    for j in 0..n {
        let part = f64::from(j) / f64::from(n);
        out[from + j as usize] = start + span * part;
    }
}

// Writes the seam of a side, given the counts of its edges, and returns how many values it has.
pub(crate) fn side_seam(breaks: &[f64], counts: &[u32], out: &mut [f64]) -> usize
    requires { SeamGiven breaks.now counts.now out.old }
    ensures value { result ≡ length (side_seam breaks.now counts.now) }
    ensures out_after { out.new ≡ splice out.old 0 (side_seam breaks.now counts.now) }
{
    let mut written = 0;
    for (i, n) in counts.iter().enumerate() {
        edge_values(breaks, i, *n, written, out);
        written += *n as usize;
    }
    out[written] = breaks[counts.len()];
    written + 1
}

// 19 and 20 at one index: out of range, or below the value before it.
#[tactic(auto, unfolding(base::specs::Refusal::verdict_of, crate::specs::Seam::value_test, crate::specs::Seam::falls))]
fn check_value(values: &[f64], seam: u32, i: usize) -> Result<(), Refusal>
    requires { (i < length values.now) × (length values.now ≤ max_seam) }
    ensures { outcome result ≡ value_test values.now seam i }
{
    let index = i as u32;
    let value = values[i];
    if !in_unit(value) {
        return Err(Refusal::SeamOutOfRange(seam, index));
    }
    if i > 0 && value + 1e-12 < values[i - 1] {
        return Err(Refusal::SeamFalling(seam, index));
    }
    Ok(())
}

fn check_values(values: &[f64], seam: u32) -> Result<(), Refusal>
    requires { length values.now ≤ max_seam }
    ensures { outcome result ≡ first_of (value_test values.now seam) 0 (length values.now) }
{
    for i in 0..values.len() {
        check_value(values, seam, i)?;
    }
    Ok(())
}

#[tactic(auto, unfolding(base::specs::Refusal::verdict_of, crate::specs::Seam::seam_ends_test))]
fn check_seam_ends(first: f64, last: f64, seam: u32) -> Result<(), Refusal>
    ensures { outcome result ≡ seam_ends_test first last seam }
{
    if abs(first) > 1e-9 || abs(last - 1.0) > 1e-9 {
        return Err(Refusal::SeamEnds(seam));
    }
    Ok(())
}

// 18 to 21, of the seam with this number.
fn validate_parameters(values: &[f64], seam: u32) -> Result<(), Refusal>
    requires { length values.now ≤ max_seam }
    ensures { outcome result ≡ seam_test values.now seam }
{
    if values.len() < 2 {
        return Err(Refusal::SeamTooShort(seam));
    }
    check_values(values, seam)?;
    check_seam_ends(values[0], values[values.len() - 1], seam)
}

// 22, of the pair with this number.
#[tactic(auto, unfolding(base::specs::Refusal::verdict_of, crate::specs::Seam::pair_test))]
fn check_pair(a: &[f64], b: &[f64], pair: u32) -> Result<(), Refusal>
    ensures { outcome result ≡ pair_test a.now b.now pair }
{
    if a.len() != b.len() {
        return Err(Refusal::SeamsUnequal(pair));
    }
    Ok(())
}

// 18 to 22.
pub(crate) fn check_seams(seams: Sides<&[f64]>) -> Result<(), Refusal>
    requires { ShortSeams (lent_seams seams) }
    ensures { let s = lent_seams seams.entry in
        outcome result ≡ seams_test s.bottom s.top s.left s.right }
{
    validate_parameters(seams.bottom, 0)?;
    validate_parameters(seams.top, 2)?;
    validate_parameters(seams.left, 3)?;
    validate_parameters(seams.right, 1)?;
    check_pair(seams.bottom, seams.top, 0)?;
    check_pair(seams.left, seams.right, 1)
}
