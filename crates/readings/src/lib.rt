// The calls that read a table at a point: exact, as an f64, with both slopes, as whole watts, and the cost per hour.
// None writes.
#![tactic(auto)]

ghost use Rattle.std.specs.Prelude.{◌≡◌};
ghost use Rattle.surface.specs.Calls.{reading_cause, exact_outcome, display_outcome, cost_outcome};
ghost use Rattle.surface.specs.FloatReading.{FloatMeets};
ghost use Rattle.surface.specs.Slopes.{slopes_outcome, SlopesMeet};
ghost use Rattle.rows.specs.Rows.{level_rows};
ghost use Rattle.demands.specs.Promises.{ExactPromise};
ghost use Rattle.readings.specs.Found.{FoundMeets};
ghost use Rattle.answers.specs.Answers.{value_answer, slopes_answer};
ghost use Rattle.answers.specs.Refusals.{cause_of};

use answers::{Refusal, WattsAndSlopes};

// The cause for which a table is not read at a point, 1 to 6; else the regions of the table.
fn cause_at(
    w: usize,
    h: usize,
    tree: &[u8],
    numbers: &[i64],
    u: usize,
    v: usize,
    rows: &mut [u32; 96],
) -> Result<(), Refusal>
    ensures { (cause_of result ≡ reading_cause w h tree.now numbers.now u v)
        × (cause_of result ≡ 0 → rows.new ≡ level_rows tree.now) }
{
    table::cause::check(w, h, tree, numbers, rows)?;
    if 128 * w < u {
        return Err(Refusal::Point);
    }
    if 128 * h < v {
        return Err(Refusal::Point);
    }
    Ok(())
}

// The exact reading, and where they are asked for both slopes: a flag and no type parameter, so that the steps of a
// reading are compiled once, into this function, for all calls here.
fn read(
    w: usize,
    h: usize,
    tree: &[u8],
    numbers: &[i64],
    u: usize,
    v: usize,
    sloped: bool,
) -> Result<evaluation::Slopes, Refusal>
    ensures { FoundMeets w h tree.now numbers.now u v sloped result }
{
    let mut rows = [0u32; 96];
    cause_at(w, h, tree, numbers, u, v, &mut rows)?;
    Ok(point::read_at(numbers, &rows, w, h, u, v, sloped))
}

// The exact reading at (u, v), in steps of 1/128 cell: a numerator over D = 36 × 2^42.
pub fn exact(
    w: usize,
    h: usize,
    tree: &[u8],
    numbers: &[i64],
    u: usize,
    v: usize,
) -> Result<i64, Refusal>
    ensures { ExactPromise w h (record { tree = tree.now; numbers = numbers.now }) u v result }
{
    let x = read(w, h, tree, numbers, u, v, false)?;
    Ok(x.watts)
}

// The watts as an f64, within 2^-30 of the exact reading.
pub fn watts(
    w: usize,
    h: usize,
    tree: &[u8],
    numbers: &[i64],
    u: usize,
    v: usize,
) -> Result<f64, Refusal>
    ensures { FloatMeets (exact_outcome w h tree.now numbers.now u v) (value_answer result) }
{
    let n = exact(w, h, tree, numbers, u, v)?;
    Ok(floating::watts(n))
}

// The watts and both slopes as f64s, in watts per eighth of a cell: watts within 2^-30 of the exact reading, slopes
// within 2^-20 of the exact derivatives.
pub fn slopes(
    w: usize,
    h: usize,
    tree: &[u8],
    numbers: &[i64],
    u: usize,
    v: usize,
) -> Result<WattsAndSlopes, Refusal>
    ensures { SlopesMeet (slopes_outcome w h tree.now numbers.now u v) (slopes_answer result) }
{
    let x = read(w, h, tree, numbers, u, v, true)?;
    Ok(WattsAndSlopes {
        watts: floating::watts(x.watts),
        along_u: floating::slope(x.along_u),
        along_v: floating::slope(x.along_v),
    })
}

// The exact watts to the nearest whole number, halves upward.
pub fn display(
    w: usize,
    h: usize,
    tree: &[u8],
    numbers: &[i64],
    u: usize,
    v: usize,
) -> Result<i64, Refusal>
    ensures { value_answer result ≡ display_outcome w h tree.now numbers.now u v }
{
    let n = exact(w, h, tree, numbers, u, v)?;
    Ok(rounding::whole_watts(n))
}

// Cost per hour in hundredths of a cent, by a tariff in hundredths of a cent per kWh; rounded once, from the exact
// reading.
pub fn cost(
    w: usize,
    h: usize,
    tree: &[u8],
    numbers: &[i64],
    u: usize,
    v: usize,
    tariff: usize,
) -> Result<usize, Refusal>
    ensures { value_answer result ≡ cost_outcome w h tree.now numbers.now u v tariff }
{
    let n = exact(w, h, tree, numbers, u, v)?;
    if 99999 < tariff {
        return Err(Refusal::Tariff);
    }
    Ok(rounding::cost_of(n, tariff))
}
