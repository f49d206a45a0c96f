// The calls that write a table's coefficients: a fresh table, and one coefficient set.
#![tactic(auto)]

ghost use Rattle.std.specs.Prelude.{◌≡◌, true, ◌&&◌, ◌++◌, ◌+◌, ◌-◌, ◌*◌, ◌≤◌, ◌<◌, pos, length, replicate};
ghost use Rattle.std.proofs.Math.ListN as ListN;
ghost use Rattle.surface.specs.Sheet.{functions};
ghost use Rattle.surface.specs.Support.{active};
ghost use Rattle.surface.specs.Calls.{TableMeets, fresh_cause, fresh_outcome, SliceMeets};
ghost use Rattle.surface.specs.Calls.{index_fits, set_cause, set_outcome};
ghost use Rattle.surface.specs.Calls as Calls;
ghost use Rattle.rows.specs.Rows.{levels_of, Nested};
ghost use Rattle.answers.specs.Answers.{value_answer, outcome_answer};
ghost use Rattle.answers.specs.Refusals.{cause_of};

use answers::Refusal;

// The lowest cause that refuses a fresh table.
fn fresh_cause(w: usize, h: usize, number: i64, tree: &[u8], numbers: &[i64]) -> Result<(), Refusal>
    ensures { cause_of result ≡ fresh_cause w h number tree.now numbers.now }
{
    if !coefficients::good_sides(w, h) {
        return Err(Refusal::Side);
    }
    if coefficients::past(number, coefficients::limit(0)) {
        return Err(Refusal::NumberLimit);
    }
    coefficients::outputs_cause(w, h, 1, tree, numbers)
}

// One number at the first places of a slice, and 0 at the others.
fn spread(numbers: &mut [i64], coarse: usize, number: i64)
    requires { coarse ≤ length numbers.old }
    ensures { numbers.new
        ≡ replicate coarse number ++ replicate (length numbers.old - coarse) (pos 0) }
{
    coefficients::fill(&mut numbers[0..coarse], number);
    coefficients::fill(&mut numbers[coarse..], 0);
}

// A fresh table: the tree is the one byte 0, and all level 0 coefficients are one number.
pub fn fresh(
    w: usize,
    h: usize,
    number: i64,
    tree_out: &mut [u8],
    numbers_out: &mut [i64],
) -> Result<usize, Refusal>
    ensures { TableMeets (fresh_outcome w h number tree_out.old numbers_out.old)
        (value_answer result) tree_out.new numbers_out.new }
{
    fresh_cause(w, h, number, tree_out, numbers_out)?;
    let coarse = coefficients::places(w, h, 0);
    spread(numbers_out, coarse, number);
    tree_out[0] = 0;
    Ok(1)
}

// Whether i is one of the functions of a level along a side of n cells.
fn index_fits(n: usize, level: usize, i: i64) -> bool
    requires { (n ≤ 8) × (level ≤ 3) }
    ensures { result ≡ index_fits n level i }
{
    if i < -3 {
        return false;
    }
    let cells = coefficients::functions(n, level) - 3;
    i < cells as i64
}

// The index of function i, from 0 on.
fn index(n: usize, level: usize, i: i64) -> usize
    requires { (n ≤ 8) × (level ≤ 3) × (index_fits n level i ≡ true) }
    ensures { (result ≡ Calls.index i) × (result < functions n level) }
{
    (i + 3) as usize
}

// Whether the function with these indices is active under the levels of the rows.
fn is_active(rows: &[u32; 96], w: usize, h: usize, level: usize, a: usize, b: usize) -> bool
    requires { (w ≤ 8) × (h ≤ 8) × (level ≤ 3) × (a < functions w level) × (b < functions h level)
        × Nested rows.now }
    ensures { result ≡ active w h (levels_of rows.now) level a b }
{
    let marks = activity::active_row(rows, w, h, level, b);
    let e = activity::eighths(level);
    activity::is_marked(marks, a, e)
}

// Whether (i, j) is an active function of the level, under the levels of the rows.
fn settable(rows: &[u32; 96], w: usize, h: usize, level: usize, i: i64, j: i64) -> bool
    requires { (w ≤ 8) × (h ≤ 8) × (level ≤ 3) × Nested rows.now }
    ensures { result ≡ (index_fits w level i
        && index_fits h level j
        && active w h (levels_of rows.now) level (Calls.index i) (Calls.index j)) }
{
    index_fits(w, level, i)
        && index_fits(h, level, j)
        && is_active(rows, w, h, level, index(w, level, i), index(h, level, j))
}

// The lowest cause that refuses a set.
fn set_cause(
    w: usize,
    h: usize,
    t: &[u8],
    numbers: &[i64],
    level: usize,
    i: i64,
    j: i64,
    number: i64,
) -> Result<(), Refusal>
    ensures { cause_of result ≡ set_cause w h t.now numbers.now level i j number }
{
    let mut rows = [0u32; 96];
    table::cause::check(w, h, t, numbers, &mut rows)?;
    if 3 < level {
        return Err(Refusal::Level);
    }
    if !settable(&rows, w, h, level, i, j) {
        return Err(Refusal::Function);
    }
    if coefficients::past(number, coefficients::limit(level)) {
        return Err(Refusal::NumberLimit);
    }
    Ok(())
}

// Sets the coefficient of the function (a, b) in its level's part, in rows of n.
fn set_in_part(part: &mut [i64], n: usize, a: usize, b: usize, number: i64)
    requires { (n ≤ 67) × (a ≤ 67) × (b ≤ 67) × (b * n + a < length part.old) }
    ensures { part.new ≡ ListN.set part.old (b * n + a) number }
{
    let at = b * n + a;
    part[at] = number;
}

// Sets one active coefficient: function (i, j) of a level, i and j from -3 on.
pub fn set(
    w: usize,
    h: usize,
    tree: &[u8],
    numbers: &mut [i64],
    level: usize,
    i: i64,
    j: i64,
    number: i64,
) -> Result<(), Refusal>
    ensures { SliceMeets (set_outcome w h tree.now numbers.old level i j number)
        (outcome_answer result) numbers.new }
{
    set_cause(w, h, tree, numbers, level, i, j, number)?;
    let n = coefficients::functions(w, level);
    let a = index(w, level, i);
    let b = index(h, level, j);
    let first = coefficients::start(w, h, level);
    let end = first + coefficients::places(w, h, level);
    set_in_part(&mut numbers[first..end], n, a, b, number);
    Ok(())
}
