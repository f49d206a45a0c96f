// Sides, the places of a level, where its part of the coefficients' slice starts, its limit, and a slice filled.
#![tactic(auto)]

ghost use Rattle.std.specs.Prelude.{◌≡◌, ◌&&◌, ℕ, ◌≤◌, ◌<◌, ltb, pos, nat_abs, length, replicate};
ghost use Rattle.surface.specs.Sheet as Sheet;
ghost use Rattle.surface.specs.Table as Table;
ghost use Rattle.surface.specs.Table.{cause, ◌or_else◌};
ghost use Rattle.surface.specs.Calls.{length_cause};
ghost use Rattle.answers.specs.Refusals.{cause_of};

use answers::Refusal;

// A side of a sheet is 1 to 8 cells.
pub fn good_side(n: usize) -> bool
    ensures { result ≡ Sheet.good_side n }
{
    1 <= n && n <= 8
}

// Both sides of a sheet are.
pub fn good_sides(w: usize, h: usize) -> bool
    ensures { result ≡ (Sheet.good_side w && Sheet.good_side h) }
{
    good_side(w) && good_side(h)
}

// The functions of a level along a side of n cells.
pub fn functions(n: usize, level: usize) -> usize
    requires { (n ≤ 8) × (level ≤ 3) }
    ensures { (result ≡ Sheet.functions n level) × (result ≤ 67) × (3 ≤ result) }
{
    if level == 0 {
        return n + 3;
    }
    if level == 1 {
        return 2 * n + 3;
    }
    if level == 2 {
        return 4 * n + 3;
    }
    8 * n + 3
}

// The places of a level.
pub fn places(w: usize, h: usize, level: usize) -> usize
    requires { (w ≤ 8) × (h ≤ 8) × (level ≤ 3) }
    ensures { (result ≡ Table.places w h level) × (result ≤ 4489) }
{
    functions(w, level) * functions(h, level)
}

// Where a level's part of the slice starts; at level 4, the slice's length.
pub fn start(w: usize, h: usize, level: usize) -> usize
    requires { (w ≤ 8) × (h ≤ 8) × (level ≤ 4) }
    ensures { (result ≡ Table.start w h level) × (result ≤ 20000) }
{
    if level == 0 {
        return 0;
    }
    let p0 = places(w, h, 0);
    if level == 1 {
        return p0;
    }
    let p1 = places(w, h, 1);
    if level == 2 {
        return p0 + p1;
    }
    let p2 = places(w, h, 2);
    if level == 3 {
        return p0 + p1 + p2;
    }
    p0 + p1 + p2 + places(w, h, 3)
}

// A level's limit: 32,000 watts in its unit.
pub fn limit(level: usize) -> i64
    requires { level ≤ 3 }
    ensures { result ≡ pos (Table.limit level) }
{
    if level == 0 {
        return 32000;
    }
    if level == 1 {
        return 2048000;
    }
    if level == 2 {
        return 131072000;
    }
    8388608000
}

// Whether a number is past a limit, above or below.
pub fn past(number: i64, limit: i64) -> bool
    requires { (m : ℕ) × (limit ≡ pos m) × (m < 9000000000) }
    ensures { (m : ℕ) → limit ≡ pos m → result ≡ ltb m (nat_abs number) }
{
    if limit < number {
        return true;
    }
    number < 0 - limit
}

// 16, then 17, of the outputs of a call that writes a table whose tree has this many bytes.
pub fn outputs_cause(
    w: usize,
    h: usize,
    bytes: usize,
    tree_out: &[u8],
    numbers_out: &[i64],
) -> Result<(), Refusal>
    requires { (w ≤ 8) × (h ≤ 8) }
    ensures { cause_of result ≡ (length_cause (Table.slots w h) numbers_out.now
        or_else cause 17 (ltb (length tree_out.now) bytes)) }
{
    if numbers_out.len() != start(w, h, 4) {
        return Err(Refusal::OutputLength);
    }
    if tree_out.len() < bytes {
        return Err(Refusal::TreeOutputShort);
    }
    Ok(())
}

// Fills a slice with one number.
pub fn fill(s: &mut [i64], number: i64)
    ensures { s.new ≡ replicate (length s.old) number }
{
    for place in s.iter_mut() {
        *place = number;
    }
}
