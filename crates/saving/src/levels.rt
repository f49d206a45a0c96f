// The fields of the levels: of each level its active coefficients in slice order, five bytes each.
ghost use Rattle.std.specs.Prelude.{◌≡◌, ℕ, ◌+◌, ◌≤◌, ◌<◌, leb, pos, length, get_or};
ghost use Rattle.finite.specs.Range.{joined};
ghost use Rattle.surface.specs.Support.{active_count};
ghost use Rattle.surface.specs.Table.{places, slots, coefficients};
ghost use Rattle.surface.specs.TableFile.{level_body};
ghost use Rattle.rows.specs.Rows.{levels_of, Nested};
ghost use Rattle.activity.specs.Marks.{marked};
ghost use Rattle.activity.specs.Counts.{Counted};
ghost use Rattle.fields.specs.Put.{Put};
ghost use Rattle.saving.specs.Saved.{Spelt, bytes_if, marked_bytes, in_part, LevelSpelt, level_under};

// Puts a number if its mark is 1.
fn put_if(mark: u64, number: i64, out: &mut [u8], at: usize) -> usize
    requires { (at + length (bytes_if (leb 1 mark) number) ≤ length out.old) × Spelt number }
    ensures { Put (bytes_if (leb 1 mark) number) at out.old result out.new }
{
    if mark < 1 {
        return at;
    }
    fields::number::put(number, out, at)
}

// Puts the numbers of a row whose functions are marked; a cell's side is e eighths.
fn put_row(row: &[i64], marks: activity::Marks, e: usize, out: &mut [u8], at: usize) -> usize
    requires { (e ≤ 8) × (at + length (marked_bytes (marked e marks) row.now) ≤ length out.old)
        × ((a : ℕ) → a < length row.now → Spelt (get_or row.now a (pos 0))) }
    ensures { Put (marked_bytes (marked e marks) row.now) at out.old result out.new }
{
    let mut m = marks;
    let mut to = at;
    for number in row {
        to = put_if(m.even % 2, *number, out, to);
        m = activity::next(m, e);
    }
    to
}

// Puts the body of a level, given the level's part of the coefficients.
fn put_body(
    part: &[i64],
    rows: &[u32; 96],
    w: usize,
    h: usize,
    level: usize,
    out: &mut [u8],
    at: usize,
) -> usize
    requires { (w ≤ 8) × (h ≤ 8) × (level ≤ 3) × Nested rows.now × (length part.now ≡ places w h level)
        × LevelSpelt w h (in_part w part.now) level
        × (at + length (level_body w h (levels_of rows.now) (in_part w part.now) level) ≤ length out.old) }
    ensures { Put (level_body w h (levels_of rows.now) (in_part w part.now) level) at
        out.old result out.new }
{
    let e = activity::eighths(level);
    let n = coefficients::functions(w, level);
    let m = coefficients::functions(h, level);
    let mut to = at;
    for b in 0..m {
        let marks = activity::active_row(rows, w, h, level, b);
        let from = b * n;
        let end = from + n;
        to = put_row(&part[from..end], marks, e, out, to);
    }
    to
}

// Puts the field of a level that has so many active functions.
fn put_level(
    part: &[i64],
    rows: &[u32; 96],
    w: usize,
    h: usize,
    level: usize,
    count: usize,
    out: &mut [u8],
    at: usize,
) -> usize
    requires { (w ≤ 8) × (h ≤ 8) × (level ≤ 3) × Nested rows.now × (length part.now ≡ places w h level)
        × LevelSpelt w h (in_part w part.now) level × (count ≡ active_count w h (levels_of rows.now) level)
        × (count ≤ 4489)
        × (at + length (level_under w h (levels_of rows.now) (in_part w part.now) level) ≤ length out.old) }
    ensures { Put (level_under w h (levels_of rows.now) (in_part w part.now) level) at
        out.old result out.new }
{
    let body = fields::put_head(
        tablefile::LEVEL_TAG + level as u8,
        fields::number::SIZE * count,
        out,
        at,
    );
    if count == 0 {
        return body;
    }
    put_body(part, rows, w, h, level, out, body)
}

// Puts the fields of all levels, given their active functions.
pub fn put_levels(
    numbers: &[i64],
    rows: &[u32; 96],
    w: usize,
    h: usize,
    counts: [usize; 4],
    out: &mut [u8],
    at: usize,
) -> usize
    requires { (w ≤ 8) × (h ≤ 8) × Nested rows.now × (length numbers.now ≡ slots w h)
        × ((L : ℕ) → L < 4 → LevelSpelt w h (coefficients w h numbers.now) L)
        × Counted w h (levels_of rows.now) counts
        × (at + length (joined 4 (level_under w h (levels_of rows.now) (coefficients w h numbers.now)))
        ≤ length out.old) }
    ensures { Put
        (joined 4 (level_under w h (levels_of rows.now) (coefficients w h numbers.now)))
        at out.old result out.new }
{
    let mut to = at;
    for (level, count) in counts.iter().enumerate() {
        let first = coefficients::start(w, h, level);
        let last = first + coefficients::places(w, h, level);
        to = put_level(&numbers[first..last], rows, w, h, level, *count, out, to);
    }
    to
}
