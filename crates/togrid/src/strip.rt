// A strip of level 0 cells: from its four rows of level 0 the rows of each finer level that lie over it, of which only
// these stand in memory, and those of level 3 put one after the other.
ghost use Rattle.std.specs.Prelude.{◌≡◌, ℕ, ◌+◌, ◌-◌, ◌*◌, ◌/◌, ◌%◌, ◌≤◌, ◌<◌, pos, nat_abs, length, get_or};
ghost use Rattle.surface.specs.Sheet.{functions};
ghost use Rattle.fields.specs.Put.{Put};
ghost use Rattle.togrid.specs.Strips.{Checked, Window, Row, numbers_bytes, grid_rows};

// Puts numbers one after the other.
fn put_numbers(row: &[i64], out: &mut [u8], at: usize) -> usize
    requires { (at + length (numbers_bytes row.now) ≤ length out.old)
        × ((a : ℕ) → a < length row.now → nat_abs (get_or row.now a (pos 0)) < 549755813888) }
    ensures { Put (numbers_bytes row.now) at out.old result out.new }
{
    let mut to = at;
    for number in row {
        to = fields::number::put(*number, out, to);
    }
    to
}

// Writes the carried values of row b of the level after `level`, whose rows from `first` on are lent.
fn carried_row(
    row: &mut [i64],
    coarse: &[i64],
    numbers: &[i64],
    rows: &[u32; 96],
    w: usize,
    h: usize,
    level: usize,
    b: usize,
    first: usize,
)
    requires { Checked w h rows.now numbers.now × (level < 3) × (b < functions h (level + 1)) × (first ≤ b / 2)
        × (length row.old ≡ functions w (level + 1))
        × ((m : ℕ) × Window w h rows.now numbers.now level first m coarse.now
        × (b / 2 - first + b % 2 + 2 ≤ m)) }
    ensures { Row w h rows.now numbers.now (level + 1) b row.new }
{
    let n = coefficients::functions(w, level + 1);
    let from = coefficients::start(w, h, level + 1) + b * n;
    let to = from + n;
    let mut sums = [0; 35];
    carry::next_row(
        row,
        &numbers[from..to],
        coarse,
        &mut sums,
        rows,
        w,
        h,
        level,
        b,
        first,
    );
}

// Writes so many rows of the level after `level`, from row 2 * first on, from those of `level` from `first` on.
fn fill_window(
    out: &mut [i64],
    coarse: &[i64],
    numbers: &[i64],
    rows: &[u32; 96],
    w: usize,
    h: usize,
    level: usize,
    first: usize,
    count: usize,
)
    requires { Checked w h rows.now numbers.now × (level < 3) × (2 * first + count ≤ functions h (level + 1))
        × (length out.old ≡ count * functions w (level + 1))
        × Window w h rows.now numbers.now level first (count / 2 + 2) coarse.now }
    ensures { Window w h rows.now numbers.now (level + 1) (2 * first) count
        out.new }
{
    let n = coefficients::functions(w, level + 1);
    let mut from = 0;
    for i in 0..count {
        let to = from + n;
        carried_row(
            &mut out[from..to],
            coarse,
            numbers,
            rows,
            w,
            h,
            level,
            2 * first + i,
            first,
        );
        from = to;
    }
}

// Puts so many rows of level 3, from row 2 * first on, from seven rows of level 2.
fn put_rows(
    coarse: &[i64],
    numbers: &[i64],
    rows: &[u32; 96],
    w: usize,
    h: usize,
    first: usize,
    count: usize,
    out: &mut [u8],
    at: usize,
) -> usize
    requires { Checked w h rows.now numbers.now × (count ≤ 11) × (2 * first + count ≤ functions h 3)
        × Window w h rows.now numbers.now 2 first 7 coarse.now
        × (at + length (grid_rows w h rows.now numbers.now (2 * first) count) ≤ length out.old) }
    ensures { Put (grid_rows w h rows.now numbers.now (2 * first) count) at
        out.old result out.new }
{
    let n = coefficients::functions(w, 3);
    let mut row = [0; 67];
    let mut to = at;
    for i in 0..count {
        carried_row(
            &mut row[..n],
            coarse,
            numbers,
            rows,
            w,
            h,
            2,
            2 * first + i,
            first,
        );
        to = put_numbers(&row[..n], out, to);
    }
    to
}

// Puts so many rows of level 3 from the first over strip y on. The rows of level 0 carry their own numbers.
pub fn put_strip(
    numbers: &[i64],
    rows: &[u32; 96],
    w: usize,
    h: usize,
    y: usize,
    count: usize,
    out: &mut [u8],
    at: usize,
) -> usize
    requires { Checked w h rows.now numbers.now × (y < h) × (count ≤ 11)
        × (at + length (grid_rows w h rows.now numbers.now (8 * y) count) ≤ length out.old) }
    ensures { Put (grid_rows w h rows.now numbers.now (8 * y) count) at
        out.old result out.new }
{
    let mut level1 = [0; 95];
    let mut level2 = [0; 245];
    let n = coefficients::functions(w, 0);
    let end1 = 5 * coefficients::functions(w, 1);
    let end2 = 7 * coefficients::functions(w, 2);
    let from = y * n;
    let to = from + 4 * n;
    fill_window(
        &mut level1[..end1],
        &numbers[from..to],
        numbers,
        rows,
        w,
        h,
        0,
        y,
        5,
    );
    fill_window(
        &mut level2[..end2],
        &level1[..end1],
        numbers,
        rows,
        w,
        h,
        1,
        2 * y,
        7,
    );
    put_rows(&level2[..end2], numbers, rows, w, h, 4 * y, count, out, at)
}
