// The coefficients of a level from its body: the active ones take its numbers in slice order, the others 0.
ghost use Rattle.std.specs.Prelude.{◌≡◌, List, ◌+◌, ◌*◌, ◌≤◌, ◌<◌, ℤ, length};
ghost use Rattle.surface.specs.Sheet.{functions};
ghost use Rattle.surface.specs.Support.{active_count};
ghost use Rattle.surface.specs.Table.{places, slots};
ghost use Rattle.surface.specs.TableFile.{level_loaded};
ghost use Rattle.rows.specs.Rows.{levels_of, Nested};
ghost use Rattle.loading.specs.Levels.{rows_before, row_loaded};
ghost use Rattle.judging.specs.Judged.{levels_hold};

// Loads row b of a level from the numbers of the body from `next` on, and returns the place of the first number left.
fn load_row(
    body: &[u8],
    next: usize,
    row: &mut [i64],
    rows: &[u32; 96],
    w: usize,
    h: usize,
    level: usize,
    b: usize,
) -> usize
    requires { (w ≤ 8) × (h ≤ 8) × (level ≤ 3) × (b < functions h level) × Nested rows.now
        × (length row.old ≡ functions w level) × (next ≡ rows_before w h (levels_of rows.now) level b)
        × (5 * rows_before w h (levels_of rows.now) level (b + 1) ≤ length body.now) }
    ensures { (row.new ≡ row_loaded w h (levels_of rows.now) level body.now b)
        × (result ≡ rows_before w h (levels_of rows.now) level (b + 1)) }
{
    let e = activity::eighths(level);
    let marks = activity::active_row(rows, w, h, level, b);
    let mut at = next;
    for (a, place) in row.iter_mut().enumerate() {
        *place = if activity::is_marked(marks, a, e) {
            let number = fields::number::read(body, at);
            at += 1;
            number
        } else {
            0
        };
    }
    at
}

// Loads a level's part of the coefficients from the level's body.
pub fn load_level(body: &[u8], part: &mut [i64], rows: &[u32; 96], w: usize, h: usize, level: usize)
    requires { (w ≤ 8) × (h ≤ 8) × (level ≤ 3) × Nested rows.now × (length part.old ≡ places w h level)
        × (length body.now ≡ 5 * active_count w h (levels_of rows.now) level) }
    ensures { part.new ≡ level_loaded w h (levels_of rows.now) level body.now }
{
    // A level with no active function.
    if body.len() == 0 {
        coefficients::fill(part, 0);
        return;
    }
    let n = coefficients::functions(w, level);
    let m = coefficients::functions(h, level);
    let mut next = 0;
    for b in 0..m {
        let from = b * n;
        let to = from + n;
        next = load_row(body, next, &mut part[from..to], rows, w, h, level, b);
    }
}

// Loads the coefficients of all levels from the fields that start at a position, which are judged good.
pub fn load_levels(
    file: &[u8],
    from: usize,
    rows: &[u32; 96],
    w: usize,
    h: usize,
    numbers: &mut [i64],
)
    requires { (w ≤ 8) × (h ≤ 8) × Nested rows.now × (length numbers.old ≡ slots w h)
        × ((found : List ℤ) × levels_hold file.now from w h rows.now found) }
    ensures { levels_hold file.now from w h rows.now numbers.new }
{
    let mut at = from;
    for level in 0..tablefile::LEVELS {
        let body = at + fields::HEAD;
        let end = body + fields::length_at(file, at);
        let first = coefficients::start(w, h, level);
        let last = first + coefficients::places(w, h, level);
        load_level(
            &file[body..end],
            &mut numbers[first..last],
            rows,
            w,
            h,
            level,
        );
        at = end;
    }
}
