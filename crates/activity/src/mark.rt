// The activity of a level, one byte for each place.
ghost use Rattle.std.specs.Prelude.{◌≡◌, ◌*◌, ◌≤◌, ◌<◌, length};
ghost use Rattle.surface.specs.Sheet.{functions};
ghost use Rattle.rows.specs.Rows.{Nested};
ghost use Rattle.activity.specs.Mark.{row_marks, level_marks};

// Writes the marks of one row of a level, 1 for a marked function and 0 for another; a cell's side is e eighths.
fn mark_row(row: &mut [u8], marks: super::Marks, e: usize)
    requires { e ≤ 8 }
    ensures { row.new ≡ row_marks e marks (length row.old) }
{
    let mut m = marks;
    for mark in row.iter_mut() {
        *mark = (m.even % 2) as u8;
        m = super::next(m, e);
    }
}

// Marks the places of a level, n functions in each of m rows.
pub fn mark_level(
    rows: &[u32; 96],
    w: usize,
    h: usize,
    level: usize,
    n: usize,
    m: usize,
    out: &mut [u8],
)
    requires { (w ≤ 8) × (h ≤ 8) × (level ≤ 3) × (n ≡ functions w level) × (m ≡ functions h level)
        × (length out.old ≡ n * m) × Nested rows.now }
    ensures { out.new ≡ level_marks w h level rows.now }
{
    let e = super::eighths(level);
    for b in 0..m {
        let marks = super::active_row(rows, w, h, level, b);
        let from = b * n;
        let to = from + n;
        mark_row(&mut out[from..to], marks, e);
    }
}
