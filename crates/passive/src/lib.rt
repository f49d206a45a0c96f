// 0 at every place whose function is passive under given regions; every other place keeps its number.
#![tactic(auto)]

ghost use Rattle.std.specs.Prelude.{◌≡◌, List, ◌+◌, ◌≤◌, ℤ, length};
ghost use Rattle.surface.specs.Table.{start, slots};
ghost use Rattle.rows.specs.Rows.{Nested};
ghost use Rattle.activity.specs.Marks.{marked};
ghost use Rattle.passive.specs.Cleared.{row_cleared, cleared_slice, ClearedTo};

// Clears one row of a level, whose active functions are marked; a cell's side is e eighths.
fn clear_row(row: &mut [i64], marks: activity::Marks, e: usize)
    requires { e ≤ 8 }
    ensures { row.new ≡ row_cleared (marked e marks) row.old }
{
    let mut m = marks;
    for number in row.iter_mut() {
        if m.even % 2 == 0 {
            *number = 0;
        }
        m = activity::next(m, e);
    }
}

// Clears a level.
fn clear_level(out: &mut [i64], rows: &[u32; 96], w: usize, h: usize, level: usize)
    requires { (w ≤ 8) × (h ≤ 8) × (level ≤ 3) × (length out.old ≡ slots w h) × Nested rows.now }
    ensures { (length out.new ≡ slots w h)
        × ((before : List ℤ) → ClearedTo (start w h level) w h rows.now before out.old
        → ClearedTo (start w h (level + 1)) w h rows.now before out.new) }
{
    let mut from = coefficients::start(w, h, level);
    let n = coefficients::functions(w, level);
    let m = coefficients::functions(h, level);
    let e = activity::eighths(level);
    for b in 0..m {
        let marks = activity::active_row(rows, w, h, level, b);
        let to = from + n;
        clear_row(&mut out[from..to], marks, e);
        from = to;
    }
}

// Clears the four levels.
pub fn clear(out: &mut [i64], rows: &[u32; 96], w: usize, h: usize)
    requires { (w ≤ 8) × (h ≤ 8) × (length out.old ≡ slots w h) × Nested rows.now }
    ensures { out.new ≡ cleared_slice w h rows.now out.old }
{
    for level in 0..4 {
        clear_level(out, rows, w, h, level);
    }
}
