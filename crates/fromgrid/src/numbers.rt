// Rows of a grid's numbers read and compared, and the numbers of all levels written.
ghost use Rattle.std.specs.Prelude.{◌≡◌, true, false, ℕ, ◌+◌, ◌*◌, ◌≤◌, ◌<◌, pos, length, get_or};
ghost use Rattle.surface.specs.Table.{places, slots, slice_of};
ghost use Rattle.rows.specs.Rows.{levels_of, Nested};
ghost use Rattle.coarsening.specs.Coarser.{Stand, number_of};
ghost use Rattle.fromgrid.specs.Converts.{number_in, active_in};

// Fills a row with numbers from a place on: at level 2 those of level 3 in the grid's body, else those of a slice.
pub fn read_row(row: &mut [i64], body: &[u8], fine: &[i64], level: usize, from: usize)
    requires { Stand level body.now fine.now (from + length row.old) × (from + length row.old ≤ 4489) }
    ensures { (length row.new ≡ length row.old)
        × ((k : ℕ) → k < length row.old → get_or row.new k (pos 0)
        ≡ number_of level body.now fine.now (from + k)) }
{
    for (k, number) in row.iter_mut().enumerate() {
        *number = if level == 2 {
            fields::number::read(body, from + k)
        } else {
            fine[from + k]
        };
    }
}

// Whether two rows are the same. A loop, since `==` of slices may be compiled to a call of memcmp, which the archive may
// not make.
pub fn same(a: &[i64], b: &[i64]) -> bool
    requires { length a.now ≡ length b.now }
    ensures { (result ≡ true → (k : ℕ) → k < length a.now
        → get_or a.now k (pos 0) ≡ get_or b.now k (pos 0))
        × (result ≡ false → (k : ℕ) × (k < length a.now)
        × (get_or a.now k (pos 0) ≡ get_or b.now k (pos 0) → ⊥)) }
{
    for (k, number) in a.iter().enumerate() {
        if *number != b[k] {
            return false;
        }
    }
    true
}

// Writes the numbers of all levels, then 0 at passive places.
pub fn write_table(
    out: &mut [i64],
    body: &[u8],
    level0: &[i64],
    level1: &[i64],
    level2: &[i64],
    rows: &[u32; 96],
    w: usize,
    h: usize,
)
    requires { (w ≤ 8) × (h ≤ 8) × (length out.old ≡ slots w h) × (length body.now ≡ 5 * places w h 3)
        × (length level0.now ≡ places w h 0) × (length level1.now ≡ places w h 1)
        × (length level2.now ≡ places w h 2) × Nested rows.now }
    ensures { out.new ≡ slice_of w h (active_in w h (levels_of rows.now)
        (number_in w body.now level0.now level1.now level2.now)) }
{
    let first = coefficients::places(w, h, 0);
    let second = first + coefficients::places(w, h, 1);
    let third = second + coefficients::places(w, h, 2);
    let end = third + coefficients::places(w, h, 3);
    read_row(&mut out[0..first], body, level0, 0, 0);
    read_row(&mut out[first..second], body, level1, 0, 0);
    read_row(&mut out[second..third], body, level2, 0, 0);
    read_row(&mut out[third..end], body, level2, 2, 0);
    passive::clear(out, rows, w, h);
}
