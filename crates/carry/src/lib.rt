// The carried values of all functions, level by level, each once: a function's own coefficient where its cut support
// lies in the region of its level, else the two-scale sum of its parents' carried values, first along v and then
// along u.
#![tactic(auto)]

ghost use Rattle.std.specs.Prelude.{◌≡◌, ◌+◌, ◌-◌, ◌*◌, ◌/◌, ◌%◌, ◌≤◌, ◌<◌, leb, pos, length, get_or, set, take};
ghost use Rattle.surface.specs.Sheet.{functions};
ghost use Rattle.surface.specs.Table.{start, slots};
ghost use Rattle.patch.specs.Steps.{midway, Small};
ghost use Rattle.rows.specs.Rows.{Nested};
ghost use Rattle.activity.specs.Marks.{marked};
ghost use Rattle.carry.specs.Carried.{CarriedFit, carried_slice, CarriedTo, Within};
ghost use Rattle.carry.specs.Carried.{child_from, AlongV, carried_if, row_carried, NextRow};

// Child c of its two or three parents: the first stands at a place, each other a step after the one before it.
fn child(values: &[i64], at: usize, step: usize, c: usize) -> i64
    requires { (at + step < length values.now) × (c % 2 ≡ 1 → at + step + step < length values.now)
        × Within midway values.now }
    ensures { (result ≡ child_from values.now at step c)
        × (Within 131072000 values.now → Small result) }
{
    let x = values[at];
    let next = at + step;
    let y = values[next];
    if c % 2 == 0 {
        return patch::even(x, y);
    }
    patch::odd(x, y, values[next + step])
}

// Writes the first step of row b's sums, along v, into an array that all rows share, so that it is made once: a child
// for each of the n columns of the coarser level.
fn along_v(sums: &mut [i64; 35], coarse: &[i64], n: usize, b: usize)
    requires { (n ≤ 35) × ((b / 2 + b % 2 + 2) * n ≤ length coarse.now) × Within 131072000 coarse.now
        × (length sums.old ≡ 35) × Within midway sums.old }
    ensures { AlongV n n b coarse.now sums.new }
{
    let first = b / 2 * n;
    for c in 0..n {
        sums[c] = child(coarse, first + c, n, b);
    }
}

// Writes the carried value of function a into its row: its own coefficient if its mark is 1, else the child along u of
// the sums along v.
fn put(row: &mut [i64], own: &[i64], sums: &[i64; 35], mark: u64, a: usize)
    requires { (a < length row.old) × (length row.old ≤ 67) × (length own.now ≡ length row.old)
        × Within midway sums.now }
    ensures { row.new ≡ set row.old a
        (carried_if (leb 1 mark) (get_or own.now a (pos 0)) sums.now a) }
{
    row[a] = if 1 <= mark {
        own[a]
    } else {
        child(sums, a / 2, 1, a)
    };
}

// Writes the carried values of a row, given its own coefficients: those functions are marked whose cut support lies in
// the region of their level; a cell's side is e eighths. Two at a time, so that no index is tested for being odd.
fn fill_row(row: &mut [i64], own: &[i64], sums: &[i64; 35], inside: activity::Marks, e: usize)
    requires { (length row.old ≤ 67) × (length row.old % 2 ≡ 1) × (length own.now ≡ length row.old)
        × (e ≤ 8) × Within midway sums.now }
    ensures { row.new ≡ row_carried (marked e inside) sums.now own.now }
{
    let pairs = row.len() / 2;
    let mut m = inside;
    for k in 0..pairs {
        put(row, own, sums, m.even % 2, 2 * k);
        m = activity::next(m, e);
        put(row, own, sums, m.even % 2, 2 * k + 1);
        m = activity::next(m, e);
    }
    put(row, own, sums, m.even % 2, 2 * pairs);
}

// Writes row b of the level after `level` from the numbers of `level`, whose rows from `first` on are lent, and from
// its own: those functions keep their own number whose cut support lies in the region of their level.
pub fn next_row(
    row: &mut [i64],
    own: &[i64],
    coarse: &[i64],
    sums: &mut [i64; 35],
    rows: &[u32; 96],
    w: usize,
    h: usize,
    level: usize,
    b: usize,
    first: usize,
)
    requires { (w ≤ 8) × (h ≤ 8) × (level < 3) × (b < functions h (level + 1)) × (first ≤ b / 2)
        × ((b / 2 - first + b % 2 + 2) * functions w level ≤ length coarse.now) × Within 131072000 coarse.now
        × (length row.old ≡ functions w (level + 1)) × (length own.now ≡ functions w (level + 1))
        × (length sums.old ≡ 35) × Within midway sums.old × Nested rows.now }
    ensures { NextRow w h rows.now level b first coarse.now own.now
        row.new
        × (length sums.new ≡ 35) × Within midway sums.new }
{
    let inside = activity::region_row(rows, w, h, level + 1, b, level + 1);
    along_v(
        sums,
        coarse,
        coefficients::functions(w, level),
        b - 2 * first,
    );
    fill_row(row, own, sums, inside, activity::eighths(level + 1));
}

// Writes the carried values of the level after `coarse`; those of the levels up to `coarse` are written.
fn fill_level(out: &mut [i64], numbers: &[i64], rows: &[u32; 96], w: usize, h: usize, coarse: usize)
    requires { (w ≤ 8) × (h ≤ 8) × (coarse < 3) × (length numbers.now ≡ slots w h) × Nested rows.now
        × CarriedFit w h rows.now numbers.now
        × CarriedTo (start w h (coarse + 1)) w h rows.now numbers.now out.old }
    ensures { CarriedTo (start w h (coarse + 2)) w h rows.now numbers.now
        out.new }
{
    let level = coarse + 1;
    let low = coefficients::start(w, h, coarse);
    let first = low + coefficients::places(w, h, coarse);
    let columns = coefficients::functions(w, coarse);
    let n = coefficients::functions(w, level);
    let m = coefficients::functions(h, level);
    let e = activity::eighths(level);
    let mut sums = [0; 35];
    let mut from = first;
    for b in 0..m {
        let inside = activity::region_row(rows, w, h, level, b, level);
        along_v(&mut sums, &out[low..first], columns, b);
        let to = from + n;
        fill_row(&mut out[from..to], &numbers[from..to], &sums, inside, e);
        from = to;
    }
}

// Copies the first n numbers of a slice; copy_from_slice would have the archive need memmove.
fn copy(out: &mut [i64], numbers: &[i64], n: usize)
    requires { (n ≤ length out.old) × (n ≤ length numbers.now) }
    ensures { (length out.new ≡ length out.old)
        × (take n out.new ≡ take n numbers.now) }
{
    for (i, number) in numbers[..n].iter().enumerate() {
        out[i] = *number;
    }
}

// The carried values of all functions of all levels, each at its place.
pub fn fill(numbers: &[i64], rows: &[u32; 96], w: usize, h: usize, out: &mut [i64])
    requires { (w ≤ 8) × (h ≤ 8) × (length numbers.now ≡ slots w h) × (length out.old ≡ slots w h)
        × Nested rows.now × CarriedFit w h rows.now numbers.now }
    ensures { out.new ≡ carried_slice w h rows.now numbers.now }
{
    copy(out, numbers, coefficients::places(w, h, 0));
    for coarse in 0..3 {
        fill_level(out, numbers, rows, w, h, coarse);
    }
}
