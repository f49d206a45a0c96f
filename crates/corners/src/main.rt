// The corner program: reads a table file from standard input and prints the whole watts at each cell corner, or the
// refusal number of the file. The table is judged once, by file reading.
#![tactic(auto)]

ghost use Rattle.std.specs.Prelude.{◌≡◌, List, ℕ, ◌+◌, ◌*◌, ◌≤◌, nat_abs, length, take};
ghost use Rattle.io.specs.Counts.{IsPrefixLen};
ghost use Rattle.surface.specs.Table.{Acceptable, table_reading};
ghost use Rattle.surface.specs.Calls.{whole_watts};
ghost use Rattle.rows.specs.Rows.{level_rows};
ghost use Rattle.point.specs.OfTable.{OfTable};
ghost use Rattle.fields.specs.Put.{Put};
ghost use Rattle.finite.specs.Range.{joined};
ghost use Rattle.corners.specs.Text.{corner_line, table_text, corner_text};
ghost use Rattle.corners.specs.Buffers.{places_of, places_named};

// The places of a table on this sheet; none where there is no such sheet.
fn places_of(w: usize, h: usize) -> usize
    ensures { (result ≡ places_of w h) × (result ≤ 6196) }
{
    if !coefficients::good_sides(w, h) {
        return 0;
    }
    coefficients::start(w, h, 4)
}

// The places of the table whose sides the file names; none where it names none, which file reading refuses.
fn places_named(file: &[u8]) -> usize
    ensures { (result ≡ places_named file.now) × (result ≤ 6196) }
{
    if file.len() < tablefile::TREE_FIELD {
        return 0;
    }
    places_of(file[tablefile::W] as usize, file[tablefile::H] as usize)
}

// Whole watts at the corner (u, v), in cells.
fn watts_at(numbers: &[i64], rows: &[u32; 96], w: usize, h: usize, u: usize, v: usize) -> i64
    requires { (u ≤ w) × (v ≤ h) × OfTable w h rows.now numbers.now }
    ensures { ((t : List ℕ) → rows.now ≡ level_rows t → Acceptable w h t numbers.now
        → result ≡ whole_watts (table_reading w h t numbers.now (128 * u) (128 * v))) × (nat_abs result ≤ 60000) }
{
    rounding::whole_watts(point::reading_at(numbers, rows, w, h, 128 * u, 128 * v))
}

// One row of corners, u rising. A line has at most 11 bytes.
fn row(
    numbers: &[i64],
    rows: &[u32; 96],
    w: usize,
    h: usize,
    v: usize,
    out: &mut [u8],
    start: usize,
) -> usize
    requires { (v ≤ h) × OfTable w h rows.now numbers.now × (start + 99 ≤ length out.old) }
    ensures { ((t : List ℕ) → rows.now ≡ level_rows t → Acceptable w h t numbers.now
        → Put (joined (w + 1) (corner_line w h t numbers.now v)) start out.old result out.new)
        × (result ≤ start + 99) }
{
    let mut at = start;
    for u in 0..w + 1 {
        let watts = watts_at(numbers, rows, w, h, u, v);
        at = text::line(u, v, watts, out, at);
    }
    at
}

// All corners of an acceptable table: v rising, within it u.
fn table_text(tree: &[u8], numbers: &[i64], w: usize, h: usize, out: &mut [u8]) -> usize
    requires { Acceptable w h tree.now numbers.now × (901 ≤ length out.old) }
    ensures { Put (table_text w h tree.now numbers.now) 0 out.old result
        out.new × (result ≤ 901) }
{
    let mut rows = [0u32; 96];
    quadtree::walk::regions(tree, w, h, &mut rows);
    let mut at = text::header(out);
    for v in 0..h + 1 {
        at = row(numbers, &rows, w, h, v, out, at);
    }
    at
}

// Judges a file into these buffers and puts its text.
fn text_into(file: &[u8], tree: &mut [u8], numbers: &mut [i64], out: &mut [u8]) -> usize
    requires { (1365 ≤ length tree.old) × (length numbers.old ≡ places_named file.now)
        × (901 ≤ length out.old) }
    ensures { Put (corner_text file.now) 0 out.old result out.new × (result ≤ 901) }
{
    match loading::read_file(file, tree, numbers) {
        Ok(loaded) => table_text(&tree[0..loaded.length], numbers, loaded.w, loaded.h, out),
        Err(refusal) => text::refused(refusal.number(), out),
    }
}

// The text for an input, with room for the table that it names.
fn corner_text(file: &[u8], out: &mut [u8]) -> usize
    requires { 901 ≤ length out.old }
    ensures prefix_len { IsPrefixLen result out.new }
    ensures out_after { take result out.new ≡ corner_text file.now }
{
    let mut tree = [0u8; 1365];
    let mut numbers = [0i64; 6196];
    let n = places_named(file);
    text_into(file, &mut tree, &mut numbers[0..n], out)
}

// No contract can say that standard output shows the text.
fn main() {
    // No file is as long as this, so that input of any length is judged by what is held of it.
    let mut space = io::large_buffer();
    let n = io::read_full(0, &mut space);
    let mut text = [0u8; 901];
    let k = corner_text(&space[..n], &mut text);
    io::write_all(1, &text[..k]);
}
