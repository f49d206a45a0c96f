// The call that writes a table file: the table is checked and the file's length found, then its fields are put in
// order.
#![tactic(auto)]

mod counts;
mod levels;
mod notes;

ghost use Rattle.std.specs.Prelude.{◌≡◌, ℕ, ◌+◌, ◌≤◌, ◌<◌, length, get_or};
ghost use Rattle.surface.specs.Table.{coefficients};
ghost use Rattle.surface.specs.Calls.{SliceMeets};
ghost use Rattle.surface.specs.Fields.{field_bytes};
ghost use Rattle.demands.specs.FilePromises.{WritePromise};
ghost use Rattle.answers.specs.Answers.{value_answer};
ghost use Rattle.rows.specs.Rows.{levels_of};
ghost use Rattle.activity.specs.Counts.{Counted};
ghost use Rattle.fields.specs.Put.{Put};
ghost use Rattle.saving.specs.Saved.{Checked, length_by, file_under, note_lent, saved_outcome};

use answers::Refusal;

// The length of a file up to a note, by that of its tree and the active functions of each level.
fn file_length(tree: usize, counts: [usize; 4]) -> usize
    requires { (tree ≤ 1365) × ((L : ℕ) → L < 4 → get_or counts L 0 ≤ 4489) }
    ensures { result ≡ length_by tree counts }
{
    let heads = tablefile::FIELDS * fields::HEAD;
    let active = counts[0] + counts[1] + counts[2] + counts[3];
    heads + tablefile::SIDES + tree + tablefile::COUNTS + fields::number::SIZE * active
}

// Puts the field of a body, the tree or a note, at a position.
fn put_field(tag: u8, body: &[u8], out: &mut [u8], at: usize) -> usize
    requires { at + length (field_bytes tag body.now) ≤ length out.old }
    ensures { Put (field_bytes tag body.now) at out.old result out.new }
{
    let to = fields::put_head(tag, body.len(), out, at);
    fields::put(body, out, to)
}

// Puts the file of a table with these active functions of each level, up to a note, at the front of a buffer that holds
// it.
fn put_file(
    w: usize,
    h: usize,
    tree: &[u8],
    numbers: &[i64],
    rows: &[u32; 96],
    counts: [usize; 4],
    out: &mut [u8],
) -> usize
    requires { Checked w h tree.now numbers.now rows.now × Counted w h (levels_of rows.now) counts
        × (length (file_under w h tree.now (levels_of rows.now) (coefficients w h numbers.now))
        ≤ length out.old) }
    ensures { Put (file_under w h tree.now (levels_of rows.now)
        (coefficients w h numbers.now)) 0 out.old result out.new }
{
    let field = tablefile::put_sides(w, h, out);
    let end = put_field(tablefile::TREE_TAG, tree, out, field);
    let from = counts::put_counts(counts, out, end);
    levels::put_levels(numbers, rows, w, h, counts, out, from)
}

// Writes the file of a table that was checked, with its regions, and a note or none; or refuses with 14 or 18 and
// writes nothing.
fn write_checked(
    w: usize,
    h: usize,
    tree: &[u8],
    numbers: &[i64],
    rows: &[u32; 96],
    note: Option<&[u8]>,
    out: &mut [u8],
) -> Result<usize, Refusal>
    requires { Checked w h tree.now numbers.now rows.now }
    ensures { SliceMeets (saved_outcome w h tree.now (levels_of rows.now)
        (coefficients w h numbers.now) (note_lent note.entry) out.old)
        (value_answer result) out.new }
{
    if notes::is_long(note) {
        return Err(Refusal::FileFieldLength);
    }
    let counts = activity::count::active_counts(rows, w, h);
    let length = file_length(tree.len(), counts) + notes::note_length(note);
    if out.len() < length {
        return Err(Refusal::FileOutputShort);
    }
    let end = put_file(w, h, tree, numbers, rows, counts, out);
    notes::put_note(note, out, end);
    Ok(length)
}

// Writes the file of a table, with a note or none, to a buffer and returns its length, or refuses and writes nothing.
pub fn write_file(
    w: usize,
    h: usize,
    tree: &[u8],
    numbers: &[i64],
    note: Option<&[u8]>,
    out: &mut [u8],
) -> Result<usize, Refusal>
    ensures { WritePromise w h (record { tree = tree.now; numbers = numbers.now })
        (note_lent note.entry) out.old result out.new }
{
    let mut rows = [0u32; 96];
    table::cause::check(w, h, tree, numbers, &mut rows)?;
    write_checked(w, h, tree, numbers, &rows, note, out)
}
