// The calls that read a table file: judged whole in byte order first, then written. The bench loader also tells of the
// note; the controller's passes over it.
#![tactic(auto)]

mod load;

ghost use Rattle.std.specs.Prelude.{◌≡◌, ◌+◌, ◌≤◌, ◌<◌, drop};
ghost use Rattle.surface.specs.Note.{bytes_in};
ghost use Rattle.surface.specs.TableFile.{level_fields};
ghost use Rattle.answers.specs.Answers.{note_told};
ghost use Rattle.answers.specs.Refusals.{cause_of};
ghost use Rattle.demands.specs.FilePromises.{ReadPromise, BenchPromise};
ghost use Rattle.rows.specs.Rows.{levels_of};
ghost use Rattle.activity.specs.Counts.{Counted};
ghost use Rattle.judging.specs.Judged.{sheet_w, sheet_h, Front, Head, ends_at, part_from, lastly};

use answers::{Bench, Loaded, Note, Refusal};

// The note at a position of a file of so many bytes, which is all that follows it; none at the end of the file.
fn note_at(at: usize, size: usize) -> Option<Note>
    requires { (at ≤ size) × (at < size → at + 3 ≤ size) }
    ensures { note_told result ≡ part_from at size }
{
    let left = size - at;
    if left < fields::HEAD {
        return None;
    }
    Some(Note {
        offset: at + fields::HEAD,
        length: left - fields::HEAD,
    })
}

// "after the last field 15, 16, 17": the cause of what follows the levels, then those of the outputs.
fn last_cause(
    after: Result<(), Refusal>,
    w: usize,
    h: usize,
    bytes: usize,
    tree_out: &[u8],
    numbers_out: &[i64],
) -> Result<(), Refusal>
    requires { (w ≤ 8) × (h ≤ 8) }
    ensures { cause_of result ≡ lastly (cause_of after) w h bytes tree_out.now numbers_out.now }
{
    after?;
    coefficients::outputs_cause(w, h, bytes, tree_out, numbers_out)
}

// Writes the outputs, if no last cause applies: the tree ends at `end`, the levels stand from `from` to `last`.
fn fill(
    file: &[u8],
    end: usize,
    from: usize,
    last: usize,
    rows: &[u32; 96],
    w: usize,
    h: usize,
    tree_out: &mut [u8],
    numbers_out: &mut [i64],
) -> Result<Bench, Refusal>
    requires { Head file.now end from w h rows.now
        × ends_at file.now last (level_fields w h (levels_of rows.now) 4 (drop from file.now)) }
    ensures { BenchPromise file.now tree_out.old numbers_out.old result
        tree_out.new numbers_out.new }
{
    let length = end - tablefile::TREE;
    let after = judging::end_cause(file, last);
    last_cause(after, w, h, length, tree_out, numbers_out)?;
    fields::put(&file[tablefile::TREE..end], tree_out, 0);
    load::load_levels(file, from, rows, w, h, numbers_out);
    Ok(Bench {
        loaded: Loaded { length, w, h },
        note: note_at(last, file.len()),
    })
}

// Judges the fields of the levels, which start at `from`, and writes the outputs if no cause applies. The tree ends
// at `end`.
fn read_levels(
    file: &[u8],
    end: usize,
    from: usize,
    rows: &[u32; 96],
    w: usize,
    h: usize,
    counts: [usize; 4],
    tree_out: &mut [u8],
    numbers_out: &mut [i64],
) -> Result<Bench, Refusal>
    requires { Head file.now end from w h rows.now × Counted w h (levels_of rows.now) counts }
    ensures { BenchPromise file.now tree_out.old numbers_out.old result
        tree_out.new numbers_out.new }
{
    let last = judging::levels_judge(file, from, counts)?;
    fill(file, end, from, last, rows, w, h, tree_out, numbers_out)
}

// Judges what follows the tree, whose field ends at `end`: the counts, where they stand there, and the levels.
fn read_counted(
    file: &[u8],
    end: usize,
    rows: &[u32; 96],
    tree_out: &mut [u8],
    numbers_out: &mut [i64],
) -> Result<Bench, Refusal>
    requires { Front file.now end (sheet_w file.now) (sheet_h file.now) rows.now }
    ensures { BenchPromise file.now tree_out.old numbers_out.old result
        tree_out.new numbers_out.new }
{
    let w = file[tablefile::W] as usize;
    let h = file[tablefile::H] as usize;
    let counts = activity::count::active_counts(rows, w, h);
    let from = judging::counts_judge(file, end, counts)?;
    read_levels(file, end, from, rows, w, h, counts, tree_out, numbers_out)
}

// Reads a table file into a tree buffer and a coefficient slice, and tells of its note; or refuses it, writes nothing
// and tells of none.
pub fn read_bench(
    file: &[u8],
    tree_out: &mut [u8],
    numbers_out: &mut [i64],
) -> Result<Bench, Refusal>
    ensures { BenchPromise file.now tree_out.old numbers_out.old result
        tree_out.new numbers_out.new }
{
    let mut rows = [0u32; 96];
    let end = judging::head_judge(file, &mut rows)?;
    read_counted(file, end, &rows, tree_out, numbers_out)
}

// Reads a table file into a tree buffer and a coefficient slice, or refuses it and writes nothing. It passes over a
// note.
pub fn read_file(
    file: &[u8],
    tree_out: &mut [u8],
    numbers_out: &mut [i64],
) -> Result<Loaded, Refusal>
    ensures { ReadPromise file.now tree_out.old numbers_out.old result
        tree_out.new numbers_out.new }
{
    let bench = read_bench(file, tree_out, numbers_out)?;
    Ok(bench.loaded)
}

// The note as the part of the file that it is, cut to the file: what the bench loader told of, and empty for none.
pub fn note_in(file: &[u8], note: Option<Note>) -> &[u8]
    ensures { result.now ≡ bytes_in file.now (note_told note) }
{
    let Some(part) = note else {
        return &file[..0];
    };
    let size = file.len();
    let from = part.offset.min(size);
    let length = part.length.min(size - from);
    let end = from + length;
    &file[from..end]
}
