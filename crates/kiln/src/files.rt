// The calls of table files for other languages.
ghost use Rattle.std.specs.Prelude.{ltb};
ghost use Rattle.surface.specs.Note.{lent_note};
ghost use Rattle.demands.specs.FilePromises.{KilnReadPromise, KilnBenchPromise, KilnWritePromise};

use answers::Note;

// The part of a file that is told for a note where none stands.
const NO_NOTE: Note = Note {
    offset: 0,
    length: 0,
};

// Loads a table file; `tree_length`, `w` and `h` receive the tree's length and the sides.
#[unsafe(no_mangle)]
pub extern "C" fn kiln_read_file(
    file: &[u8],
    tree_out: &mut [u8],
    numbers_out: &mut [i64],
    tree_length: &mut usize,
    w: &mut usize,
    h: &mut usize,
) -> u8
    ensures { KilnReadPromise file.now tree_out.old numbers_out.old result
        tree_length.old tree_length.new
        w.old w.new h.old h.new
        tree_out.new numbers_out.new }
{
    match loading::read_file(file, tree_out, numbers_out) {
        Ok(loaded) => {
            *tree_length = loaded.length;
            *w = loaded.w;
            *h = loaded.h;
            0
        }
        Err(refusal) => refusal.number(),
    }
}

// Loads a table file for the bench: what `kiln_read_file` does, and `noted` receives 1 where a note stands in the file,
// 0 where none does, `note_offset` and `note_length` the part of the file that it is, an empty one for none.
#[unsafe(no_mangle)]
pub extern "C" fn kiln_read_bench(
    file: &[u8],
    tree_out: &mut [u8],
    numbers_out: &mut [i64],
    tree_length: &mut usize,
    w: &mut usize,
    h: &mut usize,
    noted: &mut u8,
    note_offset: &mut usize,
    note_length: &mut usize,
) -> u8
    ensures { KilnBenchPromise file.now tree_out.old numbers_out.old result
        tree_length.old tree_length.new
        w.old w.new h.old h.new
        noted.old noted.new note_offset.old note_offset.new
        note_length.old note_length.new
        tree_out.new numbers_out.new }
{
    match loading::read_bench(file, tree_out, numbers_out) {
        Ok(bench) => {
            *tree_length = bench.loaded.length;
            *w = bench.loaded.w;
            *h = bench.loaded.h;
            *noted = bench.note.is_some() as u8;
            let note = bench.note.unwrap_or(NO_NOTE);
            *note_offset = note.offset;
            *note_length = note.length;
            0
        }
        Err(refusal) => refusal.number(),
    }
}

// Writes the file of a table, with a note unless `noted` is 0; `length` receives the file's length.
#[unsafe(no_mangle)]
pub extern "C" fn kiln_write_file(
    w: usize,
    h: usize,
    tree: &[u8],
    numbers: &[i64],
    noted: u8,
    note: &[u8],
    file_out: &mut [u8],
    length: &mut usize,
) -> u8
    ensures { KilnWritePromise w h (record { tree = tree.now; numbers = numbers.now })
        (lent_note (ltb 0 noted) note.now) file_out.old result
        length.old length.new file_out.new }
{
    let lent = if 0 < noted { Some(note) } else { None };
    let answer = saving::write_file(w, h, tree, numbers, lent, file_out);
    super::code::told(answer, length)
}
