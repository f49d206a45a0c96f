// A note that a file is to have, or none: whether it is too long, what it adds to the file, and its field.
ghost use Rattle.std.specs.Prelude.{◌≡◌, true, not, ◌+◌, ◌≤◌, length};
ghost use Rattle.surface.specs.Note.{note_bytes, note_fits};
ghost use Rattle.fields.specs.Put.{Put};
ghost use Rattle.saving.specs.Saved.{note_lent};

// Whether a lent note has more than 64 bytes.
pub fn is_long(note: Option<&[u8]>) -> bool
    ensures { result ≡ not (note_fits (note_lent note.entry)) }
{
    match note {
        Some(text) => tablefile::LONGEST_NOTE < text.len(),
        None => false,
    }
}

// The bytes of a note's field, 0 for none.
pub fn note_length(note: Option<&[u8]>) -> usize
    requires { note_fits (note_lent note) ≡ true }
    ensures { (result ≡ length (note_bytes (note_lent note.entry))) × (result ≤ 67) }
{
    match note {
        Some(text) => fields::HEAD + text.len(),
        None => 0,
    }
}

// Puts the field of a note, or nothing for none.
pub fn put_note(note: Option<&[u8]>, out: &mut [u8], at: usize) -> usize
    requires { at + length (note_bytes (note_lent note)) ≤ length out.old }
    ensures { Put (note_bytes (note_lent note.entry)) at out.old result out.new }
{
    match note {
        Some(text) => super::put_field(tablefile::NOTE_TAG, text, out, at),
        None => at,
    }
}
