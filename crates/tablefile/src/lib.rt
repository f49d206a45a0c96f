// Table files: their tags and sizes, and theorems about them: what is accepted is an acceptable table, one table has,
// for each note or none, one file with the counts and one without, the controller's loader passes over a note, and
// input longer than any file is judged by its front. The field of the sides stands at the front of a grid too.
#![tactic(auto)]

ghost use Rattle.std.specs.Prelude.{[], ◌∷◌, ◌≤◌, length};
ghost use Rattle.surface.specs.Fields.{field_bytes};
ghost use Rattle.fields.specs.Put.{Put};

// "tag 1, W and H, a byte each; tag 2, the tree; tags 16 to 19, the active coefficients of levels 0 to 3"; document 02:
// "a field of tag 3 after tag 2, eight bytes"; "a note of 0 to 64 bytes with a table, tag 32, last in the file"
pub const SIDES_TAG: u8 = 1;

pub const TREE_TAG: u8 = 2;

pub const COUNTS_TAG: u8 = 3;

pub const LEVEL_TAG: u8 = 16;

pub const LEVELS: usize = 4;

pub const NOTE_TAG: u8 = 32;

// The fields of a file but for the note: "all present"; "The writer always puts it", the one of the counts.
pub const FIELDS: usize = 3 + LEVELS;

// The bytes of the sides.
pub const SIDES: usize = 2;

// The bytes of the counts, two for each level.
pub const COUNTS: usize = 2 * LEVELS;

// "Tag 2's length is 1 to 1,365."
pub const LONGEST_TREE: usize = 1365;

// "a note of 0 to 64 bytes"
pub const LONGEST_NOTE: usize = 64;

// Where the sides stand in a file: after the first head.
pub const W: usize = fields::HEAD;

pub const H: usize = W + 1;

// Where the tree's field stands: after that of the sides; and the tree, after its head.
pub const TREE_FIELD: usize = H + 1;

pub const TREE: usize = TREE_FIELD + fields::HEAD;

// Puts the field of the sides at the front of a buffer.
pub fn put_sides(w: usize, h: usize, out: &mut [u8]) -> usize
    requires { (w ≤ 8) × (h ≤ 8) × (5 ≤ length out.old) }
    ensures { Put (field_bytes 1 (w ∷ h ∷ [])) 0 out.old result out.new }
{
    let body = fields::put_head(SIDES_TAG, SIDES, out, 0);
    let next = fields::put_byte(w as u8, out, body);
    fields::put_byte(h as u8, out, next)
}
