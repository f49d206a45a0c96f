// The field of the counts: of each level its active functions, two bytes each.
ghost use Rattle.std.specs.Prelude.{◌+◌, ◌≤◌, length, get_or};
ghost use Rattle.surface.specs.Fields.{field_bytes};
ghost use Rattle.surface.specs.TableFile.{counts_body};
ghost use Rattle.fields.specs.Put.{Put};

// Puts the counts of the levels, level 0 first.
fn put_body(counts: [usize; 4], out: &mut [u8], at: usize) -> usize
    requires { at + 8 ≤ length out.old }
    ensures { Put (counts_body (λ L. get_or counts L 0)) at out.old result out.new }
{
    let mut to = at;
    for count in counts {
        to = fields::put_two(count, out, to);
    }
    to
}

// Puts the field of the counts.
pub fn put_counts(counts: [usize; 4], out: &mut [u8], at: usize) -> usize
    requires { at + 11 ≤ length out.old }
    ensures { Put (field_bytes 3 (counts_body (λ L. get_or counts L 0))) at out.old result
        out.new }
{
    let body = fields::put_head(tablefile::COUNTS_TAG, tablefile::COUNTS, out, at);
    put_body(counts, out, body)
}
