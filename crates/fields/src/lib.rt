// Fields of a file: a one-byte tag, a two-byte length (high byte first) and a body; and bytes put into a lent buffer.
#![tactic(auto)]

pub mod number;

ghost use Rattle.std.specs.Prelude.{◌≡◌, not, [], ◌∷◌, ◌+◌, ◌*◌, ◌%◌, ◌≤◌, ◌<◌, length, get_or, drop};
ghost use Rattle.surface.specs.Fields.{length_at, field, two_bytes};
ghost use Rattle.fields.specs.Positions.{between, body_at, part_at, ends};
ghost use Rattle.fields.specs.Put.{Put};

use answers::Refusal;

// The bytes of a head: the tag and the length.
pub const HEAD: usize = 3;

fn wide(x: u8) -> usize
    ensures { (result ≡ x) × (result < 256) }
{
    x as usize
}

// Two bytes as a number, high byte first.
pub fn two_bytes(s: &[u8], at: usize) -> usize
    requires { at + 2 ≤ length s.now }
    ensures { (result ≡ get_or s.now at 0 * 256 + get_or s.now (at + 1) 0) × (result < 65536) }
{
    let high = wide(s[at]);
    high * 256 + wide(s[at + 1])
}

// The length in the head that stands at a position.
pub fn length_at(file: &[u8], at: usize) -> usize
    requires { at + 3 ≤ length file.now }
    ensures { (result ≡ length_at (drop at file.now)) × (result < 65536) }
{
    two_bytes(file, at + 1)
}

// Whether a length is not between two others.
fn outside(n: usize, low: usize, high: usize) -> bool
    ensures { result ≡ not (between low high n) }
{
    n < low || high < n
}

// The field due at a position, by its tag and the least and the greatest length that it may have: the position after
// its body.
pub fn field_at(file: &[u8], at: usize, tag: u8, low: usize, high: usize) -> Result<usize, Refusal>
    requires { at ≤ length file.now }
    ensures { (part_at result file.now (body_at file.now at)
        ≡ field tag low high (drop at file.now))
        × ends result file.now at low high }
{
    let left = file.len() - at;
    if left < HEAD {
        return Err(Refusal::FileEnds);
    }
    let found = file[at];
    let n = length_at(file, at);
    let wrong = outside(n, low, high);
    if found != tag {
        return Err(Refusal::FileTag);
    }
    if wrong {
        return Err(Refusal::FileFieldLength);
    }
    if left < HEAD + n {
        return Err(Refusal::FileEnds);
    }
    Ok(at + HEAD + n)
}

// Puts a text at a position of a lent buffer, and returns the position after it.
pub fn put(text: &[u8], out: &mut [u8], at: usize) -> usize
    requires { at + length text.now ≤ length out.old }
    ensures { Put text.now at out.old result out.new }
{
    for (i, b) in text.iter().enumerate() {
        out[at + i] = *b;
    }
    at + text.len()
}

// Puts one byte.
pub fn put_byte(b: u8, out: &mut [u8], at: usize) -> usize
    requires { at + 1 ≤ length out.old }
    ensures { Put (b ∷ []) at out.old result out.new }
{
    out[at] = b;
    at + 1
}

// Puts the lowest byte of a number.
fn put_low(n: usize, out: &mut [u8], at: usize) -> usize
    requires { at + 1 ≤ length out.old }
    ensures { Put (n % 256 ∷ []) at out.old result out.new }
{
    put_byte((n % 256) as u8, out, at)
}

// Puts a number of two bytes, high byte first.
pub fn put_two(n: usize, out: &mut [u8], at: usize) -> usize
    requires { at + 2 ≤ length out.old }
    ensures { Put (two_bytes n) at out.old result out.new }
{
    let low = put_low(n >> 8, out, at);
    put_low(n, out, low)
}

// Puts the head of a field with a body of n bytes.
pub fn put_head(tag: u8, n: usize, out: &mut [u8], at: usize) -> usize
    requires { at + 3 ≤ length out.old }
    ensures { Put (tag ∷ two_bytes n) at out.old result out.new }
{
    let length = put_byte(tag, out, at);
    put_two(n, out, length)
}
