// Text put at a position of a lent buffer. Each function answers the position after its text.
#![tactic(auto)]

ghost use Rattle.std.specs.Prelude.{[], ◌∷◌, ◌++◌, ◌+◌, ◌≤◌, length};
ghost use Rattle.fields.specs.Put.{Put};
ghost use Rattle.text.specs.Text as Text;

fn decimal(n: u64, out: &mut [u8], at: usize) -> usize
    requires { at + length (Text.decimal n) ≤ length out.old }
    ensures { Put (Text.decimal n) at out.old result out.new }
{
    let mut digits = [0u8; 20];
    let k = io::decimal(n, &mut digits);
    fields::put(&digits[..k], out, at)
}

// A number with its sign.
fn signed(n: i64, out: &mut [u8], at: usize) -> usize
    requires { at + length (Text.signed n) ≤ length out.old }
    ensures { Put (Text.signed n) at out.old result out.new }
{
    if n < 0 {
        let next = fields::put_byte(b'-', out, at);
        return decimal((-1 - n) as u64 + 1, out, next);
    }
    decimal(n as u64, out, at)
}

// A number and a space.
fn spaced(n: usize, out: &mut [u8], at: usize) -> usize
    requires { at + length (Text.decimal n ++ Text.space) ≤ length out.old }
    ensures { Put (Text.decimal n ++ Text.space) at out.old result out.new }
{
    let next = decimal(n as u64, out, at);
    fields::put_byte(b' ', out, next)
}

// The line of a corner.
pub fn line(u: usize, v: usize, watts: i64, out: &mut [u8], at: usize) -> usize
    requires { at + length (Text.line u v watts) ≤ length out.old }
    ensures { Put (Text.line u v watts) at out.old result out.new }
{
    let a = spaced(u, out, at);
    let b = spaced(v, out, a);
    let c = signed(watts, out, b);
    fields::put_byte(b'\n', out, c)
}

pub fn header(out: &mut [u8]) -> usize
    requires { 10 ≤ length out.old }
    ensures { Put Text.header 0 out.old result out.new }
{
    fields::put(b"u v watts\n", out, 0)
}

pub fn refused(n: u8, out: &mut [u8]) -> usize
    requires { 12 ≤ length out.old }
    ensures { Put (Text.refused_line n) 0 out.old result out.new × (result ≤ 12) }
{
    let a = fields::put(b"refused ", out, 0);
    let b = decimal(n as u64, out, a);
    fields::put_byte(b'\n', out, b)
}
