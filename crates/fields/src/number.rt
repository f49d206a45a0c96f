// The numbers of a body: five bytes each, two's complement, high byte first.
ghost use Rattle.std.specs.Prelude.{◌≡◌, ◌+◌, ◌*◌, ◌≤◌, ◌<◌, leb, nat_abs, length};
ghost use Rattle.surface.specs.Fields.{unsigned_at, number_at, all_within, complement, number_bytes};
ghost use Rattle.fields.specs.Put.{Put};

// The bytes of a number.
pub const SIZE: usize = 5;

// Where the lowest of them stands.
const LOWEST: usize = SIZE - 1;

// The numbers that five bytes spell, and half of them: from there on a number is negative.
const RANGE: usize = 1099511627776;

const HALF: usize = 549755813888;

// The numbers that the two high bytes spell, and those that differ only in the three low bytes.
const HIGH_RANGE: usize = 65536;

const HIGH_STEP: usize = 16777216;

// Five bytes as an unsigned number.
fn unsigned_at(body: &[u8], k: usize) -> usize
    requires { 5 * k + 5 ≤ length body.now }
    ensures { (result ≡ unsigned_at body.now k) × (result < 1099511627776) }
{
    let at = SIZE * k;
    let high = super::two_bytes(body, at);
    let middle = super::two_bytes(body, at + 2);
    (high * 65536 + middle) * 256 + super::wide(body[at + LOWEST])
}

// The k-th number of a body.
pub fn read(body: &[u8], k: usize) -> i64
    requires { 5 * k + 5 ≤ length body.now }
    ensures { result ≡ number_at body.now k }
{
    // A negative number goes round past the end.
    let n = unsigned_at(body, k);
    ((n + HALF) % RANGE) as i64 - HALF as i64
}

// Whether the k-th number of a body is at most so much in size.
fn keeps(body: &[u8], k: usize, most: usize) -> bool
    requires { (5 * k + 5 ≤ length body.now) × (most < 549755813888) }
    ensures { result ≡ leb (nat_abs (number_at body.now k)) most }
{
    // Of most numbers that keep it the two high bytes tell.
    let top = most / HIGH_STEP;
    let high = super::two_bytes(body, SIZE * k);
    if (high + top) % HIGH_RANGE < 2 * top {
        return true;
    }
    let n = unsigned_at(body, k);
    (n + most) % RANGE <= 2 * most
}

// Whether the first n numbers of a body are.
pub fn within(body: &[u8], n: usize, most: usize) -> bool
    requires { (5 * n ≤ length body.now) × (most < 549755813888) }
    ensures { result ≡ all_within most n body.now }
{
    for k in 0..n {
        if !keeps(body, k, most) {
            return false;
        }
    }
    true
}

// A number as five bytes spell it: a negative one is the range less its size.
fn spelled(number: i64) -> usize
    requires { nat_abs number < 549755813888 }
    ensures { (result ≡ complement number) × (result < 1099511627776) }
{
    if number < 0 {
        let size = (-1 - number) as usize + 1;
        return RANGE - size;
    }
    number as usize
}

// Puts a number at a position of a lent buffer, and returns the position after it.
pub fn put(number: i64, out: &mut [u8], at: usize) -> usize
    requires { (at + 5 ≤ length out.old) × (nat_abs number < 549755813888) }
    ensures { Put (number_bytes number) at out.old result out.new }
{
    let n = spelled(number);
    let b = super::put_low(n >> 32, out, at);
    let c = super::put_low(n >> 24, out, b);
    let d = super::put_low(n >> 16, out, c);
    let e = super::put_low(n >> 8, out, d);
    super::put_low(n, out, e)
}
