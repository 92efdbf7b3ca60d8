//! Naturals as rows of digits to the base 2^32, lowest first.
ghost use Rattle.std.specs.Prelude.{◌≡◌, ◌+◌, ◌*◌, ◌^◌, ◌<◌, ◌≤◌, length, nat_lt};
ghost use Rattle.capnp_floats.specs.Naturals.{natural_of};

/// A row becomes itself times a factor and a number more. What its places don't hold is answered.
pub fn scale(row: &mut [u32], factor: u32, more: u32) -> u32
    ensures value { natural_of row.new + 2 ^ (32 * length row.old) * result ≡ natural_of row.old * factor + more }
    ensures long { length row.new ≡ length row.old }
{
    let mut carry = more;
    for i in 0..row.len() {
        let product = row[i] as u64 * factor as u64 + carry as u64;
        row[i] = (product % 4294967296) as u32;
        carry = (product / 4294967296) as u32;
    }
    carry
}

/// A row becomes its sum with another. What its places don't hold is answered.
///
/// # Conditions
///
/// Both rows have the same length.
pub fn add(row: &mut [u32], other: &[u32]) -> u32
    requires { length row.old ≡ length other.now }
    ensures value { natural_of row.new + 2 ^ (32 * length row.old) * result ≡ natural_of row.old + natural_of other.now }
    ensures long { length row.new ≡ length row.old }
{
    let mut carry: u32 = 0;
    for i in 0..row.len() {
        let sum = row[i] as u64 + other[i] as u64 + carry as u64;
        row[i] = (sum % 4294967296) as u32;
        carry = (sum / 4294967296) as u32;
    }
    carry
}

/// Another row is taken from a row. What had to be lent is answered.
///
/// # Conditions
///
/// Both rows have the same length.
pub fn subtract(row: &mut [u32], other: &[u32]) -> u64
    requires { length row.old ≡ length other.now }
    ensures value { natural_of row.new + natural_of other.now ≡ natural_of row.old + 2 ^ (32 * length row.old) * result }
    ensures less { natural_of row.new < 2 ^ (32 * length row.old) }
    ensures long { length row.new ≡ length row.old }
{
    let mut lent: u64 = 0;
    for i in 0..row.len() {
        let left = (row[i] as u64 + 4294967296) - (other[i] as u64 + lent);
        row[i] = (left % 4294967296) as u32;
        lent = 1 - left / 4294967296;
    }
    lent
}

/// Whether a row is less than another.
///
/// # Conditions
///
/// Both rows have the same length.
pub fn is_below(row: &[u32], other: &[u32]) -> bool
    requires { length row.now ≡ length other.now }
    ensures { result ≡ nat_lt (natural_of row.now) (natural_of other.now) }
{
    let mut left = row.len();
    'places: while left > 0 {
        left -= 1;
        if row[left] != other[left] {
            return row[left] < other[left];
        }
    }
    false
}
