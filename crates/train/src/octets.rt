// Strings of bytes: whether two are the same, and which stands below the other.
ghost use Rattle.std.specs.Prelude.{◌≡◌, length};
ghost use Rattle.std.specs.Str.{bytes_eq};
ghost use Rattle.train.specs.Octets.{below, ranked, zeros, tail_of, OrderLaws};

use std::cmp::Ordering;

// The last eight of sixteen bytes, as a number: names that begin alike mostly differ there, and
// one comparison tells.
fn tail(bytes: &[u8]) -> u64
    requires { length bytes.now ≡ 16 }
    ensures { result ≡ tail_of bytes.now }
{
    u64::from_be_bytes([
        bytes[8], bytes[9], bytes[10], bytes[11], bytes[12], bytes[13], bytes[14], bytes[15],
    ])
}

pub fn same(a: &[u8], b: &[u8]) -> bool
    ensures { result ≡ bytes_eq a.now b.now }
{
    if a.len() == 16 && b.len() == 16 && tail(a) != tail(b) {
        return false;
    }
    a == b
}

pub fn is_below(a: &[u8], b: &[u8]) -> bool
    ensures { result ≡ below a.now b.now }
{
    a < b
}

pub fn rank(a: &[u8], b: &[u8]) -> Ordering
    ensures { result ≡ ranked a.now b.now }
{
    a.cmp(b)
}

/// Whether these are sixteen zero bytes.
pub fn is_zero(bytes: &[u8]) -> bool
    ensures { result ≡ bytes_eq bytes.now zeros }
{
    let zero = [0; 16];
    same(bytes, &zero)
}

/// The laws of the order.
pub fn bytes_are_ordered()
    ensures { OrderLaws }
{}
