// Whether two compositions have the same leading-end part.
ghost use Rattle.std.specs.Prelude.{◌≡◌, ◌+◌, ◌*◌, ◌≤◌, ◌&&◌, length, take, drop};
ghost use Rattle.std.specs.Str.{bytes_eq};
ghost use Rattle.directory.specs.Part.{past, thinned, thin_section, consists, vehicles as vehicles_of, leading_part, Section, Sections};

use train::octets;

/// A row with one byte left out: so many bytes ahead of it, and so many behind.
#[derive(Clone, Copy)]
struct Row {
    ahead: usize,
    behind: usize,
}

/// An operational consist and an operational vehicle, without the train number.
const CONSIST: Row = Row {
    ahead: 18,
    behind: 1,
};

const VEHICLE: Row = Row {
    ahead: 19,
    behind: 4,
};

/// Whether the rows at the front are the same.
fn same_row(left: &[u8], right: &[u8], row: Row) -> bool
    requires left { row.ahead + 1 + row.behind ≤ length left.now }
    requires right { row.ahead + 1 + row.behind ≤ length right.now }
    ensures { result ≡ (bytes_eq (take row.ahead left.now) (take row.ahead right.now) && bytes_eq (take row.behind (drop (row.ahead + 1) left.now)) (take row.behind (drop (row.ahead + 1) right.now))) }
{
    let at = row.ahead;
    let from = at + 1;
    let to = from + row.behind;
    octets::same(&left[0..at], &right[0..at]) && octets::same(&left[from..to], &right[from..to])
}

/// Whether so many rows are the same.
fn same_rows(left: &[u8], right: &[u8], count: u8, row: Row) -> bool
    requires small { row.ahead + 1 + row.behind ≤ 24 }
    requires left { (row.ahead + 1 + row.behind) * count ≤ length left.now }
    requires right { (row.ahead + 1 + row.behind) * count ≤ length right.now }
    ensures { result ≡ bytes_eq (thinned row.ahead row.behind count left.now) (thinned row.ahead row.behind count right.now) }
{
    let size = row.ahead + 1 + row.behind;
    let (mut left, mut right) = (left, right);
    for _ in 0..count {
        if !same_row(left, right, row) {
            return false;
        }
        left = &left[size..];
        right = &right[size..];
    }
    true
}

/// Whether the sections at the front are the same, count and rows.
fn same_section(left: &[u8], right: &[u8], row: Row) -> bool
    requires small { row.ahead + 1 + row.behind ≤ 24 }
    requires left { Section (row.ahead + 1 + row.behind) left.now }
    requires right { Section (row.ahead + 1 + row.behind) right.now }
    ensures { result ≡ bytes_eq (thin_section row.ahead row.behind left.now) (thin_section row.ahead row.behind right.now) }
{
    left[0] == right[0] && same_rows(&left[1..], &right[1..], left[0], row)
}

/// What stands behind the section at the front, whose rows are so long.
fn behind_section(bytes: &[u8], size: usize) -> &[u8]
    requires { Section size bytes.now }
    ensures { result.now ≡ past size bytes.now }
{
    let count = bytes[0] as usize;
    &bytes[1 + size * count..]
}

/// From the operational consists on.
fn operational(bytes: &[u8]) -> &[u8]
    requires { Sections bytes.now }
    ensures { result.now ≡ consists bytes.now }
{
    behind_section(&bytes[16..], 24)
}

/// From the operational vehicles on.
fn vehicles(bytes: &[u8]) -> &[u8]
    requires { Sections bytes.now }
    ensures { result.now ≡ vehicles_of bytes.now }
{
    behind_section(operational(bytes), 20)
}

/// Whether two compositions have the same leading-end part.
pub(crate) fn same_leading_part(left: &[u8], right: &[u8]) -> bool
    requires left { Sections left.now }
    requires right { Sections right.now }
    ensures { result ≡ bytes_eq (leading_part left.now) (leading_part right.now) }
{
    if left[3] != right[3] {
        return false;
    }
    if !same_section(operational(left), operational(right), CONSIST) {
        return false;
    }
    same_section(vehicles(left), vehicles(right), VEHICLE)
}
