// Writing a list from tables.
ghost use Rattle.std.specs.Prelude.{◌≡◌, ◌<◌, ◌≤◌, [], ◌∷◌, length, decimal};
ghost use Rattle.std.specs.List.{flat_map};
ghost use Rattle.train.specs.Names.{text_of};
ghost use Rattle.fleet_list.specs.Consists.{item_in, items_in};
ghost use Rattle.fleet_list.specs.Lists.{line_text, list_text};
ghost use Rattle.fleet_list.specs.Texts.{hex, byte_text, escaped, quoted, sign, vehicle_text};
ghost use Rattle.fleet_list.specs.Parts.{bytes_text};
ghost use Rattle.fleet_list.specs.Writes.{Written};

use crate::consists::{Consist, Consists};
use crate::forms::{Form, put_each};
use train::entries::Vehicle;
use train::facing::Facing;
use train::name::text_len;

fn hex_digit(n: u8) -> u8
    requires { n < 16 }
    ensures { result ≡ hex n }
{
    if n < 10 { b'0' + n } else { b'a' + (n - 10) }
}

/// Two hex digits.
struct Hex;

impl Form<u8> for Hex {
    ghost bytes = { byte_text };

    fn put(out: &mut [u8], b: &u8) -> usize {
        out[0] = hex_digit(b / 16);
        out[1] = hex_digit(b % 16);
        2
    }
}

// The hex digits of these bytes, and a space.
fn put_hex(out: &mut [u8], bytes: &[u8]) -> usize
    requires { length (bytes_text bytes.now) ≤ length out.old }
    ensures { Written (bytes_text bytes.now) out.old result out.new }
{
    let at = put_each::<Hex, u8>(out, bytes);
    out[at] = b' ';
    at + 1
}

// The decimal digits of `n`, the last one behind the others.
fn put_decimal(out: &mut [u8], n: u32) -> usize
    requires { length (decimal n) ≤ length out.old }
    ensures { Written (decimal n) out.old result out.new }
{
    if n < 10 {
        out[0] = b'0' + n as u8;
        return 1;
    }
    let at = put_decimal(out, n / 10);
    out[at] = b'0' + (n % 10) as u8;
    at + 1
}

/// A byte of a name, behind a backslash where it needs one.
struct Escaped;

impl Form<u8> for Escaped {
    ghost bytes = { escaped };

    fn put(out: &mut [u8], b: &u8) -> usize {
        match b {
            b'"' | b'\\' => {
                out[0] = b'\\';
                out[1] = *b;
                2
            }
            _ => {
                out[0] = *b;
                1
            }
        }
    }
}

fn put_quoted(out: &mut [u8], text: &[u8]) -> usize
    requires { length (quoted text.now) ≤ length out.old }
    ensures { Written (quoted text.now) out.old result out.new }
{
    out[0] = b'"';
    let at = 1 + put_each::<Escaped, u8>(&mut out[1..], text);
    out[at] = b'"';
    at + 1
}

// A name of sixteen bytes, without the zeros behind it.
fn put_name(out: &mut [u8], bytes: &[u8]) -> usize
    requires { length (quoted (text_of bytes.now)) ≤ length out.old }
    ensures { Written (quoted (text_of bytes.now)) out.old result out.new }
{
    let n = text_len(bytes);
    put_quoted(out, &bytes[0..n])
}

fn sign_of(facing: Facing) -> u8
    ensures { sign facing ≡ result ∷ [] }
{
    match facing {
        Facing::NotKnown => b'?',
        Facing::Direct => b'+',
        Facing::Inverse => b'-',
    }
}

/// A space, the quoted name, the facing.
struct Text;

impl Form<Vehicle> for Text {
    ghost bytes = { vehicle_text };

    fn put(out: &mut [u8], vehicle: &Vehicle) -> usize {
        out[0] = b' ';
        let at = 1 + put_name(&mut out[1..], &vehicle.name.bytes);
        out[at] = sign_of(vehicle.facing);
        at + 1
    }
}

// The line of a consist.
fn put_line(out: &mut [u8], consist: Consist) -> usize
    requires { length (line_text (item_in consist)) ≤ length out.old }
    ensures { Written (line_text (item_in consist.entry)) out.old result out.new }
{
    let mut at = put_hex(out, &consist.head.identity.bytes);
    at += put_decimal(&mut out[at..], consist.head.counter);
    at += put_each::<Text, Vehicle>(&mut out[at..], consist.vehicles);
    out[at] = b'\n';
    at + 1
}

// The text of these consists.
pub fn put_list(out: &mut [u8], consists: Consists) -> usize
    requires { length (list_text (items_in consists)) ≤ length out.old }
    ensures { Written (list_text (items_in consists.entry)) out.old result out.new }
{
    let mut at = 0;
    for consist in consists {
        at += put_line(&mut out[at..], consist);
    }
    at
}
