// How long the text of a list is.
ghost use Rattle.std.specs.Prelude.{◌≡◌, ◌^◌, ◌<◌, ◌≤◌, length, decimal};
ghost use Rattle.std.specs.List.{flat_map};
ghost use Rattle.train.specs.Names.{text_of};
ghost use Rattle.fleet_list.specs.Consists.{item_in, items_in};
ghost use Rattle.fleet_list.specs.Lists.{line_text, list_text};
ghost use Rattle.fleet_list.specs.Texts.{byte_text, escaped, quoted, vehicle_text};

use crate::consists::{Consist, Consists};
use train::entries::Vehicle;
use train::name::{Name, text_len};

fn escaped_size(b: u8) -> usize
    ensures { result ≡ length (escaped b) }
{
    match b {
        b'"' | b'\\' => 2,
        _ => 1,
    }
}

// The bytes of a name in quotes.
fn quoted_size(text: &[u8]) -> usize
    requires { length text.now ≤ 16 }
    ensures { result ≡ length (quoted text.now) }
{
    text.iter().map(|b| escaped_size(*b)).sum::<usize>() + 2
}

// A name, without the zeros behind its bytes.
fn name_size(name: &Name) -> usize
    ensures size { result ≡ length (quoted (text_of name.now.bytes)) }
    ensures small { result ≤ 34 }
{
    let n = text_len(&name.bytes);
    quoted_size(&name.bytes[0..n])
}

fn decimal_size(n: u32) -> usize
    ensures { result ≡ length (decimal n) }
{
    if n < 10 { 1 } else { decimal_size(n / 10) + 1 }
}

fn vehicle_size(vehicle: &Vehicle) -> usize
    ensures { result ≡ length (vehicle_text vehicle.now) }
{
    name_size(&vehicle.name) + 2
}

fn vehicles_size(vehicles: &[Vehicle]) -> usize
    requires { length (flat_map vehicle_text vehicles.now) < 2 ^ 64 }
    ensures { result ≡ length (flat_map vehicle_text vehicles.now) }
{
    vehicles.iter().map(vehicle_size).sum()
}

fn hex_size(bytes: &[u8]) -> usize
    ensures { result ≡ length (flat_map byte_text bytes.now) }
{
    2 * bytes.len()
}

// The line of a consist.
fn line_size(consist: Consist) -> usize
    requires { length (line_text (item_in consist)) < 2 ^ 64 }
    ensures { result ≡ length (line_text (item_in consist.entry)) }
{
    let identity = hex_size(&consist.head.identity.bytes);
    let counter = decimal_size(consist.head.counter);
    let all = vehicles_size(consist.vehicles);
    identity + counter + all + 2
}

// The text of these consists.
pub fn list_size(consists: Consists) -> usize
    requires { length (list_text (items_in consists)) < 2 ^ 64 }
    ensures { result ≡ length (list_text (items_in consists.entry)) }
{
    let mut size = 0;
    for consist in consists {
        size += line_size(consist);
    }
    size
}
