// The printed page of a fleet list: its coach order, or why there is none.
ghost use Rattle.std.specs.Prelude.{◌≡◌, ◌++◌, IfOk, OnOk};
ghost use Rattle.coach_order.specs.Pages.{Page, Printed, vehicle_line, order_text};

use crate::order::order_from_head;
use crate::show::{LineStart, PageStart, RefusalPage};
use std::alloc::{AllocError, Global};
use train::entries::Vehicle;
use train::name::{Name, text_len};

/// The most bytes of a list that is read.
pub const MOST: usize = 65535;

/// Puts the line of a vehicle: its number, its facing, and the bytes of its name.
fn put_line(
    heap: Global,
    page: &mut Vec<u8>,
    number: usize,
    vehicle: &Vehicle,
) -> Result<(), AllocError>
    ensures { OnOk result (page.new.items ≡ page.old.items ++ vehicle_line number vehicle.now) }
{
    let Vehicle { name, facing } = *vehicle;
    let number = number % 100;
    let start = LineStart { number, facing }.to_string(heap)?;
    page.extend_from_slice(start.as_bytes())?;
    page.extend_from_slice(&name.bytes[..text_len(&name.bytes)])?;
    page.extend_from_slice(b"\n")?;
    Ok(())
}

/// The page of a coach order: how many vehicles there are, and a line for each, from the head.
fn order_page(heap: Global, vehicles: &[Vehicle]) -> Result<Vec<u8>, AllocError>
    ensures { IfOk result (λ page. page.items ≡ order_text vehicles.now) }
{
    let start = PageStart(vehicles.len()).to_string(heap)?;
    let mut page = start.into_bytes();
    for (i, vehicle) in vehicles.iter().enumerate() {
        put_line(heap, &mut page, i + 1, vehicle)?;
    }
    Ok(page)
}

/// The page that is printed for a fleet list: its vehicles from the head, or why it has none.
pub fn page(heap: Global, list: &[u8]) -> Result<Vec<u8>, AllocError>
    ensures answer { IfOk result (λ page. Page list.now page.items) }
    ensures decided { IfOk result (λ page. Printed list.now page.items) }
{
    if list.len() > MOST {
        return Vec::from_slice(heap, b"too long\n");
    }
    match order_from_head(list) {
        Ok(order) => order_page(heap, order.as_slice()),
        Err(refusal) => {
            let text = RefusalPage(refusal).to_string(heap)?;
            Ok(text.into_bytes())
        }
    }
}
