// The written composition: the sections one behind another, then the header with the counters.
ghost use Rattle.std.specs.Prelude.{◌≡◌, ◌+◌, ◌*◌, ◌≤◌, [], ◌∷◌, ◌++◌, length};
ghost use Rattle.sc32.specs.Checksum.{checksum};
ghost use Rattle.directory.specs.Rows.{train_row, consist_row, vehicle_row};
ghost use Rattle.directory.specs.Sections.{four, section};
ghost use Rattle.directory.specs.Whole.{header_of, whole_of};
ghost use Rattle.directory.specs.Written.{Written};

use crate::rows::{ConsistRow, TrainRow, VehicleRow, write_section};
use sc32::sc32;
use train::facing::Facing;

/// Four bytes at the front.
fn write_four(bytes: [u8; 4], out: &mut [u8]) -> usize
    requires { 4 ≤ length out.old }
    ensures wrote { Written bytes out.old result out.new }
    ensures long { result ≡ 4 }
{
    out[0..4].copy_from_slice(&bytes);
    4
}

/// Whether the vehicle list is confirmed.
#[derive(Clone, Copy)]
pub(crate) enum Status {
    Unconfirmed = 1,
    Confirmed = 2,
}

/// What the header says besides the counters of its sections.
#[derive(Clone, Copy)]
pub(crate) struct Head {
    pub orientation: Facing,
    pub status: Status,
    pub etb: u32,
}

/// The sixteen bytes of the header.
fn write_header(head: Head, train_counter: u32, operational_counter: u32, out: &mut [u8])
    requires { 16 ≤ length out.old }
    ensures { Written (header_of head train_counter operational_counter) out.old 16 out.new }
{
    let orientation = u8::from(head.orientation);
    let mut at = write_four([1, 0, orientation, head.status as u8], out);
    at += write_four(head.etb.to_be_bytes(), &mut out[at..]);
    at += write_four(train_counter.to_be_bytes(), &mut out[at..]);
    let _ = write_four(operational_counter.to_be_bytes(), &mut out[at..]);
}

/// How long the first section and all three are.
#[derive(Clone, Copy)]
pub(crate) struct Lengths {
    pub train: usize,
    pub all: usize,
}

/// The three sections, one behind another.
fn write_sections(
    trains: &[TrainRow],
    consists: &[ConsistRow],
    vehicles: &[VehicleRow],
    out: &mut [u8],
) -> Lengths
    requires few { (length trains.now ≤ 63) × (length consists.now ≤ 63) × (length vehicles.now ≤ 63) }
    requires room { 3 + 24 * length trains.now + 20 * length consists.now + 24 * length vehicles.now ≤ length out.old }
    ensures wrote { Written (section train_row trains.now ++ (section consist_row consists.now ++ section vehicle_row vehicles.now)) out.old result.all out.new }
    ensures first { length (section train_row trains.now) ≡ result.train }
    ensures inside { result.train ≤ result.all }
    ensures sum { result.all ≡ 3 + 24 * length trains.now + 20 * length consists.now + 24 * length vehicles.now }
{
    let train = write_section(trains, out);
    let mut at = train;
    at += write_section(consists, &mut out[at..]);
    at += write_section(vehicles, &mut out[at..]);
    Lengths { train, all: at }
}

/// The whole composition; answers its length.
pub(crate) fn write_whole(
    head: Head,
    trains: &[TrainRow],
    consists: &[ConsistRow],
    vehicles: &[VehicleRow],
    out: &mut [u8],
) -> usize
    requires few { (length trains.now ≤ 63) × (length consists.now ≤ 63) × (length vehicles.now ≤ 63) }
    requires room { 19 + 24 * length trains.now + 20 * length consists.now + 24 * length vehicles.now ≤ length out.old }
    ensures wrote { Written (whole_of head (section train_row trains.now) (section consist_row consists.now ++ section vehicle_row vehicles.now)) out.old result out.new }
    ensures sum { result ≡ 19 + 24 * length trains.now + 20 * length consists.now + 24 * length vehicles.now }
{
    let lengths = write_sections(trains, consists, vehicles, &mut out[16..]);
    let middle = 16 + lengths.train;
    let end = 16 + lengths.all;
    let train_counter = sc32(head.etb, &out[16..middle]);
    let operational_counter = sc32(train_counter, &out[middle..end]);
    write_header(head, train_counter, operational_counter, out);
    end
}
