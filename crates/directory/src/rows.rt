// The rows of the three sections, and a section of any kind of row.
ghost use Rattle.std.specs.Prelude.{◌≡◌, ℕ, ◌+◌, ◌*◌, ◌≤◌, List, length};
ghost use Rattle.directory.specs.Rows.{train_row, consist_row, vehicle_row};
ghost use Rattle.directory.specs.Sections.{rows as rows_of, section, lead_byte};
ghost use Rattle.directory.specs.Written.{Written};

use train::facing::Facing;
use train::identity::Identity;
use train::name::Name;

/// A row of a section, with the number that it is given there.
pub(crate) trait Row {
    ghost row: { ℕ → Self → List ℕ };

    ghost size: { ℕ };

    fn write(&self, number: u8, out: &mut [u8]) -> usize
        requires { size ≤ length out.old }
        ensures wrote { Written (row number self.now) out.old result out.new }
        ensures long { result ≡ size };
}

/// A train consist.
#[derive(Clone, Copy, Default)]
pub(crate) struct TrainRow {
    pub identity: Identity,
    pub counter: u32,
    pub facing: Facing,
}

impl Row for TrainRow {
    ghost row = { train_row };

    ghost size = { 24 };

    fn write(&self, number: u8, out: &mut [u8]) -> usize {
        let counter = self.counter.to_be_bytes();
        let rest = [number, self.facing.number(), 0, 0];
        out[0..16].copy_from_slice(&self.identity.bytes);
        out[16..20].copy_from_slice(&counter);
        out[20..24].copy_from_slice(&rest);
        24
    }
}

/// An operational consist; `number` is its train number.
#[derive(Clone, Copy, Default)]
pub(crate) struct ConsistRow {
    pub identity: Identity,
    pub facing: Facing,
    pub number: u8,
}

impl Row for ConsistRow {
    ghost row = { consist_row };

    ghost size = { 20 };

    fn write(&self, number: u8, out: &mut [u8]) -> usize {
        let rest = [number, self.facing.number(), self.number, 0];
        out[0..16].copy_from_slice(&self.identity.bytes);
        out[16..20].copy_from_slice(&rest);
        20
    }
}

/// An operational vehicle; `number` is its train number, `run` the number of its operational consist.
#[derive(Clone, Copy, Default)]
pub(crate) struct VehicleRow {
    pub name: Name,
    pub lead: Facing,
    pub number: u8,
    pub facing: Facing,
    pub run: u8,
}

/// The leading mark: 2 for the leading vehicle, 1 for any other.
fn lead_byte(lead: Facing) -> u8
    ensures { result ≡ lead_byte lead }
{
    if lead.is_known() { 2 } else { 1 }
}

impl Row for VehicleRow {
    ghost row = { vehicle_row };

    ghost size = { 24 };

    fn write(&self, number: u8, out: &mut [u8]) -> usize {
        let rest = [
            number,
            lead_byte(self.lead),
            self.lead.number(),
            self.number,
            self.facing.number(),
            self.run,
            0,
            0,
        ];
        out[0..16].copy_from_slice(&self.name.bytes);
        out[16..24].copy_from_slice(&rest);
        24
    }
}

/// Writes rows one behind another, numbered from 1.
fn write_rows<T: Row>(rows: &[T], out: &mut [u8]) -> usize
    requires few { length rows.now ≤ 255 }
    requires room { T.Row.size * length rows.now ≤ length out.old }
    ensures wrote { Written (rows_of T.Row.row 1 rows.now) out.old result out.new }
    ensures long { result ≡ T.Row.size * length rows.now }
{
    let mut at = 0;
    for (i, row) in rows.iter().enumerate() {
        at += row.write((i + 1) as u8, &mut out[at..]);
    }
    at
}

/// Writes a section: the count of its rows, and the rows.
pub(crate) fn write_section<T: Row>(rows: &[T], out: &mut [u8]) -> usize
    requires few { length rows.now ≤ 255 }
    requires room { 1 + T.Row.size * length rows.now ≤ length out.old }
    ensures wrote { Written (section T.Row.row rows.now) out.old result out.new }
    ensures long { result ≡ 1 + T.Row.size * length rows.now }
{
    out[0] = rows.len() as u8;
    1 + write_rows(rows, &mut out[1..])
}
