// What a console keeps from line to line.
ghost use Rattle.std.specs.Prelude.{◌≡◌, ℕ, Result, IfOk, length, replicate};
ghost use Rattle.std.specs.Fn.{FnOnceReturnsAtMut};
ghost use Rattle.train.specs.Turning.{turned_list, turned_coupled};
ghost use Rattle.train.specs.declared.refusal.Refusal.{Refusal as Why};
ghost use Rattle.fleet_list.specs.Imports.{Imported};
ghost use Rattle.fleet_list.specs.Exports.{Exported};
ghost use Rattle.console.specs.Outcomes.{imported_as, exported_as, calls_after};
ghost use Rattle.fleet.specs.Fleets.{found_in, vehicle_in};
ghost use Rattle.train.specs.declared.identity.Identity.{Identity as Id};
ghost use Rattle.console.specs.Fleets.{meaning, meaning_at, consist_answer, vehicle_answer};

use crate::answers::{Answer, Failure, Filled, Written};
use crate::command::{DeskCommand, Source};
use crate::fleets::DeskFleet;
use bench::calls::{Call, carry_out};
use bench::state::Bench;
use directory::composing::compose;
use fleet::book::Book;
use fleet::questions::Fleet;
use fleet::roster::Roster;
use fleet_list::export::export_book;
use fleet_list::import::import_list;
use sc32::sc32;
use std::alloc::{AllocError, Global};
use train::entries::{Coupled, Vehicle};
use train::identity::Identity;
use train::refusal::Refusal;
use train::turning::turn_all;

/// A bench with the calls made on it, a roster and an opened book.
#[derive(Drop)]
pub struct Desk<'a> {
    bench: Bench,
    calls: Vec<Call<'a>>,
    roster: Roster,
    book: Book<'a>,
}

impl<'a> Desk<'a> {
    pub fn new(heap: Global) -> Desk<'a> {
        Desk {
            bench: Bench::new(),
            calls: Vec::new(heap),
            roster: Roster::new(),
            book: Book::new(),
        }
    }

    /// The calls made on the bench, in order.
    pub fn calls(&self) -> &[Call<'a>]
        ensures { result.now ≡ self.now.calls.items }
    {
        self.calls.as_slice()
    }

    /// The fleet that a word names.
    pub fn fleet(&self, source: Source) -> DeskFleet<'_>
        ensures { (id : Id) → meaning result id ≡ meaning_at self.now source id }
    {
        match source {
            Source::Book => DeskFleet::Book(&self.book),
            Source::Roster => DeskFleet::Roster(&self.roster),
        }
    }

    /// Carries out a command, or refuses it.
    pub fn answer(
        &mut self,
        heap: Global,
        command: &'a DeskCommand,
    ) -> Result<Answer<'a>, Failure> {
        match command {
            DeskCommand::Turn { formation } => Ok(Answer::Turned(turned(heap, formation)?)),
            DeskCommand::Sc32 { seed, bytes } => Ok(Answer::Checksum(sc32(*seed, bytes))),
            DeskCommand::Import { room, text } => Ok(Answer::Filled(imported(heap, *room, text)?)),
            DeskCommand::Export { room, book } => Ok(Answer::Filled(exported(heap, *room, book)?)),
            DeskCommand::Compose { source, room } => {
                Ok(Answer::Filled(self.composed(heap, *source, *room)?))
            }
            DeskCommand::Open { bytes } => self.open(bytes),
            DeskCommand::Name { k } => Ok(self.name(*k)),
            DeskCommand::Announce {
                identity,
                counter,
                vehicles,
            } => self.announce(*identity, *counter, vehicles),
            DeskCommand::Forget { identity } => self.forget(identity),
            DeskCommand::Look { source, identity } => Ok(self.look_up(*source, identity)),
            DeskCommand::Vehicle {
                source,
                identity,
                k,
            } => Ok(self.vehicle(*source, identity, *k)),
            DeskCommand::ToBench(command) => self.carry_out(command.call()),
        }
    }

    fn open(&mut self, bytes: &'a [u8]) -> Result<Answer<'a>, Failure> {
        self.book.open(bytes)?;
        Ok(Answer::Done("opened"))
    }

    fn name(&self, k: u16) -> Answer<'a> {
        match self.book.name(usize::from(k)) {
            Some(part) => Answer::Name(part),
            None => Answer::Absent,
        }
    }

    fn announce(
        &mut self,
        identity: Identity,
        counter: u32,
        vehicles: &[Vehicle],
    ) -> Result<Answer<'a>, Failure> {
        self.roster.announce(identity, counter, vehicles)?;
        Ok(Answer::Done("announced"))
    }

    fn forget(&mut self, identity: &Identity) -> Result<Answer<'a>, Failure> {
        self.roster.forget(identity)?;
        Ok(Answer::Done("forgotten"))
    }

    fn look_up(&self, source: Source, identity: &Identity) -> Answer<'a>
        ensures { result ≡ consist_answer (found_in (meaning_at self.now source identity.now)) }
    {
        match self.fleet(source).look_up(identity) {
            Some(found) => Answer::Consist(found),
            None => Answer::Absent,
        }
    }

    fn vehicle(&self, source: Source, identity: &Identity, k: u8) -> Answer<'a>
        ensures { result ≡ vehicle_answer (vehicle_in (meaning_at self.now source identity.now) k) }
    {
        match self.fleet(source).vehicle(identity, k) {
            Some(vehicle) => Answer::Vehicle(vehicle),
            None => Answer::Absent,
        }
    }

    fn composed(&self, heap: Global, source: Source, room: u16) -> Result<Filled, AllocError> {
        filled(heap, room, |out| {
            let length = compose(&self.bench, &self.fleet(source), out)?;
            Ok(Written::Composed { length })
        })
    }

    /// Carries out a call of the bench, and keeps it for comparing, refused or not.
    fn carry_out(&mut self, call: Call<'a>) -> Result<Answer<'a>, Failure>
        ensures { self.new.calls.items ≡ calls_after result self.old.calls.items call.entry }
    {
        self.calls.push(call).map_err(AllocError::from)?;
        carry_out(&mut self.bench, &call)?;
        Ok(Answer::Done(match call {
            Call::Inaugurate { .. } => "inaugurated",
            Call::Claim { .. } => "claimed",
            Call::Yield { .. } => "yielded",
            Call::Confirm { .. } => "confirmed",
            Call::Withdraw => "withdrawn",
        }))
    }
}

fn turned(heap: Global, formation: &[Coupled]) -> Result<Vec<Coupled>, AllocError>
    ensures { IfOk result (λ entries. entries.items ≡ turned_list turned_coupled formation.now) }
{
    let mut entries = Vec::from_slice(heap, formation)?;
    turn_all(entries.as_mut_slice());
    Ok(entries)
}

fn imported(heap: Global, room: u16, list: &[u8]) -> Result<Filled, AllocError>
    ensures { IfOk result (λ filled. (answer : Result ℕ Why) × Imported list.now (replicate room 0xa5) filled.buffer.items answer × (filled.outcome ≡ imported_as answer)) }
{
    filled(heap, room, |out| {
        let length = import_list(list, out)?;
        Ok(Written::Imported { length })
    })
}

fn exported(heap: Global, room: u16, book: &[u8]) -> Result<Filled, AllocError>
    ensures { IfOk result (λ filled. (answer : Result (ℕ × ℕ) Why) × Exported book.now (replicate room 0xa5) filled.buffer.items answer × (filled.outcome ≡ exported_as answer)) }
{
    filled(heap, room, |out| {
        let (length, lines) = export_book(book, out)?;
        Ok(Written::Exported { length, lines })
    })
}

/// A new buffer that has been written into.
fn filled<F: FnOnce(&mut [u8]) -> Result<Written, Refusal>>(
    heap: Global,
    room: u16,
    fill: F,
) -> Result<Filled, AllocError>
    requires { F.IsAlwaysCallable fill }
    ensures { IfOk result (λ filled. FnOnceReturnsAtMut F.FnOnce fill (replicate room 0xa5) filled.outcome filled.buffer.items) }
{
    let mut buffer = buffer(heap, room)?;
    let outcome = fill(buffer.as_mut_slice());
    Ok(Filled { outcome, buffer })
}

/// A buffer of so many bytes, each a5 hex.
pub fn buffer(heap: Global, room: u16) -> Result<Vec<u8>, AllocError>
    ensures { IfOk result (λ bytes. bytes.items ≡ replicate room 0xa5) }
{
    vec![in heap; 0xa5; usize::from(room)]
}
