// A fleet of a desk: the book that it opened, or its roster.
ghost use Rattle.console.specs.Fleets.{meaning as meaning_of_it, meaning_lawful};

use fleet::book::Book;
use fleet::questions::{Fleet, Found, Meant};
use fleet::roster::Roster;
use train::entries::Vehicle;
use train::identity::Identity;

/// Answers as the book or the roster does.
#[derive(Clone, Copy)]
pub enum DeskFleet<'d> {
    Book(&'d Book<'d>),
    Roster(&'d Roster),
}

impl Meant for DeskFleet<'_> {
    ghost meaning = { meaning_of_it };

    ghost lawful = { meaning_lawful };
}

impl Fleet for DeskFleet<'_> {
    fn look_up(&self, identity: &Identity) -> Option<Found> {
        match self {
            DeskFleet::Book(book) => book.look_up(identity),
            DeskFleet::Roster(roster) => roster.look_up(identity),
        }
    }

    fn vehicle(&self, identity: &Identity, k: u8) -> Option<Vehicle> {
        match self {
            DeskFleet::Book(book) => book.vehicle(identity, k),
            DeskFleet::Roster(roster) => roster.vehicle(identity, k),
        }
    }
}
