// All consists of a book, coupled one behind another.
ghost use Rattle.std.specs.Prelude.{◌≡◌, ◌≤◌, length};
ghost use Rattle.fleet.specs.Held.{held};
ghost use Rattle.coach_order.specs.Orders.{formation_of};

use arrayvec::ArrayVec;
use fleet::book::Book;
use train::entries::Coupled;
use train::facing::Facing;

/// The most consists of a book. A bench refuses a formation of more than 63, so there is room for all of a book's.
const MOST: usize = 200;

/// Couples all consists of a book in their order, each direct.
pub(crate) fn couple_all(book: &Book<'_>) -> ArrayVec<Coupled, MOST>
    requires { length (held book.now) ≤ 200 }
    ensures { result.items ≡ formation_of (held book.now) }
{
    let mut entries = ArrayVec::new();
    while let Some(identity) = book.identity(entries.len() + 1) {
        entries.push(Coupled {
            identity,
            facing: Facing::Direct,
        });
    }
    entries
}
