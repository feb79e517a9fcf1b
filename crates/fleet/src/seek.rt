// Where a consist stands in a book.
ghost use Rattle.std.specs.Prelude.{◌≡◌, ◌<◌, true, [], length, IfSome};
ghost use Rattle.train.specs.Refusals.{keeps};
ghost use Rattle.fleet.specs.Rows.{ascending};
ghost use Rattle.fleet.specs.Seeks.{place_of};

use train::checks::Labelled;
use train::octets;
use train::rows::ConsistRow;

/// The place of the entry with this identity, counted from 0.
pub fn seek(consists: &[ConsistRow], id: &[u8]) -> Option<usize>
    requires { keeps ascending [] consists.now ≡ true }
    ensures found { result ≡ place_of id.now 0 consists.now }
    ensures below { IfSome result (λ i. i < length consists.now) }
{
    consists
        .binary_search_by(|row| octets::rank(row.label(), id))
        .ok()
}
