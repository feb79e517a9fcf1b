// The consists of an opened book, one by one.
ghost use Rattle.std.specs.Prelude.{◌≡◌};
ghost use Rattle.fleet.specs.Consists.{identity_at};
ghost use Rattle.fleet.specs.Held.{held};

use super::*;
use crate::rows::identity_of;
use train::identity::Identity;

impl Book<'_> {
    /// The identity of the k-th consist of the book, counted from 1.
    pub fn identity(&self, k: usize) -> Option<Identity>
        ensures { result ≡ identity_at (held self.now) k }
    {
        let row = self.consists.get(k.checked_sub(1)?)?;
        Some(identity_of(row))
    }
}
