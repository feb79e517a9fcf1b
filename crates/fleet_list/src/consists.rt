// The consists of tables, one after another.
ghost use Rattle.std.specs.Prelude.{◌≡◌, length};
ghost use Rattle.fleet_list.specs.Tables.{counts};

use crate::tables::Head;
use train::entries::Vehicle;

/// A consist: its head, and its vehicles.
#[derive(Clone, Copy)]
pub struct Consist<'a> {
    pub head: &'a Head,
    pub vehicles: &'a [Vehicle],
}

/// Consists: their heads, and the vehicles of all of them one behind another.
#[derive(Clone, Copy)]
pub struct Consists<'a> {
    pub heads: &'a [Head],
    pub vehicles: &'a [Vehicle],
    ghost sums: { counts heads.now ≡ length vehicles.now },
}

impl<'a> Iterator for Consists<'a> {
    ghost use Rattle.std.specs.Iterator.{YieldsFirstBy, item_count};
    ghost use Rattle.fleet_list.specs.Consists.{item_in, items_in};

    type Item = Consist<'a>;

    ghost next_gives = { YieldsFirstBy item_in items_in };

    ghost remaining = { item_count items_in };

    fn next(&mut self) -> Option<Consist<'a>> {
        let (head, heads) = self.heads.split_first()?;
        let (vehicles, rest) = self.vehicles.split_at(head.count as usize);
        self.heads = heads;
        self.vehicles = rest;
        Some(Consist { head, vehicles })
    }
}
