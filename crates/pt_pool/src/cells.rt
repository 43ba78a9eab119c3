ghost use Rattle.std.specs.Iterator.{YieldsFirstRef, item_count};

use std::marker::Model;

/// The items of a queue from front to back, which a contract sees as the list of those that are left.
#[derive(Drop)]
pub struct Cells<'a, T> {
    pub(crate) values: &'a [Option<T>],
    pub(crate) next: &'a [usize],
    pub(crate) cell: usize,
    pub(crate) left: usize,
}

impl<'a, T> Model for Cells<'a, T> {
    ghost use Rattle.std.specs.Prelude.{List};
    ghost use Rattle.std.specs.Coded.{coded_list};

    ghost Value = { List T };

    ghost coded = { coded_list T.code };

    ghost use Rattle.pt_pool.specs.Chains.{chain};
    ghost use Rattle.pt_pool.specs.Values.{values_at, IsWalk};

    ghost view = { λ c. values_at c.values.now (chain c.next.now c.left c.cell) };

    ghost invariant = { λ c. IsWalk c.values.now c.next.now c.left c.cell };
}

impl<'a, T> Iterator for Cells<'a, T> {
    type Item = &'a T;

    ghost next_gives = { YieldsFirstRef (λ rest. rest) };

    ghost remaining = { item_count (λ rest. rest) };

    fn next(&mut self) -> Option<&'a T> {
        if self.left == 0 {
            return None;
        }
        let item = self.values[self.cell].as_ref();
        self.cell = self.next[self.cell];
        self.left -= 1;
        item
    }
}
