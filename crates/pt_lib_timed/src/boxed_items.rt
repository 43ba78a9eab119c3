ghost use Rattle.std.specs.Prelude.{◌≡◌, IfOk, length, option_map, slice_get};
ghost use Rattle.pt_value.specs.Token.{value_of};

use pt_value::{Items, Token};
use std::alloc::{AllocError, Global};
use std::marker::Model;

/// The parts of an array, in a box, so that actors of other classes take less room.
#[derive(Drop)]
pub struct BoxedItems {
    items: Box<Items>,
}

impl Model for BoxedItems {
    ghost use Rattle.std.specs.Prelude.{List};
    ghost use Rattle.std.specs.Coded.{coded_list};
    ghost use Rattle.pt_value.specs.Value as value;
    ghost use Rattle.pt_value.specs.ValueCode.{coded_value};

    ghost Value = { List value.Value };

    ghost coded = { coded_list coded_value };

    ghost view = { λ b. b.items.value };
}

impl BoxedItems {
    pub fn of(alloc: Global, items: Items) -> Result<BoxedItems, AllocError>
        ensures { IfOk result (λ boxed. boxed ≡ items) }
    {
        Ok(BoxedItems {
            items: Box::new(alloc, items)?,
        })
    }

    pub fn len(&self) -> usize
        ensures { result ≡ length self.now }
    {
        self.items.len()
    }

    pub fn get(&self, index: usize) -> Option<&Token>
        ensures { option_map (λ t. value_of t.now) result ≡ slice_get self.now index }
    {
        self.items.get(index)
    }

    pub fn copy(&self, alloc: Global) -> Result<BoxedItems, AllocError>
        ensures { IfOk result (λ items. items ≡ self.now) }
    {
        BoxedItems::of(alloc, self.items.copy(alloc)?)
    }
}
