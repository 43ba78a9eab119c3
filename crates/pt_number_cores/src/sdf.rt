ghost use Rattle.pt_core.specs.declared.either.Either.TheVariants.{First};

use crate::number_core::NumberCore;
use pt_firing::{Ask, IntInputs};
use pt_node::Node;
use pt_sdf::Core;
use std::alloc::Global;

impl NumberCore for Core {
    ghost director = { First };

    #[inline(always)]
    fn ask(&mut self) -> Ask {
        self.ask()
    }

    #[inline(always)]
    fn int_inputs<'a>(&'a self, row: &'a mut Vec<i64>) -> Option<IntInputs<'a>> {
        self.int_inputs(row)
    }

    #[inline(always)]
    fn gives_several(&self, child: u32) -> bool {
        self.gives_several(child)
    }

    #[inline(always)]
    fn told_number(&mut self, _alloc: Global, _of: &Node, child: u32, number: i64) -> bool {
        self.told_number(child, number)
    }
}
