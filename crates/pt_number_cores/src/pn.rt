ghost use Rattle.pt_directors.specs.Directors.{of_pn};

use crate::number_core::NumberCore;
use pt_firing::{Ask, IntInputs};
use pt_node::Node;
use pt_pn::Core;
use std::alloc::Global;

impl NumberCore for Core {
    ghost director = { of_pn };

    #[inline(always)]
    fn ask(&mut self) -> Ask {
        self.ask()
    }

    #[inline(always)]
    fn ask_on(&mut self) -> Ask {
        self.ask_on()
    }

    #[inline(always)]
    fn int_inputs<'a>(&'a self, row: &'a mut Vec<i64>) -> Option<IntInputs<'a>> {
        self.int_inputs(row)
    }

    #[inline(always)]
    fn gives_several(&self, _child: u32) -> bool {
        false
    }

    #[inline(always)]
    fn told_number(&mut self, alloc: Global, of: &Node, child: u32, number: i64) -> bool {
        match self.told_number(alloc, child, number, of.need()) {
            Ok(()) => true,
            Err(_) => false,
        }
    }
}
