// Windows as records of a shelf, in the order of their starts.
ghost use Rattle.plan.specs.Windows.{start_of, earlier};
ghost use Rattle.std.proofs.Common.{rules};

use crate::slots::Window;
use shelf::Record;

impl Record for Window {
    type Key = u32;

    ghost key = { start_of };

    ghost before = { earlier };

    ghost irreflexive = { Prim.search rules };

    ghost transitive = { Prim.search rules };

    ghost total = { Prim.search rules };

    fn get_key(&self) -> u32 {
        self.start
    }

    fn precedes(a: u32, b: u32) -> bool {
        a < b
    }
}
