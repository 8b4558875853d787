//! The forest of a file: the METHOD `<global>`, whose BLOCK holds the functions.

ghost use Rattle.std.specs.Prelude.{OnOk};
ghost use Rattle.graph_forest.specs.Planting.{Plants};
ghost use Rattle.ast_layer.specs.Source.{file_of};
ghost use Rattle.ast_layer.specs.Forests.{file_forest, functions_forest, global_forest};

use crate::functions::next_order;
use crate::nodes::{global_block, global_return};
use crate::source::Source;
use c_tree::Item;
use graph_forest::{Hang, Planter};
use std::alloc::AllocError;

impl Source {
    /// Plants the file, whose tree is the source's own.
    pub(crate) fn plant(&self, planter: &mut Planter) -> Result<(), AllocError>
        ensures { OnOk result (Plants planter.old planter.new
            (file_forest (file_of self.now) self.now.unit)) }
    {
        planter.enter(Hang::Plain, &self.global_method())?;
        self.plant_global(planter, self.unit.items.items())?;
        planter.leaf(Hang::Plain, &global_return())?;
        planter.leave();
        Ok(())
    }

    /// Plants the BLOCK of `<global>`.
    fn plant_global(&self, planter: &mut Planter, items: &[Item]) -> Result<(), AllocError>
        ensures { OnOk result (Plants planter.old planter.new
            (global_forest (file_of self.now) items.now)) }
    {
        planter.enter(Hang::Plain, &global_block())?;
        self.plant_functions(planter, items)?;
        planter.leave();
        Ok(())
    }

    /// Plants functions, the children of that BLOCK.
    fn plant_functions(&self, planter: &mut Planter, items: &[Item]) -> Result<(), AllocError>
        ensures { OnOk result (Plants planter.old planter.new
            (functions_forest (file_of self.now) 1 items.now)) }
    {
        let mut order = 0;
        for item in items {
            order = next_order(order)?;
            self.plant_function(planter, item, order)?;
        }
        Ok(())
    }
}
