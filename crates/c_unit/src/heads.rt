//! What a file is made of beside statements and declarations.

ghost use Rattle.c_reading.specs.Reads.{Reads};
ghost use Rattle.c_syntax.specs.Scoping.{input_from};
ghost use Rattle.c_unit.specs.UnitReaders.{ends_function};

use crate::forms::Head;
use c_reading::Stop;
use c_syntax::Source;
use c_tree::Item;
use std::alloc::Global;

/// A reader of what stands before the body of a function.
pub trait Heads {
    ghost use Rattle.std.specs.Prelude.{ℕ};
    ghost use Rattle.c_syntax.specs.Scoping.{PartReader};
    ghost use Rattle.c_unit.specs.declared.forms.Head.{Head};

    /// What it reads, by the levels that are left.
    ghost heads: { Self → ℕ → PartReader Head };

    /// The specifiers and the declarator of a function definition (C11 6.9.1), whose name is
    /// declared. It leaves two scopes open: that of the function's own parameters, and in it one of
    /// what the rest of the declarator declares, the name last.
    fn head(&self, alloc: Global, room: usize, source: &mut Source<'_>) -> Result<Head, Stop>
        ensures { Reads (heads self.now room (input_from source.old)) result
            (input_from source.new) };

    /// Ends these scopes behind the body, with the function that was read: what the rest of the
    /// declarator declares stays.
    fn end_function(&self, function: Item, source: &mut Source<'_>) -> Result<Item, Stop>
        ensures { Reads (ends_function function (input_from source.old)) result
            (input_from source.new) };
}
