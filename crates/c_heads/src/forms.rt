//! What the rules of heads hand to each other (C11 6.9.1).

ghost use Rattle.std.specs.Prelude.{◌≡◌, IfOk};
ghost use Rattle.c_declarators.specs.DeclaratorForms as spec;

use c_declarators::{Pointing, declared_of};
use c_specifiers::{Named, Word};
use c_tree::{Core, Declarator, Specs, Suffix, two_marks};
use joern_io::{Boxed, List};
use std::alloc::{AllocError, Global};

/// What stands in parentheses of the declarator of a function definition.
#[derive(Drop)]
pub enum Enclosed<'t> {
    /// A name, in parentheses or not: the function's own parameters stand behind it.
    Bare(Named<'t>),
    /// A function with its own parameters.
    Function(Named<'t>),
}

/// What stands before the body of a function definition.
#[derive(Drop)]
pub struct Head {
    pub specs: Specs,
    pub declarator: Declarator,
}

/// The same with the name that it declares.
#[derive(Drop)]
pub struct NamedHead<'t> {
    pub head: Head,
    pub name: Option<Word<'t>>,
}

/// A declarator in parentheses, with what stands before and behind these.
pub(crate) fn group_of<'t>(
    alloc: Global,
    pointing: Pointing,
    left: u32,
    inside: Named<'t>,
    right: u32,
    suffixes: List<Suffix>,
) -> Result<Named<'t>, AllocError>
    ensures { IfOk result (λ all. all ≡ spec.group_of pointing left inside.entry right suffixes) }
{
    let Named { declarator, name } = inside;
    let marks = two_marks(alloc, left, right)?;
    let core = Core::Group(Boxed::new(alloc, declarator)?, marks);
    Ok(declared_of(alloc, pointing, core, suffixes, name))
}
