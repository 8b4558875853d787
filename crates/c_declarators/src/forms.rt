//! What the rules of declarators hand to each other (C11 6.7.6).

ghost use Rattle.std.specs.Prelude.{◌≡◌, [], IfOk};
ghost use Rattle.c_declarators.specs.DeclaratorForms as spec;

use c_specifiers::{Named, Word};
use c_syntax::AssignForm;
use c_tree::{Core, Declarator, Param, Pointer, Suffix};
use joern_io::List;
use std::alloc::{AllocFailed, Global};

/// Qualifiers, and `static` with those of an array.
#[derive(Drop)]
pub struct Qualified {
    pub words: List<u32>,
    /// Whether the last is `_Atomic`.
    pub atomic: bool,
}

/// Pointers.
#[derive(Drop)]
pub struct Pointing {
    pub pointers: List<Pointer>,
    /// Whether `_Atomic` is the last token before what follows.
    pub atomic: bool,
}

/// A parameter with the name that it declares.
#[derive(Drop)]
pub struct NamedParam<'t> {
    pub param: Param,
    pub name: Option<Word<'t>>,
}

/// Parameters, with the marks around and between them.
#[derive(Drop)]
pub struct Params {
    pub list: List<Param>,
    pub marks: List<u32>,
}

/// What the size of an array may be behind `_Atomic`, or else, where another rule reads those that
/// begin with `*`.
pub(crate) fn size_form(atomic: bool) -> AssignForm
    ensures { result ≡ spec.size_form atomic }
{
    if atomic {
        AssignForm::Bare
    } else {
        AssignForm::Unstarred
    }
}

impl Qualified {
    pub(crate) fn none(alloc: Global) -> Qualified
        ensures { result ≡ spec.no_qualifiers }
    {
        Qualified {
            words: List::new(alloc),
            atomic: false,
        }
    }

    /// These and one more, which is `_Atomic` or not.
    pub(crate) fn with(self, key: u32, atomic: bool) -> Result<Qualified, AllocFailed<u32>>
        ensures { IfOk result (λ all. all ≡ spec.with_qualifier self key atomic) }
    {
        let mut words = self.words;
        words.push(key)?;
        Ok(Qualified { words, atomic })
    }
}

impl Pointing {
    /// No pointers, behind `_Atomic` or not.
    pub fn none(alloc: Global, atomic: bool) -> Pointing
        ensures { result ≡ spec.no_pointers atomic }
    {
        Pointing {
            pointers: List::new(alloc),
            atomic,
        }
    }
}

impl Params {
    /// These and one more.
    pub(crate) fn with(self, parameter: Param) -> Result<Params, AllocFailed<Param>>
        ensures { IfOk result (λ all. all ≡ spec.with_param self parameter) }
    {
        let Params { mut list, marks } = self;
        list.push(parameter)?;
        Ok(Params { list, marks })
    }

    /// These and a mark.
    pub(crate) fn to(self, mark: u32) -> Result<Params, AllocFailed<u32>>
        ensures { IfOk result (λ all. all ≡ spec.params_to self mark) }
    {
        let Params { list, mut marks } = self;
        marks.push(mark)?;
        Ok(Params { list, marks })
    }
}

/// A declarator without a width.
pub fn declared_of<'t>(
    alloc: Global,
    pointing: Pointing,
    core: Core,
    suffixes: List<Suffix>,
    name: Option<Word<'t>>,
) -> Named<'t>
    ensures { result ≡ spec.declared_of pointing core suffixes name.entry }
{
    let declarator = Declarator {
        pointers: pointing.pointers,
        core,
        suffixes,
        width: None,
        marks: List::new(alloc),
    };
    Named { declarator, name }
}

/// That of a name.
pub fn named_of<'t>(
    alloc: Global,
    pointing: Pointing,
    word: Word<'t>,
    suffixes: List<Suffix>,
) -> Named<'t>
    ensures { result ≡ spec.named_of pointing word.entry suffixes }
{
    let core = Core::Name(word.number());
    declared_of(alloc, pointing, core, suffixes, Some(word))
}

/// Pointers alone.
pub fn unnamed_of<'t>(alloc: Global, pointing: Pointing) -> Named<'t>
    ensures { result ≡ spec.unnamed_of pointing [] }
{
    declared_of(alloc, pointing, Core::Empty, List::new(alloc), None)
}
