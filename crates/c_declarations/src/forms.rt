//! What the rules of initialisers and declarations hand to each other (C11 6.7, 6.7.9).

ghost use Rattle.std.specs.Prelude.{◌≡◌, [], ◌∷◌, IfOk};
ghost use Rattle.c_declarations.specs.DeclarationForms as spec;

use c_tree::{Declarator, InitDeclarator, InitItem};
use joern_io::List;
use std::alloc::{AllocFailed, Global};

/// Items of an initialiser list, with the marks around and between them.
#[derive(Drop)]
pub struct Items {
    pub list: List<InitItem>,
    pub marks: List<u32>,
}

/// Declarators of a declaration, with the marks between and behind them.
#[derive(Drop)]
pub struct Declarators {
    pub list: List<InitDeclarator>,
    pub marks: List<u32>,
}

impl Items {
    /// These and one more.
    pub(crate) fn with(self, item: InitItem) -> Result<Items, AllocFailed<InitItem>>
        ensures { IfOk result (λ all. all ≡ spec.with_item self item) }
    {
        let Items { mut list, marks } = self;
        list.push(item)?;
        Ok(Items { list, marks })
    }

    /// These and a mark.
    pub(crate) fn to(self, mark: u32) -> Result<Items, AllocFailed<u32>>
        ensures { IfOk result (λ all. all ≡ spec.items_to self mark) }
    {
        let Items { list, mut marks } = self;
        marks.push(mark)?;
        Ok(Items { list, marks })
    }
}

impl Declarators {
    pub(crate) fn none(alloc: Global) -> Declarators
        ensures { result ≡ spec.no_declarators }
    {
        Declarators {
            list: List::new(alloc),
            marks: List::new(alloc),
        }
    }

    /// These and one more.
    pub(crate) fn with(
        self,
        declarator: InitDeclarator,
    ) -> Result<Declarators, AllocFailed<InitDeclarator>>
        ensures { IfOk result (λ all. all ≡ spec.with_declarator self declarator) }
    {
        let Declarators { mut list, marks } = self;
        list.push(declarator)?;
        Ok(Declarators { list, marks })
    }

    /// These and a mark.
    pub(crate) fn to(self, mark: u32) -> Result<Declarators, AllocFailed<u32>>
        ensures { IfOk result (λ all. all ≡ spec.declarators_to self mark) }
    {
        let Declarators { list, mut marks } = self;
        marks.push(mark)?;
        Ok(Declarators { list, marks })
    }
}

/// A declarator without an initialiser.
pub(crate) fn undefined(alloc: Global, declarator: Declarator) -> InitDeclarator
    ensures { result ≡ spec.undefined declarator }
{
    InitDeclarator {
        declarator,
        init: None,
        marks: List::new(alloc),
    }
}

/// The keyword of a static assertion and its marks.
pub(crate) fn assertion_marks(
    alloc: Global,
    key: u32,
    left: u32,
    comma: u32,
    right: u32,
    semicolon: u32,
) -> Result<List<u32>, AllocFailed<u32>>
    ensures { IfOk result (λ marks. marks ≡ key ∷ left ∷ comma ∷ right ∷ semicolon ∷ []) }
{
    let mut marks = List::new(alloc);
    marks.push(key)?;
    marks.push(left)?;
    marks.push(comma)?;
    marks.push(right)?;
    marks.push(semicolon)?;
    Ok(marks)
}
