//! What the rules of specifiers hand to each other, and to those of declarators (C11 6.7).

ghost use Rattle.std.specs.Prelude.{◌≡◌, IfOk};
ghost use Rattle.c_specifiers.specs.SpecifierForms as spec;

use c_tree::{Declaration, Declarator, Enumerator, Spec};
use joern_io::List;
use std::alloc::{AllocFailed, Global};
use std::marker::Model;

/// Where specifiers stand (6.7, 6.7.2.1, 6.7.6.3, 6.7.7, 6.9.1).
#[derive(Clone, Copy, Drop)]
pub enum Place {
    /// In a declaration.
    Ordinary,
    /// In the definition of a function, where there is no `typedef` (6.9.1p4).
    Definition,
    /// In a parameter.
    Parameter,
    /// In a structure or union.
    Member,
    /// In a type name.
    Nameless,
}

/// Whether a declarator has a name.
#[derive(Clone, Copy, Drop)]
pub enum Naming {
    /// It has one (6.7.6).
    Named,
    /// It has none (6.7.7).
    Abstract,
    /// It may have one (6.7.6.3).
    Either,
}

/// A word that is a name, with its bytes. Contracts see the number of the token and the bytes.
#[derive(Drop)]
pub struct Word<'t> {
    pub(crate) token: u32,
    pub(crate) bytes: &'t [u8],
}

impl<'t> Model for Word<'t> {
    ghost use Rattle.c_specifiers.specs.Words.{NamedToken};

    ghost Value = { NamedToken };

    ghost view = { λ w. record { token = w.token; bytes = w.bytes.now } };
}

/// Specifiers, and what counts behind them.
#[derive(Drop)]
pub struct Specified {
    pub words: List<Spec>,
    /// Whether `typedef` is among them.
    pub typedef: bool,
    /// Whether the last is `_Atomic` as a qualifier, behind which no `(` stands (6.7.2.4p4).
    pub atomic: bool,
}

/// A declarator with the name that it declares.
#[derive(Drop)]
pub struct Named<'t> {
    pub declarator: Declarator,
    pub name: Option<Word<'t>>,
}

/// An enumerator with its name.
#[derive(Drop)]
pub struct NamedEnumerator<'t> {
    pub enumerator: Enumerator,
    pub name: Word<'t>,
}

/// Declarations of members, with the braces around them.
#[derive(Drop)]
pub struct Members {
    pub list: List<Declaration>,
    pub marks: List<u32>,
}

/// Enumerators, with the marks around and between them.
#[derive(Drop)]
pub struct Enumerators {
    pub list: List<Enumerator>,
    pub marks: List<u32>,
}

impl<'t> Word<'t> {
    /// The number of its token.
    pub fn number(&self) -> u32
        ensures { result ≡ self.now.token }
    {
        self.token
    }
}

impl Specified {
    pub(crate) fn none(alloc: Global) -> Specified
        ensures { result ≡ spec.no_specifiers }
    {
        Specified {
            words: List::new(alloc),
            typedef: false,
            atomic: false,
        }
    }

    /// These and one more.
    pub(crate) fn with(self, word: Spec) -> Result<Specified, AllocFailed<Spec>>
        ensures { IfOk result (λ all. all ≡ spec.with_spec self word) }
    {
        let Specified {
            mut words,
            typedef,
            ..
        } = self;
        words.push(word)?;
        Ok(Specified {
            words,
            typedef,
            atomic: false,
        })
    }

    /// These and `typedef`.
    pub(crate) fn with_typedef(self, key: u32) -> Result<Specified, AllocFailed<Spec>>
        ensures { IfOk result (λ all. all ≡ spec.with_typedef self key) }
    {
        let mut words = self.words;
        words.push(Spec::Storage(key))?;
        Ok(Specified {
            words,
            typedef: true,
            atomic: false,
        })
    }

    /// These and `_Atomic` as a qualifier.
    pub(crate) fn with_atomic(self, key: u32) -> Result<Specified, AllocFailed<Spec>>
        ensures { IfOk result (λ all. all ≡ spec.with_atomic self key) }
    {
        let Specified {
            mut words,
            typedef,
            ..
        } = self;
        words.push(Spec::Qualifier(key))?;
        Ok(Specified {
            words,
            typedef,
            atomic: true,
        })
    }
}

impl Members {
    /// These and one more.
    pub(crate) fn with(self, member: Declaration) -> Result<Members, AllocFailed<Declaration>>
        ensures { IfOk result (λ all. all ≡ spec.with_member self member) }
    {
        let Members { mut list, marks } = self;
        list.push(member)?;
        Ok(Members { list, marks })
    }

    /// These and a mark.
    pub(crate) fn to(self, mark: u32) -> Result<Members, AllocFailed<u32>>
        ensures { IfOk result (λ all. all ≡ spec.members_to self mark) }
    {
        let Members { list, mut marks } = self;
        marks.push(mark)?;
        Ok(Members { list, marks })
    }
}

impl Enumerators {
    /// These and one more.
    pub(crate) fn with(self, enumerator: Enumerator) -> Result<Enumerators, AllocFailed<Enumerator>>
        ensures { IfOk result (λ all. all ≡ spec.with_enumerator self enumerator) }
    {
        let Enumerators { mut list, marks } = self;
        list.push(enumerator)?;
        Ok(Enumerators { list, marks })
    }

    /// These and a mark.
    pub(crate) fn to(self, mark: u32) -> Result<Enumerators, AllocFailed<u32>>
        ensures { IfOk result (λ all. all ≡ spec.enumerators_to self mark) }
    {
        let Enumerators { list, mut marks } = self;
        marks.push(mark)?;
        Ok(Enumerators { list, marks })
    }
}
