//! The scopes that are open at a place of a source, and which names are typedef names there.

ghost use Rattle.std.specs.Prelude.{◌≡◌, ◌↔◌, Some, slice_get, IsTrue, IfOk, OnOk, OnErr};
ghost use Rattle.std.specs.Prelude.{Contains, IfSome, IfNone};
ghost use Rattle.std.specs.Bool.{OnTrue, OnFalse};
ghost use Rattle.c_scopes.specs.Scopes.{file_scope, entered, declared, left};
ghost use Rattle.c_scopes.specs.Scopes.{IsTypedefName};
ghost use Rattle.name_table.specs.Names.{IsNumberOf, Extends};
ghost use Rattle.c_scopes.specs.KeptScopes.{Undeclares, KeepsTypedefs, AddsOther};

use name_table::Names;
use std::alloc::{AllocError, Global};
use std::marker::Model;

/// A scope that begins, or a name that is declared.
#[derive(Clone, Copy)]
pub(crate) enum Step {
    /// A scope begins.
    Opens,
    /// A name is declared that was declared as a typedef name before, or is now. It has a number.
    Declares {
        name: u32,
        typedef: bool,
        /// Whether it was a typedef name before.
        was: bool,
    },
    /// Another name is declared. Its bytes are those of `texts` from this offset on, up to where
    /// the next such name begins.
    Others(u32),
}

/// The open scopes of ordinary identifiers (C11 6.2.1). Contracts see each scope as the list of its
/// declarations.
///
/// The names that were ever declared as typedef names have numbers, and it is kept by number
/// whether a name is one now. A name that has no number is none, and costs no more than its bytes.
/// A scope is left by taking its declarations back.
#[derive(Drop)]
pub struct Scopes {
    names: Names,
    /// By number, whether the name is a typedef name.
    typedefs: Vec<bool>,
    /// The open scopes and their declarations, in the order of the source.
    steps: Vec<Step>,
    /// The bytes of the declared names that have no number.
    texts: Vec<u8>,
}

impl Model for Scopes {
    ghost use Rattle.c_scopes.specs.Scopes.{OpenScopes};

    ghost Value = { OpenScopes };

    ghost use Rattle.c_scopes.specs.KeptScopes.{scopes_in, IsKept};

    ghost view = { λ a. scopes_in a.names a.texts.items a.steps.items };

    ghost invariant = { λ a. IsKept a.names a.typedefs.items a.texts.items a.steps.items };
}

impl Scopes {
    /// The file's scope, in which nothing is declared.
    pub fn new(alloc: Global) -> Scopes
        ensures { result ≡ file_scope }
    {
        Scopes {
            names: Names::new(alloc),
            typedefs: Vec::new(alloc),
            steps: Vec::new(alloc),
            texts: Vec::new(alloc),
        }
    }

    /// Opens a scope in the innermost one.
    pub fn enter(&mut self) -> Result<(), AllocError>
        ensures ok { OnOk result (self.new ≡ entered self.old) }
        ensures err { OnErr result (self.new ≡ self.old) }
    {
        self.steps.push(Step::Opens)?;
        Ok(())
    }

    /// Leaves the innermost scope. The file's scope is open all the same: where it is left, nothing
    /// is declared in it any more. The time is linear in the declarations of the scope.
    pub fn leave(&mut self)
        ensures { self.new ≡ left self.old }
    {
        while !self.undo() {}
    }

    /// Declares a name in the innermost scope, as a typedef name or as another one.
    pub fn declare(&mut self, name: &[u8], typedef: bool) -> Result<(), AllocError>
        ensures ok { OnOk result (self.new ≡ declared self.old name.now typedef) }
        ensures err { OnErr result (self.new ≡ self.old) }
    {
        let known = self.names.number_of(name);
        if !typedef && known.is_none() {
            return declare_other(&mut self.texts, &mut self.steps, name);
        }
        let alloc = *self.steps.allocator();
        let number = number_for(alloc, &mut self.names, &mut self.typedefs, name, known)?;
        let was = self.typedefs[number as usize];
        self.steps.push(Step::Declares {
            name: number,
            typedef,
            was,
        })?;
        self.typedefs[number as usize] = typedef;
        Ok(())
    }

    /// Whether the name is a typedef name: its last declaration in an open scope is a typedef.
    pub fn is_typedef(&self, name: &[u8]) -> bool
        ensures { IsTrue result ↔ IsTypedefName self.now name.now }
    {
        match self.names.number_of(name) {
            Some(number) => self.typedefs[number as usize],
            None => false,
        }
    }

    /// Takes the last step back. It is true where the innermost scope is left then.
    fn undo(&mut self) -> bool
        ensures leaves { OnTrue result (self.new ≡ left self.old) }
        ensures declares { OnFalse result (Undeclares self.old self.new) }
    {
        match self.steps.pop() {
            None => true,
            Some(Step::Opens) => true,
            Some(
                Step::Declares {
                    name,
                    typedef: _,
                    was,
                },
            ) => {
                self.typedefs[name as usize] = was;
                false
            }
            Some(Step::Others(begin)) => {
                self.texts.truncate(begin as usize);
                false
            }
        }
    }
}

/// The number of a name, which is added where it is not known.
fn number_for(
    alloc: Global,
    names: &mut Names,
    typedefs: &mut Vec<bool>,
    name: &[u8],
    known: Option<u32>,
) -> Result<u32, AllocError>
    requires known { IfSome known (IsNumberOf names.old name.now) }
    requires absent { IfNone known (¬ Contains names.old name.now) }
    ensures number { IfOk result (λ number. slice_get names.new number ≡ Some name.now) }
    ensures extends { Extends names.old names.new }
    ensures keeps { KeepsTypedefs names.old names.new typedefs.old.items typedefs.new.items }
{
    if let Some(number) = known {
        return Ok(number);
    }
    typedefs.push(false)?;
    names.add(alloc, name)
}

/// Declares a name that has no number, as no typedef name.
fn declare_other(texts: &mut Vec<u8>, steps: &mut Vec<Step>, name: &[u8]) -> Result<(), AllocError>
    ensures ok { OnOk result (AddsOther texts.old.items texts.new.items
        steps.old.items steps.new.items name.now) }
    ensures err { OnErr result ((texts.new.items ≡ texts.old.items) ×
        (steps.new.items ≡ steps.old.items)) }
{
    let begin = match u32::try_from(texts.len()) {
        Ok(begin) => begin,
        Err(_) => return Err(AllocError),
    };
    texts.extend_from_slice(name)?;
    match steps.push(Step::Others(begin)) {
        Ok(()) => Ok(()),
        Err(_) => {
            texts.truncate(begin as usize);
            Err(AllocError)
        }
    }
}
