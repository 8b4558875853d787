//! The faults of a file.

ghost use Rattle.std.specs.Prelude.{◌≡◌, ◌++◌, ℕ, List, Option, IfOk, MatchOption, OnOk};
ghost use Rattle.std.specs.List.{All};
ghost use Rattle.c_lexer.specs.declared.token.Kind.{Kind as kind};
ghost use Rattle.c_lexer.specs.Reading.{IsWithin};
ghost use Rattle.c_reading.specs.Kept.{kept_lexemes};
ghost use Rattle.c_tree.specs.Jumps.{IsFaultOf, bodies_in, functions_in};
ghost use Rattle.c_tree.specs.Lexemes.{kind_at, spelling_at};
ghost use Rattle.c_jumps.specs.Faults.{IsFaultless, IsFirstFault, blamed_by};
ghost use Rattle.c_jumps.specs.Names.{Adds, IsFaultIn, declarator_name};
ghost use Rattle.line_marks.specs.Kept.{ArePositionsIn};

use crate::around::Around;
use crate::fault::{Blamed, Fault, Faults, Jump};
use crate::found::Found;
use crate::kept_tokens::KeptTokens;
use crate::names::{add_missing, add_seconds};
use c_lexer::Token;
use c_tree::{Block, Core, Declarator, Item, Unit};
use std::alloc::{AllocError, Global};

/// The first fault of a file that has this tree, in the order of the tokens that are blamed: a
/// jump or a label that may not stand there (C11 6.8.1, 6.8.4.2, 6.8.6), or the name of a function
/// that was defined before (6.9).
///
/// The time is linear in the file, but for names, which are looked up by hashes.
pub fn first_fault(
    alloc: Global,
    bytes: &[u8],
    tokens: &[Token],
    kept: &[u32],
    unit: &Unit,
) -> Result<Option<Blamed>, AllocError>
    requires within { All (IsWithin bytes.now) tokens.now }
    requires inside { ArePositionsIn tokens.now kept.now }
    ensures { let lexemes = kept_lexemes bytes.now tokens.now kept.now in
        IfOk result (λ first. MatchOption first
        (IsFaultless (kind_at lexemes) (spelling_at lexemes) unit.now)
        (λ blamed. IsFirstFault (kind_at lexemes) (spelling_at lexemes) unit.now
        (blamed_by blamed))) }
{
    let kept_tokens = KeptTokens::new(bytes, tokens, kept);
    let mut faults = Faults::new(alloc);
    let mut functions = Vec::new(alloc);
    let items = unit.items.items();
    for item in items {
        faults = with_faults_in(alloc, &kept_tokens, item, faults)?;
        push_function(item, &mut functions)?;
    }
    let redefined = Fault::Redefined;
    let _names = add_seconds(alloc, &kept_tokens, &functions, redefined, &mut faults)?;
    Ok(faults.least())
}

/// The faults, and behind them those of the function that the item defines.
fn with_faults_in(
    alloc: Global,
    kept: &KeptTokens<'_>,
    item: &Item,
    faults: Faults,
) -> Result<Faults, AllocError>
    ensures { IfOk result (λ more. Adds
        (IsFaultIn (spelling_at kept.now) (bodies_in item.now)) faults more) }
{
    match item {
        Item::Define { body, .. } => with_faults_of(alloc, kept, body, faults),
        Item::Declare(_) => Ok(faults),
    }
}

/// The faults, and behind them those of a function with this body.
fn with_faults_of(
    alloc: Global,
    kept: &KeptTokens<'_>,
    body: &Block,
    faults: Faults,
) -> Result<Faults, AllocError>
    ensures { IfOk result (λ more. Adds
        (IsFaultOf (spelling_at kept.now) body.now) faults more) }
{
    let mut found = Found::new(alloc, faults);
    found.block(body, Around::nothing())?;
    let (mut more, labels, gotos) = found.into_parts();
    let second = Fault::BadJump(Jump::SecondLabel);
    let names = add_seconds(alloc, kept, &labels, second, &mut more)?;
    add_missing(kept, &gotos, &names, &mut more)?;
    Ok(more)
}

/// Adds the name of the function that an item defines.
fn push_function(item: &Item, functions: &mut Vec<u32>) -> Result<(), AllocError>
    ensures { (kind_of : ℕ → Option kind) (bytes_of : ℕ → List ℕ) → OnOk result
        (functions.new.items ≡ functions.old.items ++ functions_in kind_of bytes_of item.now) }
{
    match item {
        Item::Define { declarator, .. } => match declared_name(declarator) {
            Some(name) => {
                functions.push(name)?;
                Ok(())
            }
            None => Ok(()),
        },
        Item::Declare(_) => Ok(()),
    }
}

/// The name that a declarator declares, where it has one (6.7.6).
fn declared_name(declarator: &Declarator) -> Option<u32>
    ensures { (kind_of : ℕ → Option kind) (bytes_of : ℕ → List ℕ) →
        result ≡ declarator_name kind_of bytes_of declarator.now }
{
    match &declarator.core {
        Core::Name(token) => Some(*token),
        Core::Group(inner, _) => declared_name(inner.get()),
        Core::Empty => None,
    }
}
