//! Names that stand twice, and names that do not stand.

ghost use Rattle.std.specs.Prelude.{IfOk, OnOk};
ghost use Rattle.c_tree.specs.Jumps.{MissingLabel, blame};
ghost use Rattle.c_tree.specs.Lexemes.{spelling_at};
ghost use Rattle.c_jumps.specs.Faults.{fault_of};
ghost use Rattle.c_jumps.specs.Names.{Adds, AreNamesOf, IsSecondName, IsMissingName};
ghost use Rattle.c_jumps.specs.Names.{MeetsGoto, MeetsName};

use crate::fault::{Fault, Faults, Jump};
use crate::kept_tokens::KeptTokens;
use name_table::Names;
use std::alloc::{AllocError, Global};

/// The names of the tokens. Adds the fault of each token that stands behind another one of its
/// name.
pub(crate) fn add_seconds(
    alloc: Global,
    kept: &KeptTokens<'_>,
    tokens: &[u32],
    fault: Fault,
    faults: &mut Faults,
) -> Result<Names, AllocError>
    ensures names { IfOk result (λ names. AreNamesOf (spelling_at kept.now) tokens.now names) }
    ensures adds { OnOk result (Adds
        (IsSecondName (spelling_at kept.now) (fault_of fault) tokens.now)
        faults.old faults.new) }
{
    let mut names = Names::new(alloc);
    for token in tokens {
        meet_name(alloc, kept, *token, fault, &mut names, faults)?;
    }
    Ok(names)
}

/// Adds the name of a token, or the fault where the name is known.
fn meet_name(
    alloc: Global,
    kept: &KeptTokens<'_>,
    token: u32,
    fault: Fault,
    names: &mut Names,
    faults: &mut Faults,
) -> Result<(), AllocError>
    ensures { OnOk result (MeetsName (spelling_at kept.now token) (blame (fault_of fault) token)
        names.old names.new faults.old faults.new) }
{
    let name = kept.spelling(token);
    match names.number_of(name) {
        Some(_) => faults.push(token, fault),
        None => {
            let _number = names.add(alloc, name)?;
            Ok(())
        }
    }
}

/// Adds the fault of each name behind `goto` that is the name of no label.
pub(crate) fn add_missing(
    kept: &KeptTokens<'_>,
    gotos: &[u32],
    labels: &Names,
    faults: &mut Faults,
) -> Result<(), AllocError>
    ensures { OnOk result (Adds
        (IsMissingName (spelling_at kept.now) MissingLabel gotos.now labels.now)
        faults.old faults.new) }
{
    for token in gotos {
        meet_goto(kept, *token, labels, faults)?;
    }
    Ok(())
}

/// Adds the fault of a name behind `goto`, where it is the name of no label.
fn meet_goto(
    kept: &KeptTokens<'_>,
    token: u32,
    labels: &Names,
    faults: &mut Faults,
) -> Result<(), AllocError>
    ensures { OnOk result (MeetsGoto (spelling_at kept.now token) (blame MissingLabel token)
        labels.now faults.old faults.new) }
{
    match labels.number_of(kept.spelling(token)) {
        Some(_) => Ok(()),
        None => faults.push(token, Fault::BadJump(Jump::MissingLabel)),
    }
}
