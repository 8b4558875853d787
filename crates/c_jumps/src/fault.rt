//! What may be wrong with a token, and the faults that were found.

ghost use Rattle.std.specs.Prelude.{◌≡◌, ◌≤◌, ◌++◌, ◌∷◌, [], Contains, MatchOption, OnOk, All};
ghost use Rattle.std.specs.Prelude.{length, map};
ghost use Rattle.c_tree.specs.Jumps.{Blamed as blamed_token};
ghost use Rattle.c_tree.specs.Jumps.{blame};
ghost use Rattle.c_jumps.specs.Faults.{blamed_by, fault_of};

use std::alloc::{AllocError, Global};
use std::marker::Model;

/// What is wrong with a jump or a label.
#[derive(Clone, Copy, Debug, PartialEq, Eq)]
pub enum Jump {
    /// `break` outside of a loop and a `switch` (C11 6.8.6.3p1).
    StrayBreak,
    /// `continue` outside of a loop (6.8.6.2p1).
    StrayContinue,
    /// `case` outside of a `switch` (6.8.1p2).
    StrayCase,
    /// `default` outside of a `switch` (6.8.1p2).
    StrayDefault,
    /// A `default` behind another one of the same `switch` (6.8.4.2p3).
    SecondDefault,
    /// A label behind another one of its name in the function (6.8.1p3).
    SecondLabel,
    /// `goto` to a name that no label of the function has (6.8.6.1p1).
    MissingLabel,
}

/// What is wrong with a token.
#[derive(Clone, Copy, Debug, PartialEq, Eq)]
pub enum Fault {
    /// It is or names a jump or a label that may not stand there.
    BadJump(Jump),
    /// It names a function behind another definition of it in the file (6.9p3, p5).
    Redefined,
}

/// The number of a token, and what is wrong with it.
///
/// The token is the keyword, the name of a label or of a function, or the name after `goto`.
#[derive(Clone, Copy, Debug, PartialEq, Eq)]
pub struct Blamed {
    pub token: u32,
    pub fault: Fault,
}

/// The faults that were found. Contracts see the list of them.
#[derive(Drop)]
pub(crate) struct Faults {
    found: Vec<Blamed>,
}

impl Model for Faults {
    ghost use Rattle.std.specs.Prelude.{map};
    ghost use Rattle.c_tree.specs.Jumps.{Blames};
    ghost use Rattle.c_jumps.specs.Faults.{blamed_by};

    ghost Value = { Blames };

    ghost view = { λ faults. map blamed_by faults.found.items };
}

impl Faults {
    /// No faults.
    pub(crate) fn new(alloc: Global) -> Faults
        ensures { result ≡ [] }
    {
        Faults {
            found: Vec::new(alloc),
        }
    }

    /// Adds a fault at the end.
    pub(crate) fn push(&mut self, token: u32, fault: Fault) -> Result<(), AllocError>
        ensures { OnOk result (self.new ≡ self.old ++ blame (fault_of fault) token ∷ []) }
    {
        self.found.push(Blamed { token, fault })?;
        Ok(())
    }

    /// Adds a fault of each of the tokens.
    pub(crate) fn push_each(&mut self, tokens: &[u32], fault: Fault) -> Result<(), AllocError>
        ensures { OnOk result (self.new ≡ self.old ++ map (blame (fault_of fault)) tokens.now) }
    {
        for token in tokens {
            self.push(*token, fault)?;
        }
        Ok(())
    }

    /// The first of those whose tokens have the least number.
    pub(crate) fn least(&self) -> Option<Blamed>
        ensures { MatchOption result (self.now ≡ []) (λ least. Contains self.now (blamed_by least)
            × All (λ (other : blamed_token). least.token ≤ other.token) self.now) }
    {
        match least_of(&self.found) {
            Some(blamed) => Some(*blamed),
            None => None,
        }
    }
}

/// The first of these whose tokens have the least number.
fn least_of(found: &[Blamed]) -> Option<&Blamed>
    ensures { MatchOption result (length found.now ≡ 0) (λ least. Contains found.now least.now
        × All (λ other. least.now.token ≤ other.token) found.now) }
{
    found.iter().min_by_key(|blamed| blamed.token)
}
