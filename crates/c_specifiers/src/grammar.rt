//! The rules of declarations, and what they hold in brackets.

ghost use Rattle.c_reading.specs.Reads.{Reads};
ghost use Rattle.c_syntax.specs.Scoping.{input_from};
ghost use Rattle.std.specs.Prelude.{◌≡◌, ◌-◌, ◌+◌};

use crate::forms::{Named, Naming};
use c_reading::Stop;
use c_syntax::{AssignForm, Source};
use c_tree::{Assign, Declaration, InitItem, Param, TypeName};
use std::alloc::Global;

/// Readers of what stands in brackets, where so many levels are left.
pub trait Inside {
    ghost use Rattle.std.specs.Prelude.{ℕ};
    ghost use Rattle.c_specifiers.specs.Inside.{InsideReaders};

    /// What each of them reads, by the levels that are left.
    ghost readers: { Self → ℕ → InsideReaders };

    /// Each of them may be called where so many levels are left.
    ghost can_read: { Self → ℕ → Type 0 };

    /// Assignment expressions may be read on the level of a rule that has room for so many levels.
    ghost can_read_value: { Self → ℕ → Type 0 };

    /// An assignment expression of the form (C11 6.5.16).
    fn assign(
        &self,
        alloc: Global,
        form: AssignForm,
        room: usize,
        source: &mut Source<'_>,
    ) -> Result<Assign, Stop>
        requires { can_read self.now room }
        ensures { Reads ((readers self.now room).assign form (input_from source.old)) result
            (input_from source.new) };

    /// The same on the level of the rule that holds it, which has room for so many levels.
    fn value(
        &self,
        alloc: Global,
        form: AssignForm,
        room: usize,
        source: &mut Source<'_>,
    ) -> Result<Assign, Stop>
        requires { can_read_value self.now room }
        ensures { Reads ((readers self.now (room + 1)).assign form (input_from source.old)) result
            (input_from source.new) };

    /// A type name (6.7.7).
    fn type_name(
        &self,
        alloc: Global,
        room: usize,
        source: &mut Source<'_>,
    ) -> Result<TypeName, Stop>
        requires { can_read self.now room }
        ensures { Reads ((readers self.now room).type_name (input_from source.old)) result
            (input_from source.new) };

    /// A parameter, whose name is declared (6.7.6.3).
    fn param(&self, alloc: Global, room: usize, source: &mut Source<'_>) -> Result<Param, Stop>
        requires { can_read self.now room }
        ensures { Reads ((readers self.now room).param (input_from source.old)) result
            (input_from source.new) };

    /// A declaration of members (6.7.2.1).
    fn member(
        &self,
        alloc: Global,
        room: usize,
        source: &mut Source<'_>,
    ) -> Result<Declaration, Stop>
        requires { can_read self.now room }
        ensures { Reads ((readers self.now room).member (input_from source.old)) result
            (input_from source.new) };

    /// A declarator that is not empty (6.7.6).
    fn group<'t>(
        &self,
        alloc: Global,
        naming: Naming,
        room: usize,
        source: &mut Source<'t>,
    ) -> Result<Named<'t>, Stop>
        requires { can_read self.now room }
        ensures { Reads ((readers self.now room).group naming (input_from source.old)) result
            (input_from source.new) };

    /// An item of an initialiser list (6.7.9).
    fn item(&self, alloc: Global, room: usize, source: &mut Source<'_>) -> Result<InitItem, Stop>
        requires { can_read self.now room }
        ensures { Reads ((readers self.now room).item (input_from source.old)) result
            (input_from source.new) };
}

/// The rules, with the readers of what they hold in brackets.
#[derive(Clone, Copy, Drop)]
pub struct Grammar<N> {
    pub alloc: Global,
    /// How many levels are left.
    pub room: usize,
    pub inside: N,
}

impl<N: Inside> Grammar<N> {
    pub fn deeper(&self) -> usize
        ensures { result ≡ self.now.room - 1 }
    {
        self.room.saturating_sub(1)
    }

    /// An assignment expression on the level.
    pub fn value(&self, form: AssignForm, source: &mut Source<'_>) -> Result<Assign, Stop>
        requires { N.can_read_value self.now.inside self.now.room }
        ensures { Reads ((N.readers self.now.inside (self.now.room + 1)).assign form
            (input_from source.old)) result (input_from source.new) }
    {
        self.inside.value(self.alloc, form, self.room, source)
    }

    pub fn inner_assign(&self, form: AssignForm, source: &mut Source<'_>) -> Result<Assign, Stop>
        requires { N.can_read self.now.inside self.now.room }
        ensures { Reads ((N.readers self.now.inside self.now.room).assign form
            (input_from source.old)) result
            (input_from source.new) }
    {
        self.inside.assign(self.alloc, form, self.room, source)
    }

    pub fn inner_type_name(&self, source: &mut Source<'_>) -> Result<TypeName, Stop>
        requires { N.can_read self.now.inside self.now.room }
        ensures { Reads ((N.readers self.now.inside self.now.room).type_name
            (input_from source.old)) result
            (input_from source.new) }
    {
        self.inside.type_name(self.alloc, self.room, source)
    }

    pub fn inner_param(&self, source: &mut Source<'_>) -> Result<Param, Stop>
        requires { N.can_read self.now.inside self.now.room }
        ensures { Reads ((N.readers self.now.inside self.now.room).param
            (input_from source.old)) result
            (input_from source.new) }
    {
        self.inside.param(self.alloc, self.room, source)
    }

    pub fn inner_member(&self, source: &mut Source<'_>) -> Result<Declaration, Stop>
        requires { N.can_read self.now.inside self.now.room }
        ensures { Reads ((N.readers self.now.inside self.now.room).member
            (input_from source.old)) result
            (input_from source.new) }
    {
        self.inside.member(self.alloc, self.room, source)
    }

    pub fn inner_group<'t>(
        &self,
        naming: Naming,
        source: &mut Source<'t>,
    ) -> Result<Named<'t>, Stop>
        requires { N.can_read self.now.inside self.now.room }
        ensures { Reads ((N.readers self.now.inside self.now.room).group naming
            (input_from source.old)) result
            (input_from source.new) }
    {
        self.inside.group(self.alloc, naming, self.room, source)
    }

    pub fn inner_item(&self, source: &mut Source<'_>) -> Result<InitItem, Stop>
        requires { N.can_read self.now.inside self.now.room }
        ensures { Reads ((N.readers self.now.inside self.now.room).item
            (input_from source.old)) result
            (input_from source.new) }
    {
        self.inside.item(self.alloc, self.room, source)
    }
}
