//! The knot: the six parts that stand in brackets of one another (C11 6.5, 6.7).

ghost use Rattle.std.specs.Prelude.{◌≡◌};
ghost use Rattle.c_reading.specs.Reads.{Reads};
ghost use Rattle.c_syntax.specs.Scoping.{input_from};
ghost use Rattle.c_parts.specs.PartNames.{assigns, groups, items, members, params, type_names};
ghost use Rattle.c_parts.specs.PartReaders as spec;

use c_declarations::{item, member};
use c_declarators::{grouped, param, type_name};
use c_reading::Stop;
use c_specifiers::{Grammar, Inside, Named, Naming};
use c_syntax::{AssignForm, Inner, Source};
use c_tree::{Assign, Declaration, InitItem, Param, TypeName};
use std::alloc::Global;

/// Readers of the six, as values.
#[derive(Clone, Copy, Drop)]
pub(crate) struct Tied<A, T, P, M, G, I> {
    pub(crate) assign: A,
    pub(crate) type_name: T,
    pub(crate) param: P,
    pub(crate) member: M,
    pub(crate) group: G,
    pub(crate) item: I,
}

impl<A, T, P, M, G, I> Inner for Tied<A, T, P, M, G, I>
where
    A: Fn(Global, AssignForm, usize, &mut Source<'_>) -> Result<Assign, Stop>,
    T: Fn(Global, usize, &mut Source<'_>) -> Result<TypeName, Stop>,
    P: Fn(Global, usize, &mut Source<'_>) -> Result<Param, Stop>,
    M: Fn(Global, usize, &mut Source<'_>) -> Result<Declaration, Stop>,
    G: for<'t> Fn(Global, Naming, usize, &mut Source<'t>) -> Result<Named<'t>, Stop>,
    I: Fn(Global, usize, &mut Source<'_>) -> Result<InitItem, Stop>,
{
    ghost use Rattle.c_parts.specs.PartNames.{inner_readers_of};
    ghost use Rattle.c_parts.specs.PartReaders.{part};
    ghost use Rattle.c_parts.specs.Ties.{InnerTies};

    ghost readers = { λ it room. inner_readers_of (part room) };

    ghost can_read = { λ it room. InnerTies room (A.pre it.assign) (A.post it.assign)
        (T.pre it.type_name) (T.post it.type_name) (I.pre it.item) (I.post it.item) };

    fn assign(&self, alloc: Global, room: usize, source: &mut Source<'_>) -> Result<Assign, Stop> {
        (self.assign)(alloc, AssignForm::Whole, room, source)
    }

    fn type_name(
        &self,
        alloc: Global,
        room: usize,
        source: &mut Source<'_>,
    ) -> Result<TypeName, Stop> {
        (self.type_name)(alloc, room, source)
    }

    fn item(&self, alloc: Global, room: usize, source: &mut Source<'_>) -> Result<InitItem, Stop> {
        (self.item)(alloc, room, source)
    }
}

impl<A, T, P, M, G, I> Inside for Tied<A, T, P, M, G, I>
where
    A: Fn(Global, AssignForm, usize, &mut Source<'_>) -> Result<Assign, Stop>,
    T: Fn(Global, usize, &mut Source<'_>) -> Result<TypeName, Stop>,
    P: Fn(Global, usize, &mut Source<'_>) -> Result<Param, Stop>,
    M: Fn(Global, usize, &mut Source<'_>) -> Result<Declaration, Stop>,
    G: for<'t> Fn(Global, Naming, usize, &mut Source<'t>) -> Result<Named<'t>, Stop>,
    I: Fn(Global, usize, &mut Source<'_>) -> Result<InitItem, Stop>,
{
    ghost use Rattle.c_parts.specs.PartNames.{inside_readers_of};
    ghost use Rattle.c_parts.specs.PartReaders.{part};
    ghost use Rattle.c_parts.specs.Ties.{InsideTies, ValueTies};

    ghost readers = { λ it room. inside_readers_of (part room) };

    ghost can_read = { λ it room. InsideTies room (A.pre it.assign) (A.post it.assign)
        (T.pre it.type_name) (T.post it.type_name) (P.pre it.param) (P.post it.param)
        (M.pre it.member) (M.post it.member) (G.pre it.group) (G.post it.group)
        (I.pre it.item) (I.post it.item) };

    ghost can_read_value = { λ it room. ValueTies room (A.pre it.assign) (A.post it.assign) };

    fn assign(
        &self,
        alloc: Global,
        form: AssignForm,
        room: usize,
        source: &mut Source<'_>,
    ) -> Result<Assign, Stop> {
        (self.assign)(alloc, form, room, source)
    }

    fn value(
        &self,
        alloc: Global,
        form: AssignForm,
        room: usize,
        source: &mut Source<'_>,
    ) -> Result<Assign, Stop> {
        (self.assign)(alloc, form, room + 1, source)
    }

    fn type_name(
        &self,
        alloc: Global,
        room: usize,
        source: &mut Source<'_>,
    ) -> Result<TypeName, Stop> {
        (self.type_name)(alloc, room, source)
    }

    fn param(&self, alloc: Global, room: usize, source: &mut Source<'_>) -> Result<Param, Stop> {
        (self.param)(alloc, room, source)
    }

    fn member(
        &self,
        alloc: Global,
        room: usize,
        source: &mut Source<'_>,
    ) -> Result<Declaration, Stop> {
        (self.member)(alloc, room, source)
    }

    fn group<'t>(
        &self,
        alloc: Global,
        naming: Naming,
        room: usize,
        source: &mut Source<'t>,
    ) -> Result<Named<'t>, Stop> {
        (self.group)(alloc, naming, room, source)
    }

    fn item(&self, alloc: Global, room: usize, source: &mut Source<'_>) -> Result<InitItem, Stop> {
        (self.item)(alloc, room, source)
    }
}

/// An assignment expression of the form, where fewer levels are left than `room`.
#[cycle(knot)]
pub(crate) fn assign_in(
    alloc: Global,
    form: AssignForm,
    room: usize,
    source: &mut Source<'_>,
) -> Result<Assign, Stop>
    ensures { Reads (spec.part room (assigns form) (input_from source.old)) result
        (input_from source.new) }
{
    if room == 0 {
        return Err(source.refusal());
    }
    let inner = Tied {
        assign: assign_in,
        type_name: type_name_in,
        param: param_in,
        member: member_in,
        group: group_in,
        item: item_in,
    };
    let grammar = c_syntax::Grammar {
        alloc,
        room: room - 1,
        inner,
    };
    grammar.formed(form, source)
}

/// A type name, where fewer levels are left than `room`.
#[cycle(knot)]
pub(crate) fn type_name_in(
    alloc: Global,
    room: usize,
    source: &mut Source<'_>,
) -> Result<TypeName, Stop>
    ensures { Reads (spec.part room type_names (input_from source.old)) result
        (input_from source.new) }
{
    if room == 0 {
        return Err(source.refusal());
    }
    let inside = Tied {
        assign: assign_in,
        type_name: type_name_in,
        param: param_in,
        member: member_in,
        group: group_in,
        item: item_in,
    };
    let grammar = Grammar {
        alloc,
        room: room - 1,
        inside,
    };
    type_name(&grammar, source)
}

/// A parameter, whose name is declared, where fewer levels are left than `room`.
#[cycle(knot)]
pub(crate) fn param_in(alloc: Global, room: usize, source: &mut Source<'_>) -> Result<Param, Stop>
    ensures { Reads (spec.part room params (input_from source.old)) result
        (input_from source.new) }
{
    if room == 0 {
        return Err(source.refusal());
    }
    let inside = Tied {
        assign: assign_in,
        type_name: type_name_in,
        param: param_in,
        member: member_in,
        group: group_in,
        item: item_in,
    };
    let grammar = Grammar {
        alloc,
        room: room - 1,
        inside,
    };
    param(&grammar, source)
}

/// A declaration of members, where fewer levels are left than `room`.
#[cycle(knot)]
pub(crate) fn member_in(
    alloc: Global,
    room: usize,
    source: &mut Source<'_>,
) -> Result<Declaration, Stop>
    ensures { Reads (spec.part room members (input_from source.old)) result
        (input_from source.new) }
{
    if room == 0 {
        return Err(source.refusal());
    }
    let inside = Tied {
        assign: assign_in,
        type_name: type_name_in,
        param: param_in,
        member: member_in,
        group: group_in,
        item: item_in,
    };
    let grammar = Grammar {
        alloc,
        room: room - 1,
        inside,
    };
    member(&grammar, source)
}

/// A declarator in parentheses, where fewer levels are left than `room`.
#[cycle(knot)]
pub(crate) fn group_in<'t>(
    alloc: Global,
    naming: Naming,
    room: usize,
    source: &mut Source<'t>,
) -> Result<Named<'t>, Stop>
    ensures { Reads (spec.part room (groups naming) (input_from source.old)) result
        (input_from source.new) }
{
    if room == 0 {
        return Err(source.refusal());
    }
    let inside = Tied {
        assign: assign_in,
        type_name: type_name_in,
        param: param_in,
        member: member_in,
        group: group_in,
        item: item_in,
    };
    let grammar = Grammar {
        alloc,
        room: room - 1,
        inside,
    };
    grouped(&grammar, naming, source)
}

/// An item of an initialiser list, where fewer levels are left than `room`.
#[cycle(knot)]
pub(crate) fn item_in(alloc: Global, room: usize, source: &mut Source<'_>) -> Result<InitItem, Stop>
    ensures { Reads (spec.part room items (input_from source.old)) result
        (input_from source.new) }
{
    if room == 0 {
        return Err(source.refusal());
    }
    let inside = Tied {
        assign: assign_in,
        type_name: type_name_in,
        param: param_in,
        member: member_in,
        group: group_in,
        item: item_in,
    };
    let grammar = Grammar {
        alloc,
        room: room - 1,
        inside,
    };
    item(&grammar, source)
}
