//! The walk over a tree, over a stack of the parts that are left.
//!
//! A part is a node that stands in a list or leads back, or a symbol. Each step writes a symbol, or
//! opens a part: it puts its symbols and the parts in it on the stack.

ghost use Rattle.std.specs.Prelude.{◌≡◌, ◌+◌, ◌<◌, ◌++◌, OnOk, IfOk};
ghost use Rattle.c_tree.specs.Spell.{unit_spelling};
ghost use Rattle.c_tree.specs.Walk.{part_spelling, part_weight};

use crate::part::Part;
use crate::pending::Pending;
use crate::symbol::Symbol;
use crate::tree::Unit;
use std::alloc::{AllocError, Global};

/// The symbols that a tree spells, in the order of the source.
///
/// Each part of the tree is visited once, and nothing of it is copied.
#[tactic(auto, using(crate::proofs::Opening::opens_statement))]
pub fn spell(alloc: Global, unit: &Unit) -> Result<Vec<Symbol>, AllocError>
    ensures { IfOk result (λ symbols. symbols.items ≡ unit_spelling unit.now) }
{
    let mut symbols = Vec::new(alloc);
    let mut pending = Pending::new(alloc);
    pending.push_each(unit.items.items())?;
    while let Some(part) = pending.pop() {
        step(part, &mut pending, &mut symbols)?;
    }
    Ok(symbols)
}

/// Writes a symbol, or opens a part.
fn step<'t>(
    part: Part<'t>,
    pending: &mut Pending<'t>,
    symbols: &mut Vec<Symbol>,
) -> Result<(), AllocError>
    ensures spells { OnOk result (symbols.new.items ++ pending.new.0 ≡
        symbols.old.items ++ (part_spelling part.entry ++ pending.old.0)) }
    ensures falls { OnOk result (pending.new.1 < part_weight part.entry + pending.old.1) }
{
    match part {
        Part::Symbol(symbol) => {
            symbols.push(symbol)?;
            Ok(())
        }
        Part::Item(item) => pending.open_item(item),
        Part::Declaration(declaration) => pending.open_declaration(declaration),
        Part::InitDeclarator(declarator) => pending.open_init_declarator(declarator),
        Part::InitItem(item) => pending.open_init_item(item),
        Part::Designator(designator) => pending.open_designator(designator),
        Part::Spec(spec) => pending.open_spec(spec),
        Part::Enumerator(enumerator) => pending.open_enumerator(enumerator),
        Part::Declarator(declarator) => pending.open_declarator(declarator),
        Part::Pointer(pointer) => pending.open_pointer(pointer),
        Part::Suffix(suffix) => pending.open_suffix(suffix),
        Part::Param(param) => pending.open_param(param),
        Part::Assign(assign) => pending.open_assign(assign),
        Part::Target(target) => pending.open_target(target),
        Part::Arm(arm) => pending.open_arm(arm),
        Part::Operand(operand) => pending.open_operand(operand),
        Part::Prefix(prefix) => pending.open_prefix(prefix),
        Part::Post(post) => pending.open_post(post),
        Part::BlockItem(item) => pending.open_block_item(item),
        Part::Label(label) => pending.open_label(label),
        Part::Stmt(stmt) => pending.open_stmt(stmt),
        Part::OtherArms(arms, other, marks) => pending.open_other_arms(arms, other, marks),
    }
}
