//! The forest of a function: its METHOD, whose children are the BLOCK of its body and its
//! METHOD_RETURN.

ghost use Rattle.std.specs.Prelude.{◌≡◌, ◌+◌, OnOk, IfOk};
ghost use Rattle.graph_forest.specs.Planting.{Plants};
ghost use Rattle.ast_layer.specs.Source.{file_of};
ghost use Rattle.c_tree.specs.declared.tree.StmtKind.{out-StmtKind};
ghost use Rattle.ast_layer.specs.Forests.{block_forest, children_forest, expressions, item_parts};
ghost use Rattle.ast_layer.specs.Forests.{function_forest, kind_parts, name_token, type_token};

use crate::source::Source;
use c_tree::{Assign, Block, BlockItem, Core, Declarator, Item, Spec, Specs, StmtKind};
use graph_forest::{Hang, Planter, Rank};
use std::alloc::AllocError;

/// The token of the name that a declarator declares.
fn name_of(declarator: &Declarator) -> Option<u32>
    ensures { result ≡ name_token declarator.now }
{
    match &declarator.core {
        Core::Name(token) => Some(*token),
        Core::Group(..) => None,
        Core::Empty => None,
    }
}

/// The token of a type specifier.
fn type_of(specs: &Specs) -> Option<u32>
    ensures { result ≡ type_token specs.now }
{
    match specs.words.items().first()? {
        Spec::Basic(token) => Some(*token),
        _ => None,
    }
}

/// The parts of the expression of a statement, if it is an expression statement.
fn parts_of_kind(kind: &StmtKind) -> &[Assign]
    ensures { result.now ≡ kind_parts (out-StmtKind kind.now) }
{
    match kind {
        StmtKind::Value(expr, _) => expr.parts.items(),
        _ => &[],
    }
}

/// The parts of the expression of a statement, if the item is one.
fn parts_of(item: &BlockItem) -> &[Assign]
    ensures { result.now ≡ item_parts item.now }
{
    match item {
        BlockItem::Declare(_) => &[],
        BlockItem::Do(stmt) => parts_of_kind(&stmt.kind),
    }
}

/// The ORDER of the next child. One that passes 32 bits is want of memory, as a node that does.
pub(crate) fn next_order(order: u32) -> Result<u32, AllocError>
    ensures { IfOk result (λ next. next ≡ order + 1) }
{
    order.checked_add(1).ok_or(AllocError)
}

impl Source {
    /// Plants a function.
    #[tactic(auto, using(graph_forest::proofs::Composing::plants_none))]
    pub(crate) fn plant_function(
        &self,
        planter: &mut Planter,
        item: &Item,
        order: u32,
    ) -> Result<(), AllocError>
        ensures { OnOk result (Plants planter.old planter.new
            (function_forest (file_of self.now) order item.now)) }
    {
        match item {
            Item::Define {
                specs,
                declarator,
                body,
            } => self.plant_define(planter, specs, declarator, body, order),
            Item::Declare(_) => Ok(()),
        }
    }

    /// Plants a function, by the parts of its definition.
    fn plant_define(
        &self,
        planter: &mut Planter,
        specs: &Specs,
        declarator: &Declarator,
        body: &Block,
        order: u32,
    ) -> Result<(), AllocError>
        ensures { OnOk result (Plants planter.old planter.new (function_forest (file_of self.now)
            order (Item.Define specs.now declarator.now body.now))) }
    {
        let name = name_of(declarator);
        planter.enter(Hang::Plain, &self.method(name, order))?;
        self.plant_block(planter, body)?;
        planter.leaf(Hang::Plain, &self.method_return(name, type_of(specs)))?;
        planter.leave();
        Ok(())
    }

    /// Plants the body of a function.
    fn plant_block(&self, planter: &mut Planter, body: &Block) -> Result<(), AllocError>
        ensures { OnOk result (Plants planter.old planter.new
            (block_forest (file_of self.now) body.now)) }
    {
        let brace = body.marks.items().first().copied();
        planter.enter(Hang::Plain, &self.block(brace))?;
        self.plant_statements(planter, body.items.items())?;
        planter.leave();
        Ok(())
    }

    /// Plants statements, the children of a BLOCK.
    fn plant_statements(&self, planter: &mut Planter, items: &[BlockItem]) -> Result<(), AllocError>
        ensures { OnOk result (Plants planter.old planter.new
            (children_forest (file_of self.now) 1 (expressions items.now))) }
    {
        let mut order = 0;
        for item in items {
            if let Some(part) = parts_of(item).first() {
                order = next_order(order)?;
                self.plant_assign(planter, part, Rank::child(order))?;
            }
        }
        Ok(())
    }
}
