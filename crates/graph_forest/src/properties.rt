//! A node is added to a delta with its properties.

ghost use Rattle.std.specs.Prelude.{◌≡◌, ◌<◌, ◌≤◌, ◌∷◌, ◌++◌, [], IsTrue, not, length, OnOk, IfOk};
ghost use Rattle.std.specs.Option.{option_copied};
ghost use Rattle.cpg_schema.specs.Properties.{is_number_key};
ghost use Rattle.graph_forest.specs.Nodes.{plain_node, text_at, number_at};

use crate::new_node::NewNode;
use cpg_schema::{End, Key};
use graph_delta::Delta;
use std::alloc::AllocError;

/// Adds a node with its properties. Returns its position among the new nodes.
pub(crate) fn add_node(delta: &mut Delta, node: &NewNode<'_>) -> Result<u64, AllocError>
    ensures ok { OnOk result (delta.new ≡
        record delta.old { nodes = delta.old.nodes ++ plain_node node.now ∷ [] }) }
    ensures position { IfOk result (λ position. position ≡ length delta.old.nodes) }
    ensures count { length delta.old.nodes ≤ length delta.new.nodes }
{
    let position = delta.node(node.label)?;
    add_text(delta, position, Key::Name, node.name)?;
    add_text(delta, position, Key::Code, node.code)?;
    add_text(delta, position, Key::Filename, node.filename)?;
    add_number(delta, position, Key::LineNumber, node.line_number)?;
    add_number(delta, position, Key::Order, node.order)?;
    add_number(delta, position, Key::ArgumentIndex, node.argument_index)?;
    add_text(delta, position, Key::TypeFullName, node.type_full_name)?;
    add_text(
        delta,
        position,
        Key::ControlStructureType,
        node.control_structure_type,
    )?;
    add_text(delta, position, Key::Linkage, node.linkage)?;
    Ok(position)
}

/// Sets a text, if there is one, at a new node.
#[inline(always)]
fn add_text(
    delta: &mut Delta,
    position: u64,
    key: Key,
    value: Option<&[u8]>,
) -> Result<(), AllocError>
    requires inside { position < length delta.old.nodes }
    requires form { IsTrue (not (is_number_key key)) }
    ensures ok { OnOk result (delta.new ≡
        text_at position key (option_copied value.entry) delta.old) }
    ensures count { length delta.new.nodes ≡ length delta.old.nodes }
{
    match value {
        Some(value) => delta.set_text(End::New(position), key, value),
        None => Ok(()),
    }
}

/// Sets a number likewise.
#[inline(always)]
fn add_number(
    delta: &mut Delta,
    position: u64,
    key: Key,
    value: Option<u32>,
) -> Result<(), AllocError>
    requires inside { position < length delta.old.nodes }
    requires form { IsTrue (is_number_key key) }
    ensures ok { OnOk result (delta.new ≡ number_at position key value delta.old) }
    ensures count { length delta.new.nodes ≡ length delta.old.nodes }
{
    match value {
        Some(value) => delta.set_number(End::New(position), key, value),
        None => Ok(()),
    }
}
