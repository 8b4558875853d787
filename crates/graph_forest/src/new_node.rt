//! Nodes that are to be planted.

ghost use Rattle.std.specs.Prelude.{◌≡◌};
ghost use Rattle.cpg_schema.specs.Graph.{bare_node};
ghost use Rattle.graph_forest.specs.Nodes.{plain_node};

use cpg_schema::Label;

/// A node with its properties, which is to be planted. The texts are borrowed.
#[derive(Clone, Copy, Debug)]
pub struct NewNode<'a> {
    pub label: Label,
    pub name: Option<&'a [u8]>,
    pub code: Option<&'a [u8]>,
    pub filename: Option<&'a [u8]>,
    pub line_number: Option<u32>,
    pub order: Option<u32>,
    pub argument_index: Option<u32>,
    pub type_full_name: Option<&'a [u8]>,
    pub control_structure_type: Option<&'a [u8]>,
    pub linkage: Option<&'a [u8]>,
}

impl<'a> NewNode<'a> {
    /// A node without properties.
    pub fn bare(label: Label) -> NewNode<'a>
        ensures { plain_node result ≡ bare_node label }
    {
        NewNode {
            label,
            name: None,
            code: None,
            filename: None,
            line_number: None,
            order: None,
            argument_index: None,
            type_full_name: None,
            control_structure_type: None,
            linkage: None,
        }
    }
}
