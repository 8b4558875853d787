//! The rows of nodes.

ghost use Rattle.std.specs.Prelude.{◌≡◌, ◌<◌, [], Some, None, false, length, slice_get};
ghost use Rattle.std.specs.Prelude.{slice_index_or};
ghost use Rattle.cpg_schema.specs.Graph.{bare_node};
ghost use Rattle.cpg_schema.specs.Properties.{text_of, number_of, with_text, with_number};
ghost use Rattle.graph_store.specs.Rows.{plain_node, row_text, row_with_text, row_with_number};
ghost use Rattle.graph_store.specs.Rows.{renumbered};

use crate::names::NO_NAME;
use cpg_schema::{Key, Label};

/// A node as it is kept. Its texts are numbers of names, and `NO_NAME` where there is none.
#[derive(Clone, Copy)]
pub(crate) struct NodeRow {
    pub(crate) label: Label,
    pub(crate) has_line_number: bool,
    pub(crate) has_order: bool,
    pub(crate) has_argument_index: bool,
    pub(crate) line_number: u32,
    pub(crate) order: u32,
    pub(crate) argument_index: u32,
    pub(crate) name: u32,
    pub(crate) code: u32,
    pub(crate) filename: u32,
    pub(crate) type_full_name: u32,
    pub(crate) control_structure_type: u32,
    pub(crate) linkage: u32,
}

impl NodeRow {
    /// A node without properties.
    #[inline(always)]
    pub(crate) fn bare(label: Label) -> NodeRow
        ensures { result ≡ record {
          label = label;
          has_line_number = false;
          has_order = false;
          has_argument_index = false;
          line_number = 0;
          order = 0;
          argument_index = 0;
          name = NO_NAME;
          code = NO_NAME;
          filename = NO_NAME;
          type_full_name = NO_NAME;
          control_structure_type = NO_NAME;
          linkage = NO_NAME;
        } }
    {
        NodeRow {
            label,
            has_line_number: false,
            has_order: false,
            has_argument_index: false,
            line_number: 0,
            order: 0,
            argument_index: 0,
            name: NO_NAME,
            code: NO_NAME,
            filename: NO_NAME,
            type_full_name: NO_NAME,
            control_structure_type: NO_NAME,
            linkage: NO_NAME,
        }
    }

    /// The number of the text that the node has of this key.
    #[inline(always)]
    pub(crate) fn text(&self, key: Key) -> u32
        ensures { result ≡ row_text key self.now }
    {
        match key {
            Key::Name => self.name,
            Key::Code => self.code,
            Key::Filename => self.filename,
            Key::TypeFullName => self.type_full_name,
            Key::ControlStructureType => self.control_structure_type,
            Key::Linkage => self.linkage,
            Key::LineNumber | Key::Order | Key::ArgumentIndex => NO_NAME,
        }
    }

    /// Sets the text of this key, which is that of a text.
    #[inline(always)]
    pub(crate) fn set_text(&mut self, key: Key, number: u32)
        ensures { self.new ≡ row_with_text key number self.old }
    {
        match key {
            Key::Name => self.name = number,
            Key::Code => self.code = number,
            Key::Filename => self.filename = number,
            Key::TypeFullName => self.type_full_name = number,
            Key::ControlStructureType => self.control_structure_type = number,
            Key::Linkage => self.linkage = number,
            Key::LineNumber | Key::Order | Key::ArgumentIndex => {}
        }
    }

    /// The number that the node has of this key.
    #[inline(always)]
    pub(crate) fn number(&self, key: Key) -> Option<u32>
        ensures { (result ≡ number_of key (plain_node [] self.now)) }
    {
        match key {
            Key::LineNumber if self.has_line_number => Some(self.line_number),
            Key::Order if self.has_order => Some(self.order),
            Key::ArgumentIndex if self.has_argument_index => Some(self.argument_index),
            _ => None,
        }
    }

    /// Sets the number of this key, which is that of a number.
    #[inline(always)]
    pub(crate) fn set_number(&mut self, key: Key, value: u32)
        ensures { self.new ≡ row_with_number key value self.old }
    {
        match key {
            Key::LineNumber => {
                self.has_line_number = true;
                self.line_number = value;
            }
            Key::Order => {
                self.has_order = true;
                self.order = value;
            }
            Key::ArgumentIndex => {
                self.has_argument_index = true;
                self.argument_index = value;
            }
            _ => {}
        }
    }

    /// The node with other numbers for its texts.
    pub(crate) fn renumbered(self, numbers: &[u32]) -> NodeRow
        ensures { result ≡ renumbered numbers.now self }
    {
        NodeRow {
            name: renumber(numbers, self.name),
            code: renumber(numbers, self.code),
            filename: renumber(numbers, self.filename),
            type_full_name: renumber(numbers, self.type_full_name),
            control_structure_type: renumber(numbers, self.control_structure_type),
            linkage: renumber(numbers, self.linkage),
            ..self
        }
    }
}

/// The number that stands for another.
#[inline(always)]
pub(crate) fn renumber(numbers: &[u32], number: u32) -> u32
    ensures { result ≡ slice_index_or numbers.now number NO_NAME }
{
    match numbers.get(number as usize) {
        Some(other) => *other,
        None => NO_NAME,
    }
}
