//! The properties of a node.
ghost use Rattle.std.specs.Prelude.{◌≡◌, ◌<◌, Some, length, option_and_then, slice_get};
ghost use Rattle.cpg_schema.specs.Graph.{PlainNode};
ghost use Rattle.cpg_schema.specs.Properties.{text_of, number_of};
ghost use Rattle.cpg_schema.specs.Lines.{key_text, text_property, number_property, properties_text};
ghost use Rattle.graph_text.specs.Printing.{Prints};

use crate::printer::Printer;
use cpg_schema::Key;
use graph_store::Graph;
use joern_io::Sink;

impl Printer {
    /// Prints the properties of a node, in the order of the keys.
    pub(crate) fn properties<S: Sink>(&mut self, sink: &mut S, graph: &Graph, id: u32)
        requires inside { id < length graph.now.nodes }
        ensures { (node : PlainNode) → slice_get graph.now.nodes id ≡ Some node →
            Prints (S.state sink.old, self.old) (S.state sink.new, self.new)
            (properties_text node) }
    {
        self.text_property(sink, graph, id, Key::Name);
        self.text_property(sink, graph, id, Key::Code);
        self.text_property(sink, graph, id, Key::Filename);
        self.number_property(sink, graph, id, Key::LineNumber);
        self.number_property(sink, graph, id, Key::Order);
        self.number_property(sink, graph, id, Key::ArgumentIndex);
        self.text_property(sink, graph, id, Key::TypeFullName);
        self.text_property(sink, graph, id, Key::ControlStructureType);
        self.text_property(sink, graph, id, Key::Linkage);
    }

    /// Prints the text that a node has of this key, if it has one.
    #[inline(always)]
    fn text_property<S: Sink>(&mut self, sink: &mut S, graph: &Graph, id: u32, key: Key)
        requires inside { id < length graph.now.nodes }
        ensures { Prints (S.state sink.old, self.old) (S.state sink.new, self.new)
            (text_property key (option_and_then (text_of key) (slice_get graph.now.nodes id))) }
    {
        if let Some(bytes) = graph.text(id, key) {
            self.valued(sink, text_of(key).as_bytes(), bytes);
        }
    }

    /// Prints the number that a node has of this key, if it has one.
    #[inline(always)]
    fn number_property<S: Sink>(&mut self, sink: &mut S, graph: &Graph, id: u32, key: Key)
        requires inside { id < length graph.now.nodes }
        ensures { Prints (S.state sink.old, self.old) (S.state sink.new, self.new)
            (number_property key (option_and_then (number_of key) (slice_get graph.now.nodes id))) }
    {
        if let Some(n) = graph.number(id, key) {
            self.numbered(sink, text_of(key).as_bytes(), n);
        }
    }
}

/// ` KEY=`, in one piece: a line has four of them.
#[inline(always)]
fn text_of(key: Key) -> &'static str
    ensures { result.now ≡ key_text key }
{
    match key {
        Key::Name => " NAME=",
        Key::Code => " CODE=",
        Key::Filename => " FILENAME=",
        Key::LineNumber => " LINE_NUMBER=",
        Key::Order => " ORDER=",
        Key::ArgumentIndex => " ARGUMENT_INDEX=",
        Key::TypeFullName => " TYPE_FULL_NAME=",
        Key::ControlStructureType => " CONTROL_STRUCTURE_TYPE=",
        Key::Linkage => " LINKAGE=",
    }
}
