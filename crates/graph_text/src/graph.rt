//! The lines of a graph: its nodes, and then its edges.
ghost use Rattle.std.specs.Prelude.{◌≡◌, ◌<◌, Some, flat_map, length, map, slice_get};
ghost use Rattle.std.specs.Prelude.{codes, ◌++◌, OnOk, OnErr};
ghost use Rattle.joern_io.specs.Sinks.{Takes, TakesPrefix};
ghost use Rattle.cpg_schema.specs.Graph.{PlainNode};
ghost use Rattle.cpg_schema.specs.Lines.{graph_lines, node_line, node_lines};
ghost use Rattle.cpg_schema.specs.Lines.{edge_line, variable_text};
ghost use Rattle.cpg_schema.specs.Names.{kind_name, label_name};
ghost use Rattle.graph_store.specs.Stored.{plain, plain_edge};
ghost use Rattle.edge_index.specs.Indexed.{AreInOrder};
ghost use Rattle.graph_text.specs.Printing.{Prints};

use crate::printer::Printer;
use cpg_schema::{EdgeKind, Label};
use graph_store::{Edge, Graph};
use joern_io::{Failed, Sink};

/// Prints the lines of a graph, of which these are the edges in the order of printing. Takes no
/// memory.
///
/// `Failed` comes only where the sink counted a fault in this call. Then it took a proper prefix of
/// the lines.
pub fn dump<S: Sink>(graph: &Graph, edges: &[Edge], sink: &mut S) -> Result<(), Failed>
    requires order { AreInOrder (plain_edge graph.now.names) graph.now.edges edges.now }
    ensures ok { OnOk result
        (Takes (S.state sink.old) (S.state sink.new) (graph_lines (plain graph.now))) }
    ensures failed { OnErr result
        (TakesPrefix (S.state sink.old) (S.state sink.new) (graph_lines (plain graph.now))) }
{
    let mut printer = Printer::new();
    printer.nodes(sink, graph);
    printer.edges(sink, graph, edges);
    printer.finish(sink)
}

impl Printer {
    /// Prints the lines of all nodes.
    fn nodes<S: Sink>(&mut self, sink: &mut S, graph: &Graph)
        ensures { Prints (S.state sink.old, self.old) (S.state sink.new, self.new)
            (node_lines 0 graph.now.nodes) }
    {
        for id in 0..graph.len() {
            self.node(sink, graph, id);
        }
    }

    /// Prints the lines of these edges.
    fn edges<S: Sink>(&mut self, sink: &mut S, graph: &Graph, edges: &[Edge])
        ensures { Prints (S.state sink.old, self.old) (S.state sink.new, self.new)
            (flat_map edge_line (map (plain_edge graph.now.names) edges.now)) }
    {
        for edge in edges {
            self.edge(sink, graph, edge);
        }
    }

    /// Prints the line of a node.
    fn node<S: Sink>(&mut self, sink: &mut S, graph: &Graph, id: u32)
        requires inside { id < length graph.now.nodes }
        ensures { (node : PlainNode) → slice_get graph.now.nodes id ≡ Some node →
            Prints (S.state sink.old, self.old) (S.state sink.new, self.new) (node_line id node) }
    {
        self.numbered(sink, b"node ", id);
        self.label(sink, graph.node(id));
        self.properties(sink, graph, id);
        self.text(sink, b"\n");
    }

    /// Prints ` LABEL`, of the labels that are frequent in one piece.
    #[inline(always)]
    fn label<S: Sink>(&mut self, sink: &mut S, label: Label)
        ensures { Prints (S.state sink.old, self.old) (S.state sink.new, self.new)
            (codes " " ++ label_name label) }
    {
        match label {
            Label::Call => self.text(sink, b" CALL"),
            Label::Identifier => self.text(sink, b" IDENTIFIER"),
            Label::Literal => self.text(sink, b" LITERAL"),
            _ => {
                self.text(sink, b" ");
                self.verbatim(sink, label.name());
            }
        }
    }

    /// Prints the line of an edge.
    fn edge<S: Sink>(&mut self, sink: &mut S, graph: &Graph, edge: &Edge)
        ensures { Prints (S.state sink.old, self.old) (S.state sink.new, self.new)
            (edge_line (plain_edge graph.now.names edge.now)) }
    {
        match edge.kind {
            EdgeKind::Ast => self.numbers(sink, b"edge ", edge.from, b" AST ", edge.to, b"\n"),
            EdgeKind::Argument => {
                self.numbers(sink, b"edge ", edge.from, b" ARGUMENT ", edge.to, b"\n");
            }
            _ => self.edge_in_parts(sink, graph, edge),
        }
    }

    /// Prints the line of an edge of any kind.
    fn edge_in_parts<S: Sink>(&mut self, sink: &mut S, graph: &Graph, edge: &Edge)
        ensures { Prints (S.state sink.old, self.old) (S.state sink.new, self.new)
            (edge_line (plain_edge graph.now.names edge.now)) }
    {
        self.text(sink, b"edge ");
        self.number(sink, edge.from);
        self.kind(sink, edge.kind);
        self.number(sink, edge.to);
        self.variable(sink, edge.kind, graph.variable_name(edge.variable));
        self.text(sink, b"\n");
    }

    /// Prints ` KIND `.
    fn kind<S: Sink>(&mut self, sink: &mut S, kind: EdgeKind)
        ensures { Prints (S.state sink.old, self.old) (S.state sink.new, self.new)
            (codes " " ++ kind_name kind ++ codes " ") }
    {
        self.text(sink, b" ");
        self.verbatim(sink, kind.name());
        self.text(sink, b" ");
    }

    /// Prints the variable of an edge, if it is one that has a variable.
    fn variable<S: Sink>(&mut self, sink: &mut S, kind: EdgeKind, variable: &[u8])
        ensures { Prints (S.state sink.old, self.old) (S.state sink.new, self.new)
            (variable_text kind variable.now) }
    {
        match kind {
            EdgeKind::ReachingDef => {
                self.text(sink, b" VARIABLE=");
                self.value(sink, variable);
            }
            _ => {}
        }
    }
}
