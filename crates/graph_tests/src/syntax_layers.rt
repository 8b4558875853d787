//! Two sources, whose trees are built by hand, become one graph. It is compared with nodes and
//! edges that were written down from the rules.

ghost use Rattle.std.specs.Prelude.{◌<◌, ◌≤◌, length};
ghost use Rattle.c_lexer.specs.declared.source_text.TheConstants.{MAX_FILE_BYTES};

use ast_layer::{AstPass, Source};
use c_lexer::laws::law_within_the_text;
use c_lexer::{SourceText, lex};
use c_tree::{
    Assign, Block, BlockItem, Cond, Declarator, Expr, Item, Prefixed, Specs, Stmt, Unit,
    list_of_one, two_marks,
};
use cpg_schema::{Caps, EdgeKind, Key, Label};
use graph_delta::{Pass, apply};
use graph_store::Graph;
use joern_io::{Bytes, List};
use line_marks::laws::law_kept_positions;
use line_marks::{places_of, strip};
use std::alloc::{AllocError, Global};
use std::hash::RandomState;
use std::process::Abort;
use std::test::Fail;

/// The function stands in another file, and the token before it is not kept.
const TEXT: &[u8] = b"# 7 \"x.c\"\n__extension__ int f(void)\n{a=b+1;}";

/// The tree of `TEXT`, by the numbers of the kept tokens.
fn one_function(alloc: Global) -> Result<Unit, AllocError> {
    let rest = list_of_one(alloc, (9, Prefixed::literal(alloc, 10)?))?;
    let assign = Assign {
        targets: list_of_one(alloc, (Prefixed::name(alloc, 6), 7))?,
        value: Cond::unconditional(alloc, Prefixed::name(alloc, 8), rest),
    };
    let stmt = Stmt::expression(alloc, Expr::sole(alloc, assign)?, 11)?;
    let define = Item::Define {
        specs: Specs::basic(alloc, 0)?,
        declarator: Declarator::parameterless(alloc, 1, 2, 3, 4)?,
        body: Block {
            items: list_of_one(alloc, BlockItem::Do(stmt))?,
            marks: two_marks(alloc, 5, 12)?,
        },
    };
    Ok(Unit {
        items: list_of_one(alloc, define)?,
    })
}

/// The source of this name with these bytes, whose tree is the unit.
pub(crate) fn source(alloc: Global, name: &str, bytes: &[u8], unit: Unit) -> Result<Source, Fail>
    requires { length bytes.now ≤ MAX_FILE_BYTES }
{
    law_within_the_text();
    law_kept_positions();
    let text = SourceText { bytes };
    let tokens = lex(alloc, text)?;
    let kept = strip(alloc, &tokens)?;
    let places = places_of(alloc, text, &tokens, name)?;
    Ok(Source {
        name: Bytes::of(name.as_bytes().to_vec(alloc)?),
        bytes: Bytes::of(bytes.to_vec(alloc)?),
        tokens: List::of(tokens),
        kept: List::of(kept),
        places,
        unit,
    })
}

/// The empty graph with the parts of a pass, each applied in turn.
fn graph_of(rt: &HostRuntime, pass: &AstPass) -> Result<Graph, Fail> {
    let alloc = rt.alloc();
    let caps = Caps {
        nodes: 100,
        edges: 100,
    };
    let start = Graph::new(alloc, caps, RandomState::new(rt)?)?;
    let mut graph = start.copy()?;
    for part in 0..pass.parts(&start) {
        let delta = pass.delta(alloc, &start, &(), part)?;
        apply(&mut graph, &delta)?;
    }
    Ok(graph)
}

/// The first text that a node has of its name, its code and its type.
fn text_of(graph: &Graph, id: u32) -> &[u8]
    requires { id < length graph.now.nodes }
{
    for key in [Key::Name, Key::Code, Key::TypeFullName] {
        if let Some(text) = graph.text(id, key) {
            return text;
        }
    }
    b""
}

/// A node has this label, this text, this line, this order and this position among arguments.
type NodeRow = (Label, &'static [u8], u32, u32, Option<u32>);

/// An edge leads from a node to a node.
type EdgeRow = (u32, EdgeKind, u32);

fn assert_node(rt: &impl Abort, graph: &Graph, id: u32, want: NodeRow)
    requires { id < length graph.now.nodes }
{
    let (label, text, line, order, index) = want;
    assert_eq!(rt; graph.node(id), label, "node {id}");
    assert_eq!(rt; text_of(graph, id), text, "node {id}");
    assert_eq!(rt; graph.number(id, Key::LineNumber), Some(line), "node {id}");
    assert_eq!(rt; graph.number(id, Key::Order), Some(order), "node {id}");
    assert_eq!(rt; graph.number(id, Key::ArgumentIndex), index, "node {id}");
}

fn assert_nodes(rt: &impl Abort, graph: &Graph, wants: &[NodeRow]) {
    let mut id = 0;
    for want in wants {
        assert!(rt; id < graph.len(), "node {id}");
        assert_node(rt, graph, id, *want);
        id += 1;
    }
    assert_eq!(rt; id, graph.len());
}

fn assert_edges(rt: &impl Abort, graph: &Graph, wants: &[EdgeRow]) {
    let edges = graph.edges();
    assert_eq!(rt; edges.len(), wants.len());
    for (edge, want) in edges.iter().zip(wants) {
        assert_eq!(rt; (edge.from, edge.kind, edge.to), *want);
    }
}

fn assert_file(rt: &impl Abort, graph: &Graph, id: u32, want: &[u8]) {
    assert!(rt; id < graph.len(), "node {id}");
    assert_eq!(rt; graph.text(id, Key::Filename), Some(want), "node {id}");
}

const NODES: [NodeRow; 14] = [
    (Label::Method, b"<global>", 1, 1, None),
    (Label::Block, b"", 1, 1, None),
    (Label::MethodReturn, b"void", 1, 2, None),
    (Label::Method, b"<global>", 1, 1, None),
    (Label::Block, b"", 1, 1, None),
    (Label::Method, b"f", 7, 1, None),
    (Label::Block, b"", 8, 1, None),
    (Label::Call, b"<operator>.assignment", 8, 1, None),
    (Label::Identifier, b"a", 8, 1, Some(1)),
    (Label::Call, b"<operator>.addition", 8, 2, Some(2)),
    (Label::Identifier, b"b", 8, 1, Some(1)),
    (Label::Literal, b"1", 8, 2, Some(2)),
    (Label::MethodReturn, b"int", 7, 2, None),
    (Label::MethodReturn, b"void", 1, 2, None),
];

const EDGES: [EdgeRow; 16] = [
    (0, EdgeKind::Ast, 1),
    (0, EdgeKind::Ast, 2),
    (3, EdgeKind::Ast, 4),
    (4, EdgeKind::Ast, 5),
    (5, EdgeKind::Ast, 6),
    (6, EdgeKind::Ast, 7),
    (7, EdgeKind::Ast, 8),
    (7, EdgeKind::Argument, 8),
    (7, EdgeKind::Ast, 9),
    (7, EdgeKind::Argument, 9),
    (9, EdgeKind::Ast, 10),
    (9, EdgeKind::Argument, 10),
    (9, EdgeKind::Ast, 11),
    (9, EdgeKind::Argument, 11),
    (5, EdgeKind::Ast, 12),
    (3, EdgeKind::Ast, 13),
];

/// The pass over a source without functions, and that of `TEXT`.
pub(crate) fn two_sources(alloc: Global) -> Result<AstPass, Fail> {
    let nothing = Unit {
        items: List::new(alloc),
    };
    let first = source(alloc, "a.c", b"", nothing)?;
    let second = source(alloc, "b.c", TEXT, one_function(alloc)?)?;
    Ok(AstPass::new(Vec::from_array(alloc, [first, second])?))
}

#[test]
fn two_sources_become_one_graph(rt: HostRuntime) -> Result<(), Fail> {
    let pass = two_sources(rt.alloc())?;
    let graph = graph_of(&rt, &pass)?;
    assert_nodes(&rt, &graph, &NODES);
    assert_file(&rt, &graph, 0, b"a.c");
    assert_file(&rt, &graph, 3, b"b.c");
    assert_file(&rt, &graph, 5, b"x.c");
    assert_edges(&rt, &graph, &EDGES);
    Ok(())
}
