//! What the type layer adds behind the unit layers of sources, printed.

use crate::printed_lines::print;
use crate::syntax_layers::source;
use crate::unit_runs::{empty_source, unit_graph};
use ast_layer::AstPass;
use c_tree::{Block, Declarator, Item, Specs, Unit, two_marks};
use graph_store::Graph;
use joern_io::List;
use pass_runner::run_pass_one;
use std::alloc::{AllocError, Global};
use std::test::Fail;
use type_layer::TypePass;

/// Two functions of two types, of which one is that of `<global>` too.
const TEXT: &[u8] = b"int f(void){}\nvoid g(void){}";

/// The lines of an empty file.
const NO_FUNCTION: &[u8] = b"\
node 0 METHOD NAME=<global> FILENAME=a.c LINE_NUMBER=1 ORDER=1\n\
node 1 BLOCK LINE_NUMBER=1 ORDER=1\n\
node 2 METHOD_RETURN LINE_NUMBER=1 ORDER=2 TYPE_FULL_NAME=void\n\
node 3 META_DATA NAME=C\n\
node 4 FILE NAME=a.c\n\
node 5 NAMESPACE_BLOCK NAME=<global> ORDER=1\n\
node 6 TYPE NAME=void\n\
edge 0 AST 1\n\
edge 0 AST 2\n\
edge 0 SOURCE_FILE 4\n\
edge 2 EVAL_TYPE 6\n\
edge 4 AST 5\n\
edge 4 CONTAINS 0\n\
edge 5 AST 0\n\
edge 5 SOURCE_FILE 4\n";

/// The lines of `TEXT`.
const TWO_FUNCTIONS: &[u8] = b"\
node 0 METHOD NAME=<global> FILENAME=a.c LINE_NUMBER=1 ORDER=1\n\
node 1 BLOCK LINE_NUMBER=1 ORDER=1\n\
node 2 METHOD NAME=f FILENAME=a.c LINE_NUMBER=1 ORDER=1\n\
node 3 BLOCK LINE_NUMBER=1 ORDER=1\n\
node 4 METHOD_RETURN LINE_NUMBER=1 ORDER=2 TYPE_FULL_NAME=int\n\
node 5 METHOD NAME=g FILENAME=a.c LINE_NUMBER=2 ORDER=2\n\
node 6 BLOCK LINE_NUMBER=2 ORDER=1\n\
node 7 METHOD_RETURN LINE_NUMBER=2 ORDER=2 TYPE_FULL_NAME=void\n\
node 8 METHOD_RETURN LINE_NUMBER=1 ORDER=2 TYPE_FULL_NAME=void\n\
node 9 META_DATA NAME=C\n\
node 10 FILE NAME=a.c\n\
node 11 NAMESPACE_BLOCK NAME=<global> ORDER=1\n\
node 12 TYPE NAME=int\n\
node 13 TYPE NAME=void\n\
edge 0 AST 1\n\
edge 0 AST 8\n\
edge 0 SOURCE_FILE 10\n\
edge 1 AST 2\n\
edge 1 AST 5\n\
edge 2 AST 3\n\
edge 2 AST 4\n\
edge 2 SOURCE_FILE 10\n\
edge 4 EVAL_TYPE 12\n\
edge 5 AST 6\n\
edge 5 AST 7\n\
edge 5 SOURCE_FILE 10\n\
edge 7 EVAL_TYPE 13\n\
edge 8 EVAL_TYPE 13\n\
edge 10 AST 11\n\
edge 10 CONTAINS 0\n\
edge 10 CONTAINS 2\n\
edge 10 CONTAINS 5\n\
edge 11 AST 0\n\
edge 11 SOURCE_FILE 10\n";

/// A function `TYPE NAME(void){}` of these tokens.
fn empty_function(alloc: Global, tokens: [u32; 7]) -> Result<Item, AllocError> {
    let [word, name, left, void, right, open, close] = tokens;
    Ok(Item::Define {
        specs: Specs::basic(alloc, word)?,
        declarator: Declarator::parameterless(alloc, name, left, void, right)?,
        body: Block {
            items: List::new(alloc),
            marks: two_marks(alloc, open, close)?,
        },
    })
}

/// The pass over `TEXT`.
fn two_functions(alloc: Global) -> Result<AstPass, Fail> {
    let first = empty_function(alloc, [0, 1, 2, 3, 4, 5, 6])?;
    let second = empty_function(alloc, [7, 8, 9, 10, 11, 12, 13])?;
    let unit = Unit {
        items: List::of(Vec::from_array(alloc, [first, second])?),
    };
    let only = source(alloc, "a.c", TEXT, unit)?;
    Ok(AstPass::new(Vec::from_array(alloc, [only])?))
}

/// The graph of the sources of a pass, with the unit layer and the type layer.
fn typed_graph(rt: &HostRuntime, sources: &AstPass) -> Result<Graph, Fail> {
    let units = unit_graph(rt, sources)?;
    let graph = run_pass_one(rt.alloc(), &TypePass, units)?;
    Ok(graph)
}

#[test]
fn types_stand_in_the_order_of_their_first_nodes(rt: HostRuntime) -> Result<(), Fail> {
    let alloc = rt.alloc();
    for (sources, lines) in [
        (empty_source(alloc)?, NO_FUNCTION),
        (two_functions(alloc)?, TWO_FUNCTIONS),
    ] {
        let graph = typed_graph(&rt, &sources)?;
        assert_eq!(rt; print(alloc, &graph)?.took(), lines);
    }
    Ok(())
}
