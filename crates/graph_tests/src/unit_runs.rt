//! What the unit layer adds to the syntax layers of sources, printed.

ghost use Rattle.std.specs.Prelude.{IfOk};
ghost use Rattle.cpg_schema.specs.Shape.{IsShaped};
ghost use Rattle.graph_store.specs.Stored.{plain};

use crate::printed_lines::print;
use crate::syntax_layers::{source, two_sources};
use ast_layer::AstPass;
use c_tree::Unit;
use cpg_schema::Caps;
use graph_store::Graph;
use graph_store::laws::law_stored;
use joern_io::List;
use pass_runner::run_pass_one;
use std::alloc::Global;
use std::hash::RandomState;
use std::test::Fail;
use unit_layers::UnitPass;

/// The lines of an empty file.
const ONE_FILE: &[u8] = b"\
node 0 METHOD NAME=<global> FILENAME=a.c LINE_NUMBER=1 ORDER=1\n\
node 1 BLOCK LINE_NUMBER=1 ORDER=1\n\
node 2 METHOD_RETURN LINE_NUMBER=1 ORDER=2 TYPE_FULL_NAME=void\n\
node 3 META_DATA NAME=C\n\
node 4 FILE NAME=a.c\n\
node 5 NAMESPACE_BLOCK NAME=<global> ORDER=1\n\
edge 0 AST 1\n\
edge 0 AST 2\n\
edge 0 SOURCE_FILE 4\n\
edge 4 AST 5\n\
edge 4 CONTAINS 0\n\
edge 5 AST 0\n\
edge 5 SOURCE_FILE 4\n";

/// The lines of an empty file and of one with a function, whose name stands in a third.
const TWO_FILES: &[u8] = b"\
node 0 METHOD NAME=<global> FILENAME=a.c LINE_NUMBER=1 ORDER=1\n\
node 1 BLOCK LINE_NUMBER=1 ORDER=1\n\
node 2 METHOD_RETURN LINE_NUMBER=1 ORDER=2 TYPE_FULL_NAME=void\n\
node 3 METHOD NAME=<global> FILENAME=b.c LINE_NUMBER=1 ORDER=1\n\
node 4 BLOCK LINE_NUMBER=1 ORDER=1\n\
node 5 METHOD NAME=f FILENAME=x.c LINE_NUMBER=7 ORDER=1\n\
node 6 BLOCK LINE_NUMBER=8 ORDER=1\n\
node 7 CALL NAME=<operator>.assignment LINE_NUMBER=8 ORDER=1\n\
node 8 IDENTIFIER NAME=a LINE_NUMBER=8 ORDER=1 ARGUMENT_INDEX=1\n\
node 9 CALL NAME=<operator>.addition LINE_NUMBER=8 ORDER=2 ARGUMENT_INDEX=2\n\
node 10 IDENTIFIER NAME=b LINE_NUMBER=8 ORDER=1 ARGUMENT_INDEX=1\n\
node 11 LITERAL CODE=1 LINE_NUMBER=8 ORDER=2 ARGUMENT_INDEX=2\n\
node 12 METHOD_RETURN LINE_NUMBER=7 ORDER=2 TYPE_FULL_NAME=int\n\
node 13 METHOD_RETURN LINE_NUMBER=1 ORDER=2 TYPE_FULL_NAME=void\n\
node 14 META_DATA NAME=C\n\
node 15 FILE NAME=a.c\n\
node 16 NAMESPACE_BLOCK NAME=<global> ORDER=1\n\
node 17 FILE NAME=b.c\n\
node 18 NAMESPACE_BLOCK NAME=<global> ORDER=1\n\
edge 0 AST 1\n\
edge 0 AST 2\n\
edge 0 SOURCE_FILE 15\n\
edge 3 AST 4\n\
edge 3 AST 13\n\
edge 3 SOURCE_FILE 17\n\
edge 4 AST 5\n\
edge 5 AST 6\n\
edge 5 AST 12\n\
edge 5 SOURCE_FILE 17\n\
edge 5 CONTAINS 7\n\
edge 5 CONTAINS 9\n\
edge 6 AST 7\n\
edge 7 AST 8\n\
edge 7 AST 9\n\
edge 7 ARGUMENT 8\n\
edge 7 ARGUMENT 9\n\
edge 9 AST 10\n\
edge 9 AST 11\n\
edge 9 ARGUMENT 10\n\
edge 9 ARGUMENT 11\n\
edge 15 AST 16\n\
edge 15 CONTAINS 0\n\
edge 16 AST 0\n\
edge 16 SOURCE_FILE 15\n\
edge 17 AST 18\n\
edge 17 CONTAINS 3\n\
edge 17 CONTAINS 5\n\
edge 18 AST 3\n\
edge 18 SOURCE_FILE 17\n";

/// The pass over an empty file.
pub(crate) fn empty_source(alloc: Global) -> Result<AstPass, Fail> {
    let nothing = Unit {
        items: List::new(alloc),
    };
    let only = source(alloc, "a.c", b"", nothing)?;
    Ok(AstPass::new(Vec::from_array(alloc, [only])?))
}

/// The graph of the sources of a pass, with the unit layer.
pub(crate) fn unit_graph(rt: &HostRuntime, sources: &AstPass) -> Result<Graph, Fail>
    ensures { IfOk result (λ graph. IsShaped (plain graph)) }
{
    let caps = Caps {
        nodes: 100,
        edges: 100,
    };
    let empty = Graph::new(rt.alloc(), caps, RandomState::new(rt)?)?;
    law_stored(&empty);
    let syntax = run_pass_one(rt.alloc(), sources, empty)?;
    law_stored(&syntax);
    let graph = run_pass_one(rt.alloc(), &UnitPass, syntax)?;
    Ok(graph)
}

#[test]
fn each_file_gains_what_stands_for_it(rt: HostRuntime) -> Result<(), Fail> {
    let alloc = rt.alloc();
    for (sources, lines) in [
        (empty_source(alloc)?, ONE_FILE),
        (two_sources(alloc)?, TWO_FILES),
    ] {
        let graph = unit_graph(&rt, &sources)?;
        assert_eq!(rt; print(alloc, &graph)?.took(), lines);
    }
    Ok(())
}
