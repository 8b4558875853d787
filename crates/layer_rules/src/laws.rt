//! Laws of the forest of a file.

ghost use Rattle.cpg_schema.specs.Fitting.{Fits};
ghost use Rattle.cpg_schema.specs.Graph.{PlainGraph};
ghost use Rattle.c_tree.specs.declared.tree.Unit.{Unit};
ghost use Rattle.graph_forest.specs.Forest.{IsAllowed, planted};
ghost use Rattle.layer_rules.specs.Files.{File};
ghost use Rattle.layer_rules.specs.FilesOfTrees.{file_forest};

/// The schema allows the forest of each file, and the delta that adds it fits every graph.
pub fn law_files()
    ensures allowed { (file : File) (unit : Unit) → IsAllowed (file_forest file unit) }
    ensures fits { (file : File) (unit : Unit) (graph : PlainGraph) →
        Fits graph (planted (file_forest file unit)) }
{}
