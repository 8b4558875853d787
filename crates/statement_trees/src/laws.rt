//! What holds of all trees of statements.

ghost use Rattle.statement_trees.specs.StatementsAreTrees.{StatementsAreTrees};

/// What the rules of statements and blocks read are the trees that the tokens spell, and each such
/// tree is read, whatever expressions and declarations are.
pub fn law_statements_are_trees()
    ensures { StatementsAreTrees }
{}
