//! What holds of all trees of expressions.

ghost use Rattle.expression_trees.specs.ExpressionsAreTrees.{ExpressionsAreTrees};

/// What the rules of expressions read are the trees that the tokens spell, and each such tree is
/// read, whatever stands in brackets.
pub fn law_expressions_are_trees()
    ensures { ExpressionsAreTrees }
{}
