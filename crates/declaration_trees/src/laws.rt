//! What holds of all trees of declarations.

ghost use Rattle.declaration_trees.specs.SpecifiersAreTrees.{SpecifiersAreTrees};

/// What the rules of specifiers read are trees that say their tokens, whatever stands in brackets.
pub fn law_specifiers_are_trees()
    ensures { SpecifiersAreTrees }
{}
