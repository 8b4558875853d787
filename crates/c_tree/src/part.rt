//! The parts of a tree that the walk puts aside: what stands in lists, and what leads back.

ghost use Rattle.std.specs.Prelude.{◌≡◌};
ghost use Rattle.c_tree.specs.Walk.{part_spelling, part_weight};

use crate::symbol::Symbol;
use crate::tree::{
    Arm, Assign, BlockItem, Declaration, Declarator, Designator, Enumerator, Expr, InitDeclarator,
    InitItem, Item, Mark, Param, Pointer, Post, Prefix, Prefixed, Spec, Stmt, Suffix,
};
use joern_io::Boxed;

/// A part of a tree that is still to be spelled.
#[derive(Clone, Copy)]
pub(crate) enum Part<'t> {
    Symbol(Symbol),
    Item(&'t Item),
    Declaration(&'t Declaration),
    InitDeclarator(&'t InitDeclarator),
    InitItem(&'t InitItem),
    Designator(&'t Designator),
    Spec(&'t Spec),
    Enumerator(&'t Enumerator),
    Declarator(&'t Declarator),
    Pointer(&'t Pointer),
    Suffix(&'t Suffix),
    Param(&'t Param),
    Assign(&'t Assign),
    /// What is assigned to, with its operator.
    Target(&'t (Prefixed, u32)),
    Arm(&'t Arm),
    /// A binary operator with its right operand.
    Operand(&'t (u32, Prefixed)),
    Prefix(&'t Prefix),
    Post(&'t Post),
    BlockItem(&'t BlockItem),
    Label(&'t Mark),
    Stmt(&'t Stmt),
    /// The conditions of an `if` after the first, its last part, and the marks that are left.
    OtherArms(&'t [(Expr, Stmt)], &'t Option<Boxed<Stmt>>, &'t [u32]),
}

/// What stands in the lists of a tree.
pub(crate) trait Listed {
    ghost use Rattle.std.specs.Prelude.{ℕ};
    ghost use Rattle.c_tree.specs.Spell.{Symbols};

    ghost spelling: { Self → Symbols };

    ghost weight: { Self → ℕ };

    /// It as a part of the tree.
    fn part(&self) -> Part<'_>
        ensures spells { part_spelling result ≡ spelling self.now }
        ensures weighs { part_weight result ≡ weight self.now };
}

impl Listed for Item {
    ghost use Rattle.c_tree.specs.Spell.{item_spelling};
    ghost use Rattle.c_tree.specs.Weights.{item_weight};

    ghost spelling = { item_spelling };

    ghost weight = { item_weight };

    fn part(&self) -> Part<'_> {
        Part::Item(self)
    }
}

impl Listed for Declaration {
    ghost use Rattle.c_tree.specs.Spell.{declaration_spelling};
    ghost use Rattle.c_tree.specs.Weights.{declaration_weight};

    ghost spelling = { declaration_spelling };

    ghost weight = { declaration_weight };

    fn part(&self) -> Part<'_> {
        Part::Declaration(self)
    }
}

impl Listed for InitDeclarator {
    ghost use Rattle.c_tree.specs.Spell.{init_declarator_spelling};
    ghost use Rattle.c_tree.specs.Weights.{init_declarator_weight};

    ghost spelling = { init_declarator_spelling };

    ghost weight = { init_declarator_weight };

    fn part(&self) -> Part<'_> {
        Part::InitDeclarator(self)
    }
}

impl Listed for InitItem {
    ghost use Rattle.c_tree.specs.Spell.{init_item_spelling};
    ghost use Rattle.c_tree.specs.Weights.{init_item_weight};

    ghost spelling = { init_item_spelling };

    ghost weight = { init_item_weight };

    fn part(&self) -> Part<'_> {
        Part::InitItem(self)
    }
}

impl Listed for Designator {
    ghost use Rattle.c_tree.specs.Spell.{designator_spelling};
    ghost use Rattle.c_tree.specs.Weights.{designator_weight};

    ghost spelling = { designator_spelling };

    ghost weight = { designator_weight };

    fn part(&self) -> Part<'_> {
        Part::Designator(self)
    }
}

impl Listed for Spec {
    ghost use Rattle.c_tree.specs.Spell.{spec_spelling};
    ghost use Rattle.c_tree.specs.Weights.{spec_weight};

    ghost spelling = { spec_spelling };

    ghost weight = { spec_weight };

    fn part(&self) -> Part<'_> {
        Part::Spec(self)
    }
}

impl Listed for Enumerator {
    ghost use Rattle.c_tree.specs.Spell.{enumerator_spelling};
    ghost use Rattle.c_tree.specs.Weights.{enumerator_weight};

    ghost spelling = { enumerator_spelling };

    ghost weight = { enumerator_weight };

    fn part(&self) -> Part<'_> {
        Part::Enumerator(self)
    }
}

impl Listed for Pointer {
    ghost use Rattle.c_tree.specs.Spell.{pointer_spelling};
    ghost use Rattle.c_tree.specs.Weights.{pointer_weight};

    ghost spelling = { pointer_spelling };

    ghost weight = { pointer_weight };

    fn part(&self) -> Part<'_> {
        Part::Pointer(self)
    }
}

impl Listed for Suffix {
    ghost use Rattle.c_tree.specs.Spell.{suffix_spelling};
    ghost use Rattle.c_tree.specs.Weights.{suffix_weight};

    ghost spelling = { suffix_spelling };

    ghost weight = { suffix_weight };

    fn part(&self) -> Part<'_> {
        Part::Suffix(self)
    }
}

impl Listed for Param {
    ghost use Rattle.c_tree.specs.Spell.{param_spelling};
    ghost use Rattle.c_tree.specs.Weights.{param_weight};

    ghost spelling = { param_spelling };

    ghost weight = { param_weight };

    fn part(&self) -> Part<'_> {
        Part::Param(self)
    }
}

impl Listed for Assign {
    ghost use Rattle.c_tree.specs.Spell.{assign_spelling};
    ghost use Rattle.c_tree.specs.Weights.{assign_weight};

    ghost spelling = { assign_spelling };

    ghost weight = { assign_weight };

    fn part(&self) -> Part<'_> {
        Part::Assign(self)
    }
}

impl Listed for (Prefixed, u32) {
    ghost use Rattle.c_tree.specs.Spell.{target_spelling};
    ghost use Rattle.c_tree.specs.Weights.{target_weight};

    ghost spelling = { target_spelling };

    ghost weight = { target_weight };

    fn part(&self) -> Part<'_> {
        Part::Target(self)
    }
}

impl Listed for Arm {
    ghost use Rattle.c_tree.specs.Spell.{arm_spelling};
    ghost use Rattle.c_tree.specs.Weights.{arm_weight};

    ghost spelling = { arm_spelling };

    ghost weight = { arm_weight };

    fn part(&self) -> Part<'_> {
        Part::Arm(self)
    }
}

impl Listed for (u32, Prefixed) {
    ghost use Rattle.c_tree.specs.Spell.{operand_spelling};
    ghost use Rattle.c_tree.specs.Weights.{operand_weight};

    ghost spelling = { operand_spelling };

    ghost weight = { operand_weight };

    fn part(&self) -> Part<'_> {
        Part::Operand(self)
    }
}

impl Listed for Prefix {
    ghost use Rattle.c_tree.specs.Spell.{prefix_spelling};
    ghost use Rattle.c_tree.specs.Weights.{prefix_weight};

    ghost spelling = { prefix_spelling };

    ghost weight = { prefix_weight };

    fn part(&self) -> Part<'_> {
        Part::Prefix(self)
    }
}

impl Listed for Post {
    ghost use Rattle.c_tree.specs.Spell.{post_spelling};
    ghost use Rattle.c_tree.specs.Weights.{post_weight};

    ghost spelling = { post_spelling };

    ghost weight = { post_weight };

    fn part(&self) -> Part<'_> {
        Part::Post(self)
    }
}

impl Listed for BlockItem {
    ghost use Rattle.c_tree.specs.Spell.{block_item_spelling};
    ghost use Rattle.c_tree.specs.Weights.{block_item_weight};

    ghost spelling = { block_item_spelling };

    ghost weight = { block_item_weight };

    fn part(&self) -> Part<'_> {
        Part::BlockItem(self)
    }
}

impl Listed for Mark {
    ghost use Rattle.c_tree.specs.Spell.{label_spelling};
    ghost use Rattle.c_tree.specs.Weights.{label_weight};

    ghost spelling = { label_spelling };

    ghost weight = { label_weight };

    fn part(&self) -> Part<'_> {
        Part::Label(self)
    }
}
