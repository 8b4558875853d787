//! Which labels an edge of each kind may join.

ghost use Rattle.std.specs.Prelude.{◌≡◌};
ghost use Rattle.cpg_schema.specs.declared.edge_kind.EdgeKind.TheVariants as edge_kind;
ghost use Rattle.cpg_schema.specs.Schema.{allows, body, expr, is_among, operand, step};

use crate::{EdgeKind, Label};

impl Label {
    fn is_expression(self) -> bool
        ensures { result ≡ is_among self expr }
    {
        matches!(self, Label::Call | Label::Identifier | Label::Literal)
    }

    fn is_body(self) -> bool
        ensures { result ≡ is_among self body }
    {
        match self {
            Label::Block | Label::ControlStructure | Label::JumpTarget | Label::Return => true,
            other => other.is_expression(),
        }
    }

    fn is_operand(self) -> bool
        ensures { result ≡ is_among self operand }
    {
        match self {
            Label::TypeRef | Label::FieldIdentifier => true,
            other => other.is_expression(),
        }
    }

    fn is_step(self) -> bool
        ensures { result ≡ is_among self step }
    {
        match self {
            Label::FieldIdentifier | Label::Return | Label::ControlStructure | Label::JumpTarget =>
                true,
            other => other.is_expression(),
        }
    }
}

/// Whether an AST edge may lead from a node of this label to one of that.
fn ast_allows(from: Label, to: Label) -> bool
    ensures { result ≡ allows edge_kind.Ast from to }
{
    match from {
        Label::File => matches!(to, Label::NamespaceBlock),
        Label::NamespaceBlock => matches!(to, Label::Method),
        Label::Method => matches!(
            to,
            Label::MethodParameterIn
                | Label::MethodParameterOut
                | Label::Block
                | Label::MethodReturn
        ),
        Label::MethodParameterIn | Label::TypeRef => matches!(to, Label::TypeDecl),
        Label::TypeDecl => matches!(to, Label::TypeDecl | Label::Member),
        Label::Block => match to {
            Label::Local | Label::Method | Label::MethodRef | Label::TypeDecl => true,
            other => other.is_body(),
        },
        Label::ControlStructure | Label::JumpTarget => to.is_body(),
        Label::Return => to.is_expression(),
        Label::Call => to.is_operand(),
        _ => false,
    }
}

/// Whether a CONTAINS edge may.
fn contains_allows(from: Label, to: Label) -> bool
    ensures { result ≡ allows edge_kind.Contains from to }
{
    match from {
        Label::File => matches!(to, Label::Method | Label::TypeDecl),
        Label::Method => matches!(to, Label::Call),
        _ => false,
    }
}

/// Whether an EVAL_TYPE edge may.
fn eval_type_allows(from: Label, to: Label) -> bool
    ensures { result ≡ allows edge_kind.EvalType from to }
{
    matches!(
        from,
        Label::Local
            | Label::MethodParameterIn
            | Label::MethodParameterOut
            | Label::MethodReturn
            | Label::Member
            | Label::TypeRef
            | Label::TypeDecl
    ) && matches!(to, Label::TypeNode)
}

/// Whether a REF edge may.
fn ref_allows(from: Label, to: Label) -> bool
    ensures { result ≡ allows edge_kind.Ref from to }
{
    match from {
        Label::Identifier => matches!(
            to,
            Label::Local
                | Label::MethodParameterIn
                | Label::Method
                | Label::MethodRef
                | Label::Member
        ),
        Label::Call => matches!(to, Label::Local | Label::MethodParameterIn | Label::Member),
        Label::MethodRef => matches!(to, Label::Method),
        _ => false,
    }
}

/// Whether a CFG edge may.
fn cfg_allows(from: Label, to: Label) -> bool
    ensures { result ≡ allows edge_kind.Cfg from to }
{
    (matches!(from, Label::Method) || from.is_step())
        && (matches!(to, Label::MethodReturn) || to.is_step())
}

/// Whether an edge of this kind may lead from a node of label `from` to one of label `to`.
pub fn allows(kind: EdgeKind, from: Label, to: Label) -> bool
    ensures { result ≡ allows kind from to }
{
    match kind {
        EdgeKind::Ast => ast_allows(from, to),
        EdgeKind::Condition => matches!(from, Label::ControlStructure) && to.is_expression(),
        EdgeKind::Argument => matches!(from, Label::Call) && to.is_operand(),
        EdgeKind::SourceFile => {
            matches!(
                from,
                Label::Method | Label::NamespaceBlock | Label::TypeDecl
            ) && matches!(to, Label::File)
        }
        EdgeKind::Contains => contains_allows(from, to),
        EdgeKind::ParameterLink => {
            matches!(from, Label::MethodParameterIn) && matches!(to, Label::MethodParameterOut)
        }
        EdgeKind::EvalType => eval_type_allows(from, to),
        EdgeKind::Ref => ref_allows(from, to),
        EdgeKind::Call => matches!(from, Label::Call) && matches!(to, Label::Method),
        EdgeKind::Cfg => cfg_allows(from, to),
        EdgeKind::ReachingDef => {
            matches!(from, Label::Identifier | Label::MethodParameterIn)
                && matches!(to, Label::Identifier | Label::MethodParameterOut)
        }
    }
}
