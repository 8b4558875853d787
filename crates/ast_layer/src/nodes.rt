//! The nodes of the layer, with their properties. Their texts are borrowed from the source.

ghost use Rattle.std.specs.Prelude.{◌≡◌};
ghost use Rattle.graph_forest.specs.Nodes.{plain_node};
ghost use Rattle.ast_layer.specs.Source.{file_of};
ghost use Rattle.ast_layer.specs.Nodes.{block_node, call_node, global_block, global_method};
ghost use Rattle.ast_layer.specs.Nodes.{global_return, identifier_node, literal_node, method_node};
ghost use Rattle.ast_layer.specs.Nodes.{operand_node, return_node};

use crate::operator::name_of;
use crate::source::Source;
use c_tree::{BaseForm, Prefixed};
use cpg_schema::Label;
use graph_forest::{NewNode, Rank};

/// The longest type text, in bytes.
const TYPE_TEXT_LIMIT: usize = 200;

impl Source {
    /// The METHOD `<global>`.
    pub(crate) fn global_method(&self) -> NewNode<'_>
        ensures { plain_node result ≡ global_method (file_of self.now) }
    {
        NewNode {
            name: Some(b"<global>"),
            filename: Some(self.name.items()),
            line_number: Some(1),
            order: Some(1),
            ..NewNode::bare(Label::Method)
        }
    }

    /// The METHOD of a function with this name.
    pub(crate) fn method(&self, name: Option<u32>, order: u32) -> NewNode<'_>
        ensures { plain_node result ≡ method_node (file_of self.now) name order }
    {
        NewNode {
            name: Some(self.spelling(name)),
            filename: Some(self.filename(name)),
            line_number: Some(self.line(name)),
            order: Some(order),
            ..NewNode::bare(Label::Method)
        }
    }

    /// The BLOCK of a body whose `{` this is.
    pub(crate) fn block(&self, brace: Option<u32>) -> NewNode<'_>
        ensures { plain_node result ≡ block_node (file_of self.now) brace }
    {
        NewNode {
            line_number: Some(self.line(brace)),
            order: Some(1),
            ..NewNode::bare(Label::Block)
        }
    }

    /// The METHOD_RETURN of the function with this name and this type specifier.
    #[tactic(auto, using(std::proofs::lemmas::List::take_min))]
    pub(crate) fn method_return(&self, name: Option<u32>, specifier: Option<u32>) -> NewNode<'_>
        ensures { plain_node result ≡ return_node (file_of self.now) name specifier }
    {
        let text = self.spelling(specifier);
        NewNode {
            line_number: Some(self.line(name)),
            order: Some(2),
            type_full_name: Some(&text[..TYPE_TEXT_LIMIT.min(text.len())]),
            ..NewNode::bare(Label::MethodReturn)
        }
    }

    /// The CALL of an operator, whose construct begins with the first token.
    pub(crate) fn call(&self, operator: u32, first: Option<u32>, rank: Rank) -> NewNode<'_>
        ensures { plain_node result ≡ call_node (file_of self.now) operator first rank }
    {
        NewNode {
            name: name_of(self.token(Some(operator))),
            line_number: Some(self.line(first)),
            order: Some(rank.order),
            argument_index: rank.argument_index(),
            ..NewNode::bare(Label::Call)
        }
    }

    /// The IDENTIFIER or the LITERAL that an operand is.
    pub(crate) fn operand(&self, operand: &Prefixed, rank: Rank) -> NewNode<'_>
        ensures { plain_node result ≡ operand_node (file_of self.now) operand.now rank }
    {
        match &operand.base.form {
            BaseForm::Name(token) => self.identifier(*token, rank),
            BaseForm::Literal(tokens) => self.literal(tokens.items().first().copied(), rank),
            BaseForm::Group(_, marks) => self.literal(marks.items().first().copied(), rank),
            BaseForm::Compound(_, _, marks) => self.literal(marks.items().first().copied(), rank),
            BaseForm::SizeType(size, ..) => self.literal(Some(*size), rank),
        }
    }

    /// The IDENTIFIER of a name.
    fn identifier(&self, token: u32, rank: Rank) -> NewNode<'_>
        ensures { plain_node result ≡ identifier_node (file_of self.now) token rank }
    {
        NewNode {
            name: Some(self.spelling(Some(token))),
            line_number: Some(self.line(Some(token))),
            order: Some(rank.order),
            argument_index: rank.argument_index(),
            ..NewNode::bare(Label::Identifier)
        }
    }

    /// The LITERAL of a literal's first token.
    fn literal(&self, token: Option<u32>, rank: Rank) -> NewNode<'_>
        ensures { plain_node result ≡ literal_node (file_of self.now) token rank }
    {
        NewNode {
            code: Some(self.spelling(token)),
            line_number: Some(self.line(token)),
            order: Some(rank.order),
            argument_index: rank.argument_index(),
            ..NewNode::bare(Label::Literal)
        }
    }
}

/// The BLOCK of `<global>`.
pub(crate) fn global_block<'a>() -> NewNode<'a>
    ensures { plain_node result ≡ global_block }
{
    NewNode {
        line_number: Some(1),
        order: Some(1),
        ..NewNode::bare(Label::Block)
    }
}

/// The METHOD_RETURN of `<global>`.
pub(crate) fn global_return<'a>() -> NewNode<'a>
    ensures { plain_node result ≡ global_return }
{
    NewNode {
        line_number: Some(1),
        order: Some(2),
        type_full_name: Some(b"void"),
        ..NewNode::bare(Label::MethodReturn)
    }
}
