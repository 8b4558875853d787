//! The forest of an expression: a CALL, whose children are its arguments.

ghost use Rattle.std.specs.Prelude.{◌≡◌, OnOk};
ghost use Rattle.graph_forest.specs.Forest.{leaf};
ghost use Rattle.graph_forest.specs.Planting.{Plants};
ghost use Rattle.ast_layer.specs.Source.{file_of};
ghost use Rattle.ast_layer.specs.Grouping.{grouped_assign, grouped_binary, operand_token};
ghost use Rattle.ast_layer.specs.Nodes.{operand_node};
ghost use Rattle.ast_layer.specs.Forests.{grouped_forest};

use crate::source::Source;
use c_tree::{Assign, BaseForm, Binary, Prefixed};
use graph_forest::{Planter, Rank};
use std::alloc::AllocError;

/// The first token of an operand.
fn token_of(operand: &Prefixed) -> Option<u32>
    ensures { result ≡ operand_token operand.now }
{
    match &operand.base.form {
        BaseForm::Name(token) => Some(*token),
        BaseForm::Literal(tokens) => tokens.items().first().copied(),
        BaseForm::Group(_, marks) => marks.items().first().copied(),
        BaseForm::Compound(_, _, marks) => marks.items().first().copied(),
        BaseForm::SizeType(size, ..) => Some(*size),
    }
}

impl Source {
    /// Plants an assignment expression: assignments are grouped to the right.
    pub(crate) fn plant_assign(
        &self,
        planter: &mut Planter,
        assign: &Assign,
        rank: Rank,
    ) -> Result<(), AllocError>
        ensures { OnOk result (Plants planter.old planter.new
            (grouped_forest (file_of self.now) rank (grouped_assign assign.now))) }
    {
        let targets = assign.targets.items();
        let mut rank = rank;
        for target in targets {
            let call = self.call(target.1, token_of(&target.0), rank);
            planter.enter(rank.hang, &call)?;
            self.plant_operand(planter, &target.0, Rank::argument(1))?;
            rank = Rank::argument(2);
        }
        self.plant_binary(planter, &assign.value.last, rank)?;
        'leaving: for _ in targets {
            planter.leave();
        }
        Ok(())
    }

    /// Plants operands that are joined by operators: sums are grouped to the left, so the last
    /// operator is the outermost.
    fn plant_binary(
        &self,
        planter: &mut Planter,
        binary: &Binary,
        rank: Rank,
    ) -> Result<(), AllocError>
        ensures { OnOk result (Plants planter.old planter.new
            (grouped_forest (file_of self.now) rank (grouped_binary binary.now))) }
    {
        let first = token_of(&binary.first);
        let rest = binary.rest.items();
        let mut rank = rank;
        let mut left = rest.len();
        while left > 0 {
            left -= 1;
            let call = self.call(rest[left].0, first, rank);
            planter.enter(rank.hang, &call)?;
            rank = Rank::argument(1);
        }
        self.plant_operand(planter, &binary.first, rank)?;
        for next in rest {
            self.plant_operand(planter, &next.1, Rank::argument(2))?;
            planter.leave();
        }
        Ok(())
    }

    /// Plants an operand.
    fn plant_operand(
        &self,
        planter: &mut Planter,
        operand: &Prefixed,
        rank: Rank,
    ) -> Result<(), AllocError>
        ensures { OnOk result (Plants planter.old planter.new
            (leaf rank.hang (operand_node (file_of self.now) operand.now rank))) }
    {
        let node = self.operand(operand, rank);
        planter.leaf(rank.hang, &node)
    }
}
