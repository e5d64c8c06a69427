//! Expressions (4.4).

ghost use Rattle.ada_resolve.specs.Chains.{nodes_remark};
ghost use Rattle.ada_resolve.specs.Look.{Looks, expression_look, links_look, qualified_look, unary_look};
ghost use Rattle.ada_resolve.specs.Method.{IsNoted};
ghost use Rattle.ada_resolve.specs.View.{meant_of};

use crate::fault::NameFault;
use crate::items::names_component;
use crate::meant::Meant;
use crate::notes::Notes;
use crate::operators::{binary_meant, operand_wanted, operands_wanted, unary_meant};
use crate::resolver::Resolver;
use crate::spots::expression_spot;
use crate::statics::integer;
use ada_program::{Spot, program};
use ada_tree::expressions::{Expression, Item, Link};
use ada_tree::names::Identifier;
use ada_values::operator::UnaryOperator;

impl<'t> Resolver<'t> {
    /// What an expression means, with what is wrong with it noted.
    #[cycle(expression)]
    #[tactic(auto, using(std::proofs::lemmas::Grind::common_steps, ada_tree::specs::ExpressionView::tree_rules, ada_program::specs::Form::expression_rules, crate::proofs::Chains::linked_meant, crate::proofs::Chains::linked_noted), unfolding(crate::specs::Expressions::expression_meant, crate::specs::Expressions::expression_remark))]
    pub(crate) fn expression(
        &self,
        expression: &Expression<'t>,
        notes: &mut Notes,
    ) -> Result<Meant, NameFault>
        ensures { Looks meant_of result notes (expression_look self expression.now) }
    {
        match expression {
            Expression::Number { spot, value } => {
                notes.node(*spot);
                Ok(Meant::Integer(program::Expression::Integer(integer(false, *value))))
            }
            Expression::Null(spot) => {
                notes.node(*spot);
                Ok(Meant::Null)
            }
            Expression::Path(path) => {
                notes.node(path.root.spot);
                self.path(path, notes)
            }
            Expression::Aggregate { type_name, items } => self.qualified(*type_name, items, notes),
            Expression::Enclosed { inner, .. } => self.expression(inner, notes),
            Expression::Unary {
                operator,
                spot,
                operand,
            } => self.unary(*operator, *spot, operand, notes),
            Expression::Chain { first, links } => {
                let spot = expression_spot(first);
                nodes(spot, links, notes);
                let left = self.expression(first, notes)?;
                self.chain(left, spot, links, notes)
            }
        }
    }

    /// `T'(..)` (4.7): an aggregate of a complete record type without controlled parts.
    #[cycle(expression)]
    #[tactic(auto, unfolding(crate::specs::Expressions::expression_meant, crate::specs::Expressions::expression_remark, crate::specs::Expressions::filling_of))]
    fn qualified(
        &self,
        type_name: Identifier<'t>,
        items: &[Item<'t>],
        notes: &mut Notes,
    ) -> Result<Meant, NameFault>
        ensures { Looks meant_of result notes (qualified_look self type_name.entry items.now) }
    {
        notes.node(type_name.spot);
        let found = self.complete_name(type_name, notes);
        self.aggregate_wanted(found, type_name.spot, notes);
        let filling = self.items(items, found, notes)?;
        filling.all_given(names_component(items), type_name.spot, notes);
        match found {
            Some(number) => Ok(Meant::Aggregate(number, filling.into_items(self.alloc)?)),
            None => Ok(Meant::Unknown),
        }
    }

    /// What an operator with its one operand means.
    #[cycle(expression)]
    #[tactic(auto, unfolding(crate::specs::Expressions::expression_meant, crate::specs::Expressions::expression_remark))]
    fn unary(
        &self,
        operator: UnaryOperator,
        spot: Spot,
        operand: &Expression<'t>,
        notes: &mut Notes,
    ) -> Result<Meant, NameFault>
        ensures { Looks meant_of result notes (unary_look self operator spot operand.now) }
    {
        notes.node(spot);
        let meant = self.expression(operand, notes)?;
        operand_wanted(operator, &meant, expression_spot(operand), notes);
        unary_meant(self.alloc, operator, meant)
    }

    /// What operators mean behind a left operand, which begins at the spot: they are applied from left to right.
    #[cycle(expression)]
    fn chain(
        &self,
        first: Meant,
        spot: Spot,
        links: &[Link<'t>],
        notes: &mut Notes,
    ) -> Result<Meant, NameFault>
        ensures { Looks meant_of result notes (links_look self (meant_of first) spot links.now) }
    {
        let mut left = first;
        'links: for link in links {
            let right = self.expression(&link.operand, notes)?;
            let right_spot = expression_spot(&link.operand);
            operands_wanted(link.operator, &left, spot, &right, right_spot, notes);
            left = binary_meant(self.alloc, link.operator, left, right)?;
        }
        Ok(left)
    }
}

/// Each operator of a chain is a node of the source, where the chain begins.
fn nodes(spot: Spot, links: &[Link<'_>], notes: &mut Notes)
    ensures { IsNoted notes (nodes_remark spot links.now) }
{
    for _link in links {
        notes.node(spot);
    }
}
