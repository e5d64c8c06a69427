//! Resolution of the heads of loops (5.5).

ghost use Rattle.std.specs.Prelude.{◌≡◌, IfOk, OnOk, IfErr};
ghost use Rattle.ada_tree.specs.Names.{ident_of};
ghost use Rattle.ada_tree.specs.StatementView.{scheme_of};
ghost use Rattle.ada_program.specs.Form.{expression_form, stmt_form};
ghost use Rattle.ada_resolve.specs.Known.{next_variable};
ghost use Rattle.ada_resolve.specs.Look.{Looks, bound_look};
ghost use Rattle.ada_resolve.specs.Method.{known, Changes, Does, new_variable, with_own_parameter};
ghost use Rattle.ada_resolve.specs.Resolution.{behind_loop, head_told, loop_of};
ghost use Rattle.ada_resolve.specs.View.{head_in, known_of, statements_in};

use crate::fault::NameFault;
use crate::notes::Notes;
use crate::program::alone;
use crate::resolver::Resolver;
use crate::scope::Entity;
use crate::spots::expression_spot;
use ada_program::program::{Expression, Stmt, VariableKind};
use ada_program::{Spot, VariableNo};
use ada_tree::expressions::Expression as Written;
use ada_tree::names::Identifier;
use ada_tree::statements::Scheme;

/// The head of a loop (5.5).
#[derive(Drop)]
pub(crate) enum Head {
    /// `loop` or `while .. loop`
    Condition(Option<Expression>),
    /// `for I in 1 .. N loop`
    Range {
        parameter: VariableNo,
        first: Expression,
        last: Expression,
    },
}

impl<'t> Resolver<'t> {
    /// The head of a loop, which begins at the spot. A parameter is declared in a part of its own.
    pub(crate) fn loop_head(
        &mut self,
        spot: Spot,
        scheme: &Scheme<'t>,
        notes: &mut Notes,
    ) -> Result<Head, NameFault>
        ensures { Does result head_in self notes (head_told spot (scheme_of scheme.now)) }
    {
        notes.node(spot);
        match scheme {
            Scheme::Endless => {
                notes.settle()?;
                Ok(Head::Condition(None))
            }
            Scheme::While(condition) => {
                let condition = self.condition(condition, notes)?;
                notes.settle()?;
                Ok(Head::Condition(Some(condition)))
            }
            Scheme::For { name, first, last } => {
                alone(*name, name.spot, notes);
                let first = self.bound(first, notes)?;
                let last = self.bound(last, notes)?;
                notes.settle()?;
                let parameter = self.enter_loop(*name)?;
                Ok(Head::Range {
                    parameter,
                    first,
                    last,
                })
            }
        }
    }

    /// A bound of a range: 0 where something is wrong.
    fn bound(&self, bound: &Written<'t>, notes: &mut Notes) -> Result<Expression, NameFault>
        ensures { Looks expression_form result notes (bound_look self bound.now) }
    {
        let meant = self.expression(bound, notes)?;
        meant.integer_wanted(expression_spot(bound), notes);
        Ok(meant.into_integer())
    }

    /// The statements of a loop with a parameter begin, which is an Integer and a constant.
    fn enter_loop(&mut self, name: Identifier<'t>) -> Result<VariableNo, NameFault>
        ensures known { OnOk result (Changes self (with_own_parameter name.entry)) }
        ensures number { IfOk result (λ x. x ≡ next_variable (known_of self.old)) }
        ensures memory { IfErr result (λ e. e ≡ NameFault.NoMemory) }
    {
        self.enter_part()?;
        let parameter = self.add_variable(name, false, VariableKind::Integer)?;
        self.declare(
            name.text,
            Entity::Parameter {
                variable: parameter,
                kind: VariableKind::Integer,
            },
        )?;
        Ok(parameter)
    }

    /// The loop of a head and of statements, whose `end` stands at the spot; the part of its parameter ends.
    #[tactic(auto, using(std::proofs::lemmas::Grind::common_steps, ada_program::specs::Form::statement_rules))]
    pub(crate) fn end_of_loop(&mut self, head: Head, statements: Vec<Stmt>, end: Spot) -> Stmt
        ensures known { Changes self (behind_loop (head_in head)) }
        ensures meant { stmt_form result ≡ loop_of (head_in head) (statements_in statements) end }
    {
        match head {
            Head::Condition(condition) => Stmt::Loop {
                condition,
                statements,
                end,
            },
            Head::Range {
                parameter,
                first,
                last,
            } => {
                let _collections = self.leave_part();
                Stmt::For {
                    parameter,
                    first,
                    last,
                    statements,
                    end,
                }
            }
        }
    }
}
