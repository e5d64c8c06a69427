//! Resolution of statements (5.1).

ghost use Rattle.std.specs.Prelude.{◌≡◌, length, map, OnOk, IfErr};
ghost use Rattle.ada_tree.specs.ExpressionView.{argument_of};
ghost use Rattle.ada_tree.specs.StatementView.{branch_of, handler_of, sequence_of, statement_of, statements_of};
ghost use Rattle.ada_program.specs.Form.{expression_form, stmt_form};
ghost use Rattle.ada_resolve.specs.Known.{with_part, without_part};
ghost use Rattle.ada_resolve.specs.Look.{Looks, condition_look, exit_look, statement_look};
ghost use Rattle.ada_resolve.specs.Method.{known, IsNoted, Changes, Does, DoesBranches, Takes, branches_come, handlers_of};
ghost use Rattle.ada_resolve.specs.Resolution.{block_of, body_remark, branch_told, handler_told, handlers_told, node_told, sequence_told, simple_told, statement_told, statements_told};
ghost use Rattle.ada_resolve.specs.Statements.{simple_texts, form_or_null, text_in, with_texts};
ghost use Rattle.ada_resolve.specs.View.{branch_form, handler_form, handlers_in, known_of, sequence_in, stmt_in, statements_in};

use crate::fault::{NameFault, NameRule};
use crate::notes::Notes;
use crate::procedures::Sequence;
use crate::resolver::Resolver;
use crate::spots::{expression_spot, statement_spot};
use ada_program::Spot;
use ada_program::program::{self, Branch, Handler, Stmt, TextNo};
use ada_tree::expressions::{Argument, Expression as Written};
use ada_tree::statements::{
    Branch as WrittenBranch, Handler as WrittenHandler, Sequence as WrittenSequence, Statement,
};

impl<'t> Resolver<'t> {
    /// The statements, in order, in a loop or not.
    #[cycle(statements)]
    #[tactic(auto, using(std::proofs::lemmas::Grind::common_steps, crate::proofs::Told::after_none, crate::proofs::Told::after_fault, crate::proofs::Told::statement_done, crate::proofs::Told::after_end))]
    pub(crate) fn statements(
        &mut self,
        statements: &[Statement<'t>],
        inside_loop: bool,
        notes: &mut Notes,
    ) -> Result<Vec<Stmt>, NameFault>
        ensures { Does result statements_in self notes
            (statements_told inside_loop (statements_of statements.now)) }
    {
        let mut made = Vec::new(self.alloc);
        'statements: for one in statements {
            let next = self.statement(one, inside_loop, notes)?;
            made.push(next)?;
        }
        Ok(made)
    }

    /// One statement, with those in it.
    #[cycle(statements)]
    #[tactic(auto, using(std::proofs::lemmas::Grind::common_steps, ada_tree::specs::StatementView::statement_rules, ada_program::specs::Form::statement_rules, crate::proofs::Views::begin_view))]
    fn statement(
        &mut self,
        statement: &Statement<'t>,
        inside_loop: bool,
        notes: &mut Notes,
    ) -> Result<Stmt, NameFault>
        ensures { Does result stmt_form self notes
            (statement_told inside_loop (statement_of statement.now)) }
    {
        match statement {
            Statement::If {
                spot,
                branches,
                otherwise,
                end: _,
            } => {
                notes.node(*spot);
                notes.settle()?;
                let branches = self.branches(branches, inside_loop, notes)?;
                let otherwise = self.statements(otherwise, inside_loop, notes)?;
                Ok(Stmt::If {
                    branches,
                    otherwise,
                })
            }
            Statement::Loop {
                spot,
                scheme,
                statements,
                end,
            } => {
                note_body(*spot, statements, notes);
                let head = self.loop_head(*spot, scheme, notes)?;
                let statements = self.statements(statements, true, notes)?;
                Ok(self.end_of_loop(head, statements, *end))
            }
            Statement::Block(body) => {
                self.begin_block(body.begin, notes)?;
                let body = self.sequence(body, inside_loop, notes)?;
                Ok(self.end_block(body))
            }
            Statement::DeclareBlock {
                spot,
                declarations,
                body,
            } => {
                self.begin_block(*spot, notes)?;
                self.declarations(declarations, notes)?;
                let body = self.sequence(body, inside_loop, notes)?;
                Ok(self.end_block(body))
            }
            Statement::Null(_)
            | Statement::Assignment { .. }
            | Statement::Call { .. }
            | Statement::Exit { .. }
            | Statement::Return(_)
            | Statement::Raise { .. } => self.simple_statement(statement, inside_loop, notes),
        }
    }

    /// The rest of a part whose declarations are known: its statements, and their handlers.
    #[cycle(statements)]
    #[tactic(auto, using(std::proofs::lemmas::Grind::common_steps, crate::proofs::Views::body_view))]
    pub(crate) fn sequence(
        &mut self,
        body: &WrittenSequence<'t>,
        inside_loop: bool,
        notes: &mut Notes,
    ) -> Result<Sequence, NameFault>
        ensures { Does result sequence_in self notes
            (sequence_told inside_loop (sequence_of body.now)) }
    {
        self.begin(body.begin, notes)?;
        let statements = self.statements(&body.statements, inside_loop, notes)?;
        let handlers = self.handlers(&body.handlers, inside_loop, notes)?;
        Ok(Sequence {
            statements,
            handlers,
        })
    }

    /// The branches of an `if`, in order: each condition before its statements.
    #[cycle(statements)]
    #[tactic(auto, using(std::proofs::lemmas::Grind::common_steps, crate::proofs::Told::after_no_branch, crate::proofs::Told::after_last_branch))]
    fn branches(
        &mut self,
        branches: &[WrittenBranch<'t>],
        inside_loop: bool,
        notes: &mut Notes,
    ) -> Result<Vec<Branch>, NameFault>
        ensures { DoesBranches result self notes (branches_come inside_loop branches.now) }
    {
        let mut made = Vec::new(self.alloc);
        'branches: for branch in branches {
            let next = self.branch(branch, inside_loop, notes)?;
            made.push(next)?;
        }
        Ok(made)
    }

    /// One branch: its condition, then its statements.
    #[cycle(statements)]
    fn branch(
        &mut self,
        branch: &WrittenBranch<'t>,
        inside_loop: bool,
        notes: &mut Notes,
    ) -> Result<Branch, NameFault>
        ensures { Does result branch_form self notes
            (branch_told inside_loop (branch_of branch.now)) }
    {
        let condition = self.condition(&branch.condition, notes)?;
        notes.settle()?;
        let statements = self.statements(&branch.statements, inside_loop, notes)?;
        Ok(Branch {
            condition,
            statements,
        })
    }

    /// The handlers, in order, in a loop or not (11.2).
    #[cycle(statements)]
    #[tactic(auto, using(std::proofs::lemmas::Grind::common_steps, crate::proofs::Handled::after_none, crate::proofs::Handled::after_end))]
    pub(crate) fn handlers(
        &mut self,
        handlers: &[WrittenHandler<'t>],
        inside_loop: bool,
        notes: &mut Notes,
    ) -> Result<Vec<Handler>, NameFault>
        ensures { Does result handlers_in self notes
            (handlers_told inside_loop (handlers_of handlers.now)) }
    {
        let mut made = Vec::new(self.alloc);
        'handlers: for one in handlers {
            let next = self.handler(one, inside_loop, notes)?;
            made.push(next)?;
        }
        Ok(made)
    }

    /// One handler: its choices, then its statements.
    #[cycle(statements)]
    fn handler(
        &mut self,
        handler: &WrittenHandler<'t>,
        inside_loop: bool,
        notes: &mut Notes,
    ) -> Result<Handler, NameFault>
        ensures { Does result handler_form self notes
            (handler_told inside_loop (handler_of handler.now)) }
    {
        note_body(handler.spot, &handler.statements, notes);
        notes.node(handler.spot);
        let choices = self.choices(&handler.choices, notes)?;
        notes.settle()?;
        let statements = self.statements(&handler.statements, inside_loop, notes)?;
        Ok(Handler {
            choices,
            statements,
        })
    }

    /// A block begins at the spot (5.6): it is a node of the source, and has a part of its own.
    fn begin_block(&mut self, spot: Spot, notes: &mut Notes) -> Result<(), NameFault>
        ensures { Takes result self notes (λ at. node_told spot (with_part at.0) at.1) }
    {
        notes.node(spot);
        notes.settle()?;
        self.enter_part()
    }

    /// A block ends behind its handlers (5.6): its part ends.
    #[tactic(auto, using(std::proofs::lemmas::Grind::common_steps, ada_program::specs::Form::statement_rules))]
    fn end_block(&mut self, body: Sequence) -> Stmt
        ensures known { Changes self without_part }
        ensures meant { stmt_form result ≡ block_of (known_of self.old) (sequence_in body) }
    {
        let Sequence {
            statements,
            handlers,
        } = body;
        Stmt::Block {
            declarations: self.leave_part(),
            statements,
            handlers,
        }
    }

    /// A condition (5.3): False where something is wrong.
    pub(crate) fn condition(
        &self,
        condition: &Written<'t>,
        notes: &mut Notes,
    ) -> Result<program::Expression, NameFault>
        ensures { Looks expression_form result notes (condition_look self condition.now) }
    {
        let meant = self.expression(condition, notes)?;
        meant.boolean_wanted(expression_spot(condition), notes);
        Ok(meant.into_boolean())
    }

    /// A statement with no others in it; a text that it writes is added.
    fn simple_statement(
        &mut self,
        statement: &Statement<'t>,
        inside_loop: bool,
        notes: &mut Notes,
    ) -> Result<Stmt, NameFault>
        ensures { Does result stmt_form self notes
            (simple_told inside_loop (statement_of statement.now)) }
    {
        let found = self.meaning(statement, inside_loop, notes)?;
        notes.settle()?;
        self.add_text(statement)?;
        Ok(or_null(found))
    }

    /// `exit`, perhaps with a condition (5.7).
    #[tactic(auto, using(std::proofs::lemmas::Grind::common_steps, ada_program::specs::Form::statement_rules))]
    fn exit(
        &self,
        spot: Spot,
        condition: &Option<Written<'t>>,
        inside_loop: bool,
        notes: &mut Notes,
    ) -> Result<Option<Stmt>, NameFault>
        ensures { Looks stmt_in result notes (exit_look self inside_loop spot condition.now) }
    {
        notes.node(spot);
        notes.note_if(!inside_loop, spot, NameRule::NotInProfile);
        let condition = match condition {
            Some(condition) => Some(self.condition(condition, notes)?),
            None => None,
        };
        Ok(Some(Stmt::Exit { condition, spot }))
    }

    /// What a statement does, where nothing is wrong with it. A text that it writes has the next number.
    #[tactic(auto, using(std::proofs::lemmas::Grind::common_steps, ada_tree::specs::StatementView::statement_rules, ada_program::specs::Form::statement_rules))]
    fn meaning(
        &self,
        statement: &Statement<'t>,
        inside_loop: bool,
        notes: &mut Notes,
    ) -> Result<Option<Stmt>, NameFault>
        ensures { Looks stmt_in result notes (statement_look self inside_loop statement.now) }
    {
        match statement {
            Statement::Null(spot) => {
                notes.node(*spot);
                Ok(Some(Stmt::Null))
            }
            Statement::Assignment { target, value } => self.assignment(target, value, notes),
            Statement::Call {
                procedure,
                arguments,
            } => self.call(procedure, arguments, self.next_text(), notes),
            Statement::Exit { spot, condition } => self.exit(*spot, condition, inside_loop, notes),
            Statement::Return(spot) => {
                notes.node(*spot);
                Ok(Some(Stmt::Return(*spot)))
            }
            Statement::Raise { spot, name } => Ok(self.raise(*spot, name, notes)),
            Statement::If { .. }
            | Statement::Loop { .. }
            | Statement::Block(_)
            | Statement::DeclareBlock { .. } => {
                notes.note(statement_spot(statement), NameRule::NotInProfile);
                Ok(None)
            }
        }
    }

    /// The number of the next text.
    #[tactic(auto, unfolding(crate::specs::View::known_of))]
    fn next_text(&self) -> TextNo
        ensures { result.0 ≡ length (known self).texts }
    {
        TextNo(self.texts.len())
    }

    /// The text that a statement writes is added, if it writes one.
    #[tactic(auto, using(std::proofs::lemmas::Grind::common_steps, ada_tree::specs::StatementView::statement_rules))]
    fn add_text(&mut self, statement: &Statement<'t>) -> Result<(), NameFault>
        ensures known { OnOk result
            (Changes self (with_texts (simple_texts (statement_of statement.now)))) }
        ensures memory { IfErr result (λ e. e ≡ NameFault.NoMemory) }
    {
        match statement {
            Statement::Call { arguments, .. } => self.add_first_text(arguments),
            Statement::Null(_)
            | Statement::Assignment { .. }
            | Statement::If { .. }
            | Statement::Loop { .. }
            | Statement::Exit { .. }
            | Statement::Return(_)
            | Statement::Raise { .. }
            | Statement::Block(_)
            | Statement::DeclareBlock { .. } => Ok(()),
        }
    }

    /// The text that the first argument of a call is, is added, if it is one.
    #[tactic(auto, unfolding(crate::specs::View::known_of), using(crate::proofs::Names::map_snoc))]
    fn add_first_text(&mut self, arguments: &[Argument<'t>]) -> Result<(), NameFault>
        ensures known { OnOk result
            (Changes self (with_texts (text_in (map argument_of arguments.now)))) }
        ensures memory { IfErr result (λ e. e ≡ NameFault.NoMemory) }
    {
        if let Some(Argument::Text { text, .. }) = arguments.first() {
            self.texts.push(String::from_str(self.alloc, text)?)?;
        }
        Ok(())
    }
}

/// What a statement does; nothing, where something is wrong with it.
#[tactic(auto, using(std::proofs::lemmas::Grind::common_steps, ada_program::specs::Form::statement_rules))]
fn or_null(found: Option<Stmt>) -> Stmt
    ensures { stmt_form result ≡ form_or_null (stmt_in found) }
{
    match found {
        Some(statement) => statement,
        None => Stmt::Null,
    }
}

/// A loop or a handler has a statement (5.5, 11.2).
#[tactic(auto, using(std::proofs::lemmas::Grind::common_steps, ada_tree::specs::StatementView::statement_rules))]
fn note_body(spot: Spot, statements: &[Statement<'_>], notes: &mut Notes)
    ensures { IsNoted notes (body_remark spot (statements_of statements.now)) }
{
    if statements.first().is_none() {
        notes.note(spot, NameRule::NotInProfile);
    }
}
