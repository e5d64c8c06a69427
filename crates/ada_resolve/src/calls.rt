//! Resolution of calls: of procedures, of instances of Unchecked_Deallocation, and of the library's procedures (6.4, 13.11.2).

ghost use Rattle.std.specs.Prelude.{◌≡◌, IfErr};
ghost use Rattle.ada_tree.specs.ExpressionView.{expression_of};
ghost use Rattle.ada_program.specs.Form.{expression_form};
ghost use Rattle.ada_program.specs.Kept.{variables_in};
ghost use Rattle.ada_resolve.specs.Calls.{actual_wanted, freed_wanted, freeing, getting, got_wanted, no_path_remark, taking};
ghost use Rattle.ada_resolve.specs.Look.{Looks, actual_look, call_look, library_call_look, named_call_look, actual_value_look, taker_look};
ghost use Rattle.ada_resolve.specs.Method.{known, IsNoted, Remarks};
ghost use Rattle.ada_resolve.specs.Paths.{integer_value};
ghost use Rattle.ada_resolve.specs.View.{stmt_in, meant_of};

use crate::arguments::none_wanted;
use crate::fault::{NameFault, NameRule};
use crate::library::{LibraryName, is_library_root};
use crate::meant::Meant;
use crate::notes::Notes;
use crate::resolver::Resolver;
use crate::scope::Entity;
use crate::spots::{argument_spot, expression_spot};
use ada_program::borrowers::names_borrower;
use ada_program::program::{self, Stmt, TextNo, Variable};
use ada_program::{Spot, TypeNo};
use ada_tree::expressions::{Argument, Expression};
use ada_tree::names::{Identifier, Path};

/// A procedure whose one actual is a variable (6.4.1).
#[derive(Clone, Copy)]
pub(crate) enum Callee {
    /// An instance of Unchecked_Deallocation for an access type (13.11.2).
    Free(TypeNo),
    /// `Run_Input.Get`
    Get,
}

impl<'t> Resolver<'t> {
    /// `P (..);` (6.4): a procedure, an instance of Unchecked_Deallocation, Get, or Put_Line. A text that it writes has this
    /// number.
    pub(crate) fn call(
        &self,
        procedure: &Path<'t>,
        arguments: &[Argument<'t>],
        text: TextNo,
        notes: &mut Notes,
    ) -> Result<Option<Stmt>, NameFault>
        ensures { Looks stmt_in result notes (call_look self text.0 procedure.now arguments.now) }
    {
        let root = procedure.root;
        notes.node(root.spot);
        if is_library_root(root.text) {
            let found = self.library_path(procedure, notes)?;
            return self.library_call(found, root.spot, arguments, text, notes);
        }
        self.own_call(root, procedure.selectors.is_empty(), arguments, notes)
    }

    /// A call of a name of the library.
    fn library_call(
        &self,
        found: Option<LibraryName>,
        called: Spot,
        arguments: &[Argument<'t>],
        text: TextNo,
        notes: &mut Notes,
    ) -> Result<Option<Stmt>, NameFault>
        ensures { Looks stmt_in result notes
            (library_call_look self found text.0 called arguments.now) }
    {
        match found {
            Some(LibraryName::PutLine) => self.put_line(called, arguments, text, notes),
            Some(LibraryName::Get) => self.taker(Callee::Get, called, arguments, notes),
            Some(_) => {
                notes.note(called, NameRule::WrongType);
                Ok(None)
            }
            None => Ok(None),
        }
    }

    /// A call of a declared name, which stands alone or not.
    fn own_call(
        &self,
        name: Identifier<'t>,
        alone: bool,
        arguments: &[Argument<'t>],
        notes: &mut Notes,
    ) -> Result<Option<Stmt>, NameFault>
        ensures { Looks stmt_in result notes (named_call_look self name.entry alone arguments.now) }
    {
        match self.lookup(name, notes) {
            Some(Entity::Instance(access)) if alone => {
                self.taker(Callee::Free(access), name.spot, arguments, notes)
            }
            Some(Entity::Callable(procedure)) if alone => {
                self.procedure_call(procedure, name.spot, arguments, notes)
            }
            Some(Entity::Procedure) if alone => {
                notes.note(name.spot, NameRule::NotInProfile);
                Ok(None)
            }
            Some(_) => {
                notes.note(name.spot, NameRule::WrongType);
                Ok(None)
            }
            None => Ok(None),
        }
    }

    /// `Free (X);` (13.11.2) or `Run_Input.Get (X);`
    #[tactic(auto, unfolding(crate::specs::Calls::taker_found, crate::specs::Calls::taker_remark))]
    fn taker(
        &self,
        callee: Callee,
        called: Spot,
        arguments: &[Argument<'t>],
        notes: &mut Notes,
    ) -> Result<Option<Stmt>, NameFault>
        ensures { Looks stmt_in result notes (taker_look self callee called arguments.now) }
    {
        let Some((argument, more)) = arguments.split_first() else {
            notes.note(called, NameRule::WrongType);
            return Ok(None);
        };
        let done = self.actual(callee, argument, notes)?;
        none_wanted(more, notes);
        self.arguments(more, notes)?;
        Ok(done)
    }

    /// The actual of such a procedure is an expression.
    fn actual(
        &self,
        callee: Callee,
        argument: &Argument<'t>,
        notes: &mut Notes,
    ) -> Result<Option<Stmt>, NameFault>
        ensures { Looks stmt_in result notes (actual_look self callee argument.now) }
    {
        match argument {
            Argument::Expression(value) => self.actual_value(callee, value, notes),
            Argument::Text { .. } | Argument::Attribute { .. } => {
                notes.note(argument_spot(argument), NameRule::WrongType);
                self.argument(argument, notes)?;
                Ok(None)
            }
        }
    }

    /// The expression is a path.
    #[tactic(auto, using(std::proofs::lemmas::Grind::common_steps, ada_tree::specs::ExpressionView::tree_rules, crate::proofs::Actuals::linked_found, crate::proofs::Actuals::linked_remark), unfolding(crate::specs::View::known_of, crate::specs::Expressions::expression_remark))]
    fn actual_value(
        &self,
        callee: Callee,
        value: &Expression<'t>,
        notes: &mut Notes,
    ) -> Result<Option<Stmt>, NameFault>
        ensures { Looks stmt_in result notes (actual_value_look self callee value.now) }
    {
        match value {
            Expression::Path(path) => {
                let spot = path.root.spot;
                notes.node(spot);
                let meant = self.path(path, notes)?;
                self.written(path, &meant, notes);
                Ok(taking(&self.variables, callee, meant, spot, notes))
            }
            Expression::Chain { first, links } if links.is_empty() => {
                self.actual_value(callee, first, notes)
            }
            Expression::Number { .. }
            | Expression::Null(_)
            | Expression::Aggregate { .. }
            | Expression::Enclosed { .. }
            | Expression::Unary { .. }
            | Expression::Chain { .. } => {
                self.no_path(value, notes)?;
                Ok(None)
            }
        }
    }

    /// An expression that is no path is of the wrong kind.
    pub(crate) fn no_path(&self, value: &Expression<'t>, notes: &mut Notes) -> Result<(), NameFault>
        ensures remark { Remarks result notes
            (no_path_remark (known self) (expression_of value.now)) }
        ensures memory { IfErr result (λ e. e ≡ NameFault.NoMemory) }
    {
        notes.note(expression_spot(value), NameRule::WrongType);
        self.look_at(value, notes)
    }
}

/// What a procedure does with its one actual.
fn taking(
    variables: &[Variable],
    callee: Callee,
    meant: Meant,
    spot: Spot,
    notes: &mut Notes,
) -> Option<Stmt>
    ensures found { stmt_in result ≡ taking callee (meant_of meant) }
    ensures remark { IsNoted notes (actual_wanted (variables_in variables.now) callee (meant_of meant) spot) }
{
    match callee {
        Callee::Free(access) => freeing(variables, access, meant, spot, notes),
        Callee::Get => getting(meant, spot, notes),
    }
}

/// The next number of the input goes to an Integer.
fn getting(meant: Meant, spot: Spot, notes: &mut Notes) -> Option<Stmt>
    ensures found { stmt_in result ≡ getting (meant_of meant) }
    ensures remark { IsNoted notes (got_wanted (meant_of meant) spot) }
{
    match meant {
        Meant::Unknown => None,
        Meant::Integer(value) => getting_integer(value, spot, notes),
        _ => {
            notes.note(spot, NameRule::WrongType);
            None
        }
    }
}

/// The Integer is a variable or a component, to which the next number of the input goes.
#[tactic(auto, using(std::proofs::lemmas::Grind::common_steps, ada_program::specs::Form::statement_rules, ada_program::specs::Form::expression_rules))]
fn getting_integer(value: program::Expression, spot: Spot, notes: &mut Notes) -> Option<Stmt>
    ensures found { stmt_in result ≡ getting (integer_value (expression_form value)) }
    ensures remark { IsNoted notes (got_wanted (integer_value (expression_form value)) spot) }
{
    match value {
        program::Expression::Path(path) => Some(Stmt::Get(path)),
        program::Expression::Integer(_)
        | program::Expression::Boolean(_)
        | program::Expression::NullTest { .. }
        | program::Expression::Unary { .. }
        | program::Expression::Chain { .. } => {
            notes.note(spot, NameRule::WrongType);
            None
        }
    }
}

/// What is freed: what a variable or a component of the instance's access type gives access to.
/// A borrower as a whole frees nothing.
#[tactic(auto, using(std::proofs::lemmas::Grind::common_steps, ada_program::specs::Form::statement_rules))]
fn freeing(
    variables: &[Variable],
    access: TypeNo,
    meant: Meant,
    spot: Spot,
    notes: &mut Notes,
) -> Option<Stmt>
    ensures found { stmt_in result ≡ freeing access (meant_of meant) }
    ensures remark { IsNoted notes (freed_wanted (variables_in variables.now) access (meant_of meant) spot) }
{
    match meant {
        Meant::Unknown => None,
        Meant::Access(path, found) => {
            notes.note_if(found.0 != access.0, spot, NameRule::WrongType);
            notes.note_if(names_borrower(variables, &path), spot, NameRule::WrongType);
            Some(Stmt::Free { access, path })
        }
        _ => {
            notes.note(spot, NameRule::WrongType);
            None
        }
    }
}
