//! The set of exceptions that the handlers around a statement take by their names.

ghost use Rattle.std.specs.Prelude.{◌≡◌, ◌==◌, ◌||◌, ◌&&◌, ℕ, false, not, [], ◌∷◌, OnOk, IfOk, MatchResult, slice_index_or};
ghost use Rattle.ada_effects.specs.Taken.{set_of, with_one, with_choice, with_choices, with_handlers, without};
ghost use Rattle.ada_effects.specs.Taken as rules;
ghost use Rattle.ada_program.specs.declared.program.Exception.{Exception};
ghost use Rattle.ada_program.specs.Form.{handlers_form};

use ada_program::program::{Choice, Exception, ExceptionNo, Handler};
use std::alloc::{AllocError, Global};

/// A set of exceptions.
#[derive(Drop)]
pub(crate) struct Taken {
    constraint_error: bool,
    program_error: bool,
    storage_error: bool,
    end_error: bool,
    // Which declared ones are in it, by their numbers; those behind the last one are not.
    declared: Vec<bool>,
}

impl Taken {
    /// The empty set. Takes no memory.
    #[tactic(auto, using(std::proofs::lemmas::Grind::common_steps, crate::proofs::Sets::holds_nothing))]
    pub(crate) fn new(alloc: Global) -> Taken
        ensures { (e : Exception) → set_of result e ≡ false }
    {
        Taken {
            constraint_error: false,
            program_error: false,
            storage_error: false,
            end_error: false,
            declared: Vec::new(alloc),
        }
    }

    /// Whether the exception is in the set. Constant.
    #[tactic(auto, using(std::proofs::lemmas::Grind::common_steps, crate::proofs::Sets::flags))]
    pub(crate) fn contains(&self, exception: Exception) -> bool
        ensures { result ≡ set_of self.now exception }
    {
        match exception {
            Exception::ConstraintError => self.constraint_error,
            Exception::ProgramError => self.program_error,
            Exception::StorageError => self.storage_error,
            Exception::EndError => self.end_error,
            Exception::Declared(number) => self.contains_declared(number),
        }
    }

    /// Whether a declared exception is in the set.
    fn contains_declared(&self, number: ExceptionNo) -> bool
        ensures { result ≡ slice_index_or self.now.declared.items number.0 false }
    {
        match self.declared.get(number.0) {
            Some(is_in) => *is_in,
            None => false,
        }
    }

    /// The exceptions that handlers name join the set. The answer lists those that were not in it.
    ///
    /// # Errors
    /// `AllocError` where memory for them was refused.
    #[tactic(auto, using(std::proofs::lemmas::Grind::common_steps, crate::proofs::Sets::joining))]
    pub(crate) fn join(
        &mut self,
        alloc: Global,
        handlers: &[Handler],
    ) -> Result<Vec<Exception>, AllocError>
        ensures joined { OnOk result
            (set_of self.new ≡ with_handlers (handlers_form handlers.now) (set_of self.old)) }
        ensures listed { IfOk result
            (λ joined. without joined.items (set_of self.new) ≡ set_of self.old) }
    {
        let mut joined = Vec::new(alloc);
        'handlers: for handler in handlers {
            self.join_choices(&handler.choices, &mut joined)?;
        }
        Ok(joined)
    }

    /// The exceptions that the choices of a handler name join the set.
    #[tactic(auto, using(std::proofs::lemmas::Grind::common_steps, crate::proofs::Sets::joining))]
    fn join_choices(
        &mut self,
        choices: &[Choice],
        joined: &mut Vec<Exception>,
    ) -> Result<(), AllocError>
        ensures joined { OnOk result
            (set_of self.new ≡ with_choices choices.now (set_of self.old)) }
        ensures listed { OnOk result
            (without joined.new.items (set_of self.new) ≡ without joined.old.items (set_of self.old)) }
    {
        'choices: for choice in choices {
            self.join_choice(*choice, joined)?;
        }
        Ok(())
    }

    /// The exception that a choice names joins the set, and the list, if it is not in the set.
    #[tactic(auto, using(std::proofs::lemmas::Grind::common_steps, crate::proofs::Sets::joining))]
    fn join_choice(&mut self, choice: Choice, joined: &mut Vec<Exception>) -> Result<(), AllocError>
        ensures joined { OnOk result (set_of self.new ≡ with_choice choice (set_of self.old)) }
        ensures listed { OnOk result
            (without joined.new.items (set_of self.new) ≡ without joined.old.items (set_of self.old)) }
    {
        if let Choice::Exception(exception) = choice {
            if !self.contains(exception) {
                joined.push(exception)?;
                self.insert(exception)?;
            }
        }
        Ok(())
    }

    /// An exception joins the set.
    #[tactic(auto, using(std::proofs::lemmas::Grind::common_steps, crate::proofs::Sets::each_flag))]
    pub(crate) fn insert(&mut self, exception: Exception) -> Result<(), AllocError>
        ensures { MatchResult result
            (λ _. set_of self.new ≡ with_one exception (set_of self.old)) (λ _. set_of self.new ≡ set_of self.old) }
    {
        match exception {
            Exception::ConstraintError => self.constraint_error = true,
            Exception::ProgramError => self.program_error = true,
            Exception::StorageError => self.storage_error = true,
            Exception::EndError => self.end_error = true,
            Exception::Declared(number) => insert_number(&mut self.declared, number.0)?,
        }
        Ok(())
    }

    /// The exceptions of a list leave the set. Takes no memory.
    #[tactic(auto, using(std::proofs::lemmas::Grind::common_steps, crate::proofs::Sets::joining))]
    pub(crate) fn remove_all(&mut self, exceptions: &[Exception])
        ensures { set_of self.new ≡ without exceptions.now (set_of self.old) }
    {
        'exceptions: for exception in exceptions {
            self.remove(*exception);
        }
    }

    /// An exception leaves the set.
    #[tactic(auto, using(std::proofs::lemmas::Grind::common_steps, crate::proofs::Sets::each_flag))]
    fn remove(&mut self, exception: Exception)
        ensures { set_of self.new ≡ without (exception ∷ []) (set_of self.old) }
    {
        match exception {
            Exception::ConstraintError => self.constraint_error = false,
            Exception::ProgramError => self.program_error = false,
            Exception::StorageError => self.storage_error = false,
            Exception::EndError => self.end_error = false,
            Exception::Declared(number) => remove_number(&mut self.declared, number),
        }
    }
}

/// A number joins those that are in a set, which grows as far as it.
pub(crate) fn insert_number(set: &mut Vec<bool>, number: usize) -> Result<(), AllocError>
    ensures { MatchResult result
        (λ _. (n : ℕ) → slice_index_or set.new.items n false ≡ (slice_index_or set.old.items n false || (n == number)))
        (λ _. (n : ℕ) → slice_index_or set.new.items n false ≡ slice_index_or set.old.items n false) }
{
    match set.get_mut(number) {
        Some(is_in) => *is_in = true,
        None => {
            set.resize(number, false)?;
            set.push(true)?;
        }
    }
    Ok(())
}

/// A declared exception leaves those that are in the set.
fn remove_number(declared: &mut Vec<bool>, number: ExceptionNo)
    ensures { (n : ℕ) → slice_index_or declared.new.items n false
        ≡ (slice_index_or declared.old.items n false && not (n == number.0)) }
{
    if let Some(is_in) = declared.get_mut(number.0) {
        *is_in = false;
    }
}

/// Whether a choice of a handler is `others`, which takes all exceptions (11.2).
pub(crate) fn have_others(handlers: &[Handler]) -> bool
    ensures { result ≡ rules.have_others (handlers_form handlers.now) }
{
    'handlers: for handler in handlers {
        if has_others(&handler.choices) {
            return true;
        }
    }
    false
}

/// Whether a choice is `others`.
fn has_others(choices: &[Choice]) -> bool
    ensures { result ≡ rules.has_others choices.now }
{
    'choices: for choice in choices {
        if is_others(*choice) {
            return true;
        }
    }
    false
}

/// Whether this choice is.
fn is_others(choice: Choice) -> bool
    ensures { result ≡ rules.is_others choice }
{
    matches!(choice, Choice::Others)
}
