//! What an expression means, where a value is wanted.

ghost use Rattle.std.specs.Prelude.{◌≡◌};
ghost use Rattle.ada_program.specs.Form.{expression_form};
ghost use Rattle.ada_program.specs.Kept.{variables_in};
ghost use Rattle.ada_resolve.specs.Method.{IsNoted};
ghost use Rattle.ada_resolve.specs.Operators as rules;
ghost use Rattle.ada_resolve.specs.View.{comparable_of, meant_of};

use crate::fault::NameRule;
use crate::notes::Notes;
use ada_program::borrowers::names_borrower;
use ada_program::program::{Expression, Item, RecordPath, Variable};
use ada_program::{Path, Spot, TypeNo};

/// What an expression means (4.4).
#[derive(Drop)]
pub(crate) enum Meant {
    /// Something is wrong with it.
    Unknown,
    /// `null`
    Null,
    /// The value of this access type that a path names.
    Access(Path, TypeNo),
    /// A value of type Integer.
    Integer(Expression),
    /// A value of type Boolean.
    Boolean(Expression),
    /// The record to which a path leads.
    Record(RecordPath),
    /// An aggregate of this record type: its items in the order of the elementary components.
    Aggregate(TypeNo, Vec<Item>),
    /// What a borrower of a body around holds, a value of this access type.
    Lent(TypeNo),
}

/// What can be compared for equality (4.5.2).
#[derive(Clone, Copy)]
pub(crate) enum Comparable {
    /// Something is wrong with it.
    AnyValue,
    Integer,
    Boolean,
    /// A value of an access type.
    Access,
    /// `null`, which is of all access types.
    Null,
    /// A record, which is compared with nothing.
    Record,
}

impl Meant {
    /// An Integer is wanted, where the meaning is known.
    pub(crate) fn integer_wanted(&self, spot: Spot, notes: &mut Notes)
        ensures { IsNoted notes (rules.integer_wanted (meant_of self.now) spot) }
    {
        match self {
            Meant::Unknown | Meant::Integer(_) => {}
            _ => notes.note(spot, NameRule::WrongType),
        }
    }

    /// A Boolean is wanted, where the meaning is known.
    pub(crate) fn boolean_wanted(&self, spot: Spot, notes: &mut Notes)
        ensures { IsNoted notes (rules.boolean_wanted (meant_of self.now) spot) }
    {
        match self {
            Meant::Unknown | Meant::Boolean(_) => {}
            _ => notes.note(spot, NameRule::WrongType),
        }
    }

    /// A value of this very access type is wanted, or null, where the meaning is known.
    pub(crate) fn access_wanted(&self, access: TypeNo, spot: Spot, notes: &mut Notes)
        ensures { IsNoted notes (rules.access_wanted access (meant_of self.now) spot) }
    {
        match self {
            Meant::Unknown | Meant::Null => {}
            Meant::Access(_, found) | Meant::Lent(found) => {
                notes.note_if(access.0 != found.0, spot, NameRule::WrongType);
            }
            Meant::Integer(_) | Meant::Boolean(_) | Meant::Record(_) | Meant::Aggregate(_, _) => {
                notes.note(spot, NameRule::WrongType);
            }
        }
    }

    /// A record of this very type is wanted, where the meaning is known.
    pub(crate) fn record_wanted(&self, number: TypeNo, spot: Spot, notes: &mut Notes)
        ensures { IsNoted notes (rules.record_value_wanted number (meant_of self.now) spot) }
    {
        match self {
            Meant::Unknown => {}
            Meant::Record(path) => {
                notes.note_if(number.0 != path.record.0, spot, NameRule::WrongType);
            }
            Meant::Aggregate(found, _) => {
                notes.note_if(number.0 != found.0, spot, NameRule::WrongType);
            }
            Meant::Null
            | Meant::Access(_, _)
            | Meant::Integer(_)
            | Meant::Boolean(_)
            | Meant::Lent(_) => {
                notes.note(spot, NameRule::WrongType);
            }
        }
    }

    /// The access value isn't that of a borrower, which owns nothing.
    pub(crate) fn owner_wanted(&self, variables: &[Variable], spot: Spot, notes: &mut Notes)
        ensures { IsNoted notes
            (rules.owner_wanted (variables_in variables.now) (meant_of self.now) spot) }
    {
        match self {
            Meant::Access(path, _) => {
                notes.note_if(names_borrower(variables, path), spot, NameRule::WrongType);
            }
            Meant::Lent(_) => notes.note(spot, NameRule::WrongType),
            _ => {}
        }
    }

    /// What it can be compared with for equality (4.5.2).
    pub(crate) fn comparable(&self) -> Comparable
        ensures { comparable_of result ≡ rules.comparable (meant_of self.now) }
    {
        match self {
            Meant::Unknown => Comparable::AnyValue,
            Meant::Null => Comparable::Null,
            Meant::Access(_, _) | Meant::Lent(_) => Comparable::Access,
            Meant::Integer(_) => Comparable::Integer,
            Meant::Boolean(_) => Comparable::Boolean,
            Meant::Record(_) | Meant::Aggregate(_, _) => Comparable::Record,
        }
    }

    /// The Integer; 0 where it is none.
    #[tactic(auto, using(std::proofs::lemmas::Grind::common_steps, ada_program::specs::Form::expression_rules))]
    pub(crate) fn into_integer(self) -> Expression
        ensures { expression_form result ≡ rules.integer_in (meant_of self) }
    {
        match self {
            Meant::Integer(expression) => expression,
            _ => Expression::Integer(0),
        }
    }

    /// The Boolean; False where it is none.
    #[tactic(auto, using(std::proofs::lemmas::Grind::common_steps, ada_program::specs::Form::expression_rules))]
    pub(crate) fn into_boolean(self) -> Expression
        ensures { expression_form result ≡ rules.boolean_in (meant_of self) }
    {
        match self {
            Meant::Boolean(expression) => expression,
            _ => Expression::Boolean(false),
        }
    }

    /// The Integer or the Boolean; 0 where it is neither.
    #[tactic(auto, using(std::proofs::lemmas::Grind::common_steps, ada_program::specs::Form::expression_rules))]
    pub(crate) fn into_scalar(self) -> Expression
        ensures { expression_form result ≡ rules.scalar_in (meant_of self) }
    {
        match self {
            Meant::Integer(expression) | Meant::Boolean(expression) => expression,
            _ => Expression::Integer(0),
        }
    }
}
