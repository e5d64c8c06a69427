//! Resolution of object declarations (3.3.1).

ghost use Rattle.std.specs.Prelude.{◌≡◌, is_some, IfOk, OnOk, IfErr};
ghost use Rattle.ada_tree.specs.ExpressionView.{optional_right_of};
ghost use Rattle.ada_tree.specs.Names.{ident_of, name_of};
ghost use Rattle.ada_program.specs.Form.{declaration_form};
ghost use Rattle.ada_resolve.specs.Known.{next_variable};
ghost use Rattle.ada_resolve.specs.Look.{Looks, initial_look};
ghost use Rattle.ada_resolve.specs.Method.{known, Finds, IsNoted, Changes, object_tree, Declares, each, new_variable, with_created, with_declarations, with_object, with_object_created, with_record_of};
ghost use Rattle.ada_resolve.specs.Objects.{type_in, object_type_found, object_type_remark, held_of, initial_items_in, initial_value_in, kind_of, initial_wanted, after_types, with_variable, missing_collections, lacks_collection};
ghost use Rattle.ada_resolve.specs.Paths.{designated_of};
ghost use Rattle.ada_resolve.specs.View.{assigned_in, known_of, optional_items, right_in};

use crate::components::KnownType;
use crate::fault::{NameFault, NameRule};
use crate::library::is_library_root;
use crate::notes::Notes;
use crate::resolver::Resolver;
use crate::rights::{Assigned, Held};
use crate::scope::Entity;
use ada_program::program::{self, Declaration, Variable, VariableKind};
use ada_program::{TypeNo, VariableNo};
use ada_tree::expressions;
use ada_tree::names::{Identifier, Name};

impl<'t> Resolver<'t> {
    /// `X : T := ..;` (3.3.1)
    pub(crate) fn object(
        &mut self,
        name: Identifier<'t>,
        type_name: &Name<'t>,
        initial: &Option<expressions::Right<'t>>,
        notes: &mut Notes,
    ) -> Result<(), NameFault>
        ensures { Declares result self notes (object_tree name.entry type_name.now initial.now) }
    {
        notes.node(name.spot);
        self.new_name(name, name.spot, notes);
        let found = self.object_type(type_name, notes);
        let value = self.initial(initial, held_of(found), notes)?;
        initial_wanted(found, name, initial, notes);
        notes.settle()?;
        match (found, kind_of(found)) {
            (Some(Entity::Record { number, size: _ }), _) => {
                self.create_record(name, number, initial_items(value))
            }
            (_, Some(kind)) => self.create(name, false, kind, initial_value(value)),
            (_, None) => Ok(()),
        }
    }

    /// A record object is known, by a type of its own, and is created: with these items, where there are any, else its components hold what their
    /// declarations say.
    fn create_record(
        &mut self,
        name: Identifier<'t>,
        number: TypeNo,
        items: Option<Vec<program::Item>>,
    ) -> Result<(), NameFault>
        ensures known { OnOk result (Changes self (with_record_of name.entry number items)) }
        ensures memory { IfErr result (λ e. e ≡ NameFault.NoMemory) }
    {
        let object = self.add_type(KnownType::Object { record: number })?;
        let kind = VariableKind::Record(object);
        let variable = self.add_variable(name, false, kind)?;
        self.add_record(variable, object, items)?;
        self.declare(name.text, Entity::Variable { variable, kind })
    }

    /// A variable is known, a borrower or not, and is created with its initial value.
    pub(crate) fn create(
        &mut self,
        name: Identifier<'t>,
        borrows: bool,
        kind: VariableKind,
        value: Option<program::Right>,
    ) -> Result<(), NameFault>
        ensures known { OnOk result (Changes self (with_object name.entry borrows kind value)) }
        ensures memory { IfErr result (λ e. e ≡ NameFault.NoMemory) }
    {
        let variable = self.add_variable(name, borrows, kind)?;
        self.add_elaboration(variable, value)?;
        self.declare(name.text, Entity::Variable { variable, kind })
    }

    /// One more variable.
    #[tactic(auto, unfolding(crate::specs::View::known_of), using(crate::proofs::Names::map_snoc))]
    pub(crate) fn add_variable(
        &mut self,
        name: Identifier<'t>,
        borrows: bool,
        kind: VariableKind,
    ) -> Result<VariableNo, NameFault>
        ensures known { OnOk result (Changes self (with_variable (new_variable name.entry borrows kind))) }
        ensures variable { IfOk result (λ p. p ≡ next_variable (known_of self.old)) }
        ensures memory { IfErr result (λ e. e ≡ NameFault.NoMemory) }
    {
        let variable = VariableNo(self.variables.len());
        let text = String::from_str(self.alloc, name.text)?;
        self.variables.push(Variable {
            name: text,
            spot: name.spot,
            kind,
            borrows,
        })?;
        Ok(variable)
    }

    /// An object is created with its initial value.
    #[tactic(auto, unfolding(crate::specs::View::known_of))]
    fn add_elaboration(
        &mut self,
        variable: VariableNo,
        initial: Option<program::Right>,
    ) -> Result<(), NameFault>
        ensures known { OnOk result (Changes self (with_created variable initial)) }
        ensures memory { IfErr result (λ e. e ≡ NameFault.NoMemory) }
    {
        self.here.add_object(variable, initial)
    }

    /// A record object is created, known by this type, perhaps with these items.
    #[tactic(auto, unfolding(crate::specs::View::known_of))]
    fn add_record(
        &mut self,
        variable: VariableNo,
        object: TypeNo,
        items: Option<Vec<program::Item>>,
    ) -> Result<(), NameFault>
        ensures known { OnOk result (Changes self (with_object_created variable object items)) }
        ensures memory { IfErr result (λ e. e ≡ NameFault.NoMemory) }
    {
        self.here.add_record(variable, object, items)
    }

    /// The initial value, where one is written.
    fn initial(
        &self,
        initial: &Option<expressions::Right<'t>>,
        held: Option<Held>,
        notes: &mut Notes,
    ) -> Result<Option<Assigned>, NameFault>
        ensures { Looks assigned_in result notes (initial_look self held initial.now) }
    {
        match initial {
            Some(right) => self.right(right, held, false, notes),
            None => Ok(None),
        }
    }

    /// What the type's name of an object stands for.
    #[tactic(auto, unfolding(crate::specs::Objects::object_type_found, crate::specs::Objects::object_type_remark))]
    fn object_type(&self, type_name: &Name<'t>, notes: &mut Notes) -> Option<Entity>
        ensures found { result ≡ object_type_found (known self) (name_of type_name.now) }
        ensures remark { IsNoted notes (object_type_remark (known self) (name_of type_name.now)) }
    {
        let spot = type_name.first.spot;
        if is_library_root(type_name.first.text) {
            if self
                .library(type_name.first, &type_name.rest, notes)
                .is_some()
            {
                notes.note(spot, NameRule::WrongType);
            }
            return None;
        }
        let alone = type_name.rest.is_empty();
        match self.lookup(type_name.first, notes) {
            Some(found) => {
                notes.note_if(!alone, spot, NameRule::WrongType);
                let complete = type_in(found);
                notes.note_if(complete.is_none(), spot, NameRule::WrongType);
                if alone { complete } else { None }
            }
            None => None,
        }
    }

    /// The types of the part end: an access type without an instance has its collection created here, in text order.
    #[tactic(auto, unfolding(crate::specs::Objects::after_types))]
    pub(crate) fn end_of_types(&mut self) -> Result<(), NameFault>
        ensures known { OnOk result (Changes self after_types) }
        ensures memory { IfErr result (λ e. e ≡ NameFault.NoMemory) }
    {
        if !self.types_go_on() {
            return Ok(());
        }
        let collections = self.collections()?;
        self.add_collections(collections)
    }

    /// The collections of the part's access types that have none yet, in text order.
    #[tactic(auto, unfolding(crate::specs::View::known_of, crate::specs::View::part_of))]
    fn collections(&self) -> Result<Vec<Declaration>, NameFault>
        ensures missing { Finds (each declaration_form) result (missing_collections (known self)) }
        ensures memory { IfErr result (λ e. e ≡ NameFault.NoMemory) }
    {
        let mut made = Vec::new(self.alloc);
        for i in self.here.first_type..self.types.len() {
            if self.lacks_collection(TypeNo(i)) {
                made.push(Declaration::Collection(TypeNo(i)))?;
            }
        }
        Ok(made)
    }

    /// Whether a type is an access type.
    #[tactic(auto, unfolding(crate::specs::View::known_of, crate::specs::Paths::designated_of), using(crate::proofs::Names::map_get))]
    fn is_access(&self, number: TypeNo) -> bool
        ensures { result ≡ is_some (designated_of (known self).types number.0) }
    {
        matches!(self.types.get(number.0), Some(KnownType::Access { .. }))
    }

    /// Whether a type is an access type whose collection isn't created yet.
    fn lacks_collection(&self, number: TypeNo) -> bool
        ensures { result ≡ lacks_collection (known self).types
            (known self).here.elaborated number.0 }
    {
        self.is_access(number) && !self.is_collected(number)
    }

    /// These collections are created.
    #[tactic(auto, unfolding(crate::specs::View::known_of))]
    fn add_collections(&mut self, collections: Vec<Declaration>) -> Result<(), NameFault>
        ensures known { OnOk result (Changes self (with_declarations collections)) }
        ensures memory { IfErr result (λ e. e ≡ NameFault.NoMemory) }
    {
        self.here.add_collections(collections)
    }
}

/// What a name stands for, if that is a type that is complete.
fn type_in(found: Entity) -> Option<Entity>
    ensures { result ≡ type_in (Some found) }
{
    match found {
        Entity::Integer | Entity::Boolean | Entity::Record { .. } | Entity::Access(_) => Some(
            found,
        ),
        _ => None,
    }
}

/// What an object of a type holds, where its initial value is looked at.
fn held_of(found: Option<Entity>) -> Option<Held>
    ensures { result ≡ held_of found }
{
    match found? {
        Entity::Integer => Some(Held::Integer),
        Entity::Boolean => Some(Held::Boolean),
        Entity::Access(access) => Some(Held::Access(access)),
        Entity::Record { number, size: _ } => Some(Held::Record(number)),
        _ => None,
    }
}

/// The value that is assigned first, where it is one.
fn initial_value(value: Option<Assigned>) -> Option<program::Right>
    ensures { right_in result ≡ initial_value_in (assigned_in value) }
{
    match value {
        Some(Assigned::Value(value)) => Some(value),
        Some(Assigned::Record(_)) | None => None,
    }
}

/// The items of the record that is assigned first, where it is one.
fn initial_items(value: Option<Assigned>) -> Option<Vec<program::Item>>
    ensures { optional_items result ≡ initial_items_in (assigned_in value) }
{
    match value {
        Some(Assigned::Record(items)) => Some(items),
        Some(Assigned::Value(_)) | None => None,
    }
}

/// What a variable of a type holds, which is no record object.
fn kind_of(found: Option<Entity>) -> Option<VariableKind>
    ensures { result ≡ kind_of found }
{
    match found? {
        Entity::Integer => Some(VariableKind::Integer),
        Entity::Boolean => Some(VariableKind::Boolean),
        Entity::Access(access) => Some(VariableKind::Access(access)),
        _ => None,
    }
}

/// An Integer or a Boolean has an initial value.
fn initial_wanted(
    found: Option<Entity>,
    name: Identifier<'_>,
    initial: &Option<expressions::Right<'_>>,
    notes: &mut Notes,
)
    ensures { IsNoted notes
        (initial_wanted found (ident_of name.entry) (optional_right_of initial.now)) }
{
    match found {
        Some(Entity::Integer | Entity::Boolean) => notes.note_if(
            initial.is_none(),
            name.spot,
            NameRule::NoInitialValue,
        ),
        Some(Entity::Access(_) | Entity::Record { .. }) | None => {}
        Some(_) => notes.note(name.spot, NameRule::NotInProfile),
    }
}
