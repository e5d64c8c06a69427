//! Paths, where a value or a name of the library is wanted (4.1, 10.1.1).

ghost use Rattle.std.specs.Prelude.{◌≡◌, map, slice_get, option_copied, IfErr};
ghost use Rattle.ada_tree.specs.Names.{ident_of, path_of, selector_of};
ghost use Rattle.ada_program.specs.Form.{expression_form, path_form};
ghost use Rattle.ada_program.specs.WellFormed.{finalization_of};
ghost use Rattle.ada_resolve.specs.Kept.{forms_in, kinds_in, known_type_form};
ghost use Rattle.ada_resolve.specs.Known.{next_variable, parts_of};
ghost use Rattle.ada_resolve.specs.Look.{Looks, library_path_look, named_look, outer_look, path_look, variable_look};
ghost use Rattle.ada_resolve.specs.Method.{known, Finds, IsNoted, each, constant_remark};
ghost use Rattle.ada_resolve.specs.Paths.{component_named, constant_read, constant_wanted, components_of, designated_of, elementary_of, follows_to, follows_value, is_first_variable, is_incomplete_type, is_kept_operand, is_record_kind, lent_by, name_of_type, reached_meant, record_of_object, variable_reached, written_remark};
ghost use Rattle.ada_resolve.specs.View.{meant_of, optional_number, itself};

use crate::components::{Components, KnownComponent, KnownType};
use crate::fault::{NameFault, NameRule};
use crate::library::{LibraryName, is_library_root};
use crate::meant::Meant;
use crate::notes::Notes;
use crate::part::{is_incomplete_in, is_this_incomplete};
use crate::resolver::Resolver;
use crate::scope::{Entity, Role};
use crate::selectors::Reached;
use ada_program::program::{self, ComponentNo, Expression, Finalization, RecordPath, VariableKind};
use ada_program::{PartNo, Spot, TypeNo, VariableNo};
use ada_tree::names::{Identifier, Path, Selector};

impl<'t> Resolver<'t> {
    /// What a path means, where a value is wanted, with what is wrong with it noted. It is no node of the source by itself.
    #[tactic(auto, unfolding(crate::specs::Paths::path_meant, crate::specs::Paths::path_remark))]
    pub(crate) fn path(&self, path: &Path<'t>, notes: &mut Notes) -> Result<Meant, NameFault>
        ensures { Looks meant_of result notes (path_look self path.now) }
    {
        let root = path.root;
        if is_library_root(root.text) {
            let found = self.library_path(path, notes)?;
            if found.is_some() {
                notes.note(root.spot, NameRule::WrongType);
            }
            return Ok(Meant::Unknown);
        }
        self.named_value(root, &path.selectors, notes)
    }

    /// What a name stands for, with what is selected from it, where a value is wanted.
    #[tactic(auto, using(std::proofs::lemmas::Grind::common_steps, ada_program::specs::Form::expression_rules))]
    fn named_value(
        &self,
        name: Identifier<'t>,
        selectors: &[Selector<'t>],
        notes: &mut Notes,
    ) -> Result<Meant, NameFault>
        ensures { Looks meant_of result notes (named_look self name.entry selectors.now) }
    {
        match (self.lookup(name, notes), selectors) {
            (Some(Entity::Variable { variable, kind } | Entity::Parameter { variable, kind }), _) =>
                self.variable_value(variable, name.spot, kind, selectors, notes),
            (Some(Entity::Outer { kind, role }), _) => {
                notes.note(name.spot, NameRule::NotInProfile);
                self.outer_value(kind, role, name.spot, selectors, notes)
            }
            (Some(Entity::Number(value)), []) => Ok(Meant::Integer(Expression::Integer(value))),
            (Some(Entity::Truth(value)), []) => Ok(Meant::Boolean(Expression::Boolean(value))),
            (Some(_), _) => {
                notes.note(name.spot, NameRule::WrongType);
                Ok(Meant::Unknown)
            }
            (None, _) => Ok(Meant::Unknown),
        }
    }

    /// What is written to, which means this, is no constant, and not the operand that an operation keeps.
    pub(crate) fn written(&self, path: &Path<'t>, meant: &Meant, notes: &mut Notes)
        ensures { let written = path_of path.now in
            IsNoted notes (written_remark (known self) written (meant_of meant.now)) }
    {
        self.no_constant(path, meant, notes);
        notes.note_if(
            self.is_kept_operand(path),
            path.root.spot,
            NameRule::NotInProfile,
        );
    }

    /// Whether a path is the operand, as a whole, of an operation that keeps it (7.6).
    #[tactic(auto, unfolding(crate::specs::View::known_of, crate::specs::View::part_of))]
    fn is_kept_operand(&self, path: &Path<'t>) -> bool
        ensures { result ≡ is_kept_operand (known self) (path_of path.now) }
    {
        self.here.keeps_operand
            && path.selectors.is_empty()
            && is_first_variable(self.visible(path.root.text))
    }

    /// What is written to, which means this, is no constant, with what is selected from it.
    fn no_constant(&self, path: &Path<'t>, meant: &Meant, notes: &mut Notes)
        ensures { IsNoted notes (constant_remark self path.now (meant_of meant.now)) }
    {
        if let Some(
            Entity::Parameter { .. }
            | Entity::Outer {
                role: Role::Constant,
                ..
            },
        ) = self.visible(path.root.text)
        {
            constant_wanted(meant, path.root.spot, notes);
        }
    }

    /// What an object of a body around means, with what is selected from it: a borrower as a whole lends what it holds.
    fn outer_value(
        &self,
        kind: VariableKind,
        role: Role,
        spot: Spot,
        selectors: &[Selector<'t>],
        notes: &mut Notes,
    ) -> Result<Meant, NameFault>
        ensures { Looks meant_of result notes (outer_look self kind role spot selectors.now) }
    {
        let meant = self.variable_value(self.next_variable(), spot, kind, selectors, notes)?;
        match (role, selectors) {
            (Role::Borrower, []) => Ok(lent_by(kind)),
            _ => Ok(meant),
        }
    }

    /// The number of the next variable.
    #[tactic(auto, unfolding(crate::specs::View::known_of))]
    fn next_variable(&self) -> VariableNo
        ensures { result ≡ next_variable (known self) }
    {
        VariableNo(self.variables.len())
    }

    /// What a variable means, with what is selected from it.
    fn variable_value(
        &self,
        root: VariableNo,
        spot: Spot,
        kind: VariableKind,
        selectors: &[Selector<'t>],
        notes: &mut Notes,
    ) -> Result<Meant, NameFault>
        ensures { Looks meant_of result notes (variable_look self root spot kind selectors.now) }
    {
        let mut components = Vec::new(self.alloc);
        let reached = self.selectors(
            self.variable_reached(kind),
            spot,
            selectors,
            &mut components,
            notes,
        )?;
        reached.record_type_wanted(spot, notes);
        Ok(reached_meant(
            reached,
            program::Path {
                root,
                of_record: is_record_kind(kind),
                selectors: components,
                spot,
            },
        ))
    }

    /// What the name of a variable reaches: its value, or the record object that it is.
    fn variable_reached(&self, kind: VariableKind) -> Reached
        ensures { result ≡ variable_reached (known self) kind }
    {
        if let VariableKind::Record(object) = kind
            && let Some(number) = self.record_of_object(object)
        {
            return Reached::Object {
                number,
                first: 0,
                part: 0,
            };
        }
        Reached::Value(kind)
    }

    /// The record type of the record object or parameter that is known by a type.
    #[tactic(auto, unfolding(crate::specs::View::known_of, crate::specs::Paths::record_of_object), using(crate::proofs::Names::map_get))]
    pub(crate) fn record_of_object(&self, object: TypeNo) -> Option<TypeNo>
        ensures { optional_number result ≡ record_of_object (known self).types object.0 }
    {
        match self.types.get(object.0) {
            Some(KnownType::Object { record }) => Some(*record),
            _ => None,
        }
    }

    /// The component of a name in a type: its place, and what it is.
    pub(crate) fn component_of(
        &self,
        number: TypeNo,
        text: &'t str,
    ) -> Option<(usize, KnownComponent)>
        ensures { result ≡ component_named 0 text.now (components_of (known self).types number.0) }
    {
        self.components_of(number)?.named(text)
    }

    /// The type that an access type designates.
    #[tactic(auto, unfolding(crate::specs::View::known_of, crate::specs::Paths::designated_of), using(crate::proofs::Names::map_get))]
    pub(crate) fn designated_type(&self, access: TypeNo) -> Option<TypeNo>
        ensures { optional_number result ≡ designated_of (known self).types access.0 }
    {
        match self.types.get(access.0) {
            Some(
                KnownType::Access {
                    name: _,
                    designated,
                    pool: _,
                },
            ) => Some(*designated),
            _ => None,
        }
    }

    /// The components of a record type.
    #[tactic(auto, unfolding(crate::specs::View::known_of))]
    pub(crate) fn components_of(&self, number: TypeNo) -> Option<&Components<'t>>
        ensures declared { forms_in (option_copied result)
            ≡ components_of (known self).types number.0 }
        ensures elementary { kinds_in (option_copied result)
            ≡ elementary_of (known self).types number.0 }
    {
        components_of(&self.types, number)
    }

    /// How objects of the record type of a number are finalized, where they have controlled parts.
    #[tactic(auto, unfolding(crate::specs::View::known_of), using(crate::proofs::Names::map_get))]
    pub(crate) fn finalization_of(&self, number: TypeNo) -> Option<Finalization>
        ensures { result ≡ finalization_of (known self).types number.0 }
    {
        match self.types.get(number.0) {
            Some(
                KnownType::Record {
                    name: _,
                    components: _,
                    finalization,
                },
            ) => *finalization,
            _ => None,
        }
    }

    /// Whether a type is still incomplete.
    #[tactic(auto, unfolding(crate::specs::View::known_of, crate::specs::Paths::is_incomplete_type))]
    pub(crate) fn is_incomplete(&self, number: TypeNo) -> bool
        ensures { result ≡ is_incomplete_type (known self) number.0 }
    {
        match self.name_of_type(number) {
            Some(name) => {
                is_this_incomplete(number, self.declared(name))
                    || is_incomplete_in(&self.outer, number, name)
            }
            None => false,
        }
    }

    /// The name of a type.
    #[tactic(auto, unfolding(crate::specs::View::known_of), using(crate::proofs::Names::map_get))]
    fn name_of_type(&self, number: TypeNo) -> Option<&'t str>
        ensures { option_copied result ≡ name_of_type (slice_get (known self).types number.0) }
    {
        match self.types.get(number.0) {
            Some(KnownType::Record { name, .. } | KnownType::Access { name, .. }) => Some(*name),
            Some(KnownType::Object { .. }) | None => None,
        }
    }

    /// What a path that begins with a root of the library stands for, whose unit is named in a `with` clause.
    pub(crate) fn library_path(
        &self,
        path: &Path<'t>,
        notes: &mut Notes,
    ) -> Result<Option<LibraryName>, NameFault>
        ensures { Looks itself result notes (library_path_look self path.now) }
    {
        if path.is_name() {
            let parts = self.parts(&path.selectors)?;
            Ok(self.library(path.root, &parts, notes))
        } else {
            notes.note(path.root.spot, NameRule::NotInProfile);
            Ok(None)
        }
    }

    /// The identifiers that a path selects, one by one.
    fn parts(&self, selectors: &[Selector<'t>]) -> Result<Vec<Identifier<'t>>, NameFault>
        ensures parts { Finds (each ident_of) result (parts_of (map selector_of selectors.now)) }
        ensures memory { IfErr result (λ e. e ≡ NameFault.NoMemory) }
    {
        let mut parts = Vec::new(self.alloc);
        for selector in selectors {
            if let Selector::Component(name) = selector {
                parts.push(*name)?;
            }
        }
        Ok(parts)
    }
}

/// What a path means, by what it reaches.
#[tactic(auto, using(std::proofs::lemmas::Grind::common_steps, ada_program::specs::Form::expression_rules))]
fn reached_meant(reached: Reached, path: program::Path) -> Meant
    ensures { meant_of result ≡ reached_meant (path_form path) reached }
{
    match reached {
        Reached::Value(VariableKind::Integer) => Meant::Integer(Expression::Path(path)),
        Reached::Value(VariableKind::Boolean) => Meant::Boolean(Expression::Path(path)),
        Reached::Value(VariableKind::Access(access)) => Meant::Access(path, access),
        Reached::Object {
            number,
            first,
            part,
        } => Meant::Record(RecordPath {
            object: path,
            first: ComponentNo(first),
            part: PartNo(part),
            record: number,
        }),
        Reached::Value(VariableKind::Record(_)) | Reached::Nothing => Meant::Unknown,
    }
}

/// Whether a name stands for the first variable of its body, which the operand of an operation is.
fn is_first_variable(found: Option<Entity>) -> bool
    ensures { result ≡ is_first_variable found }
{
    match found {
        Some(Entity::Variable { variable, .. }) => variable.0 == 0,
        _ => false,
    }
}

/// Nothing is written to a constant, nor to a component of one, but to what an access value gives access to.
fn constant_wanted(meant: &Meant, spot: Spot, notes: &mut Notes)
    ensures { IsNoted notes (constant_wanted (meant_of meant.now) spot) }
{
    match meant {
        Meant::Integer(value) | Meant::Boolean(value) => constant_read(value, spot, notes),
        Meant::Access(path, _) => {
            notes.note_if(!follows_value(path), spot, NameRule::WrongType);
        }
        Meant::Record(path) => {
            notes.note_if(!follows_to(&path.object), spot, NameRule::WrongType);
        }
        Meant::Unknown | Meant::Null | Meant::Aggregate(_, _) | Meant::Lent(_) => {}
    }
}

/// The value of a constant, or of a component of one, is not written.
#[tactic(auto, using(std::proofs::lemmas::Grind::common_steps, ada_program::specs::Form::expression_rules))]
fn constant_read(value: &Expression, spot: Spot, notes: &mut Notes)
    ensures { IsNoted notes (constant_read (expression_form value.now) spot) }
{
    match value {
        Expression::Path(path) => {
            notes.note_if(!follows_value(path), spot, NameRule::WrongType);
        }
        Expression::Integer(_)
        | Expression::Boolean(_)
        | Expression::NullTest { .. }
        | Expression::Unary { .. }
        | Expression::Chain { .. } => {}
    }
}

/// Whether a path to a value follows an access value on its way: the first component of a record object is its own.
fn follows_value(path: &program::Path) -> bool
    ensures { let followed = path_form path.now in
        result ≡ follows_value followed.of_record followed.selectors }
{
    match path.selectors.as_slice() {
        [] => false,
        [_] => !path.of_record,
        _ => true,
    }
}

/// Whether a path to an object follows an access value: the object is not the record object with which the path begins.
fn follows_to(path: &program::Path) -> bool
    ensures { let followed = path_form path.now in
        result ≡ follows_to followed.of_record followed.selectors }
{
    !path.of_record || !path.selectors.is_empty()
}

/// What a borrower of a body around holds.
fn lent_by(kind: VariableKind) -> Meant
    ensures { meant_of result ≡ lent_by kind }
{
    match kind {
        VariableKind::Access(access) => Meant::Lent(access),
        VariableKind::Integer | VariableKind::Boolean | VariableKind::Record(_) => Meant::Unknown,
    }
}

/// Whether a variable is a record object or parameter.
pub(crate) fn is_record_kind(kind: VariableKind) -> bool
    ensures { result ≡ is_record_kind kind }
{
    matches!(kind, VariableKind::Record(_))
}

/// The components of a record type among these.
#[tactic(auto, unfolding(crate::specs::Paths::components_of, crate::specs::Paths::elementary_of), using(crate::proofs::Names::map_get))]
pub(crate) fn components_of<'k, 't>(
    types: &'k [KnownType<'t>],
    number: TypeNo,
) -> Option<&'k Components<'t>>
    ensures declared { forms_in (option_copied result)
        ≡ components_of (map known_type_form types.now) number.0 }
    ensures elementary { kinds_in (option_copied result)
        ≡ elementary_of (map known_type_form types.now) number.0 }
{
    match types.get(number.0) {
        Some(
            KnownType::Record {
                name: _,
                components,
                finalization: _,
            },
        ) => Some(components),
        _ => None,
    }
}
