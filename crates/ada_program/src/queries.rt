//! What a program says of its types, and the names of exceptions.

use crate::program::{ComponentKind, Exception, PoolNo, Program, TypeDefinition, TypeNo};

impl Program {
    ghost use Rattle.std.specs.Prelude.{◌≡◌, option_copied, option_map};
    ghost use Rattle.ada_program.specs.ProgramForm.{pool_number};
    ghost use Rattle.ada_program.specs.Typed.{designated_of, pool_named, reached_of, width_of, words_of};

    /// The elementary components of the objects that the type's values name, in order.
    /// None, if the type is neither an access type to a record type nor that of a record object.
    pub fn components(&self, access: TypeNo) -> Option<&[ComponentKind]>
        ensures { option_copied result ≡ reached_of self.now.types.items access.0 }
    {
        match self.types.get(self.record_of(access)?.0) {
            Some(
                TypeDefinition::Record {
                    name: _,
                    parts: _,
                    components,
                    finalization: _,
                },
            ) => Some(components),
            _ => None,
        }
    }

    /// The record type of the objects that the type's values name.
    pub fn record_of(&self, access: TypeNo) -> Option<TypeNo>
        ensures { option_map (λ t. t.0) result ≡ designated_of self.now.types.items access.0 }
    {
        match self.types.get(access.0)? {
            TypeDefinition::Access {
                name: _,
                designated,
                pool: _,
            } => Some(*designated),
            TypeDefinition::Object { record } => Some(*record),
            TypeDefinition::Record { .. } => None,
        }
    }

    /// The declared pool of the objects of an access type (13.11). None, where it is the standard pool, or the type is no
    /// access type.
    pub fn pool(&self, access: TypeNo) -> Option<PoolNo>
        ensures { pool_number result ≡ pool_named self.now.types.items access.0 }
    {
        match self.types.get(access.0)? {
            TypeDefinition::Access {
                name: _,
                designated: _,
                pool,
            } => *pool,
            TypeDefinition::Record { .. } | TypeDefinition::Object { .. } => None,
        }
    }

    /// How many elementary components a record type has: 0, if the type is none.
    pub fn width(&self, number: TypeNo) -> usize
        ensures { result ≡ width_of self.now.types.items number.0 }
    {
        match self.types.get(number.0) {
            Some(
                TypeDefinition::Record {
                    name: _,
                    parts: _,
                    components,
                    finalization: _,
                },
            ) => components.len(),
            _ => 0,
        }
    }

    /// How many words an object takes that the access type's values name: one for each of its components.
    /// 0, if the type is no access type.
    pub fn words(&self, access: TypeNo) -> usize
        ensures { result ≡ words_of self.now.types.items access.0 }
    {
        match self.components(access) {
            Some(components) => components.len(),
            None => 0,
        }
    }
}

impl Exception {
    ghost use Rattle.std.specs.Prelude.{◌≡◌, map};
    ghost use Rattle.std.specs.String.{string_bytes};
    ghost use Rattle.ada_program.specs.Names.{exception_name};

    /// Its name in upper case (11.4.1): the empty text, if the program declares no such exception.
    pub fn name<'a>(self, program: &'a Program) -> &'a str
        ensures { result.now ≡ exception_name (map string_bytes program.now.exceptions.items) self }
    {
        match self {
            Exception::ConstraintError => "CONSTRAINT_ERROR",
            Exception::ProgramError => "PROGRAM_ERROR",
            Exception::StorageError => "STORAGE_ERROR",
            Exception::EndError => "END_ERROR",
            Exception::Declared(exception) => match program.exceptions.get(exception.0) {
                None => "",
                Some(name) => name,
            },
        }
    }
}
