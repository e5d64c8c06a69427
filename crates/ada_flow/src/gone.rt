//! What goes with blocks that are left: collections, record objects and variables.

ghost use Rattle.std.specs.Prelude.{◌≡◌, IfOk, ◌++◌, map};
ghost use Rattle.ada_flow.specs.Flow as rules;
ghost use Rattle.ada_flow.specs.Told.{gone_of, type_number, variable_number};
ghost use Rattle.ada_program.specs.Form.{declaration_form};

use ada_program::program::Declaration;
use ada_program::{TypeNo, VariableNo};
use std::alloc::{AllocError, Global};

/// What is gone behind blocks, of which nothing may be relied on there.
#[derive(Drop)]
pub(crate) struct Gone {
    /// The access types whose collections are gone, and the types by which record objects were known that are.
    pub(crate) types: Vec<TypeNo>,
    /// The variables that are gone.
    pub(crate) variables: Vec<VariableNo>,
}

impl Gone {
    /// Nothing is gone.
    pub(crate) fn nothing(alloc: Global) -> Gone
        ensures { gone_of result ≡ rules.nothing_gone }
    {
        Gone {
            types: Vec::new(alloc),
            variables: Vec::new(alloc),
        }
    }

    /// What goes with a block that has these declarations.
    pub(crate) fn with(alloc: Global, declarations: &[Declaration]) -> Result<Gone, AllocError>
        ensures { IfOk result
            (λ gone. gone_of gone ≡ rules.gone_with (map declaration_form declarations.now)) }
    {
        let types = collected(alloc, declarations)?;
        let variables = declared(alloc, declarations)?;
        Ok(Gone { types, variables })
    }

    /// What goes with this block and those around it. Costs as much as goes with them.
    pub(crate) fn and(&self, alloc: Global, outer: &Gone) -> Result<Gone, AllocError>
        ensures { IfOk result
            (λ both. gone_of both ≡ rules.gone_with_both (gone_of self.now) (gone_of outer.now)) }
    {
        let types = joined_types(alloc, &self.types, &outer.types)?;
        let variables = joined_variables(alloc, &self.variables, &outer.variables)?;
        Ok(Gone { types, variables })
    }
}

/// The access types whose collections declarations create, and the types by which their record objects are known.
fn collected(alloc: Global, declarations: &[Declaration]) -> Result<Vec<TypeNo>, AllocError>
    ensures { IfOk result
        (λ types. map type_number types.items ≡ rules.collected (map declaration_form declarations.now)) }
{
    let mut types = Vec::new(alloc);
    'declarations: for one in declarations {
        match one {
            Declaration::Collection(known)
            | Declaration::Record {
                variable: _,
                object: known,
                initial: _,
            } => {
                types.push(*known)?;
            }
            Declaration::Pool(_) | Declaration::Variable { .. } => {}
        }
    }
    Ok(types)
}

/// The variables that declarations create.
fn declared(alloc: Global, declarations: &[Declaration]) -> Result<Vec<VariableNo>, AllocError>
    ensures { IfOk result
        (λ created. map variable_number created.items ≡ rules.declared (map declaration_form declarations.now)) }
{
    let mut created = Vec::new(alloc);
    'declarations: for one in declarations {
        match one {
            Declaration::Variable {
                variable,
                initial: _,
            }
            | Declaration::Record {
                variable,
                object: _,
                initial: _,
            } => {
                created.push(*variable)?;
            }
            Declaration::Pool(_) | Declaration::Collection(_) => {}
        }
    }
    Ok(created)
}

/// The types of a block, and those of the blocks around it.
fn joined_types(
    alloc: Global,
    types: &[TypeNo],
    others: &[TypeNo],
) -> Result<Vec<TypeNo>, AllocError>
    ensures { IfOk result
        (λ all. map type_number all.items ≡ map type_number types.now ++ map type_number others.now) }
{
    let mut all = types.to_vec(alloc)?;
    all.extend_from_slice(others)?;
    Ok(all)
}

/// The variables of a block, and those of the blocks around it.
fn joined_variables(
    alloc: Global,
    variables: &[VariableNo],
    others: &[VariableNo],
) -> Result<Vec<VariableNo>, AllocError>
    ensures { IfOk result
        (λ all. map variable_number all.items ≡ map variable_number variables.now ++ map variable_number others.now) }
{
    let mut all = variables.to_vec(alloc)?;
    all.extend_from_slice(others)?;
    Ok(all)
}
