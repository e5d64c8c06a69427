//! The library's names, and those that are predefined.

ghost use Rattle.std.specs.Prelude.{◌≡◌, map, [], ◌∷◌};
ghost use Rattle.ada_tree.specs.Names.{ident_of};
ghost use Rattle.ada_resolve.specs.Known.{is_unit_named, is_with, library_rule, unused_rule};
ghost use Rattle.ada_resolve.specs.Library.{spelled, other_in_ada, in_ada, in_system, other_in_pools, in_pools, in_input, library_name, is_library_root, is_primitive, missing_rule, no_component_rule};

use crate::fault::NameRule;
use ada_tree::names::Identifier;

/// What a name that begins with a library's root stands for.
#[derive(Clone, Copy)]
pub(crate) enum LibraryName {
    /// `Ada.Text_IO` (A.10)
    TextIo,
    /// `Ada.Text_IO.Put_Line`
    PutLine,
    /// `Ada.Unchecked_Deallocation` (13.11.2): the unit, and the generic procedure.
    UncheckedDeallocation,
    /// `Ada.Finalization` (7.6)
    Finalization,
    /// `Ada.Finalization.Controlled` (7.6)
    Controlled,
    /// `Ada.Finalization.Limited_Controlled` (7.6)
    LimitedControlled,
    /// `Profile_Pools`, the profile's own unit.
    Pools,
    /// `Profile_Pools.First_Fit_Pool`, a pool's type (13.11).
    FirstFitPool,
    /// A name under `Profile_Pools` that is not in use.
    OfPools,
    /// `Run_Input`, the profile's own unit.
    RunInput,
    /// `Run_Input.Get`
    Get,
    /// `Run_Input.End_Error`
    EndError,
    /// A name of the profile's library whose unit is not in use.
    OtherUnit,
    /// No name of the profile's library.
    Unknown,
}

/// The library units that are named in `with` clauses.
#[derive(Clone, Copy)]
pub(crate) struct Withs {
    pub(crate) text_io: bool,
    pub(crate) deallocation: bool,
    pub(crate) finalization: bool,
    pub(crate) pools: bool,
    pub(crate) run_input: bool,
}

impl Withs {
    /// Whether the unit of a library name is named, and the name is in use.
    pub(crate) fn has(&self, name: LibraryName) -> bool
        ensures { result ≡ is_with self.now name }
    {
        match name {
            LibraryName::TextIo | LibraryName::PutLine => self.text_io,
            LibraryName::UncheckedDeallocation => self.deallocation,
            LibraryName::Finalization | LibraryName::Controlled | LibraryName::LimitedControlled =>
                { self.finalization }
            LibraryName::Pools | LibraryName::FirstFitPool => self.pools,
            LibraryName::RunInput | LibraryName::Get | LibraryName::EndError => self.run_input,
            LibraryName::OfPools | LibraryName::OtherUnit | LibraryName::Unknown => false,
        }
    }

    /// The rule that a name of the library breaks for which the units have nothing.
    pub(crate) fn rule(&self, name: LibraryName) -> NameRule
        ensures { result ≡ library_rule self.now name }
    {
        match name {
            LibraryName::Unknown => NameRule::NotInProfile,
            LibraryName::OfPools => unused_rule(self.pools),
            _ => NameRule::UnknownName,
        }
    }

    /// Whether this is the name of a unit of one name that is named.
    #[tactic(auto, unfolding(crate::specs::Library::is_library_root))]
    pub(crate) fn is_unit_named(&self, text: &str) -> bool
        ensures { result ≡ is_unit_named self.now text.now }
    {
        (text == "RUN_INPUT" && self.run_input) || (text == "PROFILE_POOLS" && self.pools)
    }
}

/// What the name stands for whose identifiers are these.
#[tactic(auto, unfolding(crate::specs::Library::library_name))]
pub(crate) fn library_name(first: &str, rest: &[Identifier<'_>]) -> LibraryName
    ensures { result ≡ library_name first.now (map ident_of rest.now) }
{
    match first {
        "ADA" => in_ada(rest),
        "SYSTEM" => in_system(rest),
        "PROFILE_POOLS" => in_pools(rest),
        "RUN_INPUT" => in_input(rest),
        _ => LibraryName::Unknown,
    }
}

/// What the name stands for after `Ada`.
#[tactic(auto, unfolding(crate::specs::Library::in_ada))]
fn in_ada(rest: &[Identifier<'_>]) -> LibraryName
    ensures { result ≡ in_ada (map ident_of rest.now) }
{
    if is_one(rest, "TEXT_IO") {
        LibraryName::TextIo
    } else if is_two(rest, "TEXT_IO", "PUT_LINE") {
        LibraryName::PutLine
    } else if is_one(rest, "UNCHECKED_DEALLOCATION") {
        LibraryName::UncheckedDeallocation
    } else {
        other_in_ada(rest)
    }
}

/// A further name after `Ada`: Finalization and its types, or a unit that is not in use.
#[tactic(auto, unfolding(crate::specs::Library::other_in_ada))]
fn other_in_ada(rest: &[Identifier<'_>]) -> LibraryName
    ensures { result ≡ other_in_ada (map ident_of rest.now) }
{
    if is_one(rest, "FINALIZATION") {
        return LibraryName::Finalization;
    }
    if is_two(rest, "FINALIZATION", "CONTROLLED") {
        return LibraryName::Controlled;
    }
    if is_two(rest, "FINALIZATION", "LIMITED_CONTROLLED") {
        return LibraryName::LimitedControlled;
    }
    if is_one(rest, "UNCHECKED_DEALLOCATE_SUBPOOL") {
        return LibraryName::OtherUnit;
    }
    LibraryName::Unknown
}

/// What the name stands for after `System`.
#[tactic(auto, unfolding(crate::specs::Library::in_system))]
fn in_system(rest: &[Identifier<'_>]) -> LibraryName
    ensures { result ≡ in_system (map ident_of rest.now) }
{
    if is_two(rest, "STORAGE_POOLS", "SUBPOOLS") {
        return LibraryName::OtherUnit;
    }
    if is_three(rest, "STORAGE_POOLS", "SUBPOOLS", "SUBPOOL_HANDLE") {
        return LibraryName::OtherUnit;
    }
    LibraryName::Unknown
}

/// What the name stands for after `Profile_Pools`.
#[tactic(auto, unfolding(crate::specs::Library::in_pools))]
fn in_pools(rest: &[Identifier<'_>]) -> LibraryName
    ensures { result ≡ in_pools (map ident_of rest.now) }
{
    if is_none(rest) {
        LibraryName::Pools
    } else if is_one(rest, "FIRST_FIT_POOL") {
        LibraryName::FirstFitPool
    } else {
        other_in_pools(rest)
    }
}

/// A name after `Profile_Pools` that is not in use.
#[tactic(auto, unfolding(crate::specs::Library::other_in_pools))]
fn other_in_pools(rest: &[Identifier<'_>]) -> LibraryName
    ensures { result ≡ other_in_pools (map ident_of rest.now) }
{
    if is_one(rest, "SUBPOOL_POOL") {
        LibraryName::OfPools
    } else if is_one(rest, "MARK_RELEASE_POOL") {
        LibraryName::OfPools
    } else if is_one(rest, "CREATE_SUBPOOL") {
        LibraryName::OfPools
    } else {
        LibraryName::Unknown
    }
}

/// What the name stands for after `Run_Input`.
#[tactic(auto, unfolding(crate::specs::Library::in_input))]
fn in_input(rest: &[Identifier<'_>]) -> LibraryName
    ensures { result ≡ in_input (map ident_of rest.now) }
{
    if is_none(rest) {
        LibraryName::RunInput
    } else if is_one(rest, "GET") {
        LibraryName::Get
    } else if is_one(rest, "END_ERROR") {
        LibraryName::EndError
    } else {
        LibraryName::Unknown
    }
}

/// Whether there are no identifiers.
#[tactic(auto, using(crate::proofs::Names::spelled_none))]
fn is_none(rest: &[Identifier<'_>]) -> bool
    ensures { result ≡ spelled (map ident_of rest.now) [] }
{
    rest.is_empty()
}

/// Whether the identifiers are this one.
#[tactic(auto, using(crate::proofs::Names::spelled_short))]
fn is_one(rest: &[Identifier<'_>], text: &str) -> bool
    ensures { result ≡ spelled (map ident_of rest.now) (text.now ∷ []) }
{
    match rest.split_first() {
        Some((head, tail)) => head.text == text && is_none(tail),
        None => false,
    }
}

/// Whether the identifiers are these two.
#[tactic(auto, using(crate::proofs::Names::spelled_short))]
fn is_two(rest: &[Identifier<'_>], first: &str, second: &str) -> bool
    ensures { result ≡ spelled (map ident_of rest.now) (first.now ∷ second.now ∷ []) }
{
    match rest.split_first() {
        Some((head, tail)) => head.text == first && is_one(tail, second),
        None => false,
    }
}

/// Whether the identifiers are these three.
#[tactic(auto, using(crate::proofs::Names::spelled_short))]
fn is_three(rest: &[Identifier<'_>], first: &str, second: &str, third: &str) -> bool
    ensures { result ≡ spelled (map ident_of rest.now) (first.now ∷ second.now ∷ third.now ∷ []) }
{
    match rest.split_first() {
        Some((head, tail)) => head.text == first && is_two(tail, second, third),
        None => false,
    }
}

/// Whether a name that begins so is looked for in the library alone.
#[tactic(auto, unfolding(crate::specs::Library::is_library_root))]
pub(crate) fn is_library_root(text: &str) -> bool
    ensures { result ≡ is_library_root text.now }
{
    text == "ADA" || text == "SYSTEM" || text == "PROFILE_POOLS" || text == "RUN_INPUT"
}

/// Whether the name is one of the primitives of controlled types (7.6).
#[tactic(auto, unfolding(crate::specs::Library::is_primitive))]
pub(crate) fn is_primitive(text: &str) -> bool
    ensures { result ≡ is_primitive text.now }
{
    text == "INITIALIZE" || text == "ADJUST" || text == "FINALIZE"
}

/// The rule that a name breaks of which nothing is visible.
#[tactic(auto, unfolding(crate::specs::Library::missing_rule))]
pub(crate) fn missing_rule(text: &str) -> NameRule
    ensures { result ≡ missing_rule text.now }
{
    if is_primitive(text) || text == "ADA" || text == "SYSTEM" {
        NameRule::NotInProfile
    } else {
        NameRule::UnknownName
    }
}

/// The rule that a name breaks which is not in use, where its unit is named in a `with` clause or not.
pub(crate) fn unused_rule(named: bool) -> NameRule
    ensures { result ≡ unused_rule named }
{
    if named {
        NameRule::NotInProfile
    } else {
        NameRule::UnknownName
    }
}

/// The rule that a name breaks that no component has.
pub(crate) fn no_component_rule(text: &str) -> NameRule
    ensures { result ≡ no_component_rule text.now }
{
    if is_primitive(text) {
        NameRule::NotInProfile
    } else {
        NameRule::UnknownName
    }
}
