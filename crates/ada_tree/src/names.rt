//! Identifiers, names and paths (2.3, 4.1).

ghost use Rattle.std.specs.Prelude.{◌≡◌};
ghost use Rattle.ada_tree.specs.Names.{is_name, path_of};

use ada_text::Spot;

/// An identifier in upper case, and where it stands (2.3).
#[derive(Clone, Copy)]
pub struct Identifier<'t> {
    pub text: &'t str,
    pub spot: Spot,
}

/// A name: one identifier or more, with dots between them (4.1).
#[derive(Drop)]
pub struct Name<'t> {
    pub first: Identifier<'t>,
    pub rest: Vec<Identifier<'t>>,
}

/// A path to an object: its root, and what is selected from it, one by one (4.1).
#[derive(Drop)]
pub struct Path<'t> {
    pub root: Identifier<'t>,
    pub selectors: Vec<Selector<'t>>,
}

impl<'t> Path<'t> {
    /// Whether it is a name: nothing in it is `all`.
    pub fn is_name(&self) -> bool
        ensures { result ≡ is_name (path_of self.now).selectors }
    {
        for selector in &self.selectors {
            if let Selector::All(_) = selector {
                return false;
            }
        }
        true
    }
}

/// What stands behind a dot of a path.
#[derive(Clone, Copy)]
pub enum Selector<'t> {
    /// A component of a record (4.1.3).
    Component(Identifier<'t>),
    /// `all`: the object that an access value designates (4.1); the spot is that of the word.
    All(Spot),
}
