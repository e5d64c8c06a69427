//! The masters that are entered, with their items on one stack.

ghost use Rattle.std.specs.Prelude.{◌≡◌, [], ◌∷◌, Some, None, IfOk, OnOk, MatchOption};
ghost use Rattle.ada_meaning.specs.State.{height, home_of, pool_of, pools_in, pool_freed_to};
ghost use Rattle.ada_meaning.specs.Step.{owning, shorter, older};
ghost use Rattle.ada_interpreter.specs.Masters.{owned_of, access_key, pool_key, pool_known, counted_by, uncounted_by, destination_of, remains_of, HasNoItem, previous_of};

use crate::newest::{Destination, Newest, home_by, make_room, newest_at, pool_by, set_newest};
use crate::stack::Stack;
use ada_program::{PoolNo, TypeNo, VariableNo};
use std::alloc::{AllocError, Global};
use std::marker::Model;

/// What a master owns (7.6.1).
#[derive(Clone, Copy)]
pub(crate) enum Owned {
    Declared(VariableNo),
    /// The collection of an access type.
    Collection {
        access: TypeNo,
        /// The pool of its objects (13.11): none, where that didn't exist as the collection was created.
        pool: Option<usize>,
    },
    /// A record object, by the type that it is known by.
    Record(TypeNo),
    /// A declared pool (13.11), with the number that it has in the run.
    Pool {
        declaration: PoolNo,
        number: usize,
    },
}

/// An item of a master. Its number is how many items are below it.
#[derive(Clone, Copy)]
struct Item {
    owned: Owned,
    /// For a collection: the next newest one of its access type that is open. For a pool: that of its declaration that
    /// exists.
    previous: Option<Newest>,
}

/// A master that is entered.
#[derive(Clone, Copy)]
struct Master {
    number: u64,
    /// How many items it has: the newest of those that no inner master has.
    count: usize,
}

/// The masters that are entered, seen as the list of them, innermost first.
#[derive(Drop)]
pub(crate) struct Masters {
    /// The innermost is the newest.
    entered: Stack<Master>,
    /// The items of all of them.
    items: Stack<Item>,
    /// By access type: its newest collection that is open.
    collections: Vec<Option<Newest>>,
    /// By declaration: its newest pool that exists.
    pools: Vec<Option<Newest>>,
    /// How many declared pools exist.
    pool_count: usize,
}

impl Model for Masters {
    ghost use Rattle.std.specs.Prelude.{List};
    ghost use Rattle.ada_meaning.specs.State.{Master as EnteredMaster};

    ghost Value = { List EnteredMaster };

    ghost use Rattle.ada_interpreter.specs.Masters.{masters_of, AreKept};

    ghost view = { λ s. masters_of s.entered s.items };

    ghost invariant = { λ s. AreKept s.collections.items s.pools.items s.pool_count s.entered s.items };
}

/// What the leaving of the innermost master comes upon (7.6.1).
#[derive(Clone, Copy)]
pub(crate) enum Remains {
    NoMaster,
    NoItem {
        master: u64,
    },
    Variable,
    /// An item that is the home of objects: a collection, or a record object, which is of no pool.
    Home {
        master: u64,
        item: usize,
        pool: Option<usize>,
    },
    /// A declared pool, by its number in the run (13.11).
    Pool {
        number: usize,
    },
}

impl Owned {
    /// The number of the access type whose collection it is, if it is one.
    fn access(self) -> Option<usize>
        ensures { result ≡ access_key self }
    {
        match self {
            Owned::Collection { access, pool: _ } => Some(access.0),
            Owned::Declared(_) | Owned::Record(_) | Owned::Pool { .. } => None,
        }
    }

    /// The number of the declaration whose pool it is, if it is one.
    fn declaration(self) -> Option<usize>
        ensures { result ≡ pool_key self }
    {
        match self {
            Owned::Pool {
                declaration,
                number: _,
            } => Some(declaration.0),
            Owned::Declared(_) | Owned::Record(_) | Owned::Collection { .. } => None,
        }
    }

    /// The pool of a collection's objects, or the pool that it is.
    fn pool(self) -> Option<usize>
        ensures { result ≡ pool_known self }
    {
        match self {
            Owned::Collection { access: _, pool } => pool,
            Owned::Pool {
                declaration: _,
                number,
            } => Some(number),
            Owned::Declared(_) | Owned::Record(_) => None,
        }
    }

    /// How many pools exist with it, where so many exist without it.
    fn counted(self, pools: usize) -> Result<usize, AllocError>
        ensures { IfOk result (λ count. count ≡ counted_by self pools) }
    {
        match self {
            Owned::Pool { .. } => pools.checked_add(1).ok_or(AllocError),
            Owned::Declared(_) | Owned::Record(_) | Owned::Collection { .. } => Ok(pools),
        }
    }

    /// How many pools exist without it, where so many exist with it.
    fn uncounted(self, pools: usize) -> usize
        ensures { result ≡ uncounted_by self pools }
    {
        match self {
            Owned::Pool { .. } => pools.saturating_sub(1),
            Owned::Declared(_) | Owned::Record(_) | Owned::Collection { .. } => pools,
        }
    }
}

impl Masters {
    /// The master of the main procedure is entered, under the number 0.
    pub(crate) fn new(alloc: Global) -> Result<Masters, AllocError>
        ensures { IfOk result (λ masters. masters ≡ record { number = 0; items = [] } ∷ []) }
    {
        let mut entered = Stack::new(alloc);
        entered.push(Master {
            number: 0,
            count: 0,
        })?;
        Ok(Masters {
            entered,
            items: Stack::new(alloc),
            collections: Vec::new(alloc),
            pools: Vec::new(alloc),
            pool_count: 0,
        })
    }

    /// A master is entered under a number, and owns nothing yet.
    pub(crate) fn enter(&mut self, number: u64) -> Result<(), AllocError>
        ensures { OnOk result (self.new ≡ record { number = number; items = [] } ∷ self.old) }
    {
        self.entered.push(Master { number, count: 0 })
    }

    /// The innermost master owns one item more.
    pub(crate) fn own(&mut self, owned: Owned) -> Result<(), AllocError>
        ensures { OnOk result
            (self.new ≡
            owning (record { number = height self.old; owned = owned_of owned }) self.old) }
    {
        let Some(master) = self.entered.at(0) else {
            return Ok(());
        };
        let Some(count) = master.count.checked_add(1) else {
            return Err(AllocError);
        };
        let pool_count = owned.counted(self.pool_count)?;
        let newest = Newest {
            item: self.items.len(),
            pool: owned.pool(),
        };
        let access = owned.access();
        let declaration = owned.declaration();
        make_room(&mut self.collections, access)?;
        make_room(&mut self.pools, declaration)?;
        let previous = previous_of(self.collections.as_slice(), self.pools.as_slice(), owned);
        self.items.push(Item { owned, previous })?;
        set_newest(&mut self.collections, access, Some(newest));
        set_newest(&mut self.pools, declaration, Some(newest));
        self.pool_count = pool_count;
        self.entered.set_top(Master {
            number: master.number,
            count,
        });
        Ok(())
    }

    /// The innermost master has lost its newest item.
    pub(crate) fn shorten(&mut self)
        ensures { self.new ≡ shorter self.old }
    {
        let Some(master) = self.entered.at(0) else {
            return;
        };
        if master.count == 0 {
            return;
        }
        let Some(item) = self.items.at(0) else {
            return;
        };
        set_newest(&mut self.collections, item.owned.access(), item.previous);
        set_newest(&mut self.pools, item.owned.declaration(), item.previous);
        self.pool_count = item.owned.uncounted(self.pool_count);
        self.items.shorten();
        self.entered.set_top(Master {
            number: master.number,
            count: master.count - 1,
        });
    }

    /// The innermost master has been left.
    pub(crate) fn leave(&mut self)
        requires { HasNoItem self.old }
        ensures { self.new ≡ older self.old }
    {
        self.entered.shorten();
    }

    /// The number that the next item gets.
    pub(crate) fn height(&self) -> usize
        ensures { result ≡ height self.now }
    {
        self.items.len()
    }

    /// The newest open collection of an access type, with the pool of its objects; none, where that pool didn't exist as
    /// the collection was created.
    pub(crate) fn home(&self, access: TypeNo) -> Option<Destination>
        ensures { let home = home_of access.0 self.now in
            MatchOption result (home ≡ None) (λ it. home ≡ Some (destination_of it)) }
    {
        home_by(newest_at(self.collections.as_slice(), access.0))
    }

    /// The pool to which a Free by an access type gives words back (13.11.2): that of its newest open collection; the
    /// standard pool, where none is open.
    pub(crate) fn pool_freed_to(&self, access: TypeNo) -> usize
        ensures { result ≡ pool_freed_to (home_of access.0 self.now) }
    {
        match self.home(access) {
            None => 0,
            Some(home) => home.pool,
        }
    }

    /// The newest pool of a declaration that exists, by its number in the run (13.11).
    pub(crate) fn pool(&self, declaration: PoolNo) -> Option<usize>
        ensures { result ≡ pool_of declaration.0 self.now }
    {
        pool_by(newest_at(self.pools.as_slice(), declaration.0))
    }

    /// How many declared pools exist.
    pub(crate) fn pool_count(&self) -> usize
        ensures { result ≡ pools_in self.now }
    {
        self.pool_count
    }

    /// What the leaving of the innermost master comes upon.
    pub(crate) fn remains(&self) -> Remains
        ensures { result ≡ remains_of self.now }
    {
        let Some(master) = self.entered.at(0) else {
            return Remains::NoMaster;
        };
        if master.count == 0 {
            return Remains::NoItem {
                master: master.number,
            };
        }
        match self.items.at(0) {
            None => Remains::Variable,
            Some(item) => match item.owned {
                Owned::Declared(_) => Remains::Variable,
                Owned::Collection { access: _, pool } => Remains::Home {
                    master: master.number,
                    item: self.items.len() - 1,
                    pool,
                },
                Owned::Record(_) => Remains::Home {
                    master: master.number,
                    item: self.items.len() - 1,
                    pool: None,
                },
                Owned::Pool {
                    declaration: _,
                    number,
                } => Remains::Pool { number },
            },
        }
    }
}

/// The newest collection of the same access type, or the newest pool of the same declaration.
fn previous_of(
    collections: &[Option<Newest>],
    pools: &[Option<Newest>],
    owned: Owned,
) -> Option<Newest>
    ensures { result ≡ previous_of collections.now pools.now owned }
{
    match owned {
        Owned::Declared(_) | Owned::Record(_) => None,
        Owned::Collection { access, pool: _ } => newest_at(collections, access.0),
        Owned::Pool {
            declaration,
            number: _,
        } => newest_at(pools, declaration.0),
    }
}
