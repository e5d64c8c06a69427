//! The runner's choices.

ghost use Rattle.std.specs.Prelude.{◌≡◌, ◌==◌, IfOk, OnOk};
ghost use Rattle.ada_meaning.specs.declared.state.Value.TheVariants.{Names};
ghost use Rattle.ada_pools.specs.Sizes.{sizes_of};
ghost use Rattle.ada_pools.specs.Runner.{first_runner, counted, granted, allocated, given_back, begun, gone};
ghost use Rattle.ada_pools.specs.View.{runner_of};

use crate::held::{Block, HeldPool, put_back_in, take_in};
use crate::sizes::{PoolSize, size_at, sizes_of};
use ada_interpreter::Choices;
use ada_meaning::{Id, Request};
use ada_program::{PoolNo, Program};
use std::alloc::{AllocError, Global};
use std::collections::HashMap;

/// The runner's choices: a first-fit pool for each pool of the run, and the newest member of a collection.
pub struct PoolChoices {
    alloc: Global,
    /// How many requests for storage it is until the one that is refused; 0 where none will be.
    until: u32,
    /// The sizes of the pools that the program declares.
    sizes: Vec<u32>,
    /// The pools that exist. Their numbers grow along the stack of masters, so the newest one goes first.
    pools: Vec<HeldPool>,
    /// The block that an object was given and has not given back, by its name. Its pool may be gone.
    blocks: HashMap<usize, Block>,
}

impl Drop for PoolChoices {
    fn drop(self) {
        let PoolChoices {
            alloc: _alloc,
            until: _until,
            sizes: _sizes,
            pools: _pools,
            blocks: _blocks,
        } = self;
    }
}

impl PoolChoices {
    /// The choices for a run of a program. The standard pool has so many words; a declared pool has the last size that
    /// is given for its name, or else that of its declaration. The request for storage whose number is `refuse` is
    /// refused; 0 refuses none.
    ///
    /// # Errors
    /// Where their memory cannot grow.
    pub fn new(
        alloc: Global,
        program: &Program,
        standard: u32,
        sizes: &[PoolSize],
        refuse: u32,
    ) -> Result<PoolChoices, AllocError>
        ensures { IfOk result (λ choices. runner_of choices ≡ first_runner standard refuse (sizes_of program.now sizes.now)) }
    {
        let mut pools = Vec::new(alloc);
        pools.push(HeldPool::new(alloc, standard)?)?;
        Ok(PoolChoices {
            alloc,
            until: refuse,
            sizes: sizes_of(alloc, program, sizes)?,
            pools,
            blocks: HashMap::new(alloc),
        })
    }

    /// A request for storage counts. Is it the one that is refused?
    fn count(&mut self) -> bool
        ensures refused { result ≡ ((runner_of self.old).until == 1) }
        ensures counted { runner_of self.new ≡ counted (runner_of self.old) }
    {
        let refused = self.until == 1;
        self.until = self.until.saturating_sub(1);
        refused
    }

    /// An allocator asks for a block of so many words (4.8).
    fn allocate(&mut self, pool: usize, words: usize, object: Id) -> Result<bool, AllocError>
        ensures { IfOk result (λ yes.
            allocated pool (Names object) (granted pool words (runner_of self.old)) (counted (runner_of self.old)) ≡ (yes, runner_of self.new)) }
    {
        if self.count() {
            return Ok(false);
        }
        let Some(place) = take_in(&mut self.pools, pool, words, object.0)? else {
            return Ok(false);
        };
        self.blocks.insert(object.0, Block { pool, place })?;
        Ok(true)
    }

    /// The block of an object goes back (13.11.2).
    fn give_back(&mut self, object: Id)
        ensures { runner_of self.new ≡ given_back (Names object) ((runner_of self.old).blocks object.0) (runner_of self.old) }
    {
        let block = self.blocks.remove(&object.0);
        put_back_in(&mut self.pools, object.0, block);
    }

    /// A declared pool begins (13.11).
    fn begin(&mut self, declaration: PoolNo) -> Result<(), AllocError>
        ensures { OnOk result (runner_of self.new ≡ begun declaration.0 (runner_of self.old)) }
    {
        let pool = HeldPool::new(self.alloc, size_at(&self.sizes, declaration))?;
        self.pools.push(pool)?;
        Ok(())
    }

    /// The newest pool is gone.
    fn end(&mut self, pool: usize)
        ensures { runner_of self.new ≡ gone pool (runner_of self.old) }
    {
        self.pools.truncate(pool);
    }
}

impl Choices for PoolChoices {
    ghost use Rattle.ada_meaning.specs.Event.{request_of};
    ghost use Rattle.ada_pools.specs.Runner.{Grants, Picks};
    ghost use Rattle.ada_pools.specs.View.{runner_of};

    ghost grants = { λ before request yes after. Grants (runner_of before) (request_of request) yes (runner_of after) };

    ghost picks = { λ before _ i after. Picks (runner_of before) i (runner_of after) };

    fn grant(&mut self, request: &Request) -> Result<bool, AllocError> {
        match *request {
            Request::Allocate {
                pool,
                owner: _,
                words,
                object,
            } => self.allocate(pool, words, object),
            Request::Open { pool: _, owner: _ } => {
                self.count();
                Ok(false)
            }
            Request::Back { object } => {
                self.give_back(object);
                Ok(true)
            }
            Request::Close { pool: _, owner: _ } => Ok(true),
            Request::New {
                pool: _,
                declaration,
            } => {
                self.begin(declaration)?;
                Ok(true)
            }
            Request::Gone { pool } => {
                self.end(pool);
                Ok(true)
            }
        }
    }

    fn pick(&mut self, _n: usize) -> usize {
        0
    }
}
