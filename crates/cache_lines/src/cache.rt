//! The cache.
ghost use Rattle.std.specs.Prelude.{◌≡◌, ◌≤◌, ◌/◌, ◌∷◌, [], ℕ, List, IfOk};
ghost use Rattle.cache_lines.specs.declared.shape.TheConstants.{LEAST_LINE};
ghost use Rattle.cache_lines.specs.Kept.{CacheStandsFor};
ghost use Rattle.cache_lines.specs.Misses.{misses};

use crate::Shape;
use crate::recency::touch;
use std::alloc::{AllocError, Global};
use std::marker::Model;

/// A cache that drops the least recently used line of a set where it needs the place. Contracts see its shape, and the lines
/// of each set, the most recent first. Only `new` allocates.
#[derive(Drop)]
pub struct Cache {
    shape: Shape,
    // The places of all sets, one set after another, and how many of each set are used.
    places: Vec<u32>,
    used: Vec<u8>,
}

impl Model for Cache {
    ghost use Rattle.cache_lines.specs.Held.{Held};
    ghost use Rattle.cache_lines.specs.Places.{IsCache};
    ghost use Rattle.cache_lines.specs.Sets.{lines_of};

    ghost Value = { Held };

    ghost view = { λ c. record {
      shape = c.shape;
      sets = lines_of c.shape.ways c.used.items c.places.items;
    } };

    ghost invariant = { IsCache };
}

impl Cache {
    /// No line was accessed yet.
    pub fn new(alloc: Global, shape: Shape) -> Result<Cache, AllocError>
        ensures shape { IfOk result (λ c. c.shape ≡ shape) }
        ensures empty { IfOk result (λ c. CacheStandsFor c []) }
    {
        let sets = shape.sets as usize;
        let ways = shape.ways as usize;
        Ok(Cache {
            shape,
            places: vec![in alloc; 0u32; ways * sets]?,
            used: vec![in alloc; 0u8; sets]?,
        })
    }

    /// The number of the line that the byte at this address lies in.
    pub fn line_of(&self, at: u32) -> u32
        ensures line { result ≡ at / self.now.shape.line }
        ensures wide { LEAST_LINE ≤ self.now.shape.line }
    {
        at / self.shape.line
    }

    /// An access of the line of this number: whether it misses.
    pub fn access(&mut self, line: u32) -> bool
        ensures shape { self.new.shape ≡ self.old.shape }
        ensures misses { (accesses : List ℕ) → CacheStandsFor self.old accesses
            → result ≡ misses self.old.shape accesses line }
        ensures after { (accesses : List ℕ) → CacheStandsFor self.old accesses
            → CacheStandsFor self.new (line ∷ accesses) }
    {
        let shape = self.shape;
        let set = (line % shape.sets) as usize;
        let ways = shape.ways as usize;
        let first = ways * set;
        let places = &mut self.places[first..first + ways];
        let used = &mut self.used[set];
        touch(places, used, line)
    }
}
