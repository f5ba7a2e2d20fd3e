//! The sinks of a doacross nest.

ghost use Rattle.std.specs.Prelude.{◌≡◌, ◌&&◌, ◌==◌, ◌++◌, ◌∷◌, [], true, false, length, IfOk, IfErr, if◌then◌else◌};
ghost use Rattle.semantics.specs.Loops.Order.{is_ahead};
ghost use Rattle.waves.specs.Wanted.{SinkList, with_sink};

use std::alloc::{AllocError, Global};
use std::marker::Model;

/// How far the sinks of a nest lie before the iteration that names them, each by one number for each loop, the outermost
/// first: the sink `i-1, j` has the distance (1, 0). Each is ahead: its first number that is not 0 is above 0.
#[derive(Drop)]
pub struct Sinks {
    pub(crate) loops: usize,
    pub(crate) distances: Vec<Vec<i64>>,
}

impl Model for Sinks {
    ghost use Rattle.std.specs.Prelude.{◌≡◌, true, map};
    ghost use Rattle.std.specs.List.{list_all};
    ghost use Rattle.semantics.specs.Loops.Order.{is_ahead};
    ghost use Rattle.waves.specs.Wanted.{SinkList};

    ghost Value = { SinkList };

    ghost view = { λ s. record {
      loops = s.loops;
      distances = map (λ d. d.items) s.distances.items;
    } };

    ghost invariant = { λ s. list_all is_ahead (map (λ d. d.items) s.distances.items) ≡ true };
}

/// Whether the first number that is not 0 is above 0.
fn is_ahead(distance: &[i64]) -> bool
    ensures { result ≡ is_ahead distance.now }
{
    match distance.split_first() {
        None => false,
        Some((first, rest)) => {
            if *first == 0 {
                is_ahead(rest)
            } else {
                *first > 0
            }
        }
    }
}

impl Sinks {
    /// No sinks, of a nest of so many loops.
    pub fn new(alloc: Global, loops: usize) -> Sinks
        ensures { result ≡ (record { loops = loops; distances = [] }) }
    {
        Sinks {
            loops,
            distances: Vec::new(alloc),
        }
    }

    /// Adds a sink, if it has a number for each loop and is ahead; false where not.
    ///
    /// # Errors
    ///
    /// Where memory runs out; then the sinks are as before.
    pub fn push(&mut self, alloc: Global, distance: &[i64]) -> Result<bool, AllocError>
        ensures ok { IfOk result (λ taken. taken
            ≡ (is_ahead distance.now && (length distance.now == self.old.loops))) }
        ensures sinks { IfOk result (λ taken. self.new
            ≡ (if taken then with_sink self.old distance.now else self.old)) }
        ensures err { IfErr result (λ error. self.new ≡ self.old) }
    {
        if distance.len() != self.loops || !is_ahead(distance) {
            return Ok(false);
        }
        let added = Vec::from_slice(alloc, distance)?;
        self.distances.push(added)?;
        Ok(true)
    }
}
