//! Doacross nests wave by wave: iterations that conflict stand in different waves, so that each wave may be run in chunks, and the waves one
//! behind another leave what the nest leaves. Each law is the contract of a function that does nothing.
#![tactic(auto)]

ghost use Rattle.law_waves.specs.Doacross.{WaveChunksJoin};
ghost use Rattle.law_waves.specs.Rising.{RisingLoopsRise, RisingOrdersRespect};
ghost use Rattle.law_waves.specs.Rows.{WaveRows};

/// A doacross nest with private variables, of whose iterations any two that conflict are ordered by its sinks, may be run wave by wave, each
/// wave in chunks begun behind the waves before it: chunks have a run each, and what they leave, put together, wave after wave, is what the
/// nest leaves (OpenMP 5.2, 5.4.3, 11.5.3, 15.9.6 and 15.10.1).
pub fn wave_chunks_join()
    ensures { WaveChunksJoin }
{}

/// Where each loop rises, the order of a nest's iterations puts each sink that lies ahead before the iteration that names it (OpenMP 5.2,
/// 15.9.6).
pub fn rising_orders_respect()
    ensures { RisingOrdersRespect }
{}

/// Iterations of loops whose values rise at each turn of the loops round them stand in that order (C11 6.8.5.3; OpenMP 5.2, 4.4.2).
pub fn rising_loops_rise()
    ensures { RisingLoopsRise }
{}

/// Worked rows: the waves of a square, and a chain with a private variable, which is such a nest.
pub fn wave_rows()
    ensures { WaveRows }
{}
