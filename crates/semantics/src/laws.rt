//! The laws of the definitions: each is the contract of a function that does nothing.

ghost use Rattle.semantics.specs.Laws.{OperatorsAreLawful, ErasesOnce, ErasedTextReads, RunsAreUnique, RunsFollowTheRules, WritesCommute, RisingLoopsCount, ChunksHoldIterations, OwnersAreWorkers, LevelsLieAboveSinks, OneWaveEach, NothingBeforeItself, TicketsArrive};
ghost use Rattle.semantics.specs.Loops.Chunk.{CutsAll, OneChunkEach};
ghost use Rattle.semantics.specs.Teams.WholeRuns.{EveryOrder, WholeListsScan, WholeListsJoin, FlagIsTrue, WholeListsArrive, ArrivesOnce, TakesEachOnce, DrawsEachOnce, MergesWhatArrived};

/// Erasing the directive lines of an erased text changes nothing.
pub fn erases_once()
    ensures { ErasesOnce }
{}

/// A text's tree without its directive lines is a tree of the erased text.
pub fn erased_text_reads()
    ensures { ErasedTextReads }
{}

/// What a statement writes and prints, and the state that it leaves, are determined by the state before it.
pub fn runs_are_unique()
    ensures { RunsAreUnique }
{}

/// The run that is computed by cases is the run that is derived by the rules of C11 6.8.
pub fn runs_follow_the_rules()
    ensures { RunsFollowTheRules }
{}

/// Writes to two different elements may change places.
pub fn writes_commute()
    ensures { WritesCommute }
{}

/// A loop that rises by a step takes the values of its start, one step above that, and so on, below its bound.
pub fn rising_loops_count()
    ensures { RisingLoopsCount }
{}

/// The chunks of a cut, joined in order, are the iterations 0 to n - 1.
pub fn cuts_cover_the_loop()
    ensures { CutsAll }
{}

/// No chunk is empty.
pub fn chunks_hold_iterations()
    ensures { ChunksHoldIterations }
{}

/// Under plain static no worker has two chunks.
pub fn plain_static_gives_one_chunk_each()
    ensures { OneChunkEach }
{}

/// Where a schedule fixes who runs a chunk, it is one of the workers.
pub fn owners_are_workers()
    ensures { OwnersAreWorkers }
{}

/// Where all sinks lie earlier, an iteration's level is above its sinks'.
pub fn levels_lie_above_sinks()
    ensures { LevelsLieAboveSinks }
{}

/// Each iteration stands in the wave of its level, and in no other.
pub fn each_iteration_has_one_wave()
    ensures { OneWaveEach }
{}

/// Where all sinks lie earlier, no iteration comes before itself.
pub fn nothing_comes_before_itself()
    ensures { NothingBeforeItself }
{}

/// After every list of events the tickets that were drawn are distinct, and none is left out.
pub fn tickets_are_drawn_once()
    ensures { DrawsEachOnce }
{}

/// At the end of a whole list of events all chunks that are drawn have arrived, each once.
pub fn tickets_arrive()
    ensures { TicketsArrive }
{}

/// After every list of events the record is the merge of exactly the pieces that arrived.
pub fn record_is_the_merge()
    ensures { MergesWhatArrived }
{}

/// Each of the nine reduction operators is associative and commutative, with its identity.
pub fn operators_are_lawful()
    ensures { OperatorsAreLawful }
{}

/// After every list of events, of every kind of schedule, no chunk is taken twice.
pub fn chunks_are_taken_once()
    ensures { TakesEachOnce }
{}

/// After every list of events no chunk has arrived twice.
pub fn chunks_arrive_once()
    ensures { ArrivesOnce }
{}

/// At the end of a whole list of events all chunks of the cut have arrived, each once.
pub fn whole_lists_arrive()
    ensures { WholeListsArrive }
{}

/// The flag is raised exactly where a worker stopped, and who saw it raised saw what is so.
pub fn flag_is_true()
    ensures { FlagIsTrue }
{}

/// Every whole list of events ends in the join of all chunks, in the order of their arrival.
pub fn whole_lists_join()
    ensures { WholeListsJoin }
{}

/// Every whole list of events of a scan's second pass ends in the scan.
pub fn whole_lists_scan()
    ensures { WholeListsScan }
{}

/// All of what holds of the workers' machine, for every job and every list of events.
pub fn every_order()
    ensures { EveryOrder }
{}
