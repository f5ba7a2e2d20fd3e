//! Scans in two passes: the input phase alone tells what each chunk of iterations adds to the scan variable, and then each chunk runs whole
//! from the state before the loop, with that variable at its start. Each law is the contract of a function that does nothing.
#![tactic(auto)]

ghost use Rattle.law_scans.specs.Iterations.{ChunksRepeat};
ghost use Rattle.law_scans.specs.Phases.{PhasesRunInTurn};
ghost use Rattle.law_scans.specs.Rows.{ScanRows};
ghost use Rattle.law_scans.specs.Scanning.{ScanChunksJoin};

/// Iterations of a scan do from the state before the loop, with the scan variable at the value that it has before them in sequence, what they
/// do in sequence (OpenMP 5.2, 5.6).
pub fn chunks_repeat()
    ensures { ChunksRepeat }
{}

/// A body in two phases runs the first and then the second (C11 6.8.2).
pub fn phases_run_in_turn()
    ensures { PhasesRunInTurn }
{}

/// Chunks of a scan loop's iterations of which no two conflict, with private and lastprivate variables, have a run each in both passes: the
/// first tells where each chunk of the second begins, and these leave put together, and print one after another, what the loop leaves and
/// prints (OpenMP 5.2, 5.4.3, 5.4.5, 5.6, 11.5.3 and 15.10.2).
pub fn scan_chunks_join()
    ensures { ScanChunksJoin }
{}

/// Worked rows: prefix sums are such a scan.
pub fn scan_rows()
    ensures { ScanRows }
{}
