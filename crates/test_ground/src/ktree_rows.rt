//! Limits of the small types, and a refusal's number.

use ktree::*;

/// The first of some numbers of workers that is a team's, or is none, against what is said there.
fn first_other_team(rows: &[(u64, bool)]) -> Option<u64> {
    for (count, fits) in rows {
        if Workers::new(*count).is_some() != *fits {
            return Some(*count);
        }
    }
    None
}

/// How many workers a team of three has.
fn three() -> Option<u64> {
    Workers::new(3).map(|workers| workers.get())
}

#[test]
fn teams_have_one_to_sixty_four_workers(rt: HostRuntime) {
    const ROWS: &[(u64, bool)] = &[(0, false), (1, true), (64, true), (65, false)];
    assert!(rt; first_other_team(ROWS).is_none());
    assert!(rt; three() == Some(3));
}

/// The first of some sizes that is a chunk's, or is none, against what is said there.
fn first_other_chunk(rows: &[(u64, bool)]) -> Option<u64> {
    for (size, fits) in rows {
        if ChunkSize::new(*size).is_some() != *fits {
            return Some(*size);
        }
    }
    None
}

/// How many iterations the largest chunk has.
fn largest() -> Option<u64> {
    ChunkSize::new(16777216).map(|size| size.get())
}

#[test]
fn chunks_have_one_to_two_to_the_24_iterations(rt: HostRuntime) {
    const ROWS: &[(u64, bool)] = &[(0, false), (1, true), (16777216, true), (16777217, false)];
    assert!(rt; first_other_chunk(ROWS).is_none());
    assert!(rt; largest() == Some(16777216));
}

const PLACE: Place = Place {
    line: 1,
    column: 20,
};

const INPUT: InputFault = InputFault {
    line: 1,
    cause: Cause::Count,
};

#[test]
fn refusals_have_their_numbers(rt: HostRuntime) {
    assert!(rt; Refusal::Syntax(PLACE).number() == 1);
    assert!(rt; Refusal::SharedScalarWritten(PLACE).number() == 14);
    assert!(rt; Refusal::Input(INPUT).number() == 22);
    assert!(rt; Refusal::OutputFailed.number() == 24);
}
