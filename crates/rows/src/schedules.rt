//! Parallel loops of many forms under each schedule: teams of 1, 2, 3 and 64 workers, and one thread, write what C writes.

mod forms;
mod ordered;
mod results;
mod scans;

use crate::kernels::{is_written_by, is_written_by_thread};
use crate::outcome::no_other;
use ktree::ChunkSize;
use ompk::{Checked, Sched, check};
use std::alloc::{AllocError, Global};
use std::sync::Wait;
use std::thread::Threads;

/// A kernel: what stands before its directive line, clauses of that beside its schedule, what stands behind the line, and what C writes.
#[derive(Clone, Copy)]
struct Row {
    before: &'static str,
    clause: &'static str,
    loops: &'static str,
    output: &'static str,
}

/// Each kind of schedule, with chunks of some sizes (OpenMP 5.2, 11.5.3).
const SCHEDULES: &[&str] = &[
    "",
    "schedule(static)",
    "schedule(static, 1)",
    "schedule(static, 4)",
    "schedule(dynamic)",
    "schedule(dynamic, 3)",
    "schedule(guided)",
    "schedule(guided, 2)",
    "schedule(auto)",
    "schedule(runtime)",
];

/// A row's text under a schedule.
fn text(alloc: Global, declarations: &str, row: Row, schedule: &str) -> Result<String, AllocError> {
    let Row {
        before,
        clause,
        loops,
        output: _,
    } = row;
    format!(in alloc;
        "{declarations}\nvoid kernel(void) {{\n{before}\n#pragma omp parallel for {schedule} {clause}\n{loops}\n}}\n"
    )
}

/// Whether 1, 2, 3 and 64 workers write a kernel's output, where a schedule stands for `runtime`, and one thread too.
fn is_written_by_all<R: Threads + Wait + Sync>(
    rt: &R,
    alloc: Global,
    checked: &Checked,
    runtime: &Sched,
    output: &[u8],
) -> bool {
    for count in [1, 2, 3, 64] {
        if !is_written_by(rt, alloc, checked, count, runtime, output) {
            return false;
        }
    }
    is_written_by_thread(alloc, checked, b"", output)
}

/// Whether they write that of a text.
fn is_written<R: Threads + Wait + Sync>(
    rt: &R,
    alloc: Global,
    text: &str,
    runtime: &Sched,
    output: &str,
) -> bool {
    match check(alloc, text.as_bytes()) {
        Ok(checked) => is_written_by_all(rt, alloc, &checked, runtime, output.as_bytes()),
        Err(_refusal) => false,
    }
}

/// Whether a row's output is written under a schedule.
fn holds<R: Threads + Wait + Sync>(
    rt: &R,
    alloc: Global,
    declarations: &str,
    row: Row,
    schedule: &str,
) -> bool {
    let Some(size) = ChunkSize::new(2) else {
        return false;
    };
    match text(alloc, declarations, row, schedule) {
        Ok(text) => is_written(rt, alloc, text.as_str(), &Sched::Guided(size), row.output),
        Err(_error) => false,
    }
}

/// The first row whose output is not written under a schedule.
fn first_other<R: Threads + Wait + Sync>(
    rt: &R,
    alloc: Global,
    declarations: &str,
    rows: &[Row],
    schedule: &str,
) -> Option<&'static str> {
    for row in rows {
        if !holds(rt, alloc, declarations, *row, schedule) {
            return Some(row.loops);
        }
    }
    None
}

/// The first of some rows whose output is not written under each schedule.
fn first_other_by_any<R: Threads + Wait + Sync>(
    rt: &R,
    alloc: Global,
    declarations: &str,
    rows: &[Row],
) -> Option<&'static str> {
    for schedule in SCHEDULES {
        let found = first_other(rt, alloc, declarations, rows, *schedule);
        if found.is_some() {
            return found;
        }
    }
    None
}

#[test]
fn loops_of_each_form_run_under_each_schedule(rt: HostRuntime) {
    let found = first_other_by_any(&rt, rt.alloc(), forms::DECLARATIONS, forms::ROWS);
    no_other(&rt, found);
}

#[test]
fn loops_leave_their_results_under_each_schedule(rt: HostRuntime) {
    let found = first_other_by_any(&rt, rt.alloc(), results::DECLARATIONS, results::ROWS);
    no_other(&rt, found);
}

#[test]
fn loops_print_in_order_under_each_schedule(rt: HostRuntime) {
    let found = first_other_by_any(&rt, rt.alloc(), ordered::DECLARATIONS, ordered::ROWS);
    no_other(&rt, found);
}

#[test]
fn scans_run_in_two_passes(rt: HostRuntime) {
    let found = first_other(&rt, rt.alloc(), scans::DECLARATIONS, scans::ROWS, "");
    no_other(&rt, found);
}
