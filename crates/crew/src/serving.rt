//! The threads of a crew beside the first.

use crate::crew::{Crew, Job, take_job, work_at};
use std::alloc::Global;
use std::sync::Wait;
use std::thread::{Threads, map_indices};

/// Takes part in jobs until the crew is dismissed, as the thread at this place.
fn serve<R: Wait, T, K: Default + Drop, J: Job<T, K> + Drop>(
    rt: &R,
    alloc: Global,
    crew: &Crew<J, K>,
    place: usize,
    tools: &T,
) {
    let mut kept = K::default();
    let mut seen = 0;
    for _ in rt.forever() {
        let Some(word) = crew.bell().next(rt, seen) else {
            return;
        };
        seen = word;
        if let Some(job) = take_job(rt, crew, place) {
            work_at(crew, place, tools, &mut kept, &*job);
            drop(job);
            J::make_ready(alloc, &mut kept);
        }
    }
}

/// Starts the threads of a crew beside the first, as many of them as can be started, and waits until they are dismissed.
pub fn serve_all<
    R: Threads + Wait + Sync,
    T: Sync,
    K: Default + Send + Drop,
    J: Job<T, K> + Send + Sync + Drop,
>(rt: &R, alloc: Global, crew: &Crew<J, K>, tools: &T) {
    let one = |place: usize| serve(rt, alloc, crew, place, tools);
    let _ended = map_indices(rt, alloc, crew.others() as usize, &one);
}

/// Dismisses a crew: no job is lent to it from here on.
pub fn dismiss<J: Drop, K: Default + Drop>(crew: &Crew<J, K>) {
    crew.bell().ring_out();
}
