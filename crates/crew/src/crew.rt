//! A crew, and what is lent to it.

ghost use Rattle.std.specs.Prelude.{◌≡◌, IfOk, vec_len};
ghost use Rattle.std.specs.Arc.{arc_value};

use crate::waiting::{Bell, pause};
use crossbeam_utils::CachePadded;
use std::alloc::{AllocError, Global};
use std::marker::Model;
use std::sync::{Arc, Mutex, Wait};

/// A part of a job: its number, and how many parts there are.
#[derive(Clone, Copy, Debug, PartialEq, Eq)]
pub struct Part {
    pub number: u64,
    pub of: u64,
}

/// Work in parts. Threads do these at once, each with these tools and with what it keeps from job to job.
pub trait Job<T, K> {
    /// How many parts it can be done in at most. It is done in one part at least, and in no more than there are threads in a crew.
    fn parts(&self) -> u64;

    /// Does a part.
    fn work(&self, part: Part, tools: &T, kept: &mut K);

    /// Makes what a thread keeps ready for the next job. The others of a crew do so while they have none; the first never waits for a job, and
    /// leaves it out.
    fn make_ready(alloc: Global, kept: &mut K);
}

/// Where a job lies for one thread, on cache lines of its own.
type Place<J> = CachePadded<Mutex<Option<Arc<J>>>>;

/// Where the first of a crew puts a job for each of so many others, who take it there, and what the first keeps from job to job.
/// Contracts see it as how many others there are.
#[derive(Drop)]
pub struct Crew<J: Drop, K: Drop> {
    bell: Bell,
    places: Vec<Place<J>>,
    kept: CachePadded<Mutex<K>>,
}

impl<J: Drop, K: Drop> Model for Crew<J, K> {
    ghost use Rattle.std.specs.Prelude.{ℕ, vec_len};

    ghost Value = { ℕ };

    ghost view = { λ c. vec_len c.places };
}

/// So many places in which nothing lies.
fn empty_places<J: Drop>(alloc: Global, count: u64) -> Result<Vec<Place<J>>, AllocError>
    ensures { IfOk result (λ places. vec_len places ≡ count) }
{
    let mut places = Vec::with_capacity(alloc, count as usize)?;
    for _place in 0..count {
        places.push(CachePadded::new(Mutex::new(None)))?;
    }
    Ok(places)
}

impl<J: Drop, K: Default + Drop> Crew<J, K> {
    /// A crew of so many threads beside the first.
    ///
    /// # Errors
    ///
    /// Where memory is refused.
    pub fn new(alloc: Global, others: u64) -> Result<Crew<J, K>, AllocError>
        ensures { IfOk result (λ crew. crew ≡ others) }
    {
        Ok(Crew {
            bell: Bell::new(),
            places: empty_places(alloc, others)?,
            kept: CachePadded::new(Mutex::new(K::default())),
        })
    }

    /// How many threads there are beside the first.
    pub fn others(&self) -> u64
        ensures { result ≡ self.now }
    {
        self.places.len() as u64
    }

    pub(crate) fn bell(&self) -> &Bell {
        &self.bell
    }
}

/// How many others are asked to take part in a job: those at the first places.
fn others_for<T, K: Default + Drop, J: Job<T, K> + Drop>(crew: &Crew<J, K>, job: &J) -> usize {
    let wanted = job.parts().saturating_sub(1);
    crew.others().min(wanted) as usize
}

/// Does the part of a job that is for the thread at this place.
pub(crate) fn work_at<T, K: Default + Drop, J: Job<T, K> + Drop>(
    crew: &Crew<J, K>,
    place: usize,
    tools: &T,
    kept: &mut K,
    job: &J,
) {
    let part = Part {
        number: (place as u64).saturating_add(1),
        of: (others_for(crew, job) as u64).saturating_add(1),
    };
    job.work(part, tools, kept);
}

/// Takes the job that lies for the thread of a number, if any does.
pub(crate) fn take_job<R: Wait, J: Drop, K: Default + Drop>(
    rt: &R,
    crew: &Crew<J, K>,
    number: usize,
) -> Option<Arc<J>> {
    let mut place = crew.places.get(number)?.lock(rt);
    place.take()
}

/// Puts a job where a thread finds it.
fn put<R: Wait, J: Drop>(rt: &R, place: &Mutex<Option<Arc<J>>>, job: Arc<J>) {
    let mut place = place.lock(rt);
    *place = Some(job);
}

/// Puts a job where each of so many others finds it.
fn post<R: Wait, J: Drop, K: Default + Drop>(
    rt: &R,
    crew: &Crew<J, K>,
    asked: usize,
    job: &Arc<J>,
) {
    for place in crew.places.iter().take(asked) {
        if let Ok(lent) = Arc::try_clone(job) {
            put(rt, place, lent);
        }
    }
}

/// Waits until all others have given a job back.
fn own_again<R: Wait, J: Drop>(rt: &R, job: Arc<J>) -> J
    ensures { result ≡ arc_value job }
{
    let mut job = job;
    let mut turns = 0;
    for _ in rt.forever() {
        if Arc::strong_count(&job) == 1 {
            match Arc::try_unwrap(job) {
                Ok(own) => return own,
                Err(shared) => job = shared,
            }
        }
        pause(&mut turns);
    }
    unreachable!()
}

/// Does the first's part of a job, and the parts of those who have not come for theirs by then.
fn lead<R: Wait, T, K: Default + Drop, J: Job<T, K> + Drop>(
    rt: &R,
    crew: &Crew<J, K>,
    tools: &T,
    kept: &mut K,
    job: &J,
) {
    let asked = others_for(crew, job);
    let of = (asked as u64).saturating_add(1);
    job.work(Part { number: 0, of }, tools, kept);
    for place in 0..asked {
        if let Some(left) = take_job(rt, crew, place) {
            work_at(crew, place, tools, kept, &*left);
        }
    }
}

/// Lends a job to a crew, as many of whom as it can be done in parts do a part of it; the first also does the parts of those who come too
/// late. It comes back as it was lent, once all are done with it. Where memory is refused nobody works on it.
pub fn lend<R: Wait, T, K: Default + Drop, J: Job<T, K> + Drop>(
    rt: &R,
    alloc: Global,
    crew: &Crew<J, K>,
    tools: &T,
    job: J,
) -> J
    ensures { result ≡ job }
{
    let mut kept = crew.kept.lock(rt);
    let asked = others_for(crew, &job);
    if asked == 0 {
        lead(rt, crew, tools, &mut kept, &job);
        return job;
    }
    match Arc::new(alloc, job) {
        Ok(shared) => {
            post(rt, crew, asked, &shared);
            crew.bell().ring();
            lead(rt, crew, tools, &mut kept, &shared);
            own_again(rt, shared)
        }
        Err(refused) => refused.value,
    }
}
