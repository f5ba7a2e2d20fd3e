//! Words for a schedule.

ghost use Rattle.schedule.specs.Sched.{kind_of};
ghost use Rattle.ompk_command.specs.Schedules.{Finds, IsNamed, IsNamedInFull, IsSized};

use ktree::ChunkSize;
use schedule::Sched;
use text::{behind, is_decimal, value};

// The size that stands behind a kind, 1 to 2^24, without leading zeros.
fn size_behind(kind: &[u8], word: &[u8]) -> Option<ChunkSize>
    ensures { Finds (λ size. IsSized kind.now word.now size) result }
{
    let digits = behind(word, kind)?;
    if !is_decimal(digits) {
        return None;
    }
    ChunkSize::new(value(digits)?)
}

// The schedule of a kind with a size.
fn sized_schedule(word: &[u8]) -> Option<Sched>
    ensures { Finds (λ sched. IsNamedInFull word.now (kind_of sched)) result }
{
    if let Some(size) = size_behind(b"static,", word) {
        return Some(Sched::Static(size));
    }
    if let Some(size) = size_behind(b"dynamic,", word) {
        return Some(Sched::Dynamic(size));
    }
    if let Some(size) = size_behind(b"guided,", word) {
        return Some(Sched::Guided(size));
    }
    None
}

// The schedule that a word names: `static`, `dynamic` or `guided`, each with a size behind a comma or without, or `auto`; a size that is
// left out is 1 (OpenMP 5.2, 11.5.3).
pub(crate) fn schedule_of(word: &str) -> Option<Sched>
    ensures { Finds (λ sched. IsNamed word.now (kind_of sched)) result }
{
    if word == "static" || word == "auto" {
        return Some(Sched::PlainStatic);
    }
    if word == "dynamic" {
        return Some(Sched::Dynamic(ChunkSize::new(1)?));
    }
    if word == "guided" {
        return Some(Sched::Guided(ChunkSize::new(1)?));
    }
    sized_schedule(word.as_bytes())
}
