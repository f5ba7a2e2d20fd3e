//! What is said of a refusal.

ghost use Rattle.std.specs.Prelude.{◌≡◌, ◌+◌, ◌<◌, ◌^◌, ◌++◌, ◌∷◌, [], map, codes, decimal};
ghost use Rattle.ktree.specs.Numbers.{number_of};
ghost use Rattle.ktree.specs.Places.{place_of};
ghost use Rattle.ktree.specs.Words.{words_of};
ghost use Rattle.ompk_message.specs.Outcome.{PutsOrFails};
ghost use Rattle.ompk_message.specs.Message.{joined, line_text, head_text, start_parts, access_parts, iteration_parts, index_text, conflict_parts, detail_parts, message_of, status_of};

use itoa::Buffer;
use ktree::{Conflict, NotShown, Place, Refusal};
use seqrun_io::{Sink, put_all};

// `K`, two digits and a space.
fn head_of(number: u8) -> [u8; 4]
    requires { number < 100 }
    ensures { result ≡ head_text number }
{
    [b'K', b'0' + number / 10, b'0' + number % 10, b' ']
}

// Puts a text.
fn put_text<S: Sink>(sink: &mut S, text: &[u8]) -> Result<(), Refusal>
    requires { S.failed sink.old + 1 < 2 ^ 64 }
    ensures { PutsOrFails S.told S.failed sink.old sink.new text.now result }
{
    put_all(sink, text)
}

// Puts texts one behind another.
fn put_parts<S: Sink>(sink: &mut S, parts: &[&[u8]]) -> Result<(), Refusal>
    requires { S.failed sink.old + 1 < 2 ^ 64 }
    ensures { PutsOrFails S.told S.failed sink.old sink.new
        (joined (map (λ part. part.now) parts.now)) result }
{
    for part in parts {
        put_text(sink, part)?;
    }
    Ok(())
}

// Puts a number, and a place where there is one.
fn put_start_at<S: Sink>(sink: &mut S, number: u8, place: Option<Place>) -> Result<(), Refusal>
    requires number { number < 100 }
    requires room { S.failed sink.old + 1 < 2 ^ 64 }
    ensures { PutsOrFails S.told S.failed sink.old sink.new
        (joined (head_text number ∷ start_parts place)) result }
{
    let head = head_of(number);
    let Some(place) = place else {
        return put_parts(sink, &[&head]);
    };
    let (mut line, mut column) = (Buffer::new(), Buffer::new());
    put_parts(
        sink,
        &[
            &head,
            line.format(place.line).as_bytes(),
            b":",
            column.format(place.column).as_bytes(),
            b" ",
        ],
    )
}

// Puts a refusal's number, and its place where there is one.
fn put_start<S: Sink>(sink: &mut S, refusal: &Refusal) -> Result<(), Refusal>
    requires { S.failed sink.old + 1 < 2 ^ 64 }
    ensures { PutsOrFails S.told S.failed sink.old sink.new
        (joined (head_text (number_of refusal.now) ∷ start_parts (place_of refusal.now))) result }
{
    put_start_at(sink, refusal.number(), refusal.place())
}

// Puts the name of an array, and where two accesses to it stand.
fn put_accesses<S: Sink>(sink: &mut S, accesses: &NotShown) -> Result<(), Refusal>
    requires { S.failed sink.old + 1 < 2 ^ 64 }
    ensures { PutsOrFails S.told S.failed sink.old sink.new
        (joined (access_parts accesses.now)) result }
{
    let (first, second) = (accesses.first, accesses.second);
    let (mut line, mut column) = (Buffer::new(), Buffer::new());
    let (mut second_line, mut second_column) = (Buffer::new(), Buffer::new());
    put_parts(
        sink,
        &[
            b": ",
            accesses.array.as_bytes(),
            b" at ",
            line.format(first.line).as_bytes(),
            b":",
            column.format(first.column).as_bytes(),
            b" and ",
            second_line.format(second.line).as_bytes(),
            b":",
            second_column.format(second.column).as_bytes(),
        ],
    )
}

// Puts an array and where two accesses to it stand, and the end of the line.
fn tell_accesses<S: Sink>(sink: &mut S, accesses: &NotShown) -> Result<(), Refusal>
    requires { S.failed sink.old + 1 < 2 ^ 64 }
    ensures { PutsOrFails S.told S.failed sink.old sink.new
        (line_text (access_parts accesses.now)) result }
{
    put_accesses(sink, accesses)?;
    put_text(sink, b"\n")
}

// Puts an element's index, in brackets.
fn put_index<S: Sink>(sink: &mut S, index: u64) -> Result<(), Refusal>
    requires { S.failed sink.old + 1 < 2 ^ 64 }
    ensures { PutsOrFails S.told S.failed sink.old sink.new (index_text index) result }
{
    let mut buffer = Buffer::new();
    put_parts(sink, &[b"[", buffer.format(index).as_bytes(), b"]"])
}

// Puts all indexes of an element.
fn put_indexes<S: Sink>(sink: &mut S, indexes: &[u64]) -> Result<(), Refusal>
    requires { S.failed sink.old + 1 < 2 ^ 64 }
    ensures { PutsOrFails S.told S.failed sink.old sink.new
        (joined (map index_text indexes.now)) result }
{
    for index in indexes {
        put_index(sink, *index)?;
    }
    Ok(())
}

// Puts all indexes of an element, and the end of the line.
fn tell_indexes<S: Sink>(sink: &mut S, indexes: &[u64]) -> Result<(), Refusal>
    requires { S.failed sink.old + 1 < 2 ^ 64 }
    ensures { PutsOrFails S.told S.failed sink.old sink.new
        (line_text (map index_text indexes.now)) result }
{
    put_indexes(sink, indexes)?;
    put_text(sink, b"\n")
}

// Puts two iterations, and the array of an element that both touch.
fn put_iterations<S: Sink>(sink: &mut S, conflict: &Conflict) -> Result<(), Refusal>
    requires { S.failed sink.old + 1 < 2 ^ 64 }
    ensures { PutsOrFails S.told S.failed sink.old sink.new
        (joined (iteration_parts conflict.now)) result }
{
    let (mut earlier, mut later) = (Buffer::new(), Buffer::new());
    put_parts(
        sink,
        &[
            b", iterations ",
            earlier.format(conflict.earlier).as_bytes(),
            b" and ",
            later.format(conflict.later).as_bytes(),
            b", element ",
            conflict.accesses.array.as_bytes(),
        ],
    )
}

// Puts two iterations and the element that both touch, and the end of the line.
fn tell_iterations<S: Sink>(sink: &mut S, conflict: &Conflict) -> Result<(), Refusal>
    requires { S.failed sink.old + 1 < 2 ^ 64 }
    ensures { PutsOrFails S.told S.failed sink.old sink.new
        (line_text (iteration_parts conflict.now ++ map index_text conflict.now.indexes.items))
        result }
{
    put_iterations(sink, conflict)?;
    tell_indexes(sink, conflict.indexes.as_slice())
}

// Puts two accesses that conflict, with the iterations and the element, and the end of the line.
fn tell_conflict<S: Sink>(sink: &mut S, conflict: &Conflict) -> Result<(), Refusal>
    requires { S.failed sink.old + 1 < 2 ^ 64 }
    ensures { PutsOrFails S.told S.failed sink.old sink.new
        (line_text (conflict_parts conflict.now)) result }
{
    put_accesses(sink, &conflict.accesses)?;
    tell_iterations(sink, conflict)
}

// Puts the number of a faulty line of an input and its cause, and the end of the line.
fn tell_line<S: Sink>(sink: &mut S, line: u64, cause: &[u8]) -> Result<(), Refusal>
    requires { S.failed sink.old + 1 < 2 ^ 64 }
    ensures { PutsOrFails S.told S.failed sink.old sink.new
        (line_text (decimal line ∷ codes ": " ∷ cause.now ∷ [])) result }
{
    let mut buffer = Buffer::new();
    put_parts(sink, &[buffer.format(line).as_bytes(), b": ", cause, b"\n"])
}

// Puts what is said further of a refusal, and the end of the line.
fn tell_details<S: Sink>(sink: &mut S, refusal: &Refusal) -> Result<(), Refusal>
    requires { S.failed sink.old + 1 < 2 ^ 64 }
    ensures { PutsOrFails S.told S.failed sink.old sink.new
        (line_text (detail_parts refusal.now)) result }
{
    match refusal {
        Refusal::Conflict(conflict) => tell_conflict(sink, conflict),
        Refusal::NotShown(accesses) => tell_accesses(sink, accesses),
        Refusal::Input(fault) => tell_line(sink, fault.line, fault.cause.wording()),
        _ => put_text(sink, b"\n"),
    }
}

// Puts the words of a refusal.
fn put_words<S: Sink>(sink: &mut S, refusal: &Refusal) -> Result<(), Refusal>
    requires { S.failed sink.old + 1 < 2 ^ 64 }
    ensures { PutsOrFails S.told S.failed sink.old sink.new
        (joined (words_of refusal.now ∷ [])) result }
{
    put_parts(sink, &[refusal.wording()])
}

// Puts the words of a refusal and what is said further, and the end of the line.
fn tell_words<S: Sink>(sink: &mut S, refusal: &Refusal) -> Result<(), Refusal>
    requires { S.failed sink.old + 1 < 2 ^ 64 }
    ensures { PutsOrFails S.told S.failed sink.old sink.new
        (line_text (words_of refusal.now ∷ detail_parts refusal.now)) result }
{
    put_words(sink, refusal)?;
    tell_details(sink, refusal)
}

/// Writes the one line that says why something is refused: `Knn`, the place where there is one, and what is wrong.
///
/// # Errors
///
/// `OutputFailed` where the sink fails; a beginning of the line may be written then. No memory is taken.
pub fn tell<S: Sink>(refusal: &Refusal, sink: &mut S) -> Result<(), Refusal>
    requires { S.failed sink.old + 1 < 2 ^ 64 }
    ensures { PutsOrFails S.told S.failed sink.old sink.new (message_of refusal.now) result }
{
    put_start(sink, refusal)?;
    tell_words(sink, refusal)
}

/// The exit status of a program that meets this refusal: 1 for a faulty input or output, 4 for want of memory, and 3 for a
/// text that is refused.
pub fn status(refusal: &Refusal) -> u8
    ensures { result ≡ status_of (number_of refusal.now) }
{
    match refusal {
        Refusal::Input(_) | Refusal::OutputFailed => 1,
        Refusal::OutOfMemory => 4,
        _ => 3,
    }
}
