//! The calls that stand for a loop.

ghost use Rattle.std.specs.Prelude.{◌≡◌, true, false, ◌++◌, ◌∷◌, [], codes, map, flat_map, OnOk};
ghost use Rattle.semantics.specs.Theorems.{Begins};
ghost use Rattle.semantics.specs.Directives.Listing.{is_static as are_static, begin_lines, end_lines, reduce_lines, pass_lines, loop_lines, numbered};
ghost use Rattle.semantics.specs.Directives.Directive.{op_text};
ghost use Rattle.ktree.specs.DirectiveView.{schedule_of, operator_of};
ghost use Rattle.pragma_region.specs.Listed.{reduction_named, loop_said};
ghost use Rattle.listing.specs.Regions.{schedule_listed, scan_with, listed_loop, turn_lines, reduction_words};

use crate::doacross::{add_nest_begin, add_nest_calls, add_nest_end};
use crate::lines::{add_front, add_line, add_parts};
use itoa::Buffer;
use ktree::{ReductionOperator, Schedule};
use pragma::ParallelFor;
use pragma_region::{NamedReduction, RegionLoop};
use std::alloc::AllocError;

// A loop that asks for chunks: its begin, and the first call that asks.
fn add_dispatch(
    text: &mut Vec<u8>,
    region: usize,
    number: usize,
    words: &[u8],
    size: &[u8],
) -> Result<(), AllocError>
    ensures added { OnOk result (text.new.items
        ≡ text.old.items ++ numbered region number
        ((words.now ++ size.now) ∷ codes "__kmpc_dispatch_next_8u" ∷ [])) }
    ensures front { Begins text.old.items text.new.items }
{
    add_line(text, region, number, words, size)?;
    add_line(text, region, number, b"__kmpc_dispatch_next_8u", b"")
}

// How a loop begins (`__kmpc_for_static_init_8u`, or `__kmpc_dispatch_init_8u` and `__kmpc_dispatch_next_8u`).
fn add_begin(
    text: &mut Vec<u8>,
    region: usize,
    number: usize,
    schedule: &Schedule,
) -> Result<(), AllocError>
    ensures added { OnOk result (text.new.items
        ≡ text.old.items ++ numbered region number
        (begin_lines (schedule_of schedule.now))) }
    ensures front { Begins text.old.items text.new.items }
{
    let mut digits = Buffer::new();
    match schedule {
        Schedule::Static | Schedule::Auto => {
            add_line(
                text,
                region,
                number,
                b"__kmpc_for_static_init_8u static",
                b"",
            )
        }
        Schedule::StaticChunks(size) => {
            let size = digits.format(size.get()).as_bytes();
            add_line(
                text,
                region,
                number,
                b"__kmpc_for_static_init_8u static,",
                size,
            )
        }
        Schedule::Dynamic(size) => {
            let size = digits.format(size.get()).as_bytes();
            add_dispatch(
                text,
                region,
                number,
                b"__kmpc_dispatch_init_8u dynamic,",
                size,
            )
        }
        Schedule::Guided(size) => {
            let size = digits.format(size.get()).as_bytes();
            add_dispatch(
                text,
                region,
                number,
                b"__kmpc_dispatch_init_8u guided,",
                size,
            )
        }
        Schedule::Runtime => add_dispatch(
            text,
            region,
            number,
            b"__kmpc_dispatch_init_8u runtime",
            b"",
        ),
    }
}

// Whether each worker knows its chunks from its own number.
fn is_static(schedule: &Schedule) -> bool
    ensures { result ≡ are_static (schedule_of schedule.now) }
{
    match schedule {
        Schedule::Static | Schedule::StaticChunks(_) | Schedule::Auto => true,
        Schedule::Dynamic(_) | Schedule::Guided(_) | Schedule::Runtime => false,
    }
}

// How a static loop ends (`__kmpc_for_static_fini`).
#[tactic(auto, using(crate::proofs::Texts::ended_ok))]
fn add_end(
    text: &mut Vec<u8>,
    region: usize,
    number: usize,
    schedule: &Schedule,
) -> Result<(), AllocError>
    ensures added { OnOk result (text.new.items
        ≡ text.old.items ++ numbered region number
        (end_lines (schedule_of schedule.now))) }
    ensures front { Begins text.old.items text.new.items }
{
    if is_static(schedule) {
        add_line(text, region, number, b"__kmpc_for_static_fini", b"")
    } else {
        Ok(())
    }
}

// An operator as it stands in a clause (OpenMP 5.2, 5.5.1).
fn operator_text(operator: &ReductionOperator) -> &'static [u8]
    ensures { result.now ≡ op_text (operator_of operator.now) }
{
    match operator {
        ReductionOperator::Sum => b"+",
        ReductionOperator::Product => b"*",
        ReductionOperator::And => b"&",
        ReductionOperator::Or => b"|",
        ReductionOperator::Xor => b"^",
        ReductionOperator::LogicalAnd => b"&&",
        ReductionOperator::LogicalOr => b"||",
        ReductionOperator::Max => b"max",
        ReductionOperator::Min => b"min",
    }
}

// Adds a variable behind its operator.
fn add_named<'w>(text: &mut Vec<u8>, operator: &'w [u8], name: &'w [u8]) -> Result<(), AllocError>
    ensures added { OnOk result (text.new.items
        ≡ text.old.items ++ 32 ∷ (operator.now ++ 58 ∷ name.now)) }
    ensures front { Begins text.old.items text.new.items }
{
    add_parts(text, &[b" ", operator, b":", name])
}

// Adds the variables of reductions, each behind its operator.
fn add_reduced(text: &mut Vec<u8>, reductions: &[NamedReduction]) -> Result<(), AllocError>
    ensures added { OnOk result (text.new.items
        ≡ text.old.items ++ flat_map reduction_words (map reduction_named reductions.now)) }
    ensures front { Begins text.old.items text.new.items }
{
    for reduction in reductions {
        let operator = operator_text(&reduction.operator);
        add_named(text, operator, reduction.name.as_bytes())?;
    }
    Ok(())
}

// Adds the calls that put reductions together (`__kmpc_reduce`, `__kmpc_end_reduce`; OpenMP 5.2, 5.5.8), none where there is none.
fn add_reductions(
    text: &mut Vec<u8>,
    region: usize,
    number: usize,
    reductions: &[NamedReduction],
) -> Result<(), AllocError>
    ensures added { OnOk result (text.new.items
        ≡ text.old.items ++ numbered region number
        (reduce_lines (map reduction_named reductions.now))) }
    ensures front { Begins text.old.items text.new.items }
{
    if reductions.is_empty() {
        return Ok(());
    }
    add_front(text, region, number, b"__kmpc_reduce")?;
    add_reduced(text, reductions)?;
    add_parts(text, &[b"\n"])?;
    add_line(text, region, number, b"__kmpc_end_reduce", b"")
}

// The barrier behind a loop (`__kmpc_barrier`; OpenMP 5.2, 11.5).
fn add_barrier(text: &mut Vec<u8>, region: usize, number: usize) -> Result<(), AllocError>
    ensures added { OnOk result (text.new.items
        ≡ text.old.items ++ numbered region number (codes "__kmpc_barrier" ∷ [])) }
    ensures front { Begins text.old.items text.new.items }
{
    add_line(text, region, number, b"__kmpc_barrier", b"")
}

// The schedule of a loop: plain static where its line says none (OpenMP 5.2, 11.5.3).
fn schedule_for(directive: ParallelFor) -> Schedule
    ensures { schedule_of result ≡ schedule_listed directive }
{
    match directive.schedule {
        Some(schedule) => schedule,
        None => Schedule::Static,
    }
}

// The begin and the end of a loop that is no scan's, and what the iterations of a doacross nest call in between.
fn add_turns(
    text: &mut Vec<u8>,
    region: usize,
    number: usize,
    region_loop: &RegionLoop,
) -> Result<(), AllocError>
    ensures added { OnOk result (text.new.items
        ≡ text.old.items ++ numbered region number
        (turn_lines (listed_loop (loop_said region_loop.now)))) }
    ensures front { Begins text.old.items text.new.items }
{
    let schedule = schedule_for(region_loop.said);
    add_nest_begin(text, region, number, region_loop)?;
    add_begin(text, region, number, &schedule)?;
    add_nest_calls(text, region, number, region_loop)?;
    add_end(text, region, number, &schedule)?;
    add_nest_end(text, region, number, region_loop)
}

// The lines of such a loop: behind these the calls that put reductions together, and the barrier.
fn add_plain(
    text: &mut Vec<u8>,
    region: usize,
    number: usize,
    region_loop: &RegionLoop,
) -> Result<(), AllocError>
    requires { region_loop.now.scan ≡ false }
    ensures added { OnOk result (text.new.items
        ≡ text.old.items ++ numbered region number
        (loop_lines (listed_loop (loop_said region_loop.now)))) }
    ensures front { Begins text.old.items text.new.items }
{
    add_turns(text, region, number, region_loop)?;
    add_reductions(text, region, number, region_loop.reductions.as_slice())?;
    add_barrier(text, region, number)
}

// One pass over a scan's loop: its begin and end, and the barrier behind it.
fn add_pass(
    text: &mut Vec<u8>,
    region: usize,
    number: usize,
    schedule: &Schedule,
) -> Result<(), AllocError>
    ensures added { OnOk result (text.new.items
        ≡ text.old.items ++ numbered region number
        (pass_lines (scan_with (schedule_of schedule.now)))) }
    ensures front { Begins text.old.items text.new.items }
{
    add_begin(text, region, number, schedule)?;
    add_end(text, region, number, schedule)?;
    add_barrier(text, region, number)
}

// Both passes.
fn add_passes(
    text: &mut Vec<u8>,
    region: usize,
    number: usize,
    region_loop: &RegionLoop,
) -> Result<(), AllocError>
    requires { region_loop.now.scan ≡ true }
    ensures added { OnOk result (text.new.items
        ≡ text.old.items ++ numbered region number
        (loop_lines (listed_loop (loop_said region_loop.now)))) }
    ensures front { Begins text.old.items text.new.items }
{
    let schedule = schedule_for(region_loop.said);
    add_pass(text, region, number, &schedule)?;
    add_pass(text, region, number, &schedule)
}

/// Adds the lines of a loop by its schedule (OpenMP 5.2, 11.5.3): its begin and end, what the iterations of a doacross nest call (4.4.4),
/// the calls that put reductions together (5.5.8), and the barrier behind it (`__kmpc_barrier`; 11.5); of a scan's loop (5.6) two passes,
/// each with its barrier.
///
/// # Errors
///
/// Where memory runs out.
pub(crate) fn add_loop(
    text: &mut Vec<u8>,
    region: usize,
    number: usize,
    region_loop: &RegionLoop,
) -> Result<(), AllocError>
    ensures added { OnOk result (text.new.items
        ≡ text.old.items ++ numbered region number
        (loop_lines (listed_loop (loop_said region_loop.now)))) }
    ensures front { Begins text.old.items text.new.items }
{
    if region_loop.scan {
        add_passes(text, region, number, region_loop)
    } else {
        add_plain(text, region, number, region_loop)
    }
}
