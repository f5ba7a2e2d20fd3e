//! Which texts are accepted.

ghost use Rattle.std.specs.Prelude.{◌≡◌, ◌≤◌, ◌^◌, ◌⊎◌, [], true, None, map, length, is_none, MatchOption, OnOk, IfOk, IfErr};
ghost use Rattle.flow_clauses.specs.Fitting.{fit_clauses, number_told};
ghost use Rattle.ktree.specs.Numbers.{number_of};
ghost use Rattle.flow.specs.Roles.{data_known, privates_by, ItemsKeepRoles};
ghost use Rattle.pragma_named.specs.Known.{kept, lines_known};
ghost use Rattle.pragma_attach.specs.Attached.{directives_of};
ghost use Rattle.semantics.specs.Directives.Naming.{IsAttached};
ghost use Rattle.flow.specs.Parallel.{AreParallelLoops};
ghost use Rattle.ktree.specs.View.{kernel_of};
ghost use Rattle.ktree.specs.declared.refusal.Refusal.TheVariants.{OutOfMemory};
ghost use Rattle.semantics.specs.Source.Grammar.{ReadsText};
ghost use Rattle.semantics.specs.Theorems.{StandsFor};
ghost use Rattle.semantics.specs.Meaning.Definite.{IsDefinite};
ghost use Rattle.flow_doacross.specs.Listed as listed;
ghost use Rattle.flow_doacross.specs.Views.{nest_part};
ghost use Rattle.flow_scan.specs.Scans as scans;
ghost use Rattle.flow_scan.specs.Views.{scan_part};
ghost use Rattle.pragma.specs.Plain.{IsDirected};
ghost use Rattle.pragma_region.specs.NotKnown.{unknown_among};
ghost use Rattle.nest.specs.Nests.{IsNested, IsInRange};
ghost use Rattle.nest.specs.Perfect.{AreRightNests};
ghost use Rattle.nest.specs.Judged.{IsTableOf};
ghost use Rattle.deptest.specs.Accepted.{tree_of, clauses_counted, data_counted, AreRegions, IsAccepted};
ghost use Rattle.ompk.specs.Inside.{AccessesStayWithin};
ghost use Rattle.ompk.specs.Judged.{whole_of, whole_found, IsRight, IsToldKernel, IsOfKernel};
ghost use Rattle.ompk.specs.Refused.{IsJudged, RefusesLines, RefusesUnknown, RefusesPlaces, RefusesNests, RefusesImperfect, RefusesRanges, RefusesScalars, RefusesClauses, RefusesRegions, RefusesWhole, HasRightData, RefusesData, RefusesPasses, RefusesAlone, RefusesKernel, RefusesText};

use crate::spared::{is_spared, spared_from};
use cparse::parse;
use deptest::{Checked, Parallel, accept};
use flow::{DataFault, ParallelLoop, classify};
use flow_clauses::{Misuse, first_misuse};
use flow_definite::definite;
use flow_doacross::{DoacrossFault, DoacrossLoop, DoacrossNests, doacross_of};
use flow_ordered::{Disorder, first_disorder};
use flow_scan::{ScanFault, ScanLoop, Scans, scans_of};
use ktree::{Kernel, Place, Refusal};
use nest::{LoopTable, nests};
use nest_lines::{ImperfectNest, first_imperfect};
use pragma::{Directives, first_fault};
use pragma_attach::attach;
use pragma_named::LineClauses;
use pragma_region::{RegionPart, count_clauses, dissolve_regions, first_unknown, regions_of};
use std::alloc::Global;

// Refuses a kernel with a directive line that is none, does not stand where it may, names what is no variable or has one in the wrong
// clauses; gives the clauses that count for each line.
fn judge_lines(
    alloc: Global,
    kernel: &Kernel,
    directives: &Directives,
) -> Result<LineClauses, Refusal>
    requires few { length kernel.now.variables.items ≤ 2 ^ 20 }
    ensures attached { IfOk result (λ _. IsAttached directives.now (kernel_of kernel.now)
        (directives_of directives.now (kernel_of kernel.now))) }
    ensures clauses { IfOk result (λ lines. clauses_counted directives.now (kernel_of kernel.now)
        (directives_of directives.now (kernel_of kernel.now)) ≡ lines_known (kept lines)) }
    ensures roles { IfOk result (λ lines. data_counted directives.now (kernel_of kernel.now)
        (directives_of directives.now (kernel_of kernel.now))
        ≡ data_known (kept lines) (length (kernel_of kernel.now).variables)) }
    ensures refusal { IfErr result (RefusesLines directives.now (kernel_of kernel.now)) }
{
    let mut lines = attach(alloc, kernel, directives)?;
    count_clauses(alloc, directives, kernel, &mut lines)?;
    Ok(lines)
}

// Refuses a kernel with a clause that is read and not run.
fn judge_known(kernel: &Kernel, directives: &Directives) -> Result<(), Refusal>
    ensures ok { OnOk result (unknown_among directives.now (kernel_of kernel.now).body ≡ None) }
    ensures refusal { IfErr result (RefusesUnknown directives.now (kernel_of kernel.now)) }
{
    match first_unknown(kernel, directives) {
        None => Ok(()),
        Some(unknown) => Err(Refusal::from(unknown)),
    }
}

// Refuses a kernel with a line that is none of a loop before a loop, or stands inside a parallel loop.
fn judge_places(kernel: &Kernel, directives: &Directives) -> Result<(), Refusal>
    ensures ok { OnOk result (IsDirected directives.now (kernel_of kernel.now)) }
    ensures refusal { IfErr result (RefusesPlaces directives.now (kernel_of kernel.now)) }
{
    match first_fault(kernel, directives) {
        None => Ok(()),
        Some(fault) => Err(Refusal::from(fault)),
    }
}

// Whether one refusal is told before another: by the order of the text, at one place by their numbers, and want of memory before all else.
fn comes_before(one: &Refusal, other: &Refusal) -> bool {
    match (one.place(), other.place()) {
        (None, _) => true,
        (_, None) => false,
        (Some(first), Some(second)) => {
            if first.line != second.line {
                return first.line < second.line;
            }
            if first.column != second.column {
                return first.column < second.column;
            }
            one.number() < other.number()
        }
    }
}

// The one of two refusals that is told.
fn first_of(one: Refusal, other: Refusal) -> Refusal
    ensures { (result ≡ one) ⊎ (result ≡ other) }
{
    if comes_before(&one, &other) {
        one
    } else {
        other
    }
}

// What is wrong with a kernel that only its directive lines inside parallel loops show.
#[derive(Clone, Copy)]
struct WholeFaults {
    imperfect: Option<ImperfectNest>,
    disorder: Option<Disorder>,
    misuse: Option<ScanFault>,
    doacross: Option<DoacrossFault>,
}

// Finds the facts of a kernel's loops, and refuses one whose loops are not canonical or may wrap, with a subscript that is not affine,
// or with a nest behind a directive line that is not perfect, with the lines in it or without, or not rectangular, or has too many
// iterations, of what comes first in the text.
fn judge_nests(
    alloc: Global,
    kernel: &Kernel,
    directives: &Directives,
    faults: WholeFaults,
) -> Result<LoopTable, Refusal>
    ensures ok { IfOk result (λ _. AreRightNests directives.now (kernel_of kernel.now)) }
    ensures nested { IfOk result (λ _. IsNested (kernel_of kernel.now)) }
    ensures perfect { IfOk result (λ _. (whole_of faults).perfect ≡ true) }
    ensures table { IfOk result (IsTableOf (kernel_of kernel.now)) }
    ensures refusal { IfErr result (λ r. RefusesNests directives.now (kernel_of kernel.now) r
        ⊎ RefusesImperfect (whole_of faults) r) }
{
    match (nests(alloc, kernel, directives), faults.imperfect) {
        (Ok(table), None) => Ok(table),
        (Ok(_table), Some(imperfect)) => Err(Refusal::from(imperfect)),
        (Err(fault), None) => Err(Refusal::from(fault)),
        (Err(fault), Some(imperfect)) => {
            Err(first_of(Refusal::from(imperfect), Refusal::from(fault)))
        }
    }
}

// Refuses a kernel with a subscript that leaves its array.
fn judge_ranges(kernel: &Kernel, table: &LoopTable) -> Result<(), Refusal>
    requires { IsTableOf (kernel_of kernel.now) table.now }
    ensures ok { IfOk result (λ _. IsInRange (kernel_of kernel.now)) }
    ensures refusal { IfErr result (RefusesRanges (kernel_of kernel.now)) }
{
    ranges::check(kernel, table)
}

// Whether a fault of the data stands before a local that may be read before it is assigned.
fn stands_before(fault: DataFault, refusal: &Refusal) -> bool {
    match refusal {
        Refusal::MayBeUnassigned(place) => fault.stands_before(*place),
        _ => false,
    }
}

// What refuses a kernel in which a parallel loop writes a shared scalar or does not keep the roles of its scalars, or a local may be read
// before it is assigned; the former where such reads are spared and both are so.
fn judge_scalars(
    alloc: Global,
    kernel: &Kernel,
    directives: &Directives,
    lines: &LineClauses,
    spared: Option<Place>,
) -> Result<Vec<ParallelLoop>, Refusal>
    ensures listed { IfOk result (λ loops. AreParallelLoops directives.now
        (data_known (kept lines.now) (length (kernel_of kernel.now).variables))
        (kernel_of kernel.now) loops.items) }
    ensures definite { IfOk result (λ _. IsDefinite (privates_by (data_known (kept lines.now)
        (length (kernel_of kernel.now).variables))) (kernel_of kernel.now)) }
    ensures roles { IfOk result (λ _. ItemsKeepRoles directives.now
        (data_known (kept lines.now) (length (kernel_of kernel.now).variables)) []
        (kernel_of kernel.now).body) }
    ensures refusal { IfErr result (RefusesScalars directives.now (kernel_of kernel.now)
        (data_known (kept lines.now) (length (kernel_of kernel.now).variables))) }
{
    match (
        definite(alloc, kernel, lines),
        classify(alloc, kernel, directives, lines),
    ) {
        (Ok(()), Ok(loops)) => Ok(loops),
        (Ok(()), Err(fault)) => Err(Refusal::from(fault)),
        (Err(refusal), Ok(_loops)) => Err(refusal),
        (Err(refusal), Err(fault)) => {
            if is_spared(&refusal, spared) || stands_before(fault, &refusal) {
                Err(Refusal::from(fault))
            } else {
                Err(refusal)
            }
        }
    }
}

// The first name that may not stand in its clause, if there is one.
fn clause_misuse(
    alloc: Global,
    kernel: &Kernel,
    lines: &LineClauses,
) -> Result<Option<Misuse>, Refusal>
    ensures fit { IfOk result (λ found. is_none found
        ≡ fit_clauses (lines_known (kept lines.now)) (kernel_of kernel.now)) }
    ensures refusal { IfErr result (λ refusal. refusal ≡ OutOfMemory) }
{
    let found = first_misuse(alloc, kernel, lines)?;
    Ok(found)
}

// The one of a name in a clause and of what else is wrong with the data that is told.
fn first_value(misuse: Misuse, refusal: Refusal, spared: Option<Place>) -> Refusal
    ensures { (result ≡ refusal) ⊎ (number_of result ≡ number_told misuse) }
{
    let told = Refusal::from(misuse);
    if is_spared(&refusal, spared) {
        return told;
    }
    first_of(told, refusal)
}

// Refuses a kernel by its data, or by a clause that names what it may not, whichever comes first in the text.
fn judge_values(
    alloc: Global,
    kernel: &Kernel,
    directives: &Directives,
    lines: &LineClauses,
) -> Result<Vec<ParallelLoop>, Refusal>
    ensures listed { IfOk result (λ loops. AreParallelLoops directives.now
        (data_known (kept lines.now) (length (kernel_of kernel.now).variables))
        (kernel_of kernel.now) loops.items) }
    ensures definite { IfOk result (λ _. IsDefinite (privates_by (data_known (kept lines.now)
        (length (kernel_of kernel.now).variables))) (kernel_of kernel.now)) }
    ensures roles { IfOk result (λ _. ItemsKeepRoles directives.now
        (data_known (kept lines.now) (length (kernel_of kernel.now).variables)) []
        (kernel_of kernel.now).body) }
    ensures fit { IfOk result (λ _. fit_clauses (lines_known (kept lines.now))
        (kernel_of kernel.now) ≡ true) }
    ensures refusal { IfErr result (λ r. RefusesScalars directives.now (kernel_of kernel.now)
        (data_known (kept lines.now) (length (kernel_of kernel.now).variables)) r
        ⊎ RefusesClauses (lines_known (kept lines.now)) (kernel_of kernel.now) r) }
{
    let misuse = clause_misuse(alloc, kernel, lines)?;
    let spared = spared_from(kernel, misuse);
    match (
        misuse,
        judge_scalars(alloc, kernel, directives, lines, spared),
    ) {
        (None, Ok(loops)) => Ok(loops),
        (None, Err(refusal)) => Err(refusal),
        (Some(misuse), Ok(_loops)) => Err(Refusal::from(misuse)),
        (Some(misuse), Err(refusal)) => Err(first_value(misuse, refusal, spared)),
    }
}

// What tells of ordered regions, loops that print and scans, of what comes first in the text.
fn region_refusal(faults: WholeFaults) -> Option<Refusal>
    ensures { MatchOption result
        (((whole_of faults).ordered ≡ true) × ((whole_of faults).phased ≡ true))
        (RefusesRegions (whole_of faults)) }
{
    match (faults.disorder, faults.misuse) {
        (None, None) => None,
        (Some(disorder), None) => Some(Refusal::from(disorder)),
        (None, Some(misuse)) => Some(Refusal::from(misuse)),
        (Some(disorder), Some(misuse)) => Some(first_of(
            Refusal::from(disorder),
            Refusal::from(misuse),
        )),
    }
}

// What tells of all of that, of what comes first in the text.
fn whole_refusal(faults: WholeFaults) -> Option<Refusal>
    ensures { MatchOption result (IsRight (whole_of faults)) (RefusesWhole (whole_of faults)) }
{
    match (region_refusal(faults), faults.doacross) {
        (None, None) => None,
        (Some(refusal), None) => Some(refusal),
        (None, Some(doacross)) => Some(Refusal::from(doacross)),
        (Some(refusal), Some(doacross)) => Some(first_of(refusal, Refusal::from(doacross))),
    }
}

// Refuses a kernel by its values, or by what is wrong with the whole, whichever comes first in the text.
fn judge_data(
    alloc: Global,
    kernel: &Kernel,
    directives: &Directives,
    lines: &LineClauses,
    faults: WholeFaults,
) -> Result<Vec<ParallelLoop>, Refusal>
    ensures listed { IfOk result (λ loops. AreParallelLoops directives.now
        (data_known (kept lines.now) (length (kernel_of kernel.now).variables))
        (kernel_of kernel.now) loops.items) }
    ensures right { IfOk result (λ _. HasRightData directives.now (kernel_of kernel.now)
        (data_known (kept lines.now) (length (kernel_of kernel.now).variables))
        (lines_known (kept lines.now)) (whole_of faults)) }
    ensures refusal { IfErr result (RefusesData directives.now (kernel_of kernel.now)
        (data_known (kept lines.now) (length (kernel_of kernel.now).variables))
        (lines_known (kept lines.now)) (whole_of faults)) }
{
    match (
        judge_values(alloc, kernel, directives, lines),
        whole_refusal(faults),
    ) {
        (Ok(loops), None) => Ok(loops),
        (Ok(_loops), Some(whole)) => Err(whole),
        (Err(refusal), None) => Err(refusal),
        (Err(refusal), Some(whole)) => Err(first_of(whole, refusal)),
    }
}

// What is known of the loops of a kernel before the dependence test: the facts of each, and those behind directive lines.
struct KnownLoops {
    table: LoopTable,
    loops: Vec<ParallelLoop>,
}

// Refuses a tree that does not pass what stands before the dependence test, in the order of the passes: places of directive lines, loops
// and nests, data, and ranges.
fn judge(
    alloc: Global,
    kernel: &Kernel,
    directives: &Directives,
    lines: &LineClauses,
    faults: WholeFaults,
) -> Result<KnownLoops, Refusal>
    ensures judged { IfOk result (λ _. IsJudged directives.now (kernel_of kernel.now)
        (data_known (kept lines.now) (length (kernel_of kernel.now).variables))
        (lines_known (kept lines.now)) (whole_of faults)) }
    ensures table { IfOk result (λ known. IsTableOf (kernel_of kernel.now) known.table) }
    ensures listed { IfOk result (λ known. AreParallelLoops directives.now
        (data_known (kept lines.now) (length (kernel_of kernel.now).variables))
        (kernel_of kernel.now) known.loops.items) }
    ensures refusal { IfErr result (RefusesPasses directives.now (kernel_of kernel.now)
        (data_known (kept lines.now) (length (kernel_of kernel.now).variables))
        (lines_known (kept lines.now)) (whole_of faults)) }
{
    judge_places(kernel, directives)?;
    let table = judge_nests(alloc, kernel, directives, faults)?;
    let loops = judge_data(alloc, kernel, directives, lines, faults)?;
    judge_ranges(kernel, &table)?;
    Ok(KnownLoops { table, loops })
}

// The loops of a kernel of which the directive lines inside them tell more: those of scans, and doacross nests.
#[derive(Drop)]
struct ToldLoops {
    scans: Vec<ScanLoop>,
    doacross: Vec<DoacrossLoop>,
}

// What is found of a kernel with all of its directive lines.
#[derive(Drop)]
struct WholeKernel {
    faults: WholeFaults,
    told: ToldLoops,
}

// Looks for nests that lines part, at ordered regions, loops that print, scans and doacross nests.
fn judge_whole(
    alloc: Global,
    kernel: &Kernel,
    directives: &Directives,
    lines: &LineClauses,
) -> Result<WholeKernel, Refusal>
    ensures found { IfOk result (λ whole. whole_of whole.faults ≡ whole_found directives.now
        (lines_known (kept lines.now)) (kernel_of kernel.now)) }
    ensures scans { IfOk result (λ whole. map scan_part whole.told.scans.items
        ≡ scans.scans_of directives.now (lines_known (kept lines.now)) (kernel_of kernel.now)) }
    ensures nests { IfOk result (λ whole. map nest_part whole.told.doacross.items
        ≡ listed.doacross_of directives.now (lines_known (kept lines.now))
        (kernel_of kernel.now)) }
    ensures refusal { IfErr result (λ refusal. refusal ≡ OutOfMemory) }
{
    let imperfect = first_imperfect(kernel, directives);
    let disorder = first_disorder(kernel, directives);
    let Scans { loops, misuse } = scans_of(alloc, kernel, directives, lines)?;
    let DoacrossNests {
        nests,
        misuse: doacross,
    } = doacross_of(alloc, kernel, directives, lines)?;
    Ok(WholeKernel {
        faults: WholeFaults {
            imperfect,
            disorder,
            misuse,
            doacross,
        },
        told: ToldLoops {
            scans: loops,
            doacross: nests,
        },
    })
}

// Accepts a kernel whose regions are dissolved, or refuses it.
fn accept_alone(
    alloc: Global,
    kernel: Kernel,
    text: &[u8],
    directives: &Directives,
    lines: &LineClauses,
    whole: WholeKernel,
    regions: Vec<RegionPart>,
) -> Result<Checked, Refusal>
    requires stands { IsToldKernel text.now (kernel_of kernel) (kept lines.now)
        (whole_of whole.faults) whole.told }
    requires lines { directives.now ≡ text.now }
    requires regions { AreRegions text.now (kernel_of kernel) regions.items }
    ensures is { IfOk result (λ checked. checked ≡ record { text = text.now; kernel = kernel }) }
    ensures refusal { IfErr result (RefusesAlone text.now (kernel_of kernel)
        (data_known (kept lines.now) (length (kernel_of kernel).variables))
        (lines_known (kept lines.now)) (whole_of whole.faults)) }
{
    let KnownLoops { table, loops } = judge(alloc, &kernel, directives, lines, whole.faults)?;
    let WholeKernel {
        faults: _,
        told: ToldLoops { scans, doacross },
    } = whole;
    let parallel = Parallel {
        loops,
        scans,
        doacross,
        regions,
    };
    accept(alloc, directives, &table, text, kernel, parallel)
}

// Accepts the kernel of a text with these directive lines, or refuses it.
fn accept_directed(
    alloc: Global,
    kernel: Kernel,
    text: &[u8],
    directives: &Directives,
) -> Result<Checked, Refusal>
    requires reads { ReadsText text.now (kernel_of kernel) }
    requires few { length kernel.variables.items ≤ 2 ^ 20 }
    requires lines { directives.now ≡ text.now }
    ensures is { IfOk result (IsOfKernel text.now (kernel_of kernel)) }
    ensures refusal { IfErr result (RefusesKernel text.now (kernel_of kernel)) }
{
    let lines = judge_lines(alloc, &kernel, directives)?;
    judge_known(&kernel, directives)?;
    let regions = regions_of(alloc, directives, &kernel)?;
    let whole = judge_whole(alloc, &kernel, directives, &lines)?;
    let kernel = dissolve_regions(alloc, directives, kernel)?;
    accept_alone(alloc, kernel, text, directives, &lines, whole, regions)
}

// Accepts the kernel of a text, or refuses it.
fn accept_kernel(alloc: Global, kernel: Kernel, text: &[u8]) -> Result<Checked, Refusal>
    requires reads { ReadsText text.now (kernel_of kernel) }
    requires few { length kernel.variables.items ≤ 2 ^ 20 }
    ensures is { IfOk result (IsOfKernel text.now (kernel_of kernel)) }
    ensures refusal { IfErr result (RefusesKernel text.now (kernel_of kernel)) }
{
    let directives = Directives::read(alloc, text)?;
    accept_directed(alloc, kernel, text, &directives)
}

/// Reads a text, and finds out whether it is one of those that are run: its tree is there, its directive lines are read, each
/// loop and each subscript is of a form that is run and stays inside its array, no local is read before it is assigned, and the
/// iterations of its parallel loops are shown to be independent, or ordered by their sinks (C11 5.1.1.2; OpenMP 5.2, 3.1, 11.5 and 15.9.6).
///
/// # Errors
///
/// `OutOfMemory` where memory is refused, and otherwise one of the refusals of a text, where no tree is read from it or one
/// that is not run.
pub fn check(alloc: Global, text: &[u8]) -> Result<Checked, Refusal>
    ensures stands { IfOk result (λ checked. StandsFor text.now (tree_of checked)) }
    ensures keeps { IfOk result (λ checked. checked.text ≡ text.now) }
    ensures sound { IfOk result IsAccepted }
    ensures inside { IfOk result (λ checked. AccessesStayWithin (tree_of checked)) }
    ensures refusal { IfErr result (RefusesText text.now) }
{
    let kernel = parse(alloc, text)?;
    accept_kernel(alloc, kernel, text)
}
