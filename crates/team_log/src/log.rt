//! What the chunks of a worker leave, kept in one log.

ghost use Rattle.std.specs.Prelude.{◌≡◌, true, ◌++◌, length, map, slice_set, IfErr, OnOk};
ghost use Rattle.ktree.specs.DirectiveView.{operator_of};
ghost use Rattle.semantics.specs.Loops.Joined.{value_at};
ghost use Rattle.semantics.specs.Loops.Operator.{combined, combined_all};
ghost use Rattle.reduce.specs.Partial.{partial_of};
ghost use Rattle.store.specs.Flat.{values_of};
ghost use Rattle.team_log.specs.Applied.{AreApplied};
ghost use Rattle.team_log.specs.Logged.{account_of, both, bytes_in, later, no_account, partials_in};
ghost use Rattle.team_log.specs.Printed.{AreSilent, entered, entered_by, entered_from};
ghost use Rattle.team_log.specs.Scanned.{told_of_scan, partials_from};
ghost use Rattle.team_log.specs.Spots.{told_of};

use crate::piece::ChunkPiece;
use inscan::first_partial;
use ktree::{ChunkNo, ReductionOperator};
use overlay::Piece;
use overlay_pages::Changes;
use reduce::{Partial, combine_by};
use smallvec::SmallVec;
use std::alloc::{AllocError, Global};
use std::marker::Model;
use store::Store;

/// A chunk that has ended, how many changes it has, how many partials, and how many bytes it prints.
#[derive(Clone, Copy, Debug, PartialEq, Eq)]
pub struct EndedChunk {
    pub number: ChunkNo,
    pub changes: u64,
    pub partials: u64,
    pub bytes: u64,
}

impl Default for EndedChunk {
    fn default() -> EndedChunk {
        EndedChunk {
            number: ChunkNo(0),
            changes: 0,
            partials: 0,
            bytes: 0,
        }
    }
}

/// What the chunks of a worker leave, in the order in which it ran them: 32 bytes for a chunk beside its changes, partials and text.
#[derive(Drop)]
pub struct ChunkLog {
    ended: SmallVec<EndedChunk, 1>,
    changes: Changes,
    partials: Vec<Partial>,
    lasts: Vec<u64>,
    text: Vec<u8>,
}

impl Model for ChunkLog {
    ghost use Rattle.std.specs.Prelude.{◌≡◌, length, map};
    ghost use Rattle.reduce.specs.Partial.{partial_of};
    ghost use Rattle.team_log.specs.Logged.{Account, changes_in, partials_in, bytes_in, logged};

    ghost Value = { Account };

    ghost view = { λ l. record {
      chunks = logged l.ended.items l.changes (map partial_of l.partials.items) l.text.items;
      lasts = l.lasts.items;
    } };

    ghost invariant = { λ l. (changes_in l.ended.items ≡ length l.changes)
        × (partials_in l.ended.items ≡ length l.partials.items)
        × (bytes_in l.ended.items ≡ length l.text.items) };
}

// Adds a chunk's changes and partials to those of others, or neither.
fn add(
    changes: &mut Changes,
    partials: &mut Vec<Partial>,
    more_changes: Changes,
    more_partials: &[Partial],
) -> Result<(), AllocError>
    ensures changes { OnOk result (changes.new ≡ changes.old ++ more_changes) }
    ensures partials { OnOk result (partials.new.items
        ≡ partials.old.items ++ more_partials.now) }
    ensures kept { IfErr result (λ _. changes.new ≡ changes.old) }
    ensures kept_partials { IfErr result (λ _. partials.new.items ≡ partials.old.items) }
{
    let count = partials.len();
    partials.extend_from_slice(more_partials)?;
    if let Err(AllocError) = changes.append(more_changes) {
        partials.truncate(count);
        return Err(AllocError);
    }
    Ok(())
}

// Adds a chunk's text as well, or none of the three.
fn add_all(
    text: &mut Vec<u8>,
    changes: &mut Changes,
    partials: &mut Vec<Partial>,
    more_text: &[u8],
    more_changes: Changes,
    more_partials: &[Partial],
) -> Result<(), AllocError>
    ensures text { OnOk result (text.new.items ≡ text.old.items ++ more_text.now) }
    ensures changes { OnOk result (changes.new ≡ changes.old ++ more_changes) }
    ensures partials { OnOk result (partials.new.items
        ≡ partials.old.items ++ more_partials.now) }
    ensures kept_text { IfErr result (λ _. text.new.items ≡ text.old.items) }
    ensures kept { IfErr result (λ _. changes.new ≡ changes.old) }
    ensures kept_partials { IfErr result (λ _. partials.new.items ≡ partials.old.items) }
{
    let count = text.len();
    text.extend_from_slice(more_text)?;
    if let Err(AllocError) = add(changes, partials, more_changes, more_partials) {
        text.truncate(count);
        return Err(AllocError);
    }
    Ok(())
}

// Later values stand in place of others, where there are some.
fn keep_later(lasts: &mut Vec<u64>, values: Vec<u64>)
    ensures { lasts.new.items ≡ later lasts.old.items values.items }
{
    if values.is_empty() {
        return;
    }
    *lasts = values;
}

// A value combined with the partial of an index, if there is one.
fn combine_at(operator: ReductionOperator, index: u64, value: u64, partials: &[Partial]) -> u64
    ensures { result ≡ combined (operator_of operator) value
        (value_at index (map partial_of partials.now)) }
{
    match partials.get(index as usize) {
        Some(partial) => combine_by(operator, value, *partial),
        None => value,
    }
}

// The text of a chunk stands at its number, if there is a place for it.
fn enter<'l>(texts: &mut [&'l [u8]], number: ChunkNo, text: &'l [u8])
    ensures { map (λ t. t.now) texts.new
        ≡ slice_set (map (λ t. t.now) texts.old) number.0 text.now }
{
    if (number.0 as usize) < texts.len() {
        texts[number.0 as usize] = text;
    }
}

// So does the text of each of these, which come one behind another.
fn enter_each<'l>(ended: &[EndedChunk], text: &'l [u8], texts: &mut [&'l [u8]])
    requires { bytes_in ended.now ≡ length text.now }
    ensures { map (λ t. t.now) texts.new
        ≡ entered_from ended.now text.now (map (λ t. t.now) texts.old) }
{
    let mut chunks = ended;
    let mut left = text;
    'chunks: while let Some((ended, more)) = chunks.split_first() {
        let (own, behind) = left.split_at(ended.bytes as usize);
        enter(texts, ended.number, own);
        chunks = more;
        left = behind;
    }
}

// What a chunk tells of a scan's variable stands at its number, if there is a place for it.
fn enter_partial(table: &mut [Partial], number: ChunkNo, partials: &[Partial])
    ensures { map partial_of table.new ≡ slice_set (map partial_of table.old) number.0
        (value_at 0 (map partial_of partials.now)) }
{
    if (number.0 as usize) < table.len() {
        table[number.0 as usize] = first_partial(partials);
    }
}

// So does what each of these tells, whose partials come one behind another.
fn enter_each_partial(ended: &[EndedChunk], partials: &[Partial], table: &mut [Partial])
    requires { partials_in ended.now ≡ length partials.now }
    ensures { map partial_of table.new
        ≡ partials_from ended.now partials.now (map partial_of table.old) }
{
    let mut chunks = ended;
    let mut left = partials;
    'chunks: while let Some((ended, more)) = chunks.split_first() {
        let (own, behind) = left.split_at(ended.partials as usize);
        enter_partial(table, ended.number, own);
        chunks = more;
        left = behind;
    }
}

impl ChunkLog {
    /// Of no chunk.
    pub fn new(alloc: Global) -> ChunkLog
        ensures { result ≡ no_account }
    {
        ChunkLog {
            ended: SmallVec::new(alloc),
            changes: Changes::none(alloc),
            partials: Vec::new(alloc),
            lasts: Vec::new(alloc),
            text: Vec::new(alloc),
        }
    }

    /// One chunk more.
    ///
    /// # Errors
    ///
    /// Where memory is refused.
    pub fn push(&mut self, chunk: ChunkPiece) -> Result<(), AllocError>
        ensures { OnOk result (self.new ≡ both self.old (account_of chunk)) }
    {
        self.ended.reserve(1)?;
        let ChunkPiece { number, piece } = chunk;
        let Piece {
            changes,
            partials,
            lasts,
            text,
        } = piece;
        let ended = EndedChunk {
            number,
            changes: changes.len(),
            partials: partials.len() as u64,
            bytes: text.bytes().len() as u64,
        };
        add_all(
            &mut self.text,
            &mut self.changes,
            &mut self.partials,
            text.bytes(),
            changes,
            partials.as_slice(),
        )?;
        self.ended.push_reserved(ended);
        keep_later(&mut self.lasts, lasts);
        Ok(())
    }

    /// Overwrites a store by the changes of these chunks, one after another.
    pub fn apply(&self, store: &mut Store)
        ensures applied { AreApplied (values_of store.old) (values_of store.new) self.now.chunks }
        ensures shape { map (λ k. k.lengths) store.new ≡ map (λ k. k.lengths) store.old }
    {
        self.changes.apply(store);
    }

    /// A value combined with what these chunks tell of the reduction variable of an index, one after another (OpenMP 5.2, 5.5.5).
    pub(crate) fn combine(&self, operator: ReductionOperator, index: u64, value: u64) -> u64
        ensures { result ≡ combined_all (operator_of operator) value
            (told_of index self.now.chunks) }
    {
        let mut value = value;
        let mut chunks = self.ended.as_slice();
        let mut partials = self.partials.as_slice();
        'chunks: while let Some((ended, more)) = chunks.split_first() {
            let (own, behind) = partials.split_at(ended.partials as usize);
            value = combine_at(operator, index, value, own);
            chunks = more;
            partials = behind;
        }
        value
    }

    /// Whether these chunks print nothing.
    pub(crate) fn is_silent(&self) -> bool
        ensures { result ≡ true → AreSilent self.now.chunks }
    {
        self.text.is_empty()
    }

    /// What each of these chunks prints stands at its number.
    pub(crate) fn enter_texts<'l>(&'l self, texts: &mut [&'l [u8]])
        ensures { map (λ t. t.now) texts.new
            ≡ entered self.now.chunks (map (λ t. t.now) texts.old) }
    {
        enter_each(self.ended.as_slice(), self.text.as_slice(), texts);
    }

    /// What each of these chunks tells of a scan's variable stands at its number.
    pub(crate) fn enter_partials(&self, table: &mut [Partial])
        ensures { map partial_of table.new
            ≡ entered_by told_of_scan self.now.chunks (map partial_of table.old) }
    {
        enter_each_partial(self.ended.as_slice(), self.partials.as_slice(), table);
    }

    /// What the last chunk leaves in lastprivate variables, where it is among these; no values where it is not.
    pub(crate) fn lasts(&self) -> &[u64]
        ensures { result.now ≡ self.now.lasts }
    {
        self.lasts.as_slice()
    }
}
