//! Laws of changes.

ghost use Rattle.std.specs.Prelude.{◌≡◌, ℕ, List, ◌⊎◌, ◌<◌, length, slice_index, None};
ghost use Rattle.overlay_pages.specs.Over.{Writes, or_else, writes_in, changing, written_over};
ghost use Rattle.overlay_pages.specs.Seen.{Seen, cells_of};
ghost use Rattle.store.specs.Flat.{values_of};

/// The changes of chunks that write no place in common leave the same cells in either order.
pub fn disjoint_changes_commute()
    ensures { (v w : Writes) (cells : List ℕ)
        → ((place : ℕ) → (v place ≡ None) ⊎ (w place ≡ None))
        → written_over v (written_over w cells) ≡ written_over w (written_over v cells) }
{}

/// The changes of a chunk, over the store that it ran over, leave the cells that it saw.
pub fn changes_leave_what_the_chunk_saw()
    ensures { (chunk : Seen) (w : Writes)
        → ((place : ℕ) → w place ≡ changing (writes_in chunk.written) (values_of chunk.store) place)
        → written_over w (values_of chunk.store) ≡ cells_of chunk }
{}

/// A cell holds what was written there, or else what it held.
pub fn cells_hold_their_writes()
    ensures { (w : Writes) (cells : List ℕ) (place : ℕ)
        → place < length cells
        → slice_index (written_over w cells) place ≡ or_else (w place) (slice_index cells place) }
{}
