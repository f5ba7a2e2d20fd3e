//! Where the file-scope variables of a running program are kept.

ghost use Rattle.std.specs.Prelude.{◌≡◌, ◌+◌, ◌<◌, ◌≤◌, ◌↔◌, [], ◌∷◌, length, map, take, drop, slice_get, slice_set, slice_index, IfOk, IsTrue, Some};
ghost use Rattle.semantics.specs.Meaning.Places.{size};
ghost use Rattle.store.specs.Kept.{overlaid, rewritten_at, HasRoom};
ghost use Rattle.store.specs.Flat.{values_of, filled, AreFilled, zeros_of};
ghost use Rattle.store.specs.Placing.{Lie};
ghost use Rattle.store.specs.Filling.{row_of};

use crate::filling::{Filler, fill_cells};
use crate::shape::Shape;
use ktree::VarId;
use std::alloc::{AllocError, Global};
use std::marker::Model;

/// A file-scope variable as it stands in a store: the lengths of its dimensions, and its values row by row (C11 6.5.2.1).
#[derive(Drop)]
pub struct Array<'s> {
    lengths: &'s [u64],
    values: &'s [u64],
}

impl<'s> Model for Array<'s> {
    ghost use Rattle.store.specs.Kept.{Kept, IsFilled};

    ghost Value = { Kept };

    ghost view = { λ a. record { lengths = a.lengths.now; values = a.values.now } };

    ghost invariant = { λ a. IsFilled (record { lengths = a.lengths.now; values = a.values.now }) };
}

impl<'s> Array<'s> {
    /// The lengths of its dimensions.
    pub fn lengths(&self) -> &'s [u64]
        ensures { result.now ≡ self.now.lengths }
    {
        self.lengths
    }

    /// Its values, row by row.
    pub fn values(&self) -> &'s [u64]
        ensures value { result.now ≡ self.now.values }
        ensures count { length result.now ≡ size self.now.lengths }
    {
        self.values
    }
}

// Where a variable lies among the cells: behind all variables before it.
#[derive(Drop)]
struct Placed {
    shape: Shape,
    first: u64,
}

/// The file-scope variables, by their numbers: their values stand one variable behind another in one list of cells.
#[derive(Drop)]
pub struct Store {
    places: Vec<Placed>,
    cells: Vec<u64>,
}

impl Model for Store {
    ghost use Rattle.std.specs.Prelude.{List, length};
    ghost use Rattle.store.specs.Kept.{Kept};
    ghost use Rattle.store.specs.Placing.{kept_in, Lie};

    ghost Value = { List Kept };

    ghost view = { λ s. kept_in s.cells.items s.places.items };

    ghost invariant = { λ s. Lie 0 s.places.items (length s.cells.items) };
}

/// The variables of a store whose cells are elsewhere. Contracts see them with each element 0.
#[derive(Drop)]
pub struct Frame {
    places: Vec<Placed>,
    count: u64,
}

impl Model for Frame {
    ghost use Rattle.std.specs.Prelude.{List, replicate};
    ghost use Rattle.store.specs.Kept.{Kept};
    ghost use Rattle.store.specs.Placing.{kept_in, Lie};

    ghost Value = { List Kept };

    ghost view = { λ f. kept_in (replicate f.count 0) f.places.items };

    ghost invariant = { λ f. Lie 0 f.places.items f.count };
}

// So many cells from a first one on.
fn part(cells: &[u64], first: u64, count: u64) -> &[u64]
    requires { first + count ≤ length cells.now }
    ensures { result.now ≡ take count (drop first cells.now) }
{
    let (_, behind) = cells.split_at(first as usize);
    let (values, _) = behind.split_at(count as usize);
    values
}

// Writes these values over cells from one on.
fn overwrite(cells: &mut Vec<u64>, first: u64, values: &[u64])
    requires { first + length values.now ≤ length cells.old.items }
    ensures { cells.new.items ≡ overlaid cells.old.items first values.now }
{
    let part = &mut cells[first as usize..first as usize + values.len()];
    part.copy_from_slice(values);
}

// What stands at a place, and 0 outside.
fn entry(cells: &[u64], place: u64) -> u64
    ensures { result ≡ slice_index cells.now place }
{
    match cells.get(place as usize) {
        Some(value) => *value,
        None => 0,
    }
}

// Writes at a place, and nothing outside.
fn set_entry(cells: &mut Vec<u64>, place: u64, value: u64)
    ensures { cells.new.items ≡ slice_set cells.old.items place value }
{
    if (place as usize) < cells.len() {
        cells[place as usize] = value;
    }
}

// Writes at a place that is there.
fn set_cell(cells: &mut Vec<u64>, place: u64, value: u64)
    requires { place < length cells.old.items }
    ensures { cells.new.items ≡ slice_set cells.old.items place value }
{
    cells[place as usize] = value;
}

// Where variables of these shapes lie, one behind another, and how many cells they take.
fn lay_out(alloc: Global, shapes: Vec<Shape>) -> Result<(Vec<Placed>, u64), AllocError>
    ensures lie { IfOk result (λ r. Lie 0 r.0.items r.1) }
    ensures shapes { IfOk result (λ r. map (λ p. p.shape) r.0.items ≡ shapes.items) }
{
    let mut places = Vec::with_capacity(alloc, shapes.len())?;
    let mut first = 0u64;
    for shape in shapes {
        let Some(end) = first.checked_add(shape.count) else {
            return Err(AllocError);
        };
        places.push(Placed { shape, first })?;
        first = end;
    }
    Ok((places, first))
}

impl Store {
    /// Variables of these shapes, the first with the number 0, each element 0.
    ///
    /// # Errors
    ///
    /// Where memory runs out.
    pub fn zeros(alloc: Global, shapes: Vec<Shape>) -> Result<Store, AllocError>
        ensures { IfOk result (λ store. store ≡ map (λ s. zeros_of s.lengths.items) shapes.items) }
    {
        let (places, count) = lay_out(alloc, shapes)?;
        let cells = Vec::from_elem(alloc, 0u64, count as usize)?;
        Ok(Store { places, cells })
    }

    /// How many variables there are.
    pub fn len(&self) -> usize
        ensures { result ≡ length self.now }
    {
        self.places.len()
    }

    /// Whether there is none.
    pub fn is_empty(&self) -> bool
        ensures { IsTrue result ↔ (self.now ≡ []) }
    {
        self.places.is_empty()
    }

    /// The variable of this number, in order of declaration.
    pub fn array(&self, variable: usize) -> Array<'_>
        requires { variable < length self.now }
        ensures { slice_get self.now variable ≡ Some result }
    {
        let placed = &self.places[variable];
        let lengths = placed.shape.lengths.as_slice();
        let values = part(self.cells.as_slice(), placed.first, placed.shape.count);
        Array { lengths, values }
    }

    /// All values, one variable behind another.
    pub fn cells(&self) -> &[u64]
        ensures value { result.now ≡ values_of self.now }
        ensures filled { AreFilled self.now }
    {
        self.cells.as_slice()
    }

    /// The value at a place among all cells, and 0 outside.
    pub fn cell(&self, place: u64) -> u64
        ensures { result ≡ slice_index (values_of self.now) place }
    {
        entry(self.cells.as_slice(), place)
    }

    /// Writes a value at a place among all cells, and nothing outside.
    pub fn put(&mut self, place: u64, value: u64)
        ensures { self.new ≡ filled (slice_set (values_of self.old) place value) self.old }
    {
        set_entry(&mut self.cells, place, value);
    }

    /// Writes these values over the cells from a place on, among all cells.
    pub fn put_row(&mut self, first: u64, values: &[u64])
        requires { first + length values.now ≤ length (values_of self.old) }
        ensures { self.new ≡ filled (overlaid (values_of self.old) first values.now) self.old }
    {
        overwrite(&mut self.cells, first, values);
    }

    /// Fills so many cells from a place on, among all cells.
    pub fn fill<F: Filler>(&mut self, first: u64, count: u64, filler: &F)
        requires inside { first + count ≤ length (values_of self.old) }
        requires enough { count ≤ F.count filler.now }
        ensures { self.new ≡ filled (overlaid (values_of self.old) first
            (row_of (F.number filler.now) count)) self.old }
    {
        fill_cells(&mut self.cells, first, count, filler);
    }

    /// Writes these values over those of a variable, from a position on, and changes nothing else.
    pub fn write(&mut self, variable: VarId, first: u64, values: &[u64])
        requires { HasRoom (slice_get self.old variable.0) (first + length values.now) }
        ensures { self.new ≡ rewritten_at self.old variable.0 first values.now }
    {
        let placed = &self.places[variable.0 as usize];
        let at = placed.first + first;
        overwrite(&mut self.cells, at, values);
    }

    /// Writes a value over one of those of a variable, and changes nothing else.
    pub fn set(&mut self, variable: VarId, at: u64, value: u64)
        requires { HasRoom (slice_get self.old variable.0) (at + 1) }
        ensures { self.new ≡ rewritten_at self.old variable.0 at (value ∷ []) }
    {
        let placed = &self.places[variable.0 as usize];
        let place = placed.first + at;
        set_cell(&mut self.cells, place, value);
    }

    /// Its variables, and the cells of all of them, one variable behind another.
    pub fn into_cells(self) -> (Frame, Vec<u64>)
        ensures cells { filled result.1.items result.0 ≡ self }
        ensures count { length result.1.items ≡ length (values_of result.0) }
    {
        let Store { places, cells } = self;
        let count = cells.len() as u64;
        (Frame { places, count }, cells)
    }
}

impl Frame {
    /// The store of these variables with these cells, one variable behind another.
    pub fn with_cells(self, cells: Vec<u64>) -> Store
        requires { length cells.items ≡ length (values_of self) }
        ensures { result ≡ filled cells.items self }
    {
        let Frame { places, count: _ } = self;
        Store { places, cells }
    }
}
