//! The dimensions of file-scope variables.

ghost use Rattle.std.specs.Prelude.{◌≡◌};
ghost use Rattle.semantics.specs.Meaning.Places.{size};

/// The dimensions of a file-scope variable: their lengths, none for a scalar, and how many elements they make (C11 6.5.2.1).
#[derive(Drop)]
pub struct Shape {
    pub lengths: Vec<u64>,
    pub count: u64,
    pub ghost counted: { count ≡ size lengths.items },
}
