//! Where things stand, and which variable is meant.

/// Where something stands in a text: its line and its column in bytes, both from 1.
#[derive(Clone, Copy, Debug, PartialEq, Eq)]
pub struct Place {
    pub line: u32,
    pub column: u32,
}

/// A variable of a text, by the place of its declaration among all of them: file-scope variables come first, and then
/// locals and loop variables in text order, each counted from 0.
#[derive(Clone, Copy, Debug, PartialEq, Eq)]
pub struct VarId(pub u32);
