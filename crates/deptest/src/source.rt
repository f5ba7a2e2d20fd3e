//! The text of a kernel, as contracts see it. It takes no memory.

ghost use Rattle.std.specs.Prelude.{◌≡◌, List, ℕ};
ghost use Rattle.std.specs.Borrow.{ftrue};

use std::marker::{Model, PhantomData};

#[derive(Drop)]
pub(crate) struct SourceText {
    marker: PhantomData<u8>,
    pub(crate) ghost bytes: { List ℕ },
}

impl Model for SourceText {
    ghost also_owns = { λ _. ftrue };
}

impl SourceText {
    pub(crate) fn of(_text: &[u8]) -> SourceText
        ensures { result.bytes ≡ _text.now }
    {
        SourceText {
            marker: PhantomData,
        }
    }
}
