//! The bytes that a writer took, as contracts see them. It takes no memory, and its methods do nothing at run time.

ghost use Rattle.std.specs.Prelude.{◌≡◌, List, ℕ, [], ◌++◌};
ghost use Rattle.std.specs.Borrow.{ftrue};

use std::marker::{Model, PhantomData};

#[derive(Drop)]
pub(crate) struct Account {
    marker: PhantomData<u8>,
    pub(crate) ghost told: { List ℕ },
}

impl Model for Account {
    ghost also_owns = { λ _. ftrue };
}

impl Account {
    pub(crate) fn new() -> Account
        ensures { result.told ≡ [] }
    {
        Account {
            marker: PhantomData,
        }
    }

    // These bytes were taken behind the others.
    pub(crate) fn note(&mut self, _bytes: &[u8])
        ensures { self.new.told ≡ self.old.told ++ _bytes.now }
    {}
}
