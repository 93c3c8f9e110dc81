// The value.
ghost use Rattle.std.specs.Prelude.{◌≡◌};
ghost use Rattle.std.specs.Borrow.{ftrue};

use std::marker::{Model, PhantomData};

/// A value of the kind `K`, which takes no bytes. Clauses read it as `value`.
#[derive(Drop)]
pub struct Ghost<K> {
    kind: PhantomData<K>,
    pub ghost value: { K },
}

impl<K> Model for Ghost<K> {
    ghost also_owns = { λ _. ftrue };
}

impl<K> Ghost<K> {
    /// The value that the proof of the caller picks. It may depend on the two references.
    #[inline(always)]
    pub fn picked<S, T>(_first: &S, _second: &T) -> Ghost<K>
        ghost chosen: { K }
        ensures { result.value ≡ chosen }
    {
        Ghost { kind: PhantomData }
    }

    /// The same value.
    pub fn copied(&self) -> Ghost<K>
        ensures { result.value ≡ self.now.value }
    {
        Ghost::picked(self, &())
    }
}
