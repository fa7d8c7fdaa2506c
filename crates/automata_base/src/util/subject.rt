//! A record of what a value was made for, which only contracts see.

ghost use Rattle.std.specs.Prelude.{◌≡◌};

use std::marker::{Model, PhantomData};

/// A record of what a value was made for; clauses read it as `value`. It takes no bytes, and its functions do nothing
/// at run time. Unlike a `Snapshot`, it can be copied from a reference, by `again`.
#[derive(Drop)]
pub struct Subject<T> {
    marker: PhantomData<T>,
    pub ghost value: { T },
}

impl<T> Model for Subject<T> {
    ghost use base.Fml.{ftrue};

    ghost also_owns = { λ _. ftrue };
}

impl<T> Subject<T> {
    /// Returns the subject of a value that is made for `made_for`.
    pub fn of(made_for: &T) -> Subject<T>
        ensures { result.value ≡ made_for.now }
    {
        let _ = made_for;
        Subject {
            marker: PhantomData,
        }
    }

    /// Returns the subject of another value that is made for the same one.
    pub fn again(&self) -> Subject<T>
        ensures { result.value ≡ self.now.value }
    {
        let _ = self;
        Subject {
            marker: PhantomData,
        }
    }
}
