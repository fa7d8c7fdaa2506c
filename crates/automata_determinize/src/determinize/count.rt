//! A count that only contracts see.

ghost use Rattle.std.specs.Prelude.{◌≡◌, ◌+◌, ℕ};

use std::marker::{Model, PhantomData};
use std::mem;

/// A count that clauses read as `number`. It takes no bytes, and its functions do nothing at run time.
pub struct Count {
    marker: PhantomData<()>,
    pub ghost number: { ℕ },
}

impl Model for Count {
    ghost use base.Fml.{ftrue};

    ghost also_owns = { λ _. ftrue };
}

impl Count {
    /// Returns a count of zero.
    pub fn zero() -> Count
        ensures { result.number ≡ 0 }
    {
        Count {
            marker: PhantomData,
        }
    }

    /// Returns the count that is greater by one.
    pub fn next(self) -> Count
        ensures { result.number ≡ self.number + 1 }
    {
        let Self { marker: _ } = self;
        Count {
            marker: PhantomData,
        }
    }

    /// Returns another count with the same number.
    pub fn again(&self) -> Count
        ensures { result.number ≡ self.now.number }
    {
        let _ = self;
        Count {
            marker: PhantomData,
        }
    }

    /// Increases the count by one.
    pub fn tick(&mut self)
        ensures { self.new.number ≡ self.old.number + 1 }
    {
        let count = mem::replace(self, Count::zero());
        *self = count.next();
    }
}

impl Drop for Count {
    fn drop(self) {
        let Self { marker: _ } = self;
    }
}
