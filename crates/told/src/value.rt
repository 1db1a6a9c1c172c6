//! A value of contracts.
ghost use Rattle.std.specs.Borrow.{ftrue};

use crate::tells::Tells;
use std::marker::{Model, PhantomData};

/// A `T` as contracts see it, kept beside what the program has. It takes no bytes and owns nothing.
pub struct Told<T> {
    marker: PhantomData<T>,
    pub ghost value: { T },
}

impl<T> Model for Told<T> {
    ghost also_owns = { λ _. ftrue };
}

// It owns nothing.
unsafe impl<T> Send for Told<T> {}

unsafe impl<T> Sync for Told<T> {}

impl<T> Drop for Told<T> {
    fn drop(self) {
        let Self { marker: _ } = self;
    }
}

impl<T> Told<T> {
    /// A value that this tells, where there is one.
    pub fn by<S: Tells<T>>(_source: &S) -> Told<T>
        requires { (value : T) × S.tells _source.now value }
        ensures { S.tells _source.now result.value }
    {
        Told {
            marker: PhantomData,
        }
    }
}
