//! What tells a value.

/// What a source tells of a value that contracts keep.
pub trait Tells<T> {
    ghost tells: { Self → T → Type 0 };
}
