//! What a seat knows. No value of it is made.
use crate::place::Place;
use cut_builder::ClosedCut;
use std::collections::LinkedList;

/// What a seat knows.
pub struct View {
    /// Places that it saw marked.
    pub seen: LinkedList<Place>,
    /// Places that it marked.
    pub claims: LinkedList<Place>,
    /// Places that it took to scan.
    pub takes: LinkedList<Place>,
    /// Places that it knows to be scanned.
    pub scans: LinkedList<Place>,
    /// Of the 65,536 parts of the right to know the whole.
    pub parts: u64,
    /// The cut that is marked. A view that is spent has none.
    pub cut: Option<ClosedCut>,
}
