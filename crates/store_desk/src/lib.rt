//! The store that threads share: one core with its chronicle, behind one turn.
#![tactic(auto)]

mod desk;
mod event;
mod happening;
mod names;
mod state;

pub use desk::{Desk, DeskGuard, DeskSeat, call_in_turn};
pub use event::{Event, Note};
pub use names::FreedNames;
pub use state::DeskState;

#[cfg(test)]
mod tests;
