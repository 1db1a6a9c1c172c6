//! Gates: where a test may hold callers up.
use std::hint::spin_loop;
use std::sync::atomic::{AtomicBool, AtomicU32, Ordering};

/// A gate, which callers pass by their numbers, turn by turn. A call returns always.
pub trait Gate: Sync {
    /// Lets `who` pass at this turn.
    fn pass(&self, who: u32, turn: u64);
}

/// A gate that lets everybody pass at once.
#[derive(Clone, Copy, Debug, Drop)]
pub struct OpenGate;

impl Gate for OpenGate {
    fn pass(&self, _who: u32, _turn: u64) {}
}

/// A gate that keeps each caller at its turn 1 until so many have come there, or until it has looked
/// so many times. Nothing is known of it but by a test.
#[derive(Drop)]
pub struct MeetGate {
    count: u32,
    limit: u64,
    come: AtomicU32,
    gave_up: AtomicBool,
}

impl MeetGate {
    /// A gate at which `count` callers meet, or give up after `limit` looks.
    pub fn new(count: u32, limit: u64) -> MeetGate {
        MeetGate {
            count,
            limit,
            come: AtomicU32::new(0),
            gave_up: AtomicBool::new(false),
        }
    }

    /// Whether as many callers came and none gave up.
    pub fn met(&self) -> bool {
        self.all_came() && !self.gave_up.load(Ordering::SeqCst)
    }

    fn all_came(&self) -> bool {
        self.count <= self.come.load(Ordering::SeqCst)
    }

    /// Looks until all have come, and says whether they have.
    fn looks(&self) -> bool {
        for _ in 0..self.limit {
            if self.all_came() {
                return true;
            }
            spin_loop();
        }
        false
    }
}

impl Gate for MeetGate {
    fn pass(&self, _who: u32, turn: u64) {
        if turn != 1 {
            return;
        }
        self.come.fetch_add(1, Ordering::SeqCst);
        if !self.looks() {
            self.gave_up.store(true, Ordering::SeqCst);
        }
    }
}
