//! Counts of faults over the parts of a history.
ghost use Rattle.std.specs.Prelude.{◌≡◌, ℕ, ◌<◌, ◌≤◌, List, [], ◌∷◌, ◌++◌};
ghost use Rattle.object_graph.specs.declared.calls.Entry.{Entry as AnyEntry};
ghost use Rattle.store_model.specs.Worlds.{Event, faults};
ghost use Rattle.store_model.specs.Faults.{FaultsAscend, last_count, counts_noted};

/// Where no fault is noted the counts ascend if the count didn't fall; where one is, if it rose.
pub fn one_fault_ascends()
    ensures none { (from to : ℕ) (events : List Event) → counts_noted events ≡ [] → from ≤ to → FaultsAscend from to events }
    ensures one { (from to : ℕ) (entry : AnyEntry) → (to < last_count → from < to) → from ≤ to
        → FaultsAscend from to (record { entry = entry; note = faults to } ∷ []) }
{}

/// Counts that ascend over two parts of a history ascend over both.
pub fn faults_ascend_over_parts()
    ensures { (from between to : ℕ) (events more : List Event) → FaultsAscend from between events
        → FaultsAscend between to more → FaultsAscend from to (events ++ more) }
{}

/// They ascend from a lower count, and to a higher one.
pub fn faults_ascend_within()
    ensures { (low from to high : ℕ) (events : List Event) → low ≤ from → to ≤ high → FaultsAscend from to events
        → FaultsAscend low high events }
{}
