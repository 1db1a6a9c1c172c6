//! The calls of a collection: one cut from its opening to its end.
ghost use Rattle.std.specs.Prelude.{◌≡◌, ◌≤◌, Some, IfSome, slice_get, ◌++◌, ◌∷◌, [], map};
ghost use Rattle.object_graph.specs.Slots.{below};
ghost use Rattle.object_graph.specs.declared.calls.Call.TheVariants.{OpenCut, Copy, Sweep, EndCut};
ghost use Rattle.store_model.specs.Histories.{collection};
ghost use Rattle.mark_pool.specs.Jobs.{AreWorkers};
ghost use Rattle.store_machine.specs.Calls.{IsOfScript};

use object_graph::Call;

/// The call at this place of a collection by so many workers, counted from 0, over a store of so many
/// pages; none past the last (FORMATS.md, "Script lines").
pub fn collection_call(pages: u32, workers: u32, place: u64) -> Option<Call>
    requires { AreWorkers workers }
    ensures call { result ≡ slice_get (collection pages workers) place }
    ensures script { IfSome result IsOfScript }
{
    let copied = u64::from(pages);
    if place <= copied {
        return Some(copying_call(pages, place));
    }
    match place - copied - 1 {
        0 => Some(Call::Close),
        1 => Some(Call::Mark { workers }),
        later => sweeping_call(pages, later - 2),
    }
}

/// The call at this place of the first part, in which the cut is opened and each page copied.
fn copying_call(pages: u32, place: u64) -> Call
    requires { place ≤ pages }
    ensures call { slice_get (OpenCut ∷ map (λ page. Copy page) (below pages)) place ≡ Some result }
    ensures script { IsOfScript result }
{
    if place == 0 {
        Call::OpenCut
    } else {
        Call::Copy {
            page: (place - 1) as u32,
        }
    }
}

/// The call at this place of the last part, in which each page is swept and the cut ends.
fn sweeping_call(pages: u32, place: u64) -> Option<Call>
    ensures call { result ≡ slice_get (map (λ page. Sweep page) (below pages) ++ EndCut ∷ []) place }
    ensures script { IfSome result IsOfScript }
{
    if place < u64::from(pages) {
        Some(Call::Sweep { page: place as u32 })
    } else if place == u64::from(pages) {
        Some(Call::EndCut)
    } else {
        None
    }
}
