//! The world that a store opens to.
ghost use Rattle.std.specs.Prelude.{◌≡◌, ℕ, List};
ghost use Rattle.store_model.specs.Lawful.{IsLawful};
ghost use Rattle.store_model.specs.Worlds.{World};
ghost use Rattle.store_model.specs.States.{state_of};
ghost use Rattle.image_model.specs.Opening.{StoreParts};
ghost use Rattle.image_model.specs.Stores.{IsStore};
ghost use Rattle.image_model.specs.Stands.{IsState, StandsForWorld, opened_world};

/// A store stands for the world that it opens to.
pub fn a_store_stands_for_its_world()
    ensures { (file : List ℕ) (store : StoreParts) → IsStore file store → StandsForWorld file (opened_world file) }
{}

/// That world is lawful.
pub fn the_opened_world_is_lawful()
    ensures { (file : List ℕ) (store : StoreParts) → IsStore file store → IsLawful (opened_world file) }
{}

/// What a lawful world has committed is a state that a store may have.
pub fn worlds_have_states()
    ensures { (w : World) → IsLawful w → IsState w.pages (state_of w) }
{}
