// What opening makes of an image.
ghost use Rattle.std.specs.Prelude.{List, ℕ};
ghost use Rattle.lsm_store.specs.World.{Image, World};
ghost use Rattle.lsm_model.specs.Journal.{Map};
ghost use Rattle.lsm_model.specs.Views.{Placed};

/// What opening makes of an image: a type that stands for one way of writing versions into files.
///
/// ```text
/// runs_compose(&store, &Files, &replies);
/// ```
pub trait Finding {
    /// Opening finds these tables in the image.
    ghost finds: { Image → List Placed → Type 0 };
    /// Opening takes the image, the tree shows this map, and what is found is numbered below this.
    ghost shows: { ℕ → Image → Map → Type 0 };
    /// Opening takes the store as a kill left it: each version that it may come upon has files of one possible content each.
    ghost ready: { World → Type 0 };
}
