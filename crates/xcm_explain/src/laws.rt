//! What the positions of refusals amount to.

ghost use Rattle.std.specs.Prelude.{ℕ, List};
ghost use Rattle.operands.specs.declared.version.Version.{Version};
ghost use Rattle.versioned_xcm.specs.Programs.{program_at};
ghost use Rattle.xcm_explain.specs.Stops.{WalksAsRead, walk_program};

/// A walk goes past a program just where one is read, to the same position, and else it stops. So the end is named only where bytes follow a
/// program that is read.
pub fn law_of_walks()
    ensures { (v : Version) (levels most : ℕ) (bytes : List ℕ)
        → WalksAsRead (program_at v levels most bytes) (walk_program v levels most bytes) }
{}
