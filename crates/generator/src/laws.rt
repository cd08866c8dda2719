//! A law of the generator, as the contract of a function that does nothing.
ghost use Rattle.std.specs.Prelude.{◌≡◌, ℕ, List};
ghost use Rattle.network_steps.specs.Worlds.{World};
ghost use Rattle.network_steps.specs.Steps.{Link};
ghost use Rattle.generator.specs.Turns.{steps_from};
ghost use Rattle.generator.specs.Generated.{answers, counts_of, all_steps};

/// Each step is counted once: the four counts sum to the number of steps.
pub fn law_of_counts()
    ensures { (order : List Link) (w : World) (number steps : ℕ)
        → all_steps (counts_of (answers order w (steps_from steps number))) ≡ steps }
{}
