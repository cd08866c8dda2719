//! What the answer of a chain's barriers means: laws, as the contract of a function that does nothing.

ghost use Rattle.std.specs.Prelude.{◌≡◌, ℕ, ◌⊎◌, ◌↔◌, ◌++◌, ◌∷◌, true, List, All, Any, IsTrue, IsFalse};
ghost use Rattle.locations.specs.declared.relative.Location.{Location};
ghost use Rattle.operands.specs.declared.query.OpenQuery.{OpenQuery};
ghost use Rattle.operands.specs.declared.weight.Weight.{Weight};
ghost use Rattle.xcm_program.specs.declared.instruction.Instruction.{Instruction};
ghost use Rattle.barriers.specs.declared.barrier.Barrier.{Barrier};
ghost use Rattle.barriers.specs.Barriers.{admission, allows, left_by};
ghost use Rattle.barriers.specs.Meaning.{Allows, Leaves, SetsLimit};

/// A program is let in where some barrier allows it, and the first that does decides. Where none does, the program is as before;
/// else it differs at most in the limit of one BuyExecution.
pub fn law_of_barriers()
    ensures allows { (origin : Location) (weight credit : Weight) (queries : List OpenQuery)
        (program : List Instruction) (barrier : Barrier)
        → IsTrue (allows origin weight credit queries program barrier)
        ↔ Allows origin weight credit queries program barrier }
    ensures leaves { (origin : Location) (weight credit : Weight) (queries : List OpenQuery)
        (program : List Instruction) (barrier : Barrier)
        → Allows origin weight credit queries program barrier
        → Leaves weight program barrier (left_by weight program barrier) }
    ensures admitted { (origin : Location) (weight credit : Weight) (queries : List OpenQuery)
        (list : List Barrier) (program : List Instruction)
        → IsTrue (admission origin weight credit queries list program).0
        ↔ Any (Allows origin weight credit queries program) list }
    ensures refused { (origin : Location) (weight credit : Weight) (queries : List OpenQuery)
        (list : List Barrier) (program : List Instruction)
        → IsFalse (admission origin weight credit queries list program).0
        → (admission origin weight credit queries list program).1 ≡ program }
    ensures first { (origin : Location) (weight credit : Weight) (queries : List OpenQuery)
        (front back : List Barrier) (barrier : Barrier) (program : List Instruction)
        → All (λ other. IsFalse (allows origin weight credit queries program other)) front
        → IsTrue (allows origin weight credit queries program barrier)
        → admission origin weight credit queries (front ++ barrier ∷ back) program
        ≡ (true, left_by weight program barrier) }
    ensures change { (origin : Location) (weight credit : Weight) (queries : List OpenQuery)
        (list : List Barrier) (program : List Instruction)
        → ((admission origin weight credit queries list program).1 ≡ program)
        ⊎ ((index : ℕ) × SetsLimit weight index program
        (admission origin weight credit queries list program).1) }
{}
