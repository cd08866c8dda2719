//! How many steps ended in which way.
ghost use Rattle.std.specs.Prelude.{◌≡◌, ◌+◌, ◌<◌, ◌^◌, cond};
ghost use Rattle.generator.specs.Results.{is_complete, is_incomplete, is_error, is_empty};

use network_steps::StepResult;
use xcm_program::Outcome;

/// So many steps each.
#[derive(Debug, Drop)]
pub(crate) struct Counts {
    /// Programs that were executed to their end.
    pub(crate) complete: u64,
    /// Programs that ended with an error.
    pub(crate) incomplete: u64,
    /// Programs that weren't let in.
    pub(crate) error: u64,
    /// Steps without a program.
    pub(crate) empty: u64,
}

impl Counts {
    /// No steps.
    pub(crate) fn none() -> Counts
        ensures complete { result.complete ≡ 0 }
        ensures incomplete { result.incomplete ≡ 0 }
        ensures error { result.error ≡ 0 }
        ensures empty { result.empty ≡ 0 }
    {
        Counts {
            complete: 0,
            incomplete: 0,
            error: 0,
            empty: 0,
        }
    }

    /// Counts a step that answered this.
    pub(crate) fn add(&mut self, answer: &StepResult)
        requires room { self.old.complete + self.old.incomplete + self.old.error + self.old.empty
            + 1 < 2 ^ 64 }
        ensures complete { self.new.complete
            ≡ self.old.complete + cond (is_complete answer.now) 1 0 }
        ensures incomplete { self.new.incomplete
            ≡ self.old.incomplete + cond (is_incomplete answer.now) 1 0 }
        ensures error { self.new.error ≡ self.old.error + cond (is_error answer.now) 1 0 }
        ensures empty { self.new.empty ≡ self.old.empty + cond (is_empty answer.now) 1 0 }
    {
        match answer {
            StepResult::Ran(Outcome::Complete { .. }) => self.complete += 1,
            StepResult::Ran(Outcome::Incomplete { .. }) => self.incomplete += 1,
            StepResult::Ran(Outcome::Error { .. }) => self.error += 1,
            StepResult::Empty
            | StepResult::NoSuchChain
            | StepResult::NoSuchChannel
            | StepResult::SovereignCaller
            | StepResult::Message(_)
            | StepResult::NotAClaim
            | StepResult::Sent(_)
            | StepResult::Unsent(_) => self.empty += 1,
        }
    }
}
