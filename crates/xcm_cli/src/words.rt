//! What the program's words ask for.

ghost use Rattle.std.specs.Prelude.{◌≡◌, IfOk};
ghost use Rattle.xcm_cli.specs.Words.{is_run, is_audit, is_generation, number_of_word, generation_of, task_of};

use std::alloc::{AllocError, Global};

/// The most steps that are generated.
const MAX_STEPS: u64 = 100_000;

/// What the program's words ask for.
#[derive(Clone, Copy, Debug)]
pub(crate) enum Task {
    /// The run of an input.
    Run {
        /// Whether the audit comes after each step.
        audit: bool,
    },
    /// The run of steps that are drawn from a number.
    Generate {
        /// The number.
        number: u64,
        /// So many steps.
        steps: u64,
    },
    /// Nothing that the program does.
    Usage,
}

/// What the words ask for. `Err` is out of memory alone.
pub(crate) fn task_of(alloc: Global, words: &[String]) -> Result<Task, AllocError>
    ensures { IfOk result (λ task. task ≡ task_of words.now) }
{
    if is_run(words) {
        return Ok(Task::Run { audit: false });
    }
    if is_audit(words) {
        return Ok(Task::Run { audit: true });
    }
    if is_generation(words) {
        return generation_of(alloc, words[1].as_str(), words[2].as_str());
    }
    Ok(Task::Usage)
}

/// Whether the words are just `run`.
fn is_run(words: &[String]) -> bool
    ensures { result ≡ is_run words.now }
{
    words.len() == 1 && words[0].as_str() == "run"
}

/// Whether the words are `run --audit`.
fn is_audit(words: &[String]) -> bool
    ensures { result ≡ is_audit words.now }
{
    words.len() == 2 && words[0].as_str() == "run" && words[1].as_str() == "--audit"
}

/// Whether the words are `gen` and two more.
fn is_generation(words: &[String]) -> bool
    ensures { result ≡ is_generation words.now }
{
    words.len() == 3 && words[0].as_str() == "gen"
}

/// The run of so many steps that are drawn from a number, where both words are numbers in their ranges.
fn generation_of(alloc: Global, number: &str, steps: &str) -> Result<Task, AllocError>
    ensures { IfOk result (λ task. task
        ≡ generation_of (number_of_word number.now) (number_of_word steps.now)) }
{
    let Some(number) = number_of(alloc, number)? else {
        return Ok(Task::Usage);
    };
    let Some(steps) = number_of(alloc, steps)? else {
        return Ok(Task::Usage);
    };
    if steps > MAX_STEPS {
        return Ok(Task::Usage);
    }
    Ok(Task::Generate { number, steps })
}

/// The number below 2^64 that the word is in decimal, without leading zeros.
fn number_of(alloc: Global, word: &str) -> Result<Option<u64>, AllocError>
    ensures { IfOk result (λ number. number ≡ number_of_word word.now) }
{
    let Ok(number) = word.parse::<u64>() else {
        return Ok(None);
    };
    let text = format!(in alloc; "{number}")?;
    if text.as_str() != word {
        return Ok(None);
    }
    Ok(Some(number))
}
