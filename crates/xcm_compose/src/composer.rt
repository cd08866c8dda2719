//! What takes the lines.

ghost use Rattle.std.specs.Prelude.{◌≡◌, ◌⊎◌, ◌+◌, ◌^◌, ◌<◌, ◌∷◌, List, ℕ, [], None, Ok, IfOk, IsErr, length};
ghost use Rattle.xcm_io.specs.Causes.{Rose};
ghost use Rattle.line_serving.specs.Calls.{HasWriteCause, Writes};
ghost use Rattle.xcm_compose.specs.Answers.{IsAnswer};
ghost use Rattle.xcm_compose.specs.Replies.{goes_on, begun_tree, with_line, IsTextReply, IsReplyOf, IsInBounds};
ghost use Rattle.xcm_compose.specs.Runs.{Proceeds, Concludes};

use crate::answer::answer;
use input_lines::text_of;
use line_serving::{Status, fits_limits, write_reply, write_text};
use std::alloc::{AllocError, Global};
use xcm_io::Sink;

/// What answers the trees: so many lines have come, of so many bytes; and a tree, which begins in a line and isn't answered yet.
#[derive(Debug, Drop)]
pub(crate) struct Composer {
    pub(crate) lines: u64,
    pub(crate) taken: u64,
    pub(crate) start: u64,
    pub(crate) tree: Vec<u8>,
}

/// Whether a line of this text belongs to the tree that has begun.
#[tactic(auto, unfolding(crate::specs::Replies::goes_on))]
fn goes_on(tree: &[u8], text: &[u8]) -> bool
    ensures { result ≡ goes_on tree.now text.now }
{
    !tree.is_empty() && !text.is_empty() && text[0] == b' '
}

/// The tree that begins with a line of this text: none, where it is empty or a comment.
#[tactic(auto, unfolding(crate::specs::Replies::begun_tree))]
fn begun_tree(alloc: Global, text: &[u8]) -> Result<Vec<u8>, AllocError>
    ensures { IfOk result (λ tree. tree.items ≡ begun_tree text.now) }
{
    let mut tree = Vec::new(alloc);
    if text.is_empty() || text[0] == b'#' {
        return Ok(tree);
    }
    tree.extend_from_slice(text)?;
    tree.push(b'\n')?;
    Ok(tree)
}

impl Composer {
    /// A composer to which no line has come.
    pub(crate) fn new(alloc: Global) -> Composer
        ensures lines { result.lines ≡ 0 }
        ensures taken { result.taken ≡ 0 }
        ensures tree { result.tree.items ≡ [] }
    {
        Composer {
            lines: 0,
            taken: 0,
            start: 0,
            tree: Vec::new(alloc),
        }
    }

    /// Takes a line of this text into the tree that has begun.
    fn go_on(&mut self, text: &[u8]) -> Result<(), AllocError>
        ensures tree { IfOk result (λ _. self.new.tree.items
            ≡ with_line self.old.tree.items text.now) }
        ensures lines { self.new.lines ≡ self.old.lines }
        ensures taken { self.new.taken ≡ self.old.taken }
    {
        self.tree.extend_from_slice(text)?;
        self.tree.push(b'\n')?;
        Ok(())
    }

    /// Answers the tree that has begun, and begins the next with a line of this text.
    fn begin<O: Sink>(
        &mut self,
        alloc: Global,
        text: &[u8],
        out: &mut O,
    ) -> Result<Option<Status>, AllocError>
        ensures told { IfOk result (λ o. (told : List ℕ) × IsAnswer self.old.tree.items told
            × Writes told None (O.written out.old) (O.written out.new) o) }
        ensures untold { IsErr result → out.new ≡ out.old }
        ensures cause { HasWriteCause (O.faults out.old) (O.faults out.new) result }
        ensures tree { IfOk result (λ _. self.new.tree.items ≡ begun_tree text.now) }
        ensures lines { self.new.lines ≡ self.old.lines }
        ensures taken { self.new.taken ≡ self.old.taken }
    {
        let told = answer(alloc, self.start, self.tree.as_slice())?;
        self.tree = begun_tree(alloc, text)?;
        self.start = self.lines;
        Ok(write_text(out, told.as_str(), None))
    }

    /// Takes a line of this text, which is within the limits.
    fn take_text<O: Sink>(
        &mut self,
        alloc: Global,
        text: &[u8],
        out: &mut O,
    ) -> Result<Option<Status>, AllocError>
        ensures run { Proceeds
            (λ lines. IsTextReply self.old.taken self.old.tree.items text.now lines)
            (λ lines. IsReplyOf self.new lines)
            (O.written out.old) (O.written out.new) result }
        ensures cause { HasWriteCause (O.faults out.old) (O.faults out.new) result }
        ensures lines { self.new.lines ≡ self.old.lines }
        ensures taken { self.new.taken ≡ self.old.taken }
    {
        if !goes_on(self.tree.as_slice(), text) {
            return self.begin(alloc, text, out);
        }
        match self.go_on(text) {
            Ok(()) => Ok(None),
            Err(refused) => Err(refused),
        }
    }

    /// Takes the next line, with its line feed where it has one. `Err` is out of memory alone.
    pub(crate) fn take_line<O: Sink>(
        &mut self,
        alloc: Global,
        line: &[u8],
        out: &mut O,
    ) -> Result<Option<Status>, AllocError>
        requires ready { IsInBounds self.old }
        requires some { 0 < length line.now }
        requires few { length line.now < 2 ^ 40 }
        ensures run { Proceeds (λ lines. IsReplyOf self.old (line.now ∷ lines))
            (λ lines. IsReplyOf self.new lines)
            (O.written out.old) (O.written out.new) result }
        ensures cause { HasWriteCause (O.faults out.old) (O.faults out.new) result }
        ensures taken { result ≡ Ok None → self.new.taken ≡ self.old.taken + length line.now }
        ensures ready { result ≡ Ok None → IsInBounds self.new }
    {
        if !fits_limits(self.taken, line) {
            return Ok(Some(Status::TooLong));
        }
        self.lines += 1;
        self.taken += line.len() as u64;
        self.take_text(alloc, text_of(line), out)
    }

    /// Ends the run where the input ends: the tree that has begun is answered. `Err` is out of memory alone.
    pub(crate) fn finish<O: Sink>(&self, alloc: Global, out: &mut O) -> Result<Status, AllocError>
        ensures run { Concludes (IsReplyOf self.now []) (O.written out.old) (O.written out.new)
            result }
        ensures cause { result ≡ Ok Status.WriteFault → Rose (O.faults out.old) (O.faults out.new) }
        ensures only { IfOk result (λ status. (status ≡ Status.Done)
            ⊎ (status ≡ Status.WriteFault)) }
    {
        match answer(alloc, self.start, self.tree.as_slice()) {
            Ok(told) => Ok(write_reply(out, told.as_str(), Status::Done)),
            Err(refused) => Err(refused),
        }
    }
}
