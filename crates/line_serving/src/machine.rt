//! What takes the lines.

ghost use Rattle.std.specs.Prelude.{◌≡◌, ◌≢◌, ◌+◌, ◌^◌, ◌<◌, ◌≤◌, ℕ, List, [], ◌∷◌, ◌++◌, length, Bool, true, false, None, Ok, IsTrue};
ghost use Rattle.xcm_io.specs.Causes.{Rose};
ghost use Rattle.input_lines.specs.Lines.{lines_of, HasNoFeed};
ghost use Rattle.line_serving.specs.Replies.{Replies, Rooms, ends, max_input};
ghost use Rattle.line_serving.specs.Calls.{Advances, Finishes, HasWriteCause};
ghost use Rattle.line_serving.specs.declared.status.Status.TheVariants.{Done};

use crate::status::Status;
use std::alloc::{AllocError, Global};
use xcm_io::Sink;

/// What takes the lines of an input one after the other, and writes its reply to each before it takes the next.
pub trait LineMachine {
    /// What is written from here on where these lines come, at whose end the input ends or not, and the answer.
    ghost replies: { Self → Replies };

    /// After these lines so many bytes of a line, which isn't whole, may be within the limits.
    ghost rooms: { Self → Rooms };

    /// How many bytes the lines had that it has taken.
    ghost taken: { Self → ℕ };

    /// As its calls leave it.
    ghost is_ready: { Self → Type 0 };

    /// Takes the next line, with its line feed where it has one. `Err` is out of memory alone.
    fn take_line<O: Sink>(
        &mut self,
        alloc: Global,
        line: &[u8],
        out: &mut O,
    ) -> Result<Option<Status>, AllocError>
        requires ready { is_ready self.old }
        requires some { 0 < length line.now }
        requires few { length line.now < 2 ^ 40 }
        ensures run { Advances
            (λ (x : Bool × List (List ℕ)). replies self.old x.0 (line.now ∷ x.1))
            (λ x. replies self.new x.0 x.1)
            (replies self.old false (line.now ∷ [])).text
            (O.written out.old) (O.written out.new) result }
        ensures cause { HasWriteCause (O.faults out.old) (O.faults out.new) result }
        ensures taken { result ≡ Ok None → taken self.new ≡ taken self.old + length line.now }
        ensures room { result ≡ Ok None → (lines : List (List ℕ)) (begun : ℕ)
            → rooms self.new lines begun → rooms self.old (line.now ∷ lines) begun }
        ensures ready { result ≡ Ok None → is_ready self.new };

    /// Whether the line that begins with these bytes passes a limit, whatever comes.
    fn is_over(&self, pending: &[u8]) -> bool
        requires ready { is_ready self.now }
        requires open { HasNoFeed pending.now }
        requires few { length pending.now < 2 ^ 40 }
        ensures over { IsTrue result → (at_end : Bool) (more : List ℕ)
            → replies self.now at_end (lines_of (pending.now ++ more)) ≡ ends [] Status.TooLong }
        ensures short { result ≡ false → taken self.now + length pending.now ≤ max_input }
        ensures room { result ≡ false → rooms self.now [] (length pending.now) };

    /// Ends the run where the input ends. `Err` is out of memory alone.
    fn finish<O: Sink>(&self, alloc: Global, out: &mut O) -> Result<Status, AllocError>
        requires { is_ready self.now }
        ensures run { Finishes (replies self.now true []) (O.written out.old)
            (O.written out.new) result }
        ensures later { O.faults out.old ≤ O.faults out.new }
        ensures cause { result ≡ Ok Status.WriteFault → Rose (O.faults out.old) (O.faults out.new) }
        ensures usage { result ≢ Ok Status.Usage };

    /// Whether the reply to the line may be too long to be held: it then goes to the sink as it comes, and isn't gathered with others. What is
    /// written is the same.
    fn is_long(&self, line: &[u8]) -> bool;

    /// Where no line comes nothing is written.
    ghost nothing_yet: { (machine : Self) → is_ready machine
        → replies machine false [] ≡ ends [] Done };

    /// There is room for a line of which nothing has come.
    ghost room_to_begin: { (machine : Self) → is_ready machine → rooms machine [] 0 };
}
