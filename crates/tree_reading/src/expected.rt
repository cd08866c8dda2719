//! What was expected where a tree is none.

ghost use Rattle.std.specs.Prelude.{Some};
ghost use Rattle.tree_reading.specs.Expectations.{expectation_text};

use std::alloc::AllocError;
use std::fmt;

/// What was expected in a line. Its text is what an answer says of it.
#[derive(Clone, Copy, Debug, PartialEq, Eq)]
pub enum Expected {
    /// The heading of a tree.
    Heading,
    /// The name of an instruction.
    Instruction,
    /// Not more than 100 instructions.
    NoMore,
    /// Not more than 8 levels of programs.
    NoDeeper,
    /// The field of this name, with a value of its kind.
    Field(&'static str),
    /// An asset of a list.
    Asset,
    /// A pallet of a list.
    Pallet,
    /// No further line.
    End,
    /// A tree whose message is within the limits of messages.
    Message,
    /// The line as trees have it.
    Same,
}

impl fmt::Display for Expected {
    ghost output = { λ e. Some (expectation_text e) };

    fn fmt<W: fmt::Write>(&self, f: &mut fmt::Formatter<W>) -> fmt::Result {
        match self {
            Expected::Heading => write!(f, "message NUMBER version 3 or 4"),
            Expected::Instruction => write!(f, "an instruction"),
            Expected::NoMore => write!(f, "at most 100 instructions"),
            Expected::NoDeeper => write!(f, "at most 8 levels"),
            Expected::Field(name) => write!(f, "the field {name}"),
            Expected::Asset => write!(f, "an asset"),
            Expected::Pallet => write!(f, "a pallet"),
            Expected::End => write!(f, "the end of the tree"),
            Expected::Message => write!(f, "the tree of a message"),
            Expected::Same => write!(f, "the line as explain writes it"),
        }
    }
}

/// Why a tree has no bytes.
#[derive(Clone, Copy, Debug, PartialEq, Eq)]
pub enum TreeFault {
    /// Something else was expected in this row; its rows count from 0, the heading.
    Row(usize, Expected),
    /// There was no memory.
    Memory,
}

impl From<AllocError> for TreeFault {
    ghost use Rattle.std.specs.Prelude.{◌≡◌};
    ghost use Rattle.tree_reading.specs.declared.expected.TreeFault.TheVariants.{Memory};

    ghost from_gives = { λ _ stop. stop ≡ Memory };

    fn from(_: AllocError) -> TreeFault {
        TreeFault::Memory
    }
}
