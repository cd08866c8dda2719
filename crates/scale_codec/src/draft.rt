//! A value that is being written.
ghost use Rattle.std.specs.Prelude.{⊤};
ghost use Rattle.scale_codec.specs.Spelling.{byte, fixed, compact};
ghost use Rattle.scale_codec.specs.Answers.{Appends, Drafted};

use crate::Out;
use std::alloc::AllocError;
use std::marker::Model;

/// What has been written so far, and after it a value that is being written. Contracts see the two apart, so that a call that is
/// refused memory in the middle of a value says that what was before the value stays.
#[derive(Drop)]
pub struct Draft {
    pub(crate) out: Out,
    pub(crate) start: usize,
}

impl Model for Draft {
    ghost use Rattle.std.specs.Prelude.{◌≤◌, take, drop, length};
    ghost use Rattle.scale_codec.specs.Answers.{Drafted};

    ghost Value = { Drafted };

    ghost view = { λ d. record { kept = take d.start d.out; text = drop d.start d.out } };

    ghost invariant = { λ d. d.start ≤ length d.out };
}

impl Draft {
    /// One byte.
    pub fn put_u8(&mut self, value: u8) -> Result<(), AllocError>
        ensures { Appends result self.old self.new (byte value) ⊤ }
    {
        self.out.put_u8(value)
    }

    /// Four bytes, the low one first.
    pub fn put_u32(&mut self, value: u32) -> Result<(), AllocError>
        ensures { Appends result self.old self.new (fixed 4 value) ⊤ }
    {
        self.out.put_u32(value)
    }

    /// Eight bytes, the low one first.
    pub fn put_u64(&mut self, value: u64) -> Result<(), AllocError>
        ensures { Appends result self.old self.new (fixed 8 value) ⊤ }
    {
        self.out.put_u64(value)
    }

    /// A compact number, in its shortest form.
    pub fn put_compact(&mut self, value: u128) -> Result<(), AllocError>
        ensures { Appends result self.old self.new (compact value) ⊤ }
    {
        self.out.put_compact(value)
    }

    /// The bytes as they are, without a length.
    pub fn put_bytes(&mut self, bytes: &[u8]) -> Result<(), AllocError>
        ensures { Appends result self.old self.new bytes.now ⊤ }
    {
        self.out.put_bytes(bytes)
    }
}
