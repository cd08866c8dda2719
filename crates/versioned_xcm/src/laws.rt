//! What decoding and encoding say of one another.

ghost use Rattle.std.specs.Prelude.{◌≡◌, true, ℕ, List, Ok, MatchResult};
ghost use Rattle.operands.specs.declared.version.Version.{Version};
ghost use Rattle.xcm_program.specs.declared.instruction.Instruction.{Instruction};
ghost use Rattle.xcm_format.specs.Messages.{IsMessageIn, IsMessage};
ghost use Rattle.xcm_program.specs.Conversions.{is_convertible_one, is_convertible};
ghost use Rattle.versioned_xcm.specs.Reading.{message_of};
ghost use Rattle.versioned_xcm.specs.Message.{IsDecoded, IsCause, forwarded};

/// Decoding answers the program just where the bytes are its message and both versions can say it, and else the one cause that holds.
pub fn law_of_messages()
    ensures { (bytes : List ℕ) → MatchResult (message_of bytes) (IsDecoded bytes) (IsCause bytes) }
{}

/// Bytes are the message of at most one program.
pub fn law_of_one_program()
    ensures { (bytes : List ℕ) (p q : List Instruction)
        → IsMessage bytes p → IsMessage bytes q → p ≡ q }
{}

/// What was encoded, in either version, is decoded to the same program, on two premises: the bytes are the program's message in that
/// version, as `encode_message` and `encode_forwarded` say of what they answer, and no asset id of the program is bytes.
pub fn law_of_round_trip()
    ensures { (v : Version) (bytes : List ℕ) (program : List Instruction)
        → IsMessageIn v bytes program
        → is_convertible program ≡ true → message_of bytes ≡ Ok program }
{}

/// What `encode_forwarded` answers is decoded to the program that it is the message of, where no asset id of the first instruction and of the rest
/// is bytes. So what waits for delivery can be kept as its bytes.
pub fn law_of_forwarding()
    ensures { (v : Version) (bytes : List ℕ) (first : Instruction) (rest : List Instruction)
        → IsMessageIn v bytes (forwarded first rest) → is_convertible_one first ≡ true
        → is_convertible rest ≡ true → message_of bytes ≡ Ok (forwarded first rest) }
{}
