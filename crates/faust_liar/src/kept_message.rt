//! A message that is kept as its bytes.
ghost use Rattle.std.specs.Prelude.{◌≡◌, Some, IfOk};
ghost use Rattle.faust_types.specs.Clients.{IsClientCount};
ghost use Rattle.faust_types.specs.Ranges.{IsWire, IsMessageFor};
ghost use Rattle.faust_wire.specs.Grammar.{IsForWire, spelling};
ghost use Rattle.faust_wire.specs.Reading.{message_of};
ghost use Rattle.faust_liar.specs.Spelled.{IsSpelled};

use faust_types::{Bytes, Message, OutOfMemory};
use faust_wire::{decode, encode};
use std::alloc::Global;
use std::marker::Model;

/// A message kept as its bytes, which it may share with the run that it belongs to. Clauses see the message, and not
/// under which wire it is kept.
#[derive(Debug, Drop)]
pub struct Kept {
    wire: u8,
    n: u8,
    bytes: Bytes,
}

impl Model for Kept {
    ghost use Rattle.faust_types.specs.declared.message.Message.{Message};
    ghost use Rattle.faust_liar.specs.Spelled.{IsSpelled, spelled_message};

    ghost Value = { Message };

    ghost view = { λ k. spelled_message k.wire k.n k.bytes };

    ghost invariant = { λ k. IsSpelled k.wire k.n k.bytes };
}

impl Kept {
    /// The message that these bytes spell under this wire for n clients.
    pub fn of_bytes(wire: u8, n: u8, bytes: Bytes) -> Kept
        requires { IsSpelled wire n bytes }
        ensures { message_of wire n bytes ≡ Some result }
    {
        Kept { wire, n, bytes }
    }

    /// A message in range for n clients, under this wire.
    pub fn of(alloc: Global, wire: u8, n: u8, message: &Message) -> Result<Kept, OutOfMemory>
        requires wire { IsWire wire }
        requires count { IsClientCount n }
        requires in_range { IsMessageFor n message.now }
        requires rides { IsForWire wire message.now }
        ensures { IfOk result (λ kept. kept ≡ message.now) }
    {
        let bytes = encode(alloc, wire, n, message)?;
        Ok(Kept::of_bytes(wire, n, bytes))
    }

    /// The message, read.
    pub fn message(&self) -> Result<Message, OutOfMemory>
        ensures { IfOk result (λ message. message ≡ self.now) }
    {
        match decode(
            self.bytes.allocator(),
            self.wire,
            self.n,
            self.bytes.as_slice(),
        ) {
            Ok(message) => Ok(message),
            Err(_) => Err(OutOfMemory),
        }
    }

    /// The spelling of the message under this wire, in range for n clients. Where it is kept so, this takes no more
    /// memory than a copy of its bytes.
    pub fn bytes(&self, wire: u8, n: u8) -> Result<Bytes, OutOfMemory>
        requires wire { IsWire wire }
        requires in_range { IsMessageFor n self.now }
        requires rides { IsForWire wire self.now }
        ensures { IfOk result (λ bytes. bytes ≡ spelling wire self.now) }
    {
        if self.wire == wire {
            return self.bytes.copy();
        }
        let message = self.message()?;
        encode(self.bytes.allocator(), wire, n, &message)
    }
}
