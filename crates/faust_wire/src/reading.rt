ghost use Rattle.std.specs.Prelude.{IfOk};
ghost use Rattle.faust_types.specs.Clients.{IsClientCount};
ghost use Rattle.faust_types.specs.Ranges.{IsWire};
ghost use Rattle.faust_types.specs.Versions.{Vector};
ghost use Rattle.faust_types.specs.declared.message.Message.{Message};
ghost use Rattle.faust_wire.specs.Grammar.{IsSpellingOf, IsVersionSpelling};
ghost use Rattle.faust_wire.specs.Reading.{Gives, IsReadAs, message_of, version_of};

use crate::error::WireError;
use crate::message::next_message;
use crate::version::next_version;
use faust_types::{Message, Version};
use std::alloc::Global;

#[tactic(auto, unfolding(crate::specs::Reading::message_of))]
fn whole_message(alloc: Global, wire: u8, n: u8, bytes: &[u8]) -> Result<Message, WireError>
    requires { IsClientCount n }
    ensures { Gives (λ x. x) result (message_of wire n bytes.now) }
{
    let (message, rest) = next_message(alloc, wire, n, bytes)?;
    if !rest.is_empty() {
        return Err(WireError::Malformed);
    }
    Ok(message)
}

/// The message whose spelling the bytes are under this wire, 1 or 2, for n clients from 2 to 32. `Malformed` comes
/// exactly where the bytes are no such spelling.
pub fn decode(alloc: Global, wire: u8, n: u8, bytes: &[u8]) -> Result<Message, WireError>
    requires wire { IsWire wire }
    requires count { IsClientCount n }
    // What is answered is in range and spelled so, by all of the bytes.
    ensures found { IfOk result (IsSpellingOf wire n bytes.now) }
    // What is spelled so is answered, unless memory runs out.
    ensures only { (message : Message) → IsSpellingOf wire n bytes.now message → IsReadAs result message }
    // The same as a function of the bytes.
    ensures value { Gives (λ x. x) result (message_of wire n bytes.now) }
{
    whole_message(alloc, wire, n, bytes)
}

#[tactic(auto, unfolding(crate::specs::Reading::version_of))]
fn whole_version(alloc: Global, n: u8, bytes: &[u8]) -> Result<Version, WireError>
    requires { IsClientCount n }
    ensures { Gives (λ x. x) result (version_of n bytes.now) }
{
    let (version, rest) = next_version(alloc, n, bytes)?;
    if !rest.is_empty() {
        return Err(WireError::Malformed);
    }
    Ok(version)
}

/// The version whose version bytes these are, for n clients from 2 to 32. `Malformed` comes exactly where they
/// are the version bytes of none.
pub fn read_version(alloc: Global, n: u8, bytes: &[u8]) -> Result<Version, WireError>
    requires { IsClientCount n }
    ensures found { IfOk result (IsVersionSpelling n bytes.now) }
    ensures only { (version : Vector) → IsVersionSpelling n bytes.now version → IsReadAs result version }
    ensures value { Gives (λ x. x) result (version_of n bytes.now) }
{
    whole_version(alloc, n, bytes)
}
