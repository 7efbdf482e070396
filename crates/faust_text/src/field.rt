// A token in each kind of field.
ghost use Rattle.std.specs.Prelude.{◌≡◌, ◌≤◌, IfOk};
ghost use Rattle.faust_text.specs.Fields.{Gives, any_number, begins_as_value, bytes, field_at, key, kind, number, value, word};

use crate::cause::Cause;
use crate::error::{LineError, ValueError};
use crate::{numeral, spelling};
use faust_types::{Bytes, Kind, MAX_KEY_LEN, MAX_MESSAGE_LEN, MAX_VALUE_LEN};
use std::alloc::Global;

const WORD: LineError = LineError::Refused(Cause::Word);

const NUMBER: LineError = LineError::Refused(Cause::Number);

const VALUE: LineError = LineError::Refused(Cause::Value);

#[tactic(auto, unfolding(crate::specs::Fields::field_at))]
pub(crate) fn word(token: &[u8], text: &[u8]) -> Result<(), LineError>
    ensures { Gives (λ given. given) result (field_at (word text.now) token.now) }
{
    if token == text { Ok(()) } else { Err(WORD) }
}

#[tactic(auto, unfolding(crate::specs::Fields::field_at))]
pub(crate) fn number(token: &[u8], low: u64, high: u64) -> Result<u64, LineError>
    ensures gives { Gives (λ given. given) result (field_at (number low high) token.now) }
    ensures low { IfOk result (λ x. low ≤ x) }
    ensures high { IfOk result (λ x. x ≤ high) }
{
    if !numeral::is_number(token) {
        return Err(WORD);
    }
    match numeral::number(token) {
        Some(x) if low <= x && x <= high => Ok(x),
        _ => Err(NUMBER),
    }
}

#[tactic(auto, unfolding(crate::specs::Fields::field_at))]
pub(crate) fn any_number(token: &[u8]) -> Result<&[u8], LineError>
    ensures { Gives (λ given. given.now) result (field_at any_number token.now) }
{
    if numeral::is_number(token) {
        Ok(token)
    } else {
        Err(WORD)
    }
}

#[tactic(auto, unfolding(crate::specs::Fields::field_at))]
pub(crate) fn kind(token: &[u8]) -> Result<Kind, LineError>
    ensures { Gives (λ given. given) result (field_at kind token.now) }
{
    if token == b"write".as_slice() {
        Ok(Kind::Write)
    } else if token == b"read".as_slice() {
        Ok(Kind::Read)
    } else {
        Err(WORD)
    }
}

#[tactic(auto, unfolding(crate::specs::Fields::field_at))]
pub(crate) fn value(alloc: Global, token: &[u8]) -> Result<Bytes, LineError>
    ensures { Gives (λ given. given) result (field_at value token.now) }
{
    if !begins_as_value(token) {
        return Err(WORD);
    }
    match spelling::value(alloc, token, MAX_VALUE_LEN) {
        Ok(value) => Ok(value),
        Err(ValueError::Bad) => Err(VALUE),
        Err(ValueError::OutOfMemory) => Err(LineError::OutOfMemory),
    }
}

#[tactic(auto, unfolding(crate::specs::Fields::field_at))]
pub(crate) fn bytes(alloc: Global, token: &[u8]) -> Result<Bytes, LineError>
    ensures { Gives (λ given. given) result (field_at bytes token.now) }
{
    if !begins_as_value(token) {
        return Err(WORD);
    }
    match spelling::bytes(alloc, token, MAX_MESSAGE_LEN) {
        Ok(bytes) => Ok(bytes),
        Err(ValueError::Bad) => Err(VALUE),
        Err(ValueError::OutOfMemory) => Err(LineError::OutOfMemory),
    }
}

#[tactic(auto, unfolding(crate::specs::Fields::field_at))]
pub(crate) fn key(alloc: Global, token: &[u8]) -> Result<Bytes, LineError>
    ensures { Gives (λ given. given) result (field_at key token.now) }
{
    match spelling::hex_bytes(alloc, token, MAX_KEY_LEN) {
        Ok(key) if !key.is_empty() => Ok(key),
        Ok(_) | Err(ValueError::Bad) => Err(VALUE),
        Err(ValueError::OutOfMemory) => Err(LineError::OutOfMemory),
    }
}

fn begins_as_value(token: &[u8]) -> bool
    ensures { result ≡ begins_as_value token.now }
{
    matches!(token, [b'"', ..] | [b'0', b'x', ..])
}
