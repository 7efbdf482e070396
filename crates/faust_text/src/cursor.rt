ghost use Rattle.std.specs.Prelude.{◌≡◌, ◌≤◌, [], ◌∷◌, drop, IfOk, MatchOption, MatchResult};
ghost use Rattle.faust_types.specs.Clients.{IsClient};
ghost use Rattle.faust_text.specs.Tokens.{tokens_of};
ghost use Rattle.faust_text.specs.Fields.{Gives, any_number, bytes, ended, key, kind, next_field, number, value, word};

use crate::cause::Cause;
use crate::error::LineError;
use crate::field;
use crate::token::split_token;
use faust_types::{Bytes, Kind};
use std::alloc::Global;
use std::marker::Model;

/// Goes over the tokens of a line from left to right, each read as a field. Contracts see the tokens that are left.
/// Each call takes one token, also where it refuses it. A missing token is refused as `Word`.
#[derive(Drop)]
pub struct Cursor<'a> {
    left: Option<&'a [u8]>,
}

impl<'a> Model for Cursor<'a> {
    ghost use Rattle.std.specs.Prelude.{List, ℕ};
    ghost use Rattle.std.specs.Option.{option_copied};
    ghost use Rattle.faust_text.specs.Tokens.{tokens_left};

    ghost Value = { List (List ℕ) };

    ghost view = { λ c. tokens_left (option_copied c.left) };
}

impl<'a> Cursor<'a> {
    /// At the first token of a line.
    pub fn new(line: &'a [u8]) -> Cursor<'a>
        ensures { result ≡ tokens_of line.now }
    {
        Cursor { left: Some(line) }
    }

    /// The next token: none where the line has no more.
    pub fn token(&mut self) -> Option<&'a [u8]>
        ensures { MatchOption result ((self.old ≡ []) × (self.new ≡ [])) (λ token. self.old ≡ token.now ∷ self.new) }
    {
        let (token, left) = split_token(self.left?);
        self.left = left;
        Some(token)
    }

    fn due(&mut self) -> Result<&'a [u8], LineError>
        ensures due { MatchResult result (λ token. self.old ≡ token.now ∷ self.new)
            (λ e. (self.old ≡ []) × (e ≡ LineError.Refused Cause.Word)) }
        ensures gone { self.new ≡ drop 1 self.old }
    {
        match self.token() {
            Some(token) => Ok(token),
            None => Err(LineError::Refused(Cause::Word)),
        }
    }

    /// The text given, and else `Word`.
    pub fn word(&mut self, text: &[u8]) -> Result<(), LineError>
        ensures gives { Gives (λ given. (given, self.new)) result (next_field (word text.now) self.old) }
        ensures gone { self.new ≡ drop 1 self.old }
    {
        let token = self.due()?;
        field::word(token, text)
    }

    /// A number from `low` to `high`: `Number` where it is out of range, `Word` where the token is no number.
    pub fn number(&mut self, low: u64, high: u64) -> Result<u64, LineError>
        ensures gives { Gives (λ given. (given, self.new)) result (next_field (number low high) self.old) }
        ensures gone { self.new ≡ drop 1 self.old }
        ensures low { IfOk result (λ x. low ≤ x) }
        ensures high { IfOk result (λ x. x ≤ high) }
    {
        let token = self.due()?;
        field::number(token, low, high)
    }

    /// One of so many clients.
    pub fn client(&mut self, clients: u8) -> Result<u8, LineError>
        ensures gives { Gives (λ given. (given, self.new)) result (next_field (number 1 clients) self.old) }
        ensures gone { self.new ≡ drop 1 self.old }
        ensures client { IfOk result (λ i. IsClient clients i) }
    {
        let client = self.number(1, u64::from(clients))?;
        Ok(client as u8)
    }

    /// The digits of a number, however many, and else `Word`.
    pub fn any_number(&mut self) -> Result<&'a [u8], LineError>
        ensures gives { Gives (λ given. (given.now, self.new)) result (next_field any_number self.old) }
        ensures gone { self.new ≡ drop 1 self.old }
    {
        let token = self.due()?;
        field::any_number(token)
    }

    /// `write` or `read`, and else `Word`.
    pub fn kind(&mut self) -> Result<Kind, LineError>
        ensures gives { Gives (λ given. (given, self.new)) result (next_field kind self.old) }
        ensures gone { self.new ≡ drop 1 self.old }
    {
        let token = self.due()?;
        field::kind(token)
    }

    /// A value of at most 4,096 bytes: `Word` where the token begins neither with `"` nor with `0x`, and `Value`
    /// where it breaks the spelling or the limit.
    pub fn value(&mut self, alloc: Global) -> Result<Bytes, LineError>
        ensures gives { Gives (λ given. (given, self.new)) result (next_field value self.old) }
        ensures gone { self.new ≡ drop 1 self.old }
    {
        let token = self.due()?;
        field::value(alloc, token)
    }

    /// At most 16,384 bytes in hexadecimal digits behind `0x`, refused as a value is.
    pub fn bytes(&mut self, alloc: Global) -> Result<Bytes, LineError>
        ensures gives { Gives (λ given. (given, self.new)) result (next_field bytes self.old) }
        ensures gone { self.new ≡ drop 1 self.old }
    {
        let token = self.due()?;
        field::bytes(alloc, token)
    }

    /// A key of 1 to 128 bytes in hexadecimal digits, and else `Value`.
    pub fn key(&mut self, alloc: Global) -> Result<Bytes, LineError>
        ensures gives { Gives (λ given. (given, self.new)) result (next_field key self.old) }
        ensures gone { self.new ≡ drop 1 self.old }
    {
        let token = self.due()?;
        field::key(alloc, token)
    }

    /// No further token, and else `Word`.
    pub fn end(&mut self) -> Result<(), LineError>
        ensures ended { Gives (λ done. done) result (ended self.old) }
        ensures gone { self.new ≡ drop 1 self.old }
    {
        match self.token() {
            None => Ok(()),
            Some(_) => Err(LineError::Refused(Cause::Word)),
        }
    }
}
