ghost use Rattle.std.specs.Prelude.{◌≡◌, ◌≤◌, length, map, IfOk};
ghost use Rattle.std.specs.Option.{option_copied};
ghost use Rattle.faust_text.specs.Lines.{text_in};
ghost use Rattle.faust_text.specs.Tokens.{first_token, after_token, token_len, token_places, tokens_of};

use crate::line::{Span, len_before};
use faust_types::{OutOfMemory, Sequence};
use std::alloc::Global;

/// The places of tokens in their line, in order.
pub type Tokens = Sequence<Span>;

/// The tokens of a line. A token that begins with `"` ends with the next `"`, any other before the next blank; where
/// none comes, the token ends with the line. One blank behind a token is skipped, and then a further token begins,
/// which may be empty. A byte other than a blank right behind a closing `"` begins a further token. An empty line
/// has one empty token.
pub fn tokens(alloc: Global, line: &[u8]) -> Result<Tokens, OutOfMemory>
    ensures places { IfOk result (λ tokens. tokens ≡ token_places line.now) }
    ensures texts { IfOk result (λ tokens. map (text_in line.now) tokens ≡ tokens_of line.now) }
{
    let mut tokens = Sequence::new(alloc);
    let mut from = 0;
    loop {
        let end = from + token_len(line.split_at(from).1);
        tokens.push(Span { start: from, end })?;
        if end == line.len() {
            return Ok(tokens);
        }
        from = if line[end] == b' ' { end + 1 } else { end };
    }
}

/// The first token of a line, and what is left behind it and a blank: nothing where the token ends the line.
pub fn split_token(line: &[u8]) -> (&[u8], Option<&[u8]>)
    ensures token { result.0.now ≡ first_token line.now }
    ensures left { option_copied result.1 ≡ after_token line.now }
{
    let (token, behind) = line.split_at(token_len(line));
    match behind {
        [] => (token, None),
        [b' ', left @ ..] => (token, Some(left)),
        left => (token, Some(left)),
    }
}

fn token_len(line: &[u8]) -> usize
    ensures count { result ≡ token_len line.now }
    ensures within { result ≤ length line.now }
{
    match line {
        [b'"', body @ ..] => (len_before(body, b'"') + 2).min(line.len()),
        _ => len_before(line, b' '),
    }
}
