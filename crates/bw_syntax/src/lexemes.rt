//! What the tokens of a text say.
ghost use Rattle.std.specs.Prelude.{◌≡◌, All, IfOk};
ghost use Rattle.bw_lang.specs.Text.Cuts.{StandsIn};
ghost use Rattle.bw_lang.specs.Text.Lexemes.{lexeme};
ghost use Rattle.bw_lang.specs.Service.Reads.{lexemes};
ghost use Rattle.bw_lang.specs.Text.TokenForms.{IsWord};

use bw_lang::{Bytes, Lexeme, Memory, Name, Token, TokenKind};
use std::alloc::Global;
use std::str;

/// What a token says.
fn lexeme_of(alloc: Global, bytes: &[u8], token: &Token) -> Result<Lexeme, Memory>
    requires { StandsIn bytes.now token.now }
    ensures { IfOk result (λ l. l ≡ lexeme bytes.now token.now) }
{
    let own = &bytes[token.start..token.end];
    match &token.what {
        TokenKind::Word => Ok(Lexeme::Word(Name::of(alloc, word_of(own))?)),
        TokenKind::Number(value) => Ok(Lexeme::Number(*value)),
        TokenKind::Str(text) => Ok(Lexeme::Str(text.copy()?)),
        TokenKind::Template => Ok(Lexeme::Template(Bytes::of(
            alloc,
            &bytes[token.start + 6..token.end - 7],
        )?)),
        TokenKind::Sign => Ok(Lexeme::Sign(Bytes::of(alloc, own)?)),
    }
}

/// A word as text: letters, digits and `_` are UTF-8.
fn word_of(bytes: &[u8]) -> &str
    requires { IsWord bytes.now }
    ensures { result.now ≡ bytes.now }
{
    match str::from_utf8(bytes) {
        Ok(word) => word,
        Err(_) => unreachable!(),
    }
}

/// What the tokens of a text say.
pub fn lexemes_of(alloc: Global, bytes: &[u8], tokens: &[Token]) -> Result<Vec<Lexeme>, Memory>
    requires { All (StandsIn bytes.now) tokens.now }
    ensures { IfOk result (λ ls. ls.items ≡ lexemes bytes.now tokens.now) }
{
    let mut list = Vec::new(alloc);
    for token in tokens {
        list.push(lexeme_of(alloc, bytes, token)?)?;
    }
    Ok(list)
}
