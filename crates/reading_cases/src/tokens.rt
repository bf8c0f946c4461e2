//! Cases of texts that become tokens. A case has the line `text PARTS` and wants, in further lines, the tokens:
//!
//! - `word START END`, `template START END`, `sign START END`
//! - `number START END = VALUE`
//! - `string START END = "TEXT"`, with all but printable ASCII as escapes
//!
//! or `no tokens`, or a fault: `bad byte at N`, `open string at N`, `open template at N`, `number too big at N`.

use bw_lang::{Token, TokenKind};
use bw_lex::{LexFault, lex};
use case_files::{Case, Fault, Texts, Verdict, begin_line, escaped};
use std::alloc::{AllocError, Global};

/// Tries a text.
pub fn try_case(alloc: Global, texts: &Texts<'_>, case: &Case<'_>) -> Result<Verdict, Fault> {
    let text = case.text_of(alloc, texts, "text")?;
    let got = shown(alloc, &text)?;
    Ok(Verdict::of(case.wanted(alloc, &["text"])?, got))
}

/// What the text becomes.
fn shown(alloc: Global, text: &[u8]) -> Result<String, AllocError> {
    match lex(alloc, text) {
        Ok(tokens) => {
            let shown = shown_tokens(alloc, tokens.as_slice());
            drop(tokens);
            shown
        }
        Err(LexFault::BadByte(at)) => format!(in alloc; "bad byte at {at}"),
        Err(LexFault::OpenString(at)) => format!(in alloc; "open string at {at}"),
        Err(LexFault::OpenTemplate(at)) => format!(in alloc; "open template at {at}"),
        Err(LexFault::NumberTooBig(at)) => format!(in alloc; "number too big at {at}"),
        Err(LexFault::Memory) => format!(in alloc; "out of memory"),
    }
}

fn shown_tokens(alloc: Global, tokens: &[Token]) -> Result<String, AllocError> {
    if tokens.is_empty() {
        return String::from_str(alloc, "no tokens");
    }
    let mut shown = String::new(alloc);
    for token in tokens {
        begin_line(&mut shown)?;
        put_token(alloc, &mut shown, token)?;
    }
    Ok(shown)
}

/// Puts a token behind others.
fn put_token(alloc: Global, shown: &mut String, token: &Token) -> Result<(), AllocError> {
    let start = token.start;
    let end = token.end;
    shown.push_str(kind_word(&token.what))?;
    write!(shown, " {start} {end}")?;
    match &token.what {
        TokenKind::Number(value) => write!(shown, " = {value}"),
        TokenKind::Str(text) => put_text(alloc, shown, text.as_bytes()),
        TokenKind::Word | TokenKind::Template | TokenKind::Sign => Ok(()),
    }
}

/// The word of a kind of tokens.
fn kind_word(kind: &TokenKind) -> &'static str {
    match kind {
        TokenKind::Word => "word",
        TokenKind::Number(_) => "number",
        TokenKind::Str(_) => "string",
        TokenKind::Template => "template",
        TokenKind::Sign => "sign",
    }
}

/// Puts the text of a string behind its token.
fn put_text(alloc: Global, shown: &mut String, text: &[u8]) -> Result<(), AllocError> {
    shown.push_str(" = \"")?;
    shown.push_str(&escaped(alloc, text)?)?;
    shown.push('"')
}
