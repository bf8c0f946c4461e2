//! Pages, and the targets of their forms.
ghost use Rattle.std.specs.Prelude.{◌≡◌, ◌++◌, ◌<◌, ◌^◌, IfOk, OnOk, codes, flat_map, string_bytes};
ghost use Rattle.bw_http.specs.declared.request.Path.TheVariants as paths;
ghost use Rattle.bw_http.specs.Paths.{hex_digits, spelling};
ghost use Rattle.bw_model.specs.Steps.{index_of};
ghost use Rattle.bw_world.specs.Changes.{shown_page, last_page};

use bw_doc::{Doc, Sheet};
use bw_lang::{Memory, Text};
use bw_types::Typed;
use itoa::Buffer;
use std::alloc::Global;

/// Writes the last hexadecimal digits of a number, so many, in lower case.
fn push_digits(text: &mut String, width: u32, n: u64) -> Result<(), Memory>
    ensures { OnOk result (string_bytes text.new ≡ string_bytes text.old ++ hex_digits width n) }
{
    if width == 0 {
        return Ok(());
    }
    push_digits(text, width - 1, n / 16)?;
    let Some(digit) = char::from_digit((n % 16) as u32, 16) else {
        unreachable!()
    };
    text.push(digit)?;
    Ok(())
}

/// The target that leads to a turn of a session: `/s/NUMBER-KEY/TURN`.
fn target(alloc: Global, number: u32, key: u64, turn: u32) -> Result<Text, Memory>
    ensures { IfOk result (λ t. t ≡ spelling (paths.Turn number key turn)) }
{
    let mut digits = Buffer::new();
    let mut text = String::from_str(alloc, "/s/")?;
    text.push_str(digits.format(number))?;
    text.push_str("-")?;
    push_digits(&mut text, 16, key)?;
    text.push_str("/")?;
    text.push_str(digits.format(turn))?;
    Ok(Text::from_string(text))
}

/// The page that shows a session's document at this turn.
pub fn shown(
    alloc: Global,
    typed: &Typed,
    number: u32,
    key: u64,
    turn: u32,
    doc: &Doc,
) -> Result<Sheet, Memory>
    ensures { IfOk result (λ sheet. sheet ≡ shown_page typed.now.service number key turn doc.now) }
{
    let target = target(alloc, number, key, turn)?;
    doc.sheet(&typed.service().name, Some(&target))
}

/// A session's last page.
pub fn last(typed: &Typed, doc: &Doc) -> Result<Sheet, Memory>
    ensures { IfOk result (λ sheet. sheet ≡ last_page typed.now.service doc.now) }
{
    doc.sheet(&typed.service().name, None)
}

/// The names of the sessions in source order, a line each.
pub fn index(alloc: Global, typed: &Typed) -> Result<Sheet, Memory>
    ensures { IfOk result (λ sheet. sheet ≡ index_of typed.now.service) }
{
    let mut names = String::new(alloc);
    for session in typed.service().sessions.as_slice() {
        names.push_str(session.name.as_str())?;
        names.push_str("\n")?;
    }
    Sheet::plain(alloc, &Text::from_string(names))
}
