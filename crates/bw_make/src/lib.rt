//! Made services, whose check grows with one number: each of their pages has one field, which the next page shows.
#![tactic(auto)]

ghost use Rattle.std.specs.Prelude.{◌≡◌, ◌++◌, ◌≤◌, IfOk, OnOk, codes, flat_map, string_bytes};
ghost use Rattle.std.specs.List.{range_with_len};
ghost use Rattle.bw_make.specs.Made.{made, template_line, turn_line};
ghost use Rattle.bw_make.specs.declared.TheConstants.{MAX_PAGES};

use bw_lang::{Memory, Text};
use itoa::Buffer;
use std::alloc::Global;

/// The greatest number of pages of a made service.
pub const MAX_PAGES: u32 = 250;

/// The text of the made service of so many pages, from 1 to 250. Its one session shows them in order, and ends with a
/// page that shows what came from the last one.
pub fn make(alloc: Global, n: u32) -> Result<Text, Memory>
    requires { 1 ≤ n × n ≤ MAX_PAGES }
    ensures { IfOk result (λ text. text ≡ made n) }
{
    let mut text = String::from_str(alloc, "service Made {\n")?;
    push_templates(&mut text, n)?;
    text.push_str("html End = <html><p><[n]></p></html>;\nsession go() {\nstring s = \"\";\n")?;
    push_turns(&mut text, n)?;
    text.push_str("exit End<[n=s];\n}\n}\n")?;
    Ok(Text::from_string(text))
}

/// The line of the template of the page of this number.
fn push_template(text: &mut String, page: u32) -> Result<(), Memory>
    ensures { OnOk result (string_bytes text.new ≡ string_bytes text.old ++ template_line page) }
{
    let mut digits = Buffer::new();
    let digits = digits.format(page);
    text.push_str("html P")?;
    text.push_str(digits)?;
    text.push_str(" = <html><p>")?;
    text.push_str(digits)?;
    text.push_str(" <[n]> <input name=\"f\"/></p></html>;\n")?;
    Ok(())
}

/// The line of the turn that shows the page of this number.
fn push_turn(text: &mut String, page: u32) -> Result<(), Memory>
    ensures { OnOk result (string_bytes text.new ≡ string_bytes text.old ++ turn_line page) }
{
    text.push_str("show P")?;
    text.push_str(Buffer::new().format(page))?;
    text.push_str("<[n=s] receive [s=f];\n")?;
    Ok(())
}

/// The lines of the templates of so many pages.
fn push_templates(text: &mut String, n: u32) -> Result<(), Memory>
    ensures { OnOk result (string_bytes text.new ≡ string_bytes text.old ++ flat_map template_line (range_with_len 0 n)) }
{
    for page in 0..n {
        push_template(text, page)?;
    }
    Ok(())
}

/// The lines of the turns that show so many pages.
fn push_turns(text: &mut String, n: u32) -> Result<(), Memory>
    ensures { OnOk result (string_bytes text.new ≡ string_bytes text.old ++ flat_map turn_line (range_with_len 0 n)) }
{
    for page in 0..n {
        push_turn(text, page)?;
    }
    Ok(())
}
