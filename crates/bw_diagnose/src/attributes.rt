//! Where a tag of a template names an attribute for the second time.
ghost use Rattle.std.specs.Prelude.{◌≡◌, ◌≤◌, length, IfOk, OnOk};
ghost use Rattle.std.specs.List.{list_any};
ghost use Rattle.bw_lang.specs.Table.Names.{same, with_name};
ghost use Rattle.bw_lang.specs.Template.MarkupNames.{later_of};
ghost use Rattle.bw_lang.specs.declared.pieces.NameClass.TheVariants as class;
ghost use Rattle.bw_tmpl.specs.Steps.Reading.{leading};
ghost use Rattle.bw_diagnose.specs.Attributes as spec;

use crate::gaps::{Part, part_behind};
use crate::markup::is_attr_later;
use crate::tags::rest;
use bw_lang::{Memory, NameTable, is_blank};
use std::alloc::Global;
use std::str;

/// How many bytes of the name of an attribute stand in front.
fn attr_length(bytes: &[u8]) -> usize
    ensures length { result ≡ leading (later_of class.Attr) bytes.now }
    ensures few { result ≤ length bytes.now }
{
    for (index, &byte) in bytes.iter().enumerate() {
        if !is_attr_later(byte) {
            return index;
        }
    }
    bytes.len()
}

/// Whether an attribute begins with the first byte; `blank`: a blank stands in front of it.
fn begins_attr(part: Part, blank: bool, here: &[u8]) -> bool
    ensures { result ≡ spec.begins_attr part blank here.now }
{
    match part {
        Part::Tag => match here {
            [first, ..] => blank && first.is_ascii_lowercase(),
            [] => false,
        },
        Part::Outside | Part::Quoted(_) => false,
    }
}

/// Takes the attribute in that begins here, and says whether it was there.
#[tactic(auto, using(crate::proofs::Taken::any_known))]
fn take_attr(seen: &mut NameTable, here: &[u8]) -> Result<bool, Memory>
    ensures there { IfOk result (λ b. b ≡ list_any (same (spec.attr_name here.now)) seen.old) }
    ensures taken { OnOk result (seen.new ≡ with_name seen.old (spec.attr_name here.now)) }
{
    let count = seen.len();
    match str::from_utf8(&here[..attr_length(here)]) {
        Ok(name) => Ok(seen.add(name)? < count),
        // Letters, digits and `-` are always a text.
        Err(_) => Err(Memory),
    }
}

/// Goes on behind the first byte with the attributes of its tag, and says whether it begins one that the tag has already.
fn step(
    alloc: Global,
    seen: &mut NameTable,
    part: Part,
    blank: bool,
    here: &[u8],
) -> Result<bool, Memory>
    ensures repeats { IfOk result (λ b. b ≡ spec.repeats_here part blank seen.old here.now) }
    ensures names { OnOk result (seen.new ≡ spec.names_behind part blank seen.old here.now) }
{
    if begins_attr(part, blank, here) {
        return take_attr(seen, here);
    }
    if matches!(part, Part::Outside) {
        *seen = NameTable::new(alloc);
    }
    Ok(false)
}

/// The first attribute of the inside of a template that its tag has already.
#[tactic(auto, using(crate::proofs::Walked::repeated_step))]
pub fn repeated_in(alloc: Global, inside: &[u8]) -> Result<Option<usize>, Memory>
    ensures { IfOk result (λ at. at ≡ spec.repeated_in inside.now) }
{
    let mut part = Part::Outside;
    let mut blank = false;
    let mut seen = NameTable::new(alloc);
    for (at, &byte) in inside.iter().enumerate() {
        if step(alloc, &mut seen, part, blank, rest(inside, at))? {
            return Ok(Some(at));
        }
        part = part_behind(part, byte);
        blank = is_blank(byte);
    }
    Ok(None)
}
