//! Where the statements of a service and its templates stand.
ghost use Rattle.std.specs.Prelude.{◌≡◌, ◌<◌, ◌+◌, ◌++◌, ◌^◌, IfOk, OnOk};
ghost use Rattle.bw_places.specs.Counts.{drafts_tokens};
ghost use Rattle.bw_places.specs.Drafted.{draft_of, drafts_of};
ghost use Rattle.bw_diagnose.specs.Marks as spec;

use crate::known::Known;
use bw_lang::Memory;
use bw_places::{Span, Spelled, declaration_tokens, statements};
use std::alloc::Global;

/// The tokens of each statement without its blocks, and the token that is the inside of each template, in source order.
#[derive(Drop)]
pub struct Marks {
    pub statements: Vec<Span>,
    pub insides: Vec<usize>,
}

/// The inside of a template more, where a declaration is one, whose first token is this.
fn push_inside(list: &mut Vec<usize>, declaration: &Spelled<'_>, at: usize) -> Result<(), Memory>
    requires { at < 2 ^ 63 }
    ensures { OnOk result (list.new.items ≡ list.old.items ++ spec.inside_in (draft_of declaration.now) at) }
{
    if let Spelled::Template { .. } = declaration {
        list.push(at + 3)?;
    }
    Ok(())
}

/// The insides of the templates among declarations.
fn insides_of(alloc: Global, declarations: &[Spelled<'_>]) -> Result<Vec<usize>, Memory>
    requires { 3 + drafts_tokens (drafts_of declarations.now) < 2 ^ 63 }
    ensures { IfOk result (λ list. list.items ≡ spec.insides_of (drafts_of declarations.now) 3) }
{
    let mut list = Vec::new(alloc);
    let mut at = 3;
    for one in declarations {
        push_inside(&mut list, one, at)?;
        at += declaration_tokens(one);
    }
    Ok(list)
}

/// Of the declarations that a text is written for.
pub fn marks_of(alloc: Global, known: &Known<'_>) -> Result<Marks, Memory>
    ensures { IfOk result (spec.IsMarks (drafts_of known.now.declarations.items)) }
{
    let statements = statements(alloc, &known.declarations)?;
    let insides = insides_of(alloc, &known.declarations)?;
    Ok(Marks {
        statements,
        insides,
    })
}
