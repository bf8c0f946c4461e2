//! Which names may stand at a place.
ghost use Rattle.std.specs.Prelude.{◌≡◌, ◌<◌, ◌+◌, ◌-◌, ◌++◌, ◌∷◌, ◌^◌, [], IfOk, OnOk, Some, slice_get};
ghost use Rattle.bw_places.specs.Counts.{draft_tokens, drafts_tokens};
ghost use Rattle.bw_places.specs.Drafted.{draft_of, drafts_of};
ghost use Rattle.bw_diagnose.specs.Known.{lexemes_in};
ghost use Rattle.bw_diagnose.specs.Meant as spec;

use crate::finding::sign_at;
use crate::gaps::push_gaps;
use crate::known::Known;
use bw_blame::{Blamed, Site};
use bw_lang::{Bytes, Lexeme, Memory, Words};
use bw_places::{Spelled, locals_at};
use std::alloc::Global;

/// Which names of declarations may stand at a place.
#[derive(Clone, Copy)]
pub enum Sort {
    Template,
    Shared,
    /// The gaps of templates.
    Gap,
}

/// One name more.
fn push_name(alloc: Global, names: &mut Vec<Bytes>, name: &[u8]) -> Result<(), Memory>
    ensures { OnOk result (names.new.items ≡ names.old.items ++ name.now ∷ []) }
{
    names.push(Bytes::of(alloc, name)?)?;
    Ok(())
}

/// The names that a declaration brings in.
fn push_own(
    alloc: Global,
    names: &mut Vec<Bytes>,
    sort: Sort,
    declaration: &Spelled<'_>,
) -> Result<(), Memory>
    ensures { OnOk result (names.new.items ≡ names.old.items ++ spec.own_names sort (draft_of declaration.now)) }
{
    match declaration {
        Spelled::Template { name, inside } => match sort {
            Sort::Template => push_name(alloc, names, name.as_bytes()),
            Sort::Gap => push_gaps(alloc, names, inside),
            Sort::Shared => Ok(()),
        },
        Spelled::Shared { variable, .. } => match sort {
            Sort::Shared => push_name(alloc, names, variable.name.as_bytes()),
            Sort::Template | Sort::Gap => Ok(()),
        },
        Spelled::Session(_) => Ok(()),
    }
}

/// Those of all declarations.
fn push_declared(
    alloc: Global,
    names: &mut Vec<Bytes>,
    sort: Sort,
    declarations: &[Spelled<'_>],
) -> Result<(), Memory>
    ensures { OnOk result (names.new.items ≡ names.old.items ++ spec.declared_names sort (drafts_of declarations.now)) }
{
    for one in declarations {
        push_own(alloc, names, sort, one)?;
    }
    Ok(())
}

/// The names of some words.
fn push_words(alloc: Global, names: &mut Vec<Bytes>, words: &Words) -> Result<(), Memory>
    ensures { OnOk result (names.new.items ≡ names.old.items ++ words.now) }
{
    for word in words.as_slice() {
        push_name(alloc, names, word.as_bytes())?;
    }
    Ok(())
}

/// The locals that are in scope at a token of a declaration.
fn locals_of(alloc: Global, declaration: &Spelled<'_>, at: usize) -> Result<Words, Memory>
    requires { draft_tokens (draft_of declaration.now) < 2 ^ 63 }
    ensures { IfOk result (λ names. names ≡ spec.locals_there (Some (draft_of declaration.now)) at) }
{
    let mut names = Words::new(alloc);
    if let Spelled::Session(session) = declaration {
        locals_at(alloc, &session.body, 5, at, &mut names)?;
    }
    Ok(names)
}

/// The same of the declaration of this number.
#[tactic(auto, using(crate::proofs::Early::declaration_is_few))]
fn locals_there(
    alloc: Global,
    declarations: &[Spelled<'_>],
    number: usize,
    at: usize,
) -> Result<Words, Memory>
    requires { 3 + drafts_tokens (drafts_of declarations.now) < 2 ^ 63 }
    ensures { IfOk result (λ names. names ≡ spec.locals_there (slice_get (drafts_of declarations.now) number) at) }
{
    match declarations.get(number) {
        Some(declaration) => locals_of(alloc, declaration, at),
        None => Ok(Words::new(alloc)),
    }
}

/// The variables that are in scope at a token of the declaration of this number.
fn push_variables(
    alloc: Global,
    names: &mut Vec<Bytes>,
    declarations: &[Spelled<'_>],
    number: usize,
    at: usize,
) -> Result<(), Memory>
    requires { 3 + drafts_tokens (drafts_of declarations.now) < 2 ^ 63 }
    ensures { OnOk result (names.new.items ≡ names.old.items ++ spec.variables_there (drafts_of declarations.now) number at) }
{
    let locals = locals_there(alloc, declarations, number, at)?;
    push_words(alloc, names, &locals)?;
    push_declared(alloc, names, Sort::Shared, declarations)
}

/// Whether a token is the name of a gap that is plugged.
pub fn is_plugged(lexemes: &[Lexeme], at: usize) -> bool
    requires { at < 2 ^ 64 - 1 }
    ensures { result ≡ spec.is_plugged lexemes.now at }
{
    sign_at(lexemes, at + 1, b"=")
        && (sign_at(lexemes, at.saturating_sub(1), b"<[")
            || sign_at(lexemes, at.saturating_sub(1), b","))
}

/// The names that may stand at a token, which is the one of number `at` of the declaration of this number.
fn push_at(
    alloc: Global,
    names: &mut Vec<Bytes>,
    known: &Known<'_>,
    number: usize,
    token: usize,
    at: usize,
) -> Result<(), Memory>
    requires { token < 2 ^ 64 - 1 }
    ensures { OnOk result (names.new.items ≡ names.old.items
        ++ spec.names_at (lexemes_in known.now.told.text.now) (drafts_of known.now.declarations.items) number token at) }
{
    let lexemes = known.told.lexemes;
    if is_plugged(lexemes, token) {
        return push_declared(alloc, names, Sort::Gap, &known.declarations);
    }
    push_variables(alloc, names, &known.declarations, number, at)?;
    if sign_at(lexemes, token + 1, b"=") {
        Ok(())
    } else {
        push_declared(alloc, names, Sort::Template, &known.declarations)
    }
}

/// The same, where the first token of the declaration is `own`.
#[tactic(auto, using(crate::proofs::Far::same_names))]
fn push_from(
    alloc: Global,
    names: &mut Vec<Bytes>,
    known: &Known<'_>,
    number: usize,
    own: usize,
    at: usize,
) -> Result<(), Memory>
    ensures { OnOk result (names.new.items ≡ names.old.items
        ++ spec.names_at (lexemes_in known.now.told.text.now) (drafts_of known.now.declarations.items) number (own + at) at) }
{
    // A token behind the last one stands for each of those.
    let token = own.saturating_add(at).min(known.told.lexemes.len());
    push_at(alloc, names, known, number, token, at)
}

/// The names that may stand at a site of a declaration whose first token is `own`.
pub fn push_there(
    alloc: Global,
    names: &mut Vec<Bytes>,
    known: &Known<'_>,
    blamed: Blamed,
    own: usize,
) -> Result<(), Memory>
    ensures { OnOk result (names.new.items ≡ names.old.items
        ++ spec.may_stand (lexemes_in known.now.told.text.now) (drafts_of known.now.declarations.items) blamed.declaration own blamed.site) }
{
    match blamed.site {
        Site::Tokens(at, _) => push_from(alloc, names, known, blamed.declaration, own, at),
        Site::Target(at) => {
            push_variables(alloc, names, &known.declarations, blamed.declaration, at)
        }
        Site::Literal => push_declared(alloc, names, Sort::Template, &known.declarations),
        Site::StartTag(_) | Site::Hole(_) => Ok(()),
    }
}
