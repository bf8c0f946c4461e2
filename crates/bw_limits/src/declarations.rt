//! The limits of the declarations of a service.
ghost use Rattle.std.specs.Prelude.{◌≡◌, ◌<◌, ◌^◌, find, length, map, nat_lt, IfOk};
ghost use Rattle.std.specs.List.{All};
ghost use Rattle.std.specs.Option.{IfSome, is_some, option_to_list};
ghost use Rattle.bw_lang.specs.Service.CodeNames.{local_names};
ghost use Rattle.bw_lang.specs.Service.Limits as spec;
ghost use Rattle.bw_lang.specs.Document.Measures.{constant_weight};
ghost use Rattle.bw_lang.specs.Service.Sorted as sorted;
ghost use Rattle.bw_limits.specs.Steps.Parts.{declared_limit, size_limit};
ghost use Rattle.bw_lang.specs.declared.limits.TheConstants.{MAX_LOCALS, MAX_TEMPLATE_WEIGHT};

use crate::fields::different_fields;
use crate::lengths::Search;
use crate::locals;
use crate::passing::{over, passed};
use bw_lang::limits::{
    MAX_FIELDS, MAX_GAPS, MAX_LOCALS, MAX_NAME_BYTES, MAX_SESSIONS, MAX_SHARED, MAX_STRING_BYTES,
    MAX_TEMPLATE_WEIGHT, MAX_TEMPLATES,
};
use bw_lang::{Declaration, GapNames, Leaf, Limit, Memory, Name};
use std::alloc::Global;

fn is_template(declaration: &Declaration) -> bool
    ensures { result ≡ is_some (sorted.as_template declaration.now) }
{
    matches!(declaration, Declaration::Template(_))
}

fn is_session(declaration: &Declaration) -> bool
    ensures { result ≡ is_some (sorted.as_session declaration.now) }
{
    matches!(declaration, Declaration::Session(_))
}

fn is_shared(declaration: &Declaration) -> bool
    ensures { result ≡ is_some (sorted.as_shared declaration.now) }
{
    matches!(declaration, Declaration::Shared(_))
}

fn templates(declarations: &[Declaration]) -> u64
    ensures { result ≡ length (sorted.templates_of declarations.now) }
{
    declarations
        .iter()
        .filter(|declaration| is_template(declaration))
        .count() as u64
}

fn sessions(declarations: &[Declaration]) -> u64
    ensures { result ≡ length (sorted.sessions_of declarations.now) }
{
    declarations
        .iter()
        .filter(|declaration| is_session(declaration))
        .count() as u64
}

fn shared(declarations: &[Declaration]) -> u64
    ensures { result ≡ length (sorted.shared_of declarations.now) }
{
    declarations
        .iter()
        .filter(|declaration| is_shared(declaration))
        .count() as u64
}

/// The number of locals of a session, where it has too many.
fn locals_over(declaration: &Declaration) -> Option<u64>
    requires { IfSome (sorted.as_session declaration.now) (λ s. length (local_names s.body) < 2 ^ 64) }
    ensures { result ≡ find (nat_lt MAX_LOCALS) (map (λ s. length (local_names s.body)) (option_to_list (sorted.as_session declaration.now))) }
{
    match declaration {
        Declaration::Session(session) => over(MAX_LOCALS, locals::in_block(&session.body)),
        Declaration::Template(_) | Declaration::Shared(_) => None,
    }
}

/// The number of locals of the first session that has too many.
fn too_many_locals(declarations: &[Declaration]) -> Option<u64>
    requires { All (λ s. length (local_names s.body) < 2 ^ 64) (sorted.sessions_of declarations.now) }
    ensures { result ≡ find (nat_lt MAX_LOCALS) (map (λ s. length (local_names s.body)) (sorted.sessions_of declarations.now)) }
{
    for declaration in declarations {
        if let Some(count) = locals_over(declaration) {
            return Some(count);
        }
    }
    None
}

/// The weight of a template, where it is too heavy.
fn weight_over(declaration: &Declaration) -> Option<u64>
    requires { IfSome (sorted.as_template declaration.now) (λ t. constant_weight t.items < 2 ^ 64) }
    ensures { result ≡ find (nat_lt MAX_TEMPLATE_WEIGHT) (map (λ t. constant_weight t.items) (option_to_list (sorted.as_template declaration.now))) }
{
    match declaration {
        Declaration::Template(template) => over(MAX_TEMPLATE_WEIGHT, template.items.weight()),
        Declaration::Shared(_) | Declaration::Session(_) => None,
    }
}

/// The weight of the first template that is too heavy.
fn too_heavy(declarations: &[Declaration]) -> Option<u64>
    requires { All (λ t. constant_weight t.items < 2 ^ 64) (sorted.templates_of declarations.now) }
    ensures { result ≡ find (nat_lt MAX_TEMPLATE_WEIGHT) (map (λ t. constant_weight t.items) (sorted.templates_of declarations.now)) }
{
    for declaration in declarations {
        if let Some(weight) = weight_over(declaration) {
            return Some(weight);
        }
    }
    None
}

/// The first of the limits on the numbers of declarations and of gap names that is passed.
fn too_many_declared(gaps: &GapNames, declarations: &[Declaration]) -> Option<(Limit, u64)>
    ensures { result ≡ declared_limit gaps.now declarations.now }
{
    let templates = over(MAX_TEMPLATES, templates(declarations));
    let sessions = over(MAX_SESSIONS, sessions(declarations));
    let shared = over(MAX_SHARED, shared(declarations));
    let gaps = over(MAX_GAPS, gaps.len() as u64);
    passed(Limit::Templates, templates)
        .or(passed(Limit::Sessions, sessions))
        .or(passed(Limit::Shared, shared))
        .or(passed(Limit::Gaps, gaps))
}

/// The first of the limits on locals, lengths and weights that is passed.
fn too_large(name: &Name, gaps: &GapNames, declarations: &[Declaration]) -> Option<(Limit, u64)>
    requires locals { All (λ s. length (local_names s.body) < 2 ^ 64) (sorted.sessions_of declarations.now) }
    requires weights { All (λ t. constant_weight t.items < 2 ^ 64) (sorted.templates_of declarations.now) }
    ensures { result ≡ size_limit name.now gaps.now declarations.now }
{
    let names = Search {
        leaf: Leaf::Name,
        most: MAX_NAME_BYTES,
    };
    let strings = Search {
        leaf: Leaf::Text,
        most: MAX_STRING_BYTES as u64,
    };
    let locals = too_many_locals(declarations);
    let name_bytes = names.service(name, gaps, declarations);
    let string_bytes = strings.service(name, gaps, declarations);
    let weight = too_heavy(declarations);
    passed(Limit::Locals, locals)
        .or(passed(Limit::NameBytes, name_bytes))
        .or(passed(Limit::StringBytes, string_bytes))
        .or(passed(Limit::Weight, weight))
}

/// The first limit that the declarations of a service pass, with the first number in source order that does. In this
/// order: the templates, the sessions, the shared variables, the different names of gaps, the different names of controls
/// and receives, the locals of a session, the bytes of a name, the bytes that a string stands for, and the weight of a
/// template. What each may be is a constant of `bw_lang::limits`. `gaps` are the names of the gaps by their numbers.
pub fn too_many(
    alloc: Global,
    name: &Name,
    gaps: &GapNames,
    declarations: &[Declaration],
) -> Result<Option<(Limit, u64)>, Memory>
    requires locals { All (λ s. length (local_names s.body) < 2 ^ 64) (sorted.sessions_of declarations.now) }
    requires weights { All (λ t. constant_weight t.items < 2 ^ 64) (sorted.templates_of declarations.now) }
    ensures { IfOk result (λ r. r ≡ spec.too_many name.now gaps.now declarations.now) }
{
    let declared = too_many_declared(gaps, declarations);
    if declared.is_some() {
        return Ok(declared);
    }
    let fields = different_fields(alloc, declarations)?;
    let fields = passed(Limit::Fields, over(MAX_FIELDS, fields));
    if fields.is_some() {
        return Ok(fields);
    }
    Ok(too_large(name, gaps, declarations))
}
