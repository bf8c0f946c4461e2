//! What is known of a service's first test that fails before its fault is.
ghost use Rattle.std.specs.Prelude.{◌≡◌, ◌<◌, ◌^◌, IfOk, Some, None, List};
ghost use Rattle.bw_lang.specs.declared.declaration.Draft.{Draft as Draft_};
ghost use Rattle.bw_places.specs.Drafted.{drafts_of};
ghost use Rattle.bw_diagnose.specs.Aims.{IsAim};
ghost use Rattle.bw_diagnose.specs.Known.{lexemes_in};
ghost use Rattle.bw_diagnose.specs.Meant as spec;
ghost use Rattle.bw_diagnose.specs.Places.{site_place};

use crate::known::{Known, Tokened};
use crate::names::{is_plugged, push_there};
use crate::places::{name_place, site_place};
use bw_blame::{Blamed, Site};
use bw_excerpt::Place;
use bw_hints::Role;
use bw_lang::{Bytes, Lexeme, Memory};
use bw_places::{Span, declaration};
use std::alloc::Global;

/// What the first test that fails points at, what it is about, and the names that may stand there.
#[derive(Drop)]
pub struct Aim {
    pub place: Place,
    pub role: Role,
    pub names: Vec<Bytes>,
}

/// What a test is about, at a site of a declaration whose first token is `own`.
#[tactic(auto, using(crate::proofs::Far::same_plugged))]
fn role_at(lexemes: &[Lexeme], own: usize, site: Site) -> Role
    ensures { result ≡ spec.role_at lexemes.now own site }
{
    match site {
        Site::Tokens(at, _) => {
            if is_plugged(lexemes, own.saturating_add(at).min(lexemes.len())) {
                Role::Gap
            } else {
                Role::Value
            }
        }
        Site::Target(_) => Role::Target,
        Site::Literal => Role::Literal,
        Site::StartTag(_) | Site::Hole(_) => Role::Value,
    }
}

/// Where no test fails: it is about the service's name.
pub fn no_aim(alloc: Global, told: &Tokened<'_>) -> Aim
    ensures { (drafts : List Draft_) → IsAim told.now.text.now drafts None result }
{
    Aim {
        place: name_place(told),
        role: Role::Value,
        names: Vec::new(alloc),
    }
}

/// Of a test in the declaration of these tokens.
fn aim_in(alloc: Global, known: &Known<'_>, blamed: Blamed, own: Span) -> Result<Aim, Memory>
    requires { own.from < 2 ^ 63 }
    ensures place { IfOk result (λ aim. aim.place ≡ site_place known.now.told.text.now own blamed.site) }
    ensures role { IfOk result (λ aim. aim.role ≡ spec.role_at (lexemes_in known.now.told.text.now) own.from blamed.site) }
    ensures names { IfOk result (λ aim. aim.names.items
        ≡ spec.may_stand (lexemes_in known.now.told.text.now) (drafts_of known.now.declarations.items) blamed.declaration own.from blamed.site) }
{
    let mut names = Vec::new(alloc);
    push_there(alloc, &mut names, known, blamed, own.from)?;
    Ok(Aim {
        place: site_place(&known.told, own, blamed.site),
        role: role_at(known.told.lexemes, own.from, blamed.site),
        names,
    })
}

/// Of the first test that fails, which is about this.
#[tactic(auto, using(crate::proofs::Early::declared_early))]
pub fn aim_at(alloc: Global, known: &Known<'_>, blamed: Blamed) -> Result<Aim, Memory>
    ensures { IfOk result (IsAim known.now.told.text.now (drafts_of known.now.declarations.items) (Some blamed)) }
{
    match declaration(&known.declarations, blamed.declaration) {
        Some(own) => aim_in(alloc, known, blamed, own),
        None => Ok(no_aim(alloc, &known.told)),
    }
}
