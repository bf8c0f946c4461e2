//! The templates of a service are read.
ghost use Rattle.std.specs.Prelude.{◌≡◌, [], IfOk, IfErr};
ghost use Rattle.bw_lang.specs.Service.Drafts.{IsFormed, AreFormed};
ghost use Rattle.bw_lang.specs.Service.Reads.{IsRead, AreRead};
ghost use Rattle.bw_syntax.specs.Refusals.{IsUnread, IsFirstUnread};

use crate::fault::SyntaxFault;
use bw_lang::{Declaration, Draft, GapNames, Shared, Template};
use bw_tmpl::{TmplFault, read_template};
use std::alloc::Global;

/// The declarations of a service, with their templates read, and the names of its gaps.
#[derive(Drop)]
pub struct Declared {
    pub declarations: Vec<Declaration>,
    pub gaps: GapNames,
}

/// A declaration, with its template read, where it is one. The names of its gaps are taken into `gaps`.
fn read_one(alloc: Global, draft: Draft, gaps: &mut GapNames) -> Result<Declaration, SyntaxFault>
    requires { IsFormed draft }
    ensures read { IfOk result (λ d. IsRead gaps.old draft d gaps.new) }
    ensures unread { IfErr result (IsUnread draft) }
{
    match draft {
        Draft::Template { name, inside } => {
            match read_template(alloc, inside.as_slice(), gaps) {
                Ok(items) => Ok(Declaration::Template(Template { name, items })),
                Err(TmplFault::Memory) => Err(SyntaxFault::Memory),
                Err(fault) => Err(SyntaxFault::Template(name, fault)),
            }
        }
        Draft::Shared { kind, name, init } => Ok(Declaration::Shared(Shared {
            kind,
            name,
            init: init.literal(),
        })),
        Draft::Session(session) => Ok(Declaration::Session(session)),
    }
}

/// The declarations of a service with their templates read, in source order. `Template` comes exactly where one is
/// refused, and names the first.
#[tactic(auto, using(crate::proofs::Declared::memory_unread))]
pub fn read_all(alloc: Global, drafts: Vec<Draft>) -> Result<Declared, SyntaxFault>
    requires { AreFormed drafts.items }
    ensures read { IfOk result (λ d. AreRead [] drafts.items d.declarations.items d.gaps) }
    ensures unread { IfErr result (IsFirstUnread [] drafts.items) }
{
    let mut gaps = GapNames::new(alloc);
    let mut declarations = Vec::new(alloc);
    for draft in drafts {
        match read_one(alloc, draft, &mut gaps) {
            Ok(declaration) => declarations.push(declaration)?,
            Err(fault) => return Err(fault),
        }
    }
    Ok(Declared { declarations, gaps })
}
