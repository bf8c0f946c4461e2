//! From the bytes of a file to a service.
ghost use Rattle.std.specs.Prelude.{◌≡◌, ◌≤◌, ◌⊎◌, Ok, Err, None, IfOk, IfErr, length};
ghost use Rattle.bw_lang.specs.Text.Brackets.{too_deep};
ghost use Rattle.bw_lang.specs.declared.service.Service.{Service as Service_};
ghost use Rattle.bw_lang.specs.Service.Drafts.{AreFormed};
ghost use Rattle.bw_lang.specs.Service.Reads.{Reads};
ghost use Rattle.bw_syntax.specs.declared.fault.SyntaxFault.{SyntaxFault as Fault_};
ghost use Rattle.bw_syntax.specs.Refusals.{IsServiceRefused, IsSameAnswer};
ghost use Rattle.bw_syntax.specs.Told.{IsTold};
ghost use Rattle.bw_syntax.specs.Steps.Stages.{IsUnparsed, IsParsed, IsRefusedDraft, IsServiceOf, AreBounded};

use crate::fault::SyntaxFault;
use crate::templates::read_all;
use crate::told::{Told, tell};
use bw_lang::{Service, Token};
use bw_limits::{too_deep, too_many};
use bw_parse::{ParseFault, ServiceDraft, parse_service};
use std::alloc::Global;

/// The place of the first of the last `left` tokens, within a text of `len` bytes; its end, where none is left. It is a
/// hint for people: that it is within the text is all that is promised.
fn place(tokens: &[Token], left: usize, len: usize) -> usize
    ensures { result ≤ len }
{
    match tokens.len().checked_sub(left) {
        None => 0,
        Some(at) => match tokens.get(at) {
            None => len,
            Some(token) => len.min(token.start),
        },
    }
}

/// The service that the tokens of a text of `len` bytes are written for, with its templates unread.
fn parse(alloc: Global, told: &Told, len: usize) -> Result<ServiceDraft, SyntaxFault>
    ensures parsed { IfOk result (λ d. IsParsed told.now.lexemes.items d.name d.drafts.items) }
    ensures unparsed { IfErr result (IsUnparsed told.now.lexemes.items len) }
{
    match too_deep(&told.lexemes) {
        Some((limit, number)) => Err(SyntaxFault::TooMany(limit, number)),
        None => match parse_service(alloc, &told.lexemes) {
            Ok(draft) => Ok(draft),
            Err(ParseFault::Memory) => Err(SyntaxFault::Memory),
            Err(ParseFault::Syntax(left)) => {
                let at = place(told.tokens.as_slice(), left, len);
                Err(SyntaxFault::Syntax(at))
            }
        },
    }
}

/// The service of a draft, once its templates are read.
fn finish(alloc: Global, draft: ServiceDraft) -> Result<Service, SyntaxFault>
    requires formed { AreFormed draft.drafts.items }
    requires bounded { AreBounded draft.drafts.items }
    ensures read { IfOk result (IsServiceOf draft.name draft.drafts.items) }
    ensures refused { IfErr result (IsRefusedDraft draft.name draft.drafts.items) }
{
    let ServiceDraft { name, drafts } = draft;
    let declared = match read_all(alloc, drafts) {
        Ok(declared) => declared,
        Err(fault) => return Err(fault),
    };
    match too_many(alloc, &name, &declared.gaps, &declared.declarations) {
        Err(_) => Err(SyntaxFault::Memory),
        Ok(Some((limit, number))) => Err(SyntaxFault::TooMany(limit, number)),
        Ok(None) => match Service::of(alloc, name, declared.gaps, declared.declarations) {
            Ok(service) => Ok(service),
            Err(_) => Err(SyntaxFault::Memory),
        },
    }
}

/// The service of a text of these tokens.
fn read(alloc: Global, bytes: &[u8], told: &Told) -> Result<Service, SyntaxFault>
    requires { IsTold bytes.now told.now }
    ensures read { IfOk result (Reads bytes.now) }
    ensures refused { IfErr result (IsServiceRefused bytes.now) }
{
    match parse(alloc, told, bytes.len()) {
        Ok(draft) => finish(alloc, draft),
        Err(fault) => Err(fault),
    }
}

/// The service that the bytes of a file read as, whose tokens are told already: [`read_service`] behind [`tell`].
pub fn read_told(alloc: Global, bytes: &[u8], told: &Told) -> Result<Service, SyntaxFault>
    requires { IsTold bytes.now told.now }
    ensures read { IfOk result (Reads bytes.now) }
    ensures only { (service : Service_) → Reads bytes.now service → (result ≡ Err Fault_.Memory) ⊎ (result ≡ Ok service) }
    ensures refused { IfErr result (IsServiceRefused bytes.now) }
    ensures only_refused { (fault : Fault_) → IsServiceRefused bytes.now fault → IsSameAnswer result fault }
{
    read(alloc, bytes, told)
}

/// The service that the bytes of a file read as.
///
/// It is answered exactly where the bytes read as one, and else the reason why they read as none ([`SyntaxFault`]): the
/// first that holds. `Memory` may come anywhere. Its depth is bounded by the limits on brackets and
/// stretches, which are tested first.
pub fn read_service(alloc: Global, bytes: &[u8]) -> Result<Service, SyntaxFault>
    ensures read { IfOk result (Reads bytes.now) }
    ensures only { (service : Service_) → Reads bytes.now service → (result ≡ Err Fault_.Memory) ⊎ (result ≡ Ok service) }
    ensures refused { IfErr result (IsServiceRefused bytes.now) }
    ensures only_refused { (fault : Fault_) → IsServiceRefused bytes.now fault → IsSameAnswer result fault }
{
    match tell(alloc, bytes) {
        Ok(told) => read_told(alloc, bytes, &told),
        Err(fault) => Err(fault),
    }
}
