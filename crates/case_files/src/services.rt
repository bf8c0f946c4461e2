//! The services of cases, which have to be well typed.
ghost use Rattle.std.specs.Prelude.{◌≡◌, IfOk};
ghost use Rattle.bw_flow.specs.Layout.{plan_of};
ghost use Rattle.bw_lang.specs.Service.Reads.{IsReadable};

use crate::fault::Fault;
use crate::tables::Case;
use crate::texts::Texts;
use bw_flow::{Flow, FlowFault, lower};
use bw_lang::Service;
use bw_syntax::{SyntaxFault, read_service};
use bw_types::{TypeFault, Typed, resolve};
use std::alloc::Global;

/// The service whose text is in the line that begins with this word.
pub fn service_of(
    alloc: Global,
    texts: &Texts<'_>,
    case: &Case<'_>,
    word: &str,
) -> Result<Typed, Fault> {
    let text = case.text_of(alloc, texts, word)?;
    let typed = typed_text(alloc, &text);
    drop(text);
    typed
}

/// The service of a text.
fn typed_text(alloc: Global, text: &[u8]) -> Result<Typed, Fault> {
    match read_service(alloc, text) {
        Ok(service) => resolved(alloc, service),
        Err(fault) => {
            let is_memory = matches!(fault, SyntaxFault::Memory);
            drop(fault);
            Err(why_untried(is_memory))
        }
    }
}

/// The same of a service that was read.
fn resolved(alloc: Global, service: Service) -> Result<Typed, Fault>
    requires { IsReadable service }
{
    match resolve(alloc, service) {
        Ok(typed) => Ok(typed),
        Err(fault) => {
            let is_memory = matches!(fault, TypeFault::Memory);
            drop(fault);
            Err(why_untried(is_memory))
        }
    }
}

/// Why a case can't be tried: its service isn't as it has to be, if it isn't for want of memory.
fn why_untried(is_memory: bool) -> Fault {
    if is_memory {
        Fault::Memory
    } else {
        Fault::Malformed
    }
}

/// The flow of a service, which must not have too many points.
pub fn flow_of(alloc: Global, typed: &Typed) -> Result<Flow, Fault>
    ensures { IfOk result (λ f. f ≡ plan_of typed.now.service) }
{
    match lower(alloc, typed) {
        Ok(flow) => Ok(flow),
        Err(FlowFault::TooMany(_)) => Err(Fault::Malformed),
        Err(FlowFault::Memory) => Err(Fault::Memory),
    }
}
