//! The summaries of a service's templates.
ghost use Rattle.std.specs.Prelude.{◌≡◌, IfOk, length};
ghost use Rattle.bw_analyse.specs.Constants.{first_constants};

use bw_lang::laws::readable_is_small;
use bw_lang::{Memory, TemplateId};
use bw_sum::Summary;
use bw_types::Typed;
use std::alloc::Global;

/// The summaries of a service's templates as they stand, in their order.
pub fn constants_of(alloc: Global, typed: &Typed) -> Result<Vec<Summary>, Memory>
    ensures { IfOk result (λ v. v.items ≡ first_constants typed.now.service (length typed.now.service.templates)) }
{
    readable_is_small();
    let count = typed.service().templates.as_slice().len() as u32;
    let mut list = Vec::new(alloc);
    for number in 0..count {
        list.push(Summary::constant(alloc, typed, TemplateId::of(number))?)?;
    }
    Ok(list)
}
