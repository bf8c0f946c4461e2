//! The different names of controls and receives.
ghost use Rattle.std.specs.Prelude.{◌≡◌, flat_map, IfOk, OnOk};
ghost use Rattle.bw_lang.specs.Service.Limits as spec;
ghost use Rattle.bw_lang.specs.Table.Names.{with_names};

use bw_lang::{Declaration, Memory, NameTable};
use std::alloc::Global;

/// Takes in the fields that a declaration has controls for or receives.
fn add_declared(names: &mut NameTable, declaration: &Declaration) -> Result<(), Memory>
    ensures { OnOk result (names.new ≡ with_names names.old (spec.declared_fields declaration.now)) }
{
    match declaration {
        Declaration::Template(template) => names.add_controls(&template.items),
        Declaration::Shared(_) => Ok(()),
        Declaration::Session(session) => names.add_received(&session.body),
    }
}

/// How many different names of controls and receives the declarations have.
#[tactic(auto, using(bw_lang::proofs::FieldSteps::field_steps))]
pub(crate) fn different_fields(alloc: Global, declarations: &[Declaration]) -> Result<u64, Memory>
    ensures { IfOk result (λ n. n ≡ spec.different (flat_map spec.declared_fields declarations.now)) }
{
    let mut names = NameTable::new(alloc);
    for declaration in declarations {
        add_declared(&mut names, declaration)?;
    }
    Ok(names.len() as u64)
}
