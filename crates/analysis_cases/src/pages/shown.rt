//! The lines of faults.

use bw_faults::{Fault, Faults};
use bw_lang::TemplateId;
use bw_types::Typed;
use case_files::begin_line;
use std::alloc::{AllocError, Global};

/// The lines of the faults, parted by `; `, or `accepted`.
pub fn shown(alloc: Global, typed: &Typed, faults: &Faults) -> Result<String, AllocError> {
    let mut shown = String::new(alloc);
    for fault in faults.as_slice() {
        begin_line(&mut shown)?;
        put_fault(&mut shown, typed, fault)?;
    }
    if shown.is_empty() {
        shown.push_str("accepted")?;
    }
    Ok(shown)
}

/// Puts the line of a fault behind others.
fn put_fault(shown: &mut String, typed: &Typed, fault: &Fault) -> Result<(), AllocError> {
    write!(shown, "fault {} point {} ", fault.number, fault.point)?;
    match fault.template {
        Some(template) => {
            let name = template_name(typed, template);
            write!(
                shown,
                "template {name} place {} {}",
                fault.place,
                fault.detail.as_str()
            )
        }
        None => write!(shown, "field {}", fault.detail.as_str()),
    }
}

/// The name of a template, or of a wrapper.
fn template_name(typed: &Typed, template: TemplateId) -> &str {
    match typed.template_at(template) {
        Some(template) => template.name.as_str(),
        None if template.number() as usize == typed.service().templates.as_slice().len() =>
            "(show)",
        None => "(exit)",
    }
}
