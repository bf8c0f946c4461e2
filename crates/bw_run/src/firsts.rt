//! What shared variables begin with.
ghost use Rattle.std.specs.Prelude.{◌≡◌, IfOk, Some};
ghost use Rattle.bw_doc.specs.Operations.{IsOf};
ghost use Rattle.bw_eval.specs.Sound.{IsSound};
ghost use Rattle.bw_eval.specs.View.{document, value, values};
ghost use Rattle.bw_lang.specs.declared.stmt.Kind.{Kind};
ghost use Rattle.bw_meaning.specs.Values as meaning;
ghost use Rattle.bw_run.specs.Follow.Kinds.{kind_of};
ghost use Rattle.bw_run.specs.Fit.{AreShared};
ghost use Rattle.bw_typed.specs.Named.{NamesTemplate, IsLiteral};
ghost use Rattle.bw_typed.specs.ShortStrings.{IsShortLiteral};

use crate::turn::SharedValues;
use bw_doc::Doc;
use bw_eval::{Value, Values};
use bw_lang::{Literal, Memory, Name};
use bw_types::Typed;
use std::alloc::Global;

/// The shared variables of a service in which no session has begun: each with the value of its literal, for a document the
/// constant of the template that is named.
pub fn first_values(alloc: Global, typed: &Typed) -> Result<SharedValues, Memory>
    ensures values { IfOk result (λ v. values v ≡ meaning.first_values typed.now.service) }
    ensures fit { IfOk result (AreShared typed.now.service) }
{
    let mut firsts = Values::new(alloc);
    for shared in typed.service().shared.as_slice() {
        let value = literal_value(typed, &shared.init)?;
        firsts.push(shared.name.copy()?, value)?;
    }
    Ok(firsts)
}

/// The value of a literal.
fn literal_value(typed: &Typed, literal: &Literal) -> Result<Value, Memory>
    requires literal { (kind : Kind) × IsLiteral typed.now.service literal.now kind }
    requires short { IsShortLiteral literal.now }
    ensures value { IfOk result (λ v. value v ≡ meaning.literal_value typed.now.service literal.now) }
    ensures kind { (kind : Kind) → IsLiteral typed.now.service literal.now kind → IfOk result (λ v. kind_of (value v) ≡ kind) }
    ensures sound { IfOk result (IsSound typed.now.service.templates) }
{
    match literal {
        Literal::Int(n) => Ok(Value::Int(*n)),
        Literal::Bool(b) => Ok(Value::Bool(*b)),
        Literal::Str(s) => Ok(Value::Str(s.copy()?)),
        Literal::Tmpl(name) => Ok(Value::Html(template_value(typed, name)?)),
    }
}

/// The constant of the template of that name.
fn template_value(typed: &Typed, name: &Name) -> Result<Doc, Memory>
    requires { NamesTemplate typed.now.service name.now }
    ensures value { IfOk result (λ d. meaning.template_value typed.now.service name.now ≡ Some (meaning.document (document d))) }
    ensures sound { IfOk result (IsOf typed.now.service.templates) }
{
    let Some(template) = typed.template(name.as_str()) else {
        unreachable!()
    };
    Doc::constant(typed, template)
}
