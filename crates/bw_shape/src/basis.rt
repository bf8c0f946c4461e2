//! What the pages of a service are judged by, made once a check and lent.
ghost use Rattle.std.specs.Prelude.{◌≡◌, IfOk};
ghost use Rattle.std.specs.Coded.{Coded-set, codes};
ghost use Rattle.bw_lang.specs.Encoding.ForestEncoding.{encoded_forest};
ghost use Rattle.bw_strings.specs.Literals.{literals_of};
ghost use Rattle.bw_sum.specs.Templates.{all_items};
ghost use Rattle.bw_shape.specs.Wrapping.{AreWrappers};

use crate::TemplateItems;
use bw_lang::laws::readable_is_small;
use bw_lang::wrappers::{exit_wrapper, show_wrapper};
use bw_lang::{Items, Memory};
use bw_schema::Schema;
use bw_strings::Literals;
use bw_types::Typed;
use std::alloc::Global;

/// The wrappers of shown and of last pages of a service.
pub struct Wrappers {
    show: Items,
    exit: Items,
}

impl Drop for Wrappers {
    fn drop(self) {
        let Wrappers { show: _, exit: _ } = self;
    }
}

impl Wrappers {
    /// The wrappers of a service, which have gaps of their own behind those of the service.
    pub fn of(alloc: Global, typed: &Typed) -> Result<Wrappers, Memory>
        ensures { IfOk result (AreWrappers typed.now.service) }
    {
        readable_is_small();
        let gaps = &typed.service().gaps;
        let show = show_wrapper(alloc, gaps)?;
        let exit = exit_wrapper(alloc, gaps)?;
        Ok(Wrappers { show, exit })
    }

    /// The items of all templates of a service, and behind them these wrappers, which are the service's.
    pub fn behind<'a>(&'a self, typed: &'a Typed) -> TemplateItems<'a>
        requires { AreWrappers typed.now.service self.now }
        ensures { result ≡ all_items typed.now.service }
    {
        TemplateItems::of(typed.service(), &self.show, &self.exit)
    }
}

/// What the pages of a service are judged by: the service with its literals and the items of its templates and wrappers,
/// and a schema.
#[derive(Drop)]
pub struct Basis<'a> {
    pub typed: &'a Typed,
    pub literals: &'a Literals,
    pub templates: &'a TemplateItems<'a>,
    pub schema: &'a Schema,
    pub ghost literals_are: { literals.now ≡ literals_of typed.now.service },
    pub ghost templates_are: { templates.now ≡ all_items typed.now.service } by { Coded-set (Prim.hlevel (codes, encoded_forest)) _ _ },
}
