//! Schemas.
ghost use Rattle.std.specs.Prelude.{◌≡◌};
ghost use Rattle.bw_schema.specs.Reads.{IsReadable};

use crate::rules::Rules;
use bw_lang::Name;

/// A schema: the tag of the root element, and the rule of each element, in the order of the text that reads as it.
pub struct Schema {
    pub(crate) root: Name,
    pub(crate) elements: Rules,
    pub ghost readable: { ∥ IsReadable root elements ∥₁ },
}

impl Drop for Schema {
    fn drop(self) {
        let Schema {
            root: _,
            elements: _,
        } = self;
    }
}

impl Schema {
    /// The tag of the root element.
    pub fn root(&self) -> &Name
        ensures { result.now ≡ self.now.root }
    {
        &self.root
    }

    /// The rules of the elements.
    pub fn elements(&self) -> &Rules
        ensures { result.now ≡ self.now.elements }
    {
        &self.elements
    }
}
