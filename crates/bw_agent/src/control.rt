//! The controls of a form, by what they may send.
ghost use Rattle.std.specs.Prelude.{◌≡◌, ◌++◌, ◌∷◌, [], OnOk, OnErr};

use bw_lang::{FieldKind, Memory, Text};
use std::alloc::Global;
use std::marker::Model;

/// A value that a control may send, and whether the page chose it: it is checked, selected, or the text of a text area.
#[derive(Drop)]
pub struct Offer {
    pub value: Text,
    pub chosen: bool,
}

/// The values that a control may send, in order. Contracts see the list.
pub struct Offers {
    list: Vec<Offer>,
}

impl Drop for Offers {
    fn drop(self) {
        let Offers { list: _ } = self;
    }
}

impl Model for Offers {
    ghost use Rattle.std.specs.Prelude.{List};
    ghost use Rattle.bw_agent.specs.declared.control.Offer.{Offer};

    ghost Value = { List Offer };

    ghost view = { λ o. o.list.items };
}

impl Offers {
    /// None yet.
    pub fn new(alloc: Global) -> Offers
        ensures { result ≡ [] }
    {
        Offers {
            list: Vec::new(alloc),
        }
    }

    /// One more, behind the others.
    pub fn push(&mut self, offer: Offer) -> Result<(), Memory>
        ensures ok { OnOk result (self.new ≡ self.old ++ offer ∷ []) }
        ensures err { OnErr result (self.new ≡ self.old) }
    {
        self.list.push(offer)?;
        Ok(())
    }

    pub fn as_slice(&self) -> &[Offer]
        ensures { result.now ≡ self.now }
    {
        self.list.as_slice()
    }
}

/// A control with a field: the field's name and kind, and the values that the control may send.
pub struct Control {
    pub name: Text,
    pub kind: FieldKind,
    pub offers: Offers,
}

impl Drop for Control {
    fn drop(self) {
        let Control {
            name: _,
            kind: _,
            offers: _,
        } = self;
    }
}

/// The controls of a form that have a field, in the order of the form. Contracts see the list.
pub struct Controls {
    list: Vec<Control>,
}

impl Drop for Controls {
    fn drop(self) {
        let Controls { list: _ } = self;
    }
}

impl Model for Controls {
    ghost use Rattle.std.specs.Prelude.{List};
    ghost use Rattle.bw_agent.specs.declared.control.Control.{Control};

    ghost Value = { List Control };

    ghost view = { λ c. c.list.items };
}

impl Controls {
    /// None yet.
    pub fn new(alloc: Global) -> Controls
        ensures { result ≡ [] }
    {
        Controls {
            list: Vec::new(alloc),
        }
    }

    /// One more, behind the others.
    pub fn push(&mut self, control: Control) -> Result<(), Memory>
        ensures ok { OnOk result (self.new ≡ self.old ++ control ∷ []) }
        ensures err { OnErr result (self.new ≡ self.old) }
    {
        self.list.push(control)?;
        Ok(())
    }

    pub fn as_slice(&self) -> &[Control]
        ensures { result.now ≡ self.now }
    {
        self.list.as_slice()
    }
}
