//! Services that were accepted.
ghost use Rattle.std.specs.Prelude.{◌≡◌};
ghost use Rattle.bw_flow.specs.Layout.{plan_of};
ghost use Rattle.bw_check.specs.Accepts.{IsAccepted};

use bw_analyse::Facts;
use bw_flow::Flow;
use bw_schema::Schema;
use bw_types::Typed;

/// A service that was accepted by a schema, with its flow and its facts.
pub struct Checked {
    pub(crate) typed: Typed,
    pub(crate) flow: Flow,
    pub(crate) facts: Facts,
    pub(crate) schema: Schema,
    pub ghost lowered: { flow ≡ plan_of typed.service },
    pub ghost accepted: { ∥ IsAccepted typed.service schema facts ∥₁ },
}

impl Drop for Checked {
    fn drop(self) {
        let Checked {
            typed: _,
            flow: _,
            facts: _,
            schema: _,
        } = self;
    }
}

impl Checked {
    /// The service. Takes no memory.
    pub fn typed(&self) -> &Typed
        ensures { result.now ≡ self.now.typed }
    {
        &self.typed
    }

    /// Its flow. Takes no memory.
    pub fn flow(&self) -> &Flow
        ensures { result.now ≡ self.now.flow }
    {
        &self.flow
    }

    /// What is known of its variables and pages. Takes no memory.
    pub fn facts(&self) -> &Facts
        ensures { result.now ≡ self.now.facts }
    {
        &self.facts
    }

    /// The schema by which it was accepted. Takes no memory.
    pub fn schema(&self) -> &Schema
        ensures { result.now ≡ self.now.schema }
    {
        &self.schema
    }
}
