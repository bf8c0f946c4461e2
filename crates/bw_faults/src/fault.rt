//! Faults.
ghost use Rattle.std.proofs.Common.{rules};
ghost use Rattle.std.specs.Prelude.{◌≡◌};
ghost use Rattle.std.specs.Cmp.{partial_order_from_own_ties, partial_equiv_from_equiv};
ghost use Rattle.std.specs.Cmp.Rules.{comparing};
ghost use Rattle.std.proofs.lemmas.Cmp.{eq_by_cmp_equiv};
ghost use Rattle.std.specs.Ordering.{as_partial_cmp, eq_by_cmp};
ghost use Rattle.bw_faults.specs.Order.{fault_cmp, fault_total, group, template_rank};

use bw_lang::{TemplateId, Text};
use std::cmp::Ordering;

/// A fault of a service: something that could go wrong on one of its pages, or in one of its plugs.
///
/// Faults are ordered by their point, then those of fields and gaps (8 to 11) before those of elements (1 to 7), then by
/// template, place, number, and the bytes of the detail.
#[derive(Drop)]
pub struct Fault {
    /// 1: an attribute isn't allowed. 2: a required attribute may be absent. 3: an attribute's value may be outside the
    /// allowed ones. 4: a child element may stand there and isn't allowed. 5: text may be other than blank where none is
    /// allowed. 6: the page's root element isn't the schema's. 7: a formula may not hold. 8: a page may lack a received
    /// field. 9: a page may have a received field of one value twice. 10: a received field's kind doesn't fit its target.
    /// 11: a plug's base may have no open gap of that name.
    pub number: u8,
    /// The number of the statement: a show or an exit, or for 11 the statement in which the plug stands.
    pub point: u32,
    /// The template of the element, for 1 to 7.
    pub template: Option<TemplateId>,
    /// The number of the element in pre-order in its template, from 1; 0 for 8 to 11.
    pub place: u32,
    /// The attribute, tag, field or gap, or the word `text`.
    pub detail: Text,
}

impl Fault {
    // Faults of fields and gaps come before the others.
    fn group(&self) -> u8
        ensures { result ≡ group self.now }
    {
        if self.number < 8 { 1 } else { 0 }
    }

    // No template comes before each template.
    fn template_rank(&self) -> u64
        ensures { result ≡ template_rank self.now.template }
    {
        match self.template {
            None => 0,
            Some(template) => u64::from(template.number()) + 1,
        }
    }
}

impl PartialEq for Fault {
    ghost eq = { eq_by_cmp fault_cmp };

    ghost laws = { partial_equiv_from_equiv (Prim.search (comparing, rules, fault_total)) };

    fn eq(&self, other: &Fault) -> bool {
        self.cmp(other) == Ordering::Equal
    }
}

impl Eq for Fault {
    ghost laws = { eq_by_cmp_equiv fault_total };
}

impl PartialOrd for Fault {
    ghost partial_cmp = { as_partial_cmp fault_cmp };

    ghost laws = { partial_order_from_own_ties (Prim.search (comparing, rules, fault_total)) (Prim.search (comparing, rules)) };

    fn partial_cmp(&self, other: &Fault) -> Option<Ordering> {
        Some(self.cmp(other))
    }
}

impl Ord for Fault {
    ghost cmp = { fault_cmp };

    ghost total = { fault_total };

    ghost matches_partial_cmp = { Prim.search (comparing, rules) };

    ghost matches_eq = { Prim.search (comparing, rules) };

    fn cmp(&self, other: &Fault) -> Ordering {
        self.point
            .cmp(&other.point)
            .then(self.group().cmp(&other.group()))
            .then(self.template_rank().cmp(&other.template_rank()))
            .then(self.place.cmp(&other.place))
            .then(self.number.cmp(&other.number))
            .then(self.detail.cmp(&other.detail))
    }
}
