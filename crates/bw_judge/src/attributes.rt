//! The faults 1 to 3, of attributes.
ghost use Rattle.std.specs.Prelude.{◌≡◌, ◌<◌, ◌&&◌, not, OnOk};
ghost use Rattle.bw_faults.specs.Lists.{Adds, OfSome};
ghost use Rattle.bw_schema.specs.Rules.{allows};
ghost use Rattle.bw_judge.specs.Found as found;
ghost use Rattle.bw_judge.specs.Scene.{is_told};

use crate::content::{Spot, add_if};
use crate::scene::Scene;
use bw_faults::Faults;
use bw_lang::{Attr, Attrs, Memory, Text, Words};
use bw_schema::Rule;
use std::alloc::Global;

/// Whether the attribute may be there and isn't allowed.
fn is_wrong(scene: &Scene, rule: &Rule, attr: &Attr) -> bool
    ensures { result ≡ (is_told scene.now attr.now.value && not (allows rule.now attr.now.name)) }
{
    scene.is_told(&attr.value) && !rule.allows(attr.name.as_str())
}

/// Adds the faults 1 and 3 of an attribute.
fn judge_attr(
    alloc: Global,
    scene: &Scene,
    rule: &Rule,
    spot: Spot,
    attr: &Attr,
    faults: &mut Faults,
) -> Result<(), Memory>
    ensures { OnOk result (Adds (found.OfAttr scene.now rule.now spot attr.now) faults.old faults.new) }
{
    let name = attr.name.as_str();
    let is_outside = !scene.is_permitted(&rule.values, attr);
    add_if(alloc, is_wrong(scene, rule, attr), 1, spot, name, faults)?;
    add_if(alloc, is_outside, 3, spot, name, faults)
}

/// Adds the faults 1 and 3 of the attributes.
pub(crate) fn judge_attrs(
    alloc: Global,
    scene: &Scene,
    rule: &Rule,
    spot: Spot,
    attrs: &Attrs,
    faults: &mut Faults,
) -> Result<(), Memory>
    ensures { OnOk result (Adds (OfSome (found.OfAttr scene.now rule.now spot) attrs.now) faults.old faults.new) }
{
    for attr in attrs.as_slice() {
        judge_attr(alloc, scene, rule, spot, attr, faults)?;
    }
    Ok(())
}

/// Adds the fault 2 of a required attribute.
fn judge_name(
    alloc: Global,
    scene: &Scene,
    spot: Spot,
    attrs: &Attrs,
    name: &Text,
    faults: &mut Faults,
) -> Result<(), Memory>
    ensures { OnOk result (Adds (found.OfMust scene.now spot attrs.now name.now) faults.old faults.new) }
{
    let may_be_absent = scene.may_be_absent(attrs, name.as_str());
    add_if(alloc, may_be_absent, 2, spot, name.as_str(), faults)
}

/// Adds the faults 2 of required attributes.
pub(crate) fn judge_must(
    alloc: Global,
    scene: &Scene,
    must: &Words,
    spot: Spot,
    attrs: &Attrs,
    faults: &mut Faults,
) -> Result<(), Memory>
    ensures { OnOk result (Adds (OfSome (found.OfMust scene.now spot attrs.now) must.now) faults.old faults.new) }
{
    for name in must.as_slice() {
        judge_name(alloc, scene, spot, attrs, name, faults)?;
    }
    Ok(())
}
