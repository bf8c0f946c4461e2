//! Names with their values.
ghost use Rattle.std.specs.Prelude.{◌≡◌, ◌≤◌, ◌^◌, ◌++◌, ◌∷◌, [], List, None, IfOk, IfSome, OnOk, OnErr, length, map, take, option_map, position};
ghost use Rattle.bw_lang.specs.declared.service.Template.{Template};
ghost use Rattle.bw_lang.specs.Table.Names.{beside, same};
ghost use Rattle.bw_meaning.specs.Values as meaning;
ghost use Rattle.bw_eval.specs.Sound.{IsSound, AreSound};
ghost use Rattle.bw_eval.specs.View.{value, values};

use crate::value::Value;
use bw_lang::{Memory, Name};
use std::alloc::Global;
use std::marker::Model;

/// A name with its value.
#[derive(Drop)]
pub struct Variable {
    pub name: Name,
    pub value: Value,
}

/// Variables in order of declaration. Contracts see the list of the pairs of name and value.
pub struct Values {
    list: Vec<Variable>,
}

impl Drop for Values {
    fn drop(self) {
        let Values { list: _ } = self;
    }
}

impl Model for Values {
    ghost use Rattle.std.specs.Prelude.{ℕ, List};
    ghost use Rattle.bw_eval.specs.declared.value.Value.{Value as Kept};

    ghost Value = { List (List ℕ × Kept) };

    ghost use Rattle.std.specs.Coded.{codes};
    ghost use Rattle.bw_doc.specs.Encoding.MadeEncoding.{encoded_made};

    ghost coded = { Prim.hlevel (codes, encoded_made) };

    ghost use Rattle.std.specs.Prelude.{map};

    ghost view = { λ v. map (λ x. (x.name, x.value)) v.list.items };
}

impl Values {
    /// The value of the first of that name.
    pub fn get(&self, name: &Name) -> Option<&Value>
        ensures { option_map (λ v. v.now) result ≡ beside name.now self.now }
    {
        let name = name.as_str();
        let variable = self
            .list
            .iter()
            .find(|variable| name == variable.name.as_str())?;
        Some(&variable.value)
    }

    /// No variable yet.
    pub fn new(alloc: Global) -> Values
        ensures { result ≡ [] }
    {
        Values {
            list: Vec::new(alloc),
        }
    }

    /// How many variables there are.
    pub fn len(&self) -> usize
        ensures { result ≡ length self.now }
    {
        self.list.len()
    }

    /// The variables, in their order.
    pub fn as_slice(&self) -> &[Variable]
        ensures { map (λ x. (x.name, x.value)) result.now ≡ self.now }
    {
        self.list.as_slice()
    }

    /// A variable more, behind the others.
    pub fn push(&mut self, name: Name, new: Value) -> Result<(), Memory>
        ensures ok { OnOk result (self.new ≡ self.old ++ (name, new) ∷ []) }
        ensures err { OnErr result (self.new ≡ self.old) }
    {
        self.list.push(Variable { name, value: new })?;
        Ok(())
    }

    /// Only the first so many variables stay.
    pub fn truncate(&mut self, count: usize)
        ensures { self.new ≡ take count self.old }
    {
        self.list.truncate(count);
    }

    /// Puts a value in the place of that of the first variable of this name.
    pub fn replace(&mut self, name: &Name, new: Value)
        ensures value { values self.new ≡ meaning.replaced name.now (value new) (values self.old) }
        ensures sound { (templates : List Template) → AreSound templates self.old → IsSound templates new → AreSound templates self.new }
    {
        if let Some(place) = place_of(self.list.as_slice(), name) {
            self.list[place].set(new);
        }
    }

    /// Equal variables. The parts of documents are shared, and the rest has memory of its own.
    pub fn copy(&self) -> Result<Values, Memory>
        ensures { IfOk result (λ v. v ≡ self.now) }
    {
        let mut list = Vec::new(*self.list.allocator());
        for variable in &self.list {
            list.push(variable.copy()?)?;
        }
        Ok(Values { list })
    }

    /// The weight of all values together, unless it is too great for a number of 64 bits.
    pub fn weight(&self) -> Option<u64>
        ensures some { IfSome result (λ w. w ≡ meaning.weights (values self.now)) }
        ensures none { result ≡ None → 2 ^ 64 ≤ meaning.weights (values self.now) }
    {
        let mut total: u64 = 0;
        for variable in &self.list {
            total = total.checked_add(variable.value.weight()?)?;
        }
        Some(total)
    }
}

impl Variable {
    /// Another value.
    fn set(&mut self, new: Value)
        ensures name { self.new.name ≡ self.old.name }
        ensures value { self.new.value ≡ new }
    {
        self.value = new;
    }

    /// An equal variable.
    fn copy(&self) -> Result<Variable, Memory>
        ensures { IfOk result (λ v. v ≡ self.now) }
    {
        Ok(Variable {
            name: self.name.copy()?,
            value: self.value.copy()?,
        })
    }
}

/// The place of the first variable of that name.
fn place_of(variables: &[Variable], name: &Name) -> Option<usize>
    ensures { result ≡ position (λ v. same name.now v.name) variables.now }
{
    let name = name.as_str();
    variables
        .iter()
        .position(|variable| name == variable.name.as_str())
}
