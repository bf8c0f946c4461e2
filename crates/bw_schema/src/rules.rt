//! The rules of a schema's elements.
ghost use Rattle.std.specs.Prelude.{◌≡◌, ◌++◌, ◌∷◌, [], Some, None, MatchOption, OnOk, OnErr};
ghost use Rattle.bw_schema.specs.Rules.{allows, permits, rule_of};
ghost use Rattle.bw_schema.specs.Words as spec;

use crate::needs::Formulas;
use bw_lang::{Memory, Name, Words};
use std::alloc::Global;
use std::marker::Model;

/// Whether a word is in the list.
pub fn is_among(words: &Words, word: &str) -> bool
    ensures { result ≡ spec.is_among words.now word.now }
{
    words.as_slice().iter().any(|each| each.as_str() == word)
}

/// The values that an attribute may have.
pub struct ValueList {
    pub name: Name,
    pub words: Words,
}

impl Drop for ValueList {
    fn drop(self) {
        let ValueList { name: _, words: _ } = self;
    }
}

/// Value lists, which contracts see as a list.
pub struct ValueLists {
    list: Vec<ValueList>,
}

impl Drop for ValueLists {
    fn drop(self) {
        let ValueLists { list: _ } = self;
    }
}

impl Model for ValueLists {
    ghost use Rattle.std.specs.Prelude.{List};
    ghost use Rattle.bw_schema.specs.declared.rules.ValueList.{ValueList};

    ghost Value = { List ValueList };

    ghost view = { λ w. w.list.items };
}

impl ValueLists {
    /// No list yet.
    pub fn new(alloc: Global) -> ValueLists
        ensures { result ≡ [] }
    {
        ValueLists {
            list: Vec::new(alloc),
        }
    }

    pub fn as_slice(&self) -> &[ValueList]
        ensures { result.now ≡ self.now }
    {
        self.list.as_slice()
    }

    /// One list more, behind the others.
    pub fn push(&mut self, list: ValueList) -> Result<(), Memory>
        ensures ok { OnOk result (self.new ≡ self.old ++ list ∷ []) }
        ensures err { OnErr result (self.new ≡ self.old) }
    {
        self.list.push(list)?;
        Ok(())
    }

    /// Whether the attribute may have the value: it is in each list for this attribute.
    pub fn permits(&self, name: &str, value: &str) -> bool
        ensures { result ≡ permits self.now name.now value.now }
    {
        self.list.iter().all(|list| list.name.as_str() != name || is_among(&list.words, value))
    }
}

/// The rule of an element.
pub struct Rule {
    /// The element's tag.
    pub tag: Name,
    /// The attributes that are allowed.
    pub may: Words,
    /// The attributes that are allowed and required.
    pub must: Words,
    /// The values of some attributes.
    pub values: ValueLists,
    /// The tags of the child elements that are allowed.
    pub has: Words,
    /// Whether text that isn't blank is allowed.
    pub text: bool,
    /// The formulas that hold. A schema of version 1 has none.
    pub needs: Formulas,
}

impl Drop for Rule {
    fn drop(self) {
        let Rule {
            tag: _,
            may: _,
            must: _,
            values: _,
            has: _,
            text: _,
            needs: _,
        } = self;
    }
}

impl Rule {
    /// Whether the attribute is allowed.
    pub fn allows(&self, name: &str) -> bool
        ensures { result ≡ allows self.now name.now }
    {
        is_among(&self.may, name) || is_among(&self.must, name)
    }
}

/// Rules, which contracts see as a list.
pub struct Rules {
    list: Vec<Rule>,
}

impl Drop for Rules {
    fn drop(self) {
        let Rules { list: _ } = self;
    }
}

impl Model for Rules {
    ghost use Rattle.std.specs.Prelude.{List};
    ghost use Rattle.bw_schema.specs.declared.rules.Rule.{Rule};
    ghost use Rattle.bw_schema.specs.contracts.rules.Rule as rule;
    ghost use Rattle.std.specs.Coded.{codes};

    ghost Value = { List Rule };

    ghost coded = { Prim.hlevel (codes, rule.the_row.coded) };

    ghost view = { λ w. w.list.items };
}

impl Rules {
    /// The rules of a vector, in its order.
    pub fn from_vec(list: Vec<Rule>) -> Rules
        ensures { result ≡ list.items }
    {
        Rules { list }
    }

    pub fn as_slice(&self) -> &[Rule]
        ensures { result.now ≡ self.now }
    {
        self.list.as_slice()
    }

    /// The rule of a tag, or none where the schema doesn't declare it.
    pub fn of(&self, tag: &str) -> Option<&Rule>
        ensures { MatchOption result (rule_of self.now tag.now ≡ None) (λ r. rule_of self.now tag.now ≡ Some r.now) }
    {
        for rule in self.as_slice() {
            if rule.tag.as_str() == tag {
                return Some(rule);
            }
        }
        None
    }
}
