//! What the lines of a schema declare and use, and what is declared twice or isn't declared.
ghost use Rattle.std.specs.Prelude.{◌≡◌, ◌+◌, ◌<◌, ◌++◌, ◌∷◌, ◌^◌, [], false, map, IfOk, OnOk, OnErr};
ghost use Rattle.std.specs.List.{list_any};
ghost use Rattle.bw_schema.specs.MarkView.{mark_of};
ghost use Rattle.bw_schema.specs.Marks as spec;

use bw_lang::{Memory, Words};
use std::alloc::Global;
use std::collections::HashSet;
use std::marker::Model;

/// What a name is declared or used as.
#[derive(Clone, Copy, PartialEq, Eq, Hash)]
pub enum Kind {
    /// An element of the schema.
    Element,
    /// An attribute of a rule.
    Attribute,
    /// An attribute of a rule for which there is a value list.
    Value,
    /// A child element of a rule.
    Child,
    /// Text in a rule.
    Text,
}

/// A name, with what it is declared or used as and in which rule. The rules are counted from 1 in the order of their
/// lines; 0 stands for the whole schema.
#[derive(PartialEq, Eq, Hash)]
pub struct Mark {
    pub rule: usize,
    pub kind: Kind,
    pub name: String,
}

impl Drop for Mark {
    fn drop(self) {
        let Mark {
            rule: _,
            kind: _,
            name: _,
        } = self;
    }
}

impl Mark {
    fn of(alloc: Global, rule: usize, kind: Kind, name: &str) -> Result<Mark, Memory>
        ensures { IfOk result (λ m. mark_of m ≡ spec.mark rule kind name.now) }
    {
        Ok(Mark {
            rule,
            kind,
            name: String::from_str(alloc, name)?,
        })
    }
}

/// Marks in their order.
pub struct Marks {
    list: Vec<Mark>,
}

impl Drop for Marks {
    fn drop(self) {
        let Marks { list: _ } = self;
    }
}

impl Model for Marks {
    ghost use Rattle.std.specs.Prelude.{List, map};
    ghost use Rattle.bw_schema.specs.MarkView.{mark_of};
    ghost use Rattle.bw_schema.specs.Marks.{Mark};

    ghost Value = { List Mark };

    ghost view = { λ m. map mark_of m.list.items };
}

impl Marks {
    /// No mark yet.
    pub fn new(alloc: Global) -> Marks
        ensures { result ≡ [] }
    {
        Marks {
            list: Vec::new(alloc),
        }
    }

    pub fn as_slice(&self) -> &[Mark]
        ensures { map mark_of result.now ≡ self.now }
    {
        self.list.as_slice()
    }

    /// One mark more, behind the others.
    pub fn push(&mut self, rule: usize, kind: Kind, name: &str) -> Result<(), Memory>
        ensures { OnOk result (self.new ≡ self.old ++ spec.mark rule kind name.now ∷ []) }
    {
        let alloc = *self.list.allocator();
        self.list.push(Mark::of(alloc, rule, kind, name)?)?;
        Ok(())
    }

    /// A mark for each of the names, behind the others.
    pub fn push_each(&mut self, rule: usize, kind: Kind, names: &Words) -> Result<(), Memory>
        ensures { OnOk result (self.new ≡ self.old ++ map (spec.mark rule kind) names.now) }
    {
        for name in names.as_slice() {
            self.push(rule, kind, name.as_str())?;
        }
        Ok(())
    }
}

/// Marks, each of them once, found in a time that doesn't grow with their number. Contracts see a list of them, in whatever order.
pub struct MarkSet {
    marks: HashSet<Mark>,
}

impl Drop for MarkSet {
    fn drop(self) {
        let MarkSet { marks: _ } = self;
    }
}

impl Model for MarkSet {
    ghost use Rattle.std.specs.Prelude.{List, map};
    ghost use Rattle.bw_schema.specs.MarkView.{mark_of};
    ghost use Rattle.bw_schema.specs.Marks.{Mark};

    ghost Value = { List Mark };

    ghost view = { λ s. map mark_of s.marks.keys };
}

impl MarkSet {
    /// No mark yet.
    pub fn new(alloc: Global) -> MarkSet
        ensures { result ≡ [] }
    {
        MarkSet {
            marks: HashSet::new(alloc),
        }
    }

    /// Whether the mark is there.
    pub fn has(&self, mark: &Mark) -> bool
        ensures { result ≡ list_any (spec.same_mark (mark_of mark.now)) self.now }
    {
        self.marks.contains(mark)
    }

    /// One mark more.
    pub fn add(&mut self, alloc: Global, mark: &Mark) -> Result<(), Memory>
        requires { list_any (spec.same_mark (mark_of mark.now)) self.old ≡ false }
        ensures { OnOk result (spec.AreSame self.new (mark_of mark.now ∷ self.old)) }
    {
        self.marks
            .insert(Mark::of(alloc, mark.rule, mark.kind, mark.name.as_str())?)?;
        Ok(())
    }
}
