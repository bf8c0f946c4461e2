//! Documents on a stack.
ghost use Rattle.std.specs.Prelude.{◌≡◌, ◌∷◌, [], Some, MatchOption};
ghost use Rattle.bw_saved.specs.Documents.Reading.{on_top};
ghost use Rattle.bw_saved.specs.Fields.Reading.{Gives};

use crate::fault::ReadError;
use bw_doc::Doc;
use bw_lang::MAX_WEIGHT;
use std::alloc::Global;
use std::marker::Model;

/// Documents on a stack, which together weigh no more than one document may: so however many operations a file has, they
/// take no more memory than the document that it could be. Contracts see the list of them, of which the first is on top.
pub(crate) struct Stack {
    list: Vec<Doc>,
    /// What they weigh.
    weight: u64,
}

impl Drop for Stack {
    fn drop(self) {
        let Stack { list: _, weight: _ } = self;
    }
}

impl Model for Stack {
    ghost use Rattle.std.specs.Prelude.{List, reverse, ◌≡◌, ◌≤◌};
    ghost use Rattle.bw_doc.specs.Made.{Made};
    ghost use Rattle.bw_lang.specs.declared.measure.TheConstants.{MAX_WEIGHT};
    ghost use Rattle.bw_saved.specs.Documents.Reading.{stack_weight};

    ghost Value = { List Made };

    ghost use Rattle.std.specs.Coded.{codes};
    ghost use Rattle.bw_doc.specs.Encoding.MadeEncoding.{encoded_made};

    ghost coded = { Prim.hlevel (codes, encoded_made) };

    ghost view = { λ s. reverse s.list.items };

    ghost invariant = { λ s. (s.weight ≡ stack_weight (reverse s.list.items)) × (s.weight ≤ MAX_WEIGHT) };
}

impl Stack {
    /// No document.
    pub(crate) fn new(alloc: Global) -> Stack
        ensures { result ≡ [] }
    {
        Stack {
            list: Vec::new(alloc),
            weight: 0,
        }
    }

    /// Puts a document on top. Malformed comes exactly where the stack would weigh more than a document may.
    pub(crate) fn push(&mut self, doc: Doc) -> Result<(), ReadError>
        ensures { Gives (λ _. self.new) result (on_top self.old (Some doc)) }
    {
        let weight = self.weight + doc.measure().weight;
        if weight > MAX_WEIGHT {
            return Err(ReadError::Malformed);
        }
        self.list.push(doc)?;
        self.weight = weight;
        Ok(())
    }

    /// Takes the document on top, if there is one.
    pub(crate) fn pop(&mut self) -> Option<Doc>
        ensures { MatchOption result (self.old ≡ []) (λ d. self.old ≡ d ∷ self.new) }
    {
        let doc = self.list.pop()?;
        self.weight -= doc.measure().weight;
        Some(doc)
    }
}
