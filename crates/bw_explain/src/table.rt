//! What was found by now.
ghost use Rattle.std.specs.Prelude.{◌≡◌, ◌≤◌, ◌<◌, IfOk, OnOk, replicate, length, set};
ghost use Rattle.bw_lang.specs.Document.Documents.{append};
ghost use Rattle.bw_lang.specs.Document.Forest.{none};
ghost use Rattle.bw_explain.specs.declared.sizes.TheConstants.{NONE};
ghost use Rattle.bw_explain.specs.Tables.{size_at, doc_at};

use crate::sizes::NONE;
use bw_lang::{Items, Memory};
use std::alloc::Global;
use std::marker::Model;

/// Copies items to the end of others.
#[tactic(auto, using(crate::proofs::Walking::walk_steps))]
pub fn copy_items(items: &Items, out: &mut Items) -> Result<(), Memory>
    ensures { OnOk result (out.new ≡ append out.old items.now) }
{
    for item in items.as_slice() {
        out.push(item.copy()?)?;
    }
    Ok(())
}

/// The least size of each template's documents, and a document of that size.
pub struct Table {
    past: u32,
    sizes: Vec<u32>,
    docs: Vec<Items>,
}

impl Drop for Table {
    fn drop(self) {
        let Table {
            past: _,
            sizes: _,
            docs: _,
        } = self;
    }
}

impl Model for Table {
    ghost use Rattle.bw_explain.specs.Tables as spec;

    ghost Value = { spec.Table };

    ghost use Rattle.std.specs.Coded.{codes};
    ghost use Rattle.bw_lang.specs.Encoding.ForestEncoding.{encoded_forest};

    ghost coded = { Prim.hlevel (codes, encoded_forest) };

    ghost view = { λ t. record { past = t.past; sizes = t.sizes.items; docs = t.docs.items } };

    ghost invariant = { λ t. spec.IsTable (record { past = t.past; sizes = t.sizes.items; docs = t.docs.items }) };
}

impl Table {
    /// So many templates of which no document was found.
    pub fn new(alloc: Global, count: usize, past: u32) -> Result<Table, Memory>
        requires { past ≤ NONE }
        ensures { IfOk result (λ t. t ≡ record { past = past; sizes = replicate count NONE; docs = replicate count none }) }
    {
        let mut docs = Vec::with_capacity(alloc, count)?;
        for _ in 0..count {
            docs.push(Items::new(alloc))?;
        }
        Ok(Table {
            past,
            sizes: vec![in alloc; NONE; count]?,
            docs,
        })
    }

    /// The size that was found.
    pub fn size(&self, n: usize) -> u32
        ensures size { result ≡ size_at self.now n }
        ensures most { result ≤ NONE }
    {
        if n < self.sizes.len() {
            self.sizes[n]
        } else {
            self.past
        }
    }

    /// Copies the document that was found to the end of `out`.
    pub fn copy_onto(&self, n: usize, out: &mut Items) -> Result<(), Memory>
        ensures { OnOk result (out.new ≡ append out.old (doc_at self.now n)) }
    {
        if n < self.docs.len() {
            copy_items(&self.docs[n], out)?;
        }
        Ok(())
    }

    /// A document and its size in place of what was found.
    pub fn put(&mut self, n: usize, size: u32, doc: Items)
        requires n { n < length self.old.sizes }
        requires size { size ≤ NONE }
        ensures { self.new ≡ record { past = self.old.past; sizes = set self.old.sizes n size; docs = set self.old.docs n doc } }
    {
        self.sizes[n] = size;
        self.docs[n] = doc;
    }
}
