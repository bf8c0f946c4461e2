//! The names of fields: those of the controls of items, and those that statements receive.
ghost use Rattle.std.specs.Prelude.{◌≡◌, OnOk, map};
ghost use Rattle.bw_lang.specs.Service.Code.{done};
ghost use Rattle.bw_lang.specs.Service.CodeNames.{received_fields};
ghost use Rattle.bw_lang.specs.Service.CodeView as code;
ghost use Rattle.bw_lang.specs.Template.Controls.{control_names};
ghost use Rattle.bw_lang.specs.Document.Forest.{none};
ghost use Rattle.bw_lang.specs.Table.Names.{with_names};
ghost use Rattle.bw_lang.specs.Document.View as view;

use crate::items::{Item, Items};
use crate::names::NameTable;
use crate::stmt::{Block, Receive, Stmt};
use crate::text::Memory;

impl NameTable {
    /// Takes in the names of the controls among items, at all levels, in pre-order.
    #[tactic(auto, using(crate::proofs::FieldSteps::field_steps, crate::proofs::Sizes::size_steps))]
    #[cycle(controls)]
    pub fn add_controls(&mut self, items: &Items) -> Result<(), Memory>
        ensures { OnOk result (self.new ≡ with_names self.old (control_names items.now)) }
    {
        for item in items.as_slice() {
            self.add_control(item)?;
        }
        Ok(())
    }

    #[cycle(controls)]
    fn add_control(&mut self, item: &Item) -> Result<(), Memory>
        ensures { OnOk result (self.new ≡ with_names self.old (control_names (view.before item.now none))) }
    {
        match item {
            Item::Element(element) => {
                if let Some(name) = element.control_name() {
                    self.add(name.as_str())?;
                }
                self.add_controls(&element.items)
            }
            Item::Text(_) | Item::Gap(_) => Ok(()),
        }
    }

    /// Takes in the fields that the statements of a block receive, at all levels, in source order.
    #[tactic(auto, using(crate::proofs::FieldSteps::field_steps, crate::proofs::Sizes::size_steps))]
    #[cycle(received)]
    pub fn add_received(&mut self, block: &Block) -> Result<(), Memory>
        ensures { OnOk result (self.new ≡ with_names self.old (received_fields block.now)) }
    {
        for stmt in block.as_slice() {
            self.add_received_by(stmt)?;
        }
        Ok(())
    }

    #[tactic(auto, using(crate::proofs::FieldSteps::field_steps))]
    #[cycle(received)]
    fn add_received_by(&mut self, stmt: &Stmt) -> Result<(), Memory>
        ensures { OnOk result (self.new ≡ with_names self.old (received_fields (code.before stmt.now done))) }
    {
        match stmt {
            Stmt::If { yes, no, .. } => {
                self.add_received(yes)?;
                match no {
                    Some(no) => self.add_received(no),
                    None => Ok(()),
                }
            }
            Stmt::While { body, .. } | Stmt::Block(body) | Stmt::Each { body, .. } => {
                self.add_received(body)
            }
            Stmt::Show { receives, .. } => self.add_fields(receives.as_slice()),
            Stmt::Declare { .. } | Stmt::Assign { .. } | Stmt::Exit { .. } => Ok(()),
        }
    }

    /// Takes in the fields of receives.
    fn add_fields(&mut self, receives: &[Receive]) -> Result<(), Memory>
        ensures { OnOk result (self.new ≡ with_names self.old (map (λ r. r.field) receives.now)) }
    {
        for receive in receives {
            self.add(receive.field.as_str())?;
        }
        Ok(())
    }
}
