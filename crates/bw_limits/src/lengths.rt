//! The lengths of names, or of the texts of strings.
ghost use Rattle.std.specs.Prelude.{◌≡◌, ◌&&◌, ◌++◌, codes, find, flat_map, nat_lt};
ghost use Rattle.bw_lang.specs.Service.Code.{done};
ghost use Rattle.bw_lang.specs.Service.CodeView as code;
ghost use Rattle.bw_lang.specs.Template.Controls as controls;
ghost use Rattle.bw_lang.specs.Document.Forest.{none};
ghost use Rattle.bw_lang.specs.Service.Limits as spec;
ghost use Rattle.bw_lang.specs.Table.Names.{same};
ghost use Rattle.bw_lang.specs.Service.TermView.{term};
ghost use Rattle.bw_lang.specs.Document.View as view;

use crate::passing::over;
use bw_lang::controls::is_control;
use bw_lang::{
    Attr, AttrValue, Attrs, Block, Declaration, Element, Expr, GapId, GapNames, Item, Items, Leaf,
    Literal, Name, Pair, Pairs, Receive, Receives, Stmt, Text,
};

/// A search for the first name, or the first string's text, of more than so many bytes.
#[derive(Clone, Copy)]
pub(crate) struct Search {
    pub leaf: Leaf,
    pub most: u64,
}

impl Search {
    fn name(self, name: &Name) -> Option<u64>
        ensures { result ≡ find (nat_lt self.most) (spec.name_length self.leaf name.now) }
    {
        match self.leaf {
            Leaf::Name => over(self.most, name.as_bytes().len() as u64),
            Leaf::Text => None,
        }
    }

    fn text(self, text: &Text) -> Option<u64>
        ensures { result ≡ find (nat_lt self.most) (spec.text_length self.leaf text.now) }
    {
        match self.leaf {
            Leaf::Name => None,
            Leaf::Text => over(self.most, text.len() as u64),
        }
    }

    /// The first length over the greatest one in an expression.
    #[tactic(auto, using(crate::proofs::Firsts::first_steps, bw_lang::proofs::Sizes::size_steps))]
    #[cycle(expression)]
    fn expression(self, expr: &Expr) -> Option<u64>
        ensures { result ≡ find (nat_lt self.most) (spec.term_lengths self.leaf (term expr.now)) }
    {
        match expr {
            Expr::Int(_) | Expr::Bool(_) | Expr::Nothing => None,
            Expr::Str(text) => self.text(text),
            Expr::Name(name) => self.name(name),
            Expr::Paren(part) | Expr::Not(part) | Expr::Neg(part) => self.expression(part.expr()),
            Expr::Binary { left, right, .. } => match self.expression(left.expr()) {
                None => self.expression(right.expr()),
                found => found,
            },
            Expr::Call { arg, .. } => self.expression(arg.expr()),
            Expr::Plug { base, pairs } => match self.expression(base.expr()) {
                None => self.pairs(pairs),
                found => found,
            },
        }
    }

    #[tactic(auto, using(crate::proofs::Firsts::first_steps, bw_lang::proofs::Sizes::size_steps))]
    #[cycle(expression)]
    fn pairs(self, pairs: &Pairs) -> Option<u64>
        ensures { result ≡ find (nat_lt self.most) (spec.pair_lengths self.leaf pairs.now) }
    {
        for pair in pairs.as_slice() {
            if let Some(length) = self.pair(pair) {
                return Some(length);
            }
        }
        None
    }

    #[tactic(auto, using(crate::proofs::Firsts::first_steps, bw_lang::proofs::Sizes::size_steps))]
    #[cycle(expression)]
    fn pair(self, pair: &Pair) -> Option<u64>
        ensures { result ≡ find (nat_lt self.most) (spec.name_length self.leaf pair.now.gap ++ spec.term_lengths self.leaf (term pair.now.value)) }
    {
        match self.name(&pair.gap) {
            None => self.expression(&pair.value),
            found => found,
        }
    }

    #[tactic(auto, using(crate::proofs::Firsts::first_steps, bw_lang::proofs::Sizes::size_steps))]
    fn receives(self, receives: &Receives) -> Option<u64>
        ensures { result ≡ find (nat_lt self.most) (spec.receive_lengths self.leaf receives.now) }
    {
        for receive in receives.as_slice() {
            if let Some(length) = self.receive(receive) {
                return Some(length);
            }
        }
        None
    }

    #[tactic(auto, using(crate::proofs::Firsts::first_steps, bw_lang::proofs::Sizes::size_steps))]
    fn receive(self, receive: &Receive) -> Option<u64>
        ensures { result ≡ find (nat_lt self.most) (spec.name_length self.leaf receive.now.target ++ spec.name_length self.leaf receive.now.field) }
    {
        match self.name(&receive.target) {
            None => self.name(&receive.field),
            found => found,
        }
    }

    /// The first length over the greatest one in the statements of a block.
    #[tactic(auto, using(crate::proofs::Firsts::first_steps, bw_lang::proofs::Sizes::size_steps))]
    #[cycle(block)]
    fn block(self, block: &Block) -> Option<u64>
        ensures { result ≡ find (nat_lt self.most) (spec.code_lengths self.leaf block.now) }
    {
        for stmt in block.as_slice() {
            if let Some(length) = self.statement(stmt) {
                return Some(length);
            }
        }
        None
    }

    #[tactic(auto, using(crate::proofs::Firsts::first_steps, bw_lang::proofs::Sizes::size_steps))]
    #[cycle(block)]
    fn statement(self, stmt: &Stmt) -> Option<u64>
        ensures { result ≡ find (nat_lt self.most) (spec.code_lengths self.leaf (code.before stmt.now done)) }
    {
        match stmt {
            Stmt::Declare { name, value, .. } | Stmt::Assign { name, value } => {
                self.valued(name, value)
            }
            Stmt::If {
                test,
                yes: body,
                no: None,
            }
            | Stmt::While { test, body } => match self.expression(test) {
                None => self.block(body),
                found => found,
            },
            Stmt::If {
                test,
                yes,
                no: Some(no),
            } => match self.expression(test) {
                None => match self.block(yes) {
                    None => self.block(no),
                    found => found,
                },
                found => found,
            },
            Stmt::Each { name, value, body } => match self.valued(name, value) {
                None => self.block(body),
                found => found,
            },
            Stmt::Block(body) => self.block(body),
            Stmt::Show { page, receives } => match self.expression(page) {
                None => self.receives(receives),
                found => found,
            },
            Stmt::Exit { page } => self.expression(page),
        }
    }

    /// The first length over the greatest one in a name and then in what it stands for.
    #[tactic(auto, using(crate::proofs::Firsts::first_steps, bw_lang::proofs::Sizes::size_steps))]
    fn valued(self, name: &Name, value: &Expr) -> Option<u64>
        ensures { result ≡ find (nat_lt self.most) (spec.name_length self.leaf name.now ++ spec.term_lengths self.leaf (term value.now)) }
    {
        match self.name(name) {
            None => self.expression(value),
            found => found,
        }
    }

    fn literal(self, literal: &Literal) -> Option<u64>
        ensures { result ≡ find (nat_lt self.most) (spec.literal_lengths self.leaf literal.now) }
    {
        match literal {
            Literal::Str(text) => self.text(text),
            Literal::Tmpl(name) => self.name(name),
            Literal::Int(_) | Literal::Bool(_) => None,
        }
    }

    /// The first length over the greatest one of the names of gaps and controls.
    #[tactic(auto, using(crate::proofs::Firsts::first_steps, bw_lang::proofs::Sizes::size_steps))]
    #[cycle(items)]
    fn items(self, gaps: &GapNames, items: &Items) -> Option<u64>
        ensures { result ≡ find (nat_lt self.most) (spec.item_lengths gaps.now items.now) }
    {
        for item in items.as_slice() {
            if let Some(length) = self.item(gaps, item) {
                return Some(length);
            }
        }
        None
    }

    #[tactic(auto, using(crate::proofs::Firsts::first_steps, bw_lang::proofs::Sizes::size_steps))]
    #[cycle(items)]
    fn item(self, gaps: &GapNames, item: &Item) -> Option<u64>
        ensures { result ≡ find (nat_lt self.most) (spec.item_lengths gaps.now (view.before item.now none)) }
    {
        match item {
            Item::Text(_) => None,
            Item::Element(element) => match self.attributes(gaps, element) {
                None => self.items(gaps, &element.items),
                found => found,
            },
            Item::Gap(gap) => over(self.most, gap_length(gaps, *gap)),
        }
    }

    #[tactic(auto, using(crate::proofs::Firsts::first_steps, bw_lang::proofs::Sizes::size_steps))]
    fn attributes(self, gaps: &GapNames, element: &Element) -> Option<u64>
        ensures { result ≡ find (nat_lt self.most) (spec.attr_lengths gaps.now element.now.tag element.now.attrs) }
    {
        for attr in element.attrs.as_slice() {
            if let Some(length) = self.attribute(gaps, &element.tag, attr) {
                return Some(length);
            }
        }
        None
    }

    fn attribute(self, gaps: &GapNames, tag: &Name, attr: &Attr) -> Option<u64>
        ensures { result ≡ find (nat_lt self.most)
            (spec.value_lengths gaps.now (controls.is_control tag.now && same attr.now.name (codes "name")) attr.now.value) }
    {
        match &attr.value {
            AttrValue::Hole(gap) => over(self.most, gap_length(gaps, *gap)),
            AttrValue::Fixed(value) => {
                if names_control(tag, &attr.name) {
                    over(self.most, value.len() as u64)
                } else {
                    None
                }
            }
        }
    }

    /// The first length over the greatest one in a declaration.
    #[tactic(auto, using(crate::proofs::Firsts::first_steps, bw_lang::proofs::Sizes::size_steps))]
    fn declaration(self, gaps: &GapNames, declaration: &Declaration) -> Option<u64>
        ensures { result ≡ find (nat_lt self.most) (spec.declaration_lengths self.leaf gaps.now declaration.now) }
    {
        match declaration {
            Declaration::Template(template) => match self.name(&template.name) {
                None => self.template_items(gaps, &template.items),
                found => found,
            },
            Declaration::Shared(shared) => match self.name(&shared.name) {
                None => self.literal(&shared.init),
                found => found,
            },
            Declaration::Session(session) => match self.name(&session.name) {
                None => self.block(&session.body),
                found => found,
            },
        }
    }

    fn template_items(self, gaps: &GapNames, items: &Items) -> Option<u64>
        ensures { result ≡ find (nat_lt self.most) (spec.items_lengths self.leaf gaps.now items.now) }
    {
        match self.leaf {
            Leaf::Name => self.items(gaps, items),
            Leaf::Text => None,
        }
    }

    #[tactic(auto, using(crate::proofs::Firsts::first_steps, bw_lang::proofs::Sizes::size_steps))]
    fn declarations(self, gaps: &GapNames, declarations: &[Declaration]) -> Option<u64>
        ensures { result ≡ find (nat_lt self.most) (flat_map (spec.declaration_lengths self.leaf gaps.now) declarations.now) }
    {
        for declaration in declarations {
            if let Some(length) = self.declaration(gaps, declaration) {
                return Some(length);
            }
        }
        None
    }

    /// The first length over the greatest one in a service of this name with these declarations.
    #[tactic(auto, using(crate::proofs::Firsts::first_steps, bw_lang::proofs::Sizes::size_steps))]
    pub(crate) fn service(
        self,
        name: &Name,
        gaps: &GapNames,
        declarations: &[Declaration],
    ) -> Option<u64>
        ensures { result ≡ find (nat_lt self.most) (spec.all_lengths self.leaf name.now gaps.now declarations.now) }
    {
        match self.name(name) {
            None => self.declarations(gaps, declarations),
            found => found,
        }
    }
}

/// The length of the name of a gap, or 0 where the table has no such gap.
fn gap_length(gaps: &GapNames, gap: GapId) -> u64
    ensures { result ≡ spec.gap_length gaps.now gap }
{
    match gaps.name(gap) {
        Some(name) => name.len() as u64,
        None => 0,
    }
}

/// Whether the attribute of that name is what names a control, where it stands in a tag of that name.
fn names_control(tag: &Name, attr: &Name) -> bool
    ensures { result ≡ (controls.is_control tag.now && same attr.now (codes "name")) }
{
    is_control(tag) && attr.as_str() == "name"
}
