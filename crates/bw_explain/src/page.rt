//! The templates of a page graph.
ghost use Rattle.std.specs.Prelude.{◌≡◌, ◌<◌, length};
ghost use Rattle.bw_explain.specs.Ways.{ways_at};
ghost use Rattle.bw_shape.specs.Nodes.Templates.{template_at};

use crate::way::Node;
use bw_lang::Items;
use bw_shape::TemplateItems;

/// The items of each template, and the ways of its gaps.
#[derive(Clone, Copy)]
pub struct Page<'a> {
    /// The items of each template, and of the wrappers behind them.
    pub templates: &'a TemplateItems<'a>,
    /// The ways of the gaps of each.
    pub nodes: &'a [Node],
    ghost both: { length nodes.now ≡ length templates.now },
}

impl<'a> Page<'a> {
    /// The number of templates.
    pub fn len(&self) -> usize
        ensures { result ≡ length self.now.templates.now }
    {
        self.templates.len()
    }

    /// The items of a template.
    pub fn items(&self, n: usize) -> &Items
        requires { n < length self.now.templates.now }
        ensures { result.now ≡ template_at self.now.templates.now n }
    {
        self.templates.at(n)
    }

    /// The ways of a template's gaps.
    pub fn node(&self, n: usize) -> &Node
        requires { n < length self.now.templates.now }
        ensures { result.now ≡ ways_at self.now.nodes.now n }
    {
        &self.nodes[n]
    }
}
