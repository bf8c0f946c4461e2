//! The items of a service's templates and of the page wrappers, by their numbers.
ghost use Rattle.std.specs.Prelude.{◌≡◌, ◌<◌, ◌++◌, ◌∷◌, [], map, length};
ghost use Rattle.bw_shape.specs.Nodes.Templates.{template_at};

use bw_lang::{Items, Service, Template};
use std::marker::Model;

/// The items of all templates of a service, in source order, and behind them those of the wrappers of shown and of last
/// pages. Contracts see the list.
#[derive(Drop)]
pub struct TemplateItems<'a> {
    templates: &'a [Template],
    show: &'a Items,
    exit: &'a Items,
}

impl<'a> Model for TemplateItems<'a> {
    ghost use Rattle.std.specs.Prelude.{List, [], ◌∷◌, ◌++◌, map};
    ghost use Rattle.bw_lang.specs.Document.Forest.{Forest};

    ghost Value = { List Forest };

    ghost use Rattle.std.specs.Coded.{codes};
    ghost use Rattle.bw_lang.specs.Encoding.ForestEncoding.{encoded_forest};

    ghost coded = { Prim.hlevel (codes, encoded_forest) };

    ghost view = { λ t. map (λ x. x.items) t.templates.now ++ t.show.now ∷ t.exit.now ∷ [] };
}

impl<'a> TemplateItems<'a> {
    /// The items of a service's templates, and these of the wrappers.
    pub fn of(service: &'a Service, show: &'a Items, exit: &'a Items) -> TemplateItems<'a>
        ensures { result ≡ map (λ t. t.items) service.now.templates ++ show.now ∷ exit.now ∷ [] }
    {
        TemplateItems {
            templates: service.templates.as_slice(),
            show,
            exit,
        }
    }

    /// How many there are: two more than the service has templates.
    pub fn len(&self) -> usize
        ensures { result ≡ length self.now }
    {
        self.templates.len() + 2
    }

    /// The items of the template of this number.
    pub fn at(&self, number: usize) -> &'a Items
        requires { number < length self.now }
        ensures { result.now ≡ template_at self.now number }
    {
        if number < self.templates.len() {
            return &self.templates[number].items;
        }
        if number == self.templates.len() {
            self.show
        } else {
            self.exit
        }
    }
}
