//! The string literals of a service, with their numbers.
ghost use Rattle.std.specs.Prelude.{◌≡◌, ◌<◌, ◌^◌, length, IfOk};
ghost use Rattle.bw_lang.specs.Table.Names.{name_number};
ghost use Rattle.bw_strings.specs.Asking.{text_of};
ghost use Rattle.bw_strings.specs.Literals.{literals_of};

use crate::reading::add_strings;
use bw_lang::{Memory, NameTable, Service};
use std::alloc::Global;
use std::marker::Model;

/// The different strings that the string literals of a service stand for, in the order of their first places in the
/// text, and behind them the service's name, where it isn't one of them. The number of a string is its place, counted
/// from 0. Contracts see the list of the strings, of which there are fewer than 4,294,967,296.
pub struct Literals {
    texts: NameTable,
}

impl Drop for Literals {
    fn drop(self) {
        let Literals { texts: _ } = self;
    }
}

impl Model for Literals {
    ghost use Rattle.std.specs.Prelude.{ℕ, List, length, ◌<◌, ◌^◌};

    ghost Value = { List (List ℕ) };

    ghost view = { λ l. l.texts };

    ghost invariant = { λ l. length l.texts < 2 ^ 32 };
}

impl Literals {
    /// The literals of a service. `Memory` also says that there are more strings than numbers of 32 bits.
    pub fn of(alloc: Global, service: &Service) -> Result<Literals, Memory>
        ensures { IfOk result (λ l. l ≡ literals_of service.now) }
    {
        let mut texts = NameTable::new(alloc);
        add_strings(alloc, &mut texts, service)?;
        texts.add(service.name.as_str())?;
        if texts.len() > u32::MAX as usize {
            return Err(Memory);
        }
        Ok(Literals { texts })
    }

    /// How many strings there are.
    pub fn len(&self) -> usize
        ensures { result ≡ length self.now }
    {
        self.texts.len()
    }

    /// The number of a string, or, if it isn't there, the number that it would get: the number of strings.
    pub fn number(&self, text: &str) -> u32
        ensures { result ≡ name_number self.now text.now }
    {
        self.texts.number(text) as u32
    }

    /// The string of this number.
    pub fn text(&self, number: u32) -> &str
        requires { number < length self.now }
        ensures { result.now ≡ text_of self.now number }
    {
        self.texts.name(number as usize).unwrap_or("")
    }
}
