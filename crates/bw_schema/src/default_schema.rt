//! The schema by which pages are judged where no other is given.

ghost use Rattle.std.specs.Prelude.{IfOk};
ghost use Rattle.bw_schema.specs.Reads.{Reads};

use crate::reading::read_schema;
use crate::schema::Schema;
use bw_lang::Memory;
use std::alloc::Global;

/// The text of the built-in schema.
pub const BUILT_IN: &str = "\
    schema 1\n\
    root html\n\
    element html\n\
    has head body\n\
    element head\n\
    has title\n\
    element title\n\
    text\n\
    element body\n\
    has a b br code div em form h1 h2 h3 hr i img input label ol p pre select span strong table textarea \
    ul\n\
    text\n\
    element form\n\
    must action\n\
    may method class id\n\
    value method get post\n\
    has a b br code div em h1 h2 h3 hr i img input label ol p pre select span strong table textarea ul\n\
    text\n\
    element div\n\
    may class id title align\n\
    value align left center right justify\n\
    has a b br code div em h1 h2 h3 hr i img input label ol p pre select span strong table textarea ul\n\
    text\n\
    element p\n\
    may class id title align\n\
    value align left center right justify\n\
    has a b br code em i img input label select span strong textarea\n\
    text\n\
    element h1\n\
    may class id title align\n\
    value align left center right justify\n\
    has a b br code em i img input label select span strong textarea\n\
    text\n\
    element h2\n\
    may class id title align\n\
    value align left center right justify\n\
    has a b br code em i img input label select span strong textarea\n\
    text\n\
    element h3\n\
    may class id title align\n\
    value align left center right justify\n\
    has a b br code em i img input label select span strong textarea\n\
    text\n\
    element pre\n\
    may class id title\n\
    has a b br code em i input label select span strong textarea\n\
    text\n\
    element ul\n\
    may class id title\n\
    has li\n\
    element ol\n\
    may class id title\n\
    has li\n\
    element li\n\
    may class id title\n\
    has a b br code div em h1 h2 h3 hr i img input label ol p pre select span strong table textarea ul\n\
    text\n\
    element table\n\
    may class id title border\n\
    has tr\n\
    element tr\n\
    may class id title align\n\
    value align left center right justify\n\
    has td th\n\
    element td\n\
    may class id title colspan rowspan\n\
    has a b br code div em h1 h2 h3 hr i img input label ol p pre select span strong table textarea ul\n\
    text\n\
    element th\n\
    may class id title colspan rowspan\n\
    has a b br code div em h1 h2 h3 hr i img input label ol p pre select span strong table textarea ul\n\
    text\n\
    element a\n\
    may class id title href\n\
    has b br code em i img input label select span strong textarea\n\
    text\n\
    element b\n\
    may class id title\n\
    has a b br code em i img input label select span strong textarea\n\
    text\n\
    element i\n\
    may class id title\n\
    has a b br code em i img input label select span strong textarea\n\
    text\n\
    element em\n\
    may class id title\n\
    has a b br code em i img input label select span strong textarea\n\
    text\n\
    element strong\n\
    may class id title\n\
    has a b br code em i img input label select span strong textarea\n\
    text\n\
    element span\n\
    may class id title\n\
    has a b br code em i img input label select span strong textarea\n\
    text\n\
    element code\n\
    may class id title\n\
    has a b br code em i img input label select span strong textarea\n\
    text\n\
    element label\n\
    may class id title for\n\
    has a b br code em i img input select span strong textarea\n\
    text\n\
    element img\n\
    must src alt\n\
    may class id title width height\n\
    element br\n\
    may class id title\n\
    element hr\n\
    may class id title\n\
    element input\n\
    may class id title name type value size maxlength checked\n\
    value type text password hidden radio checkbox submit reset button\n\
    element textarea\n\
    may class id title name rows cols\n\
    text\n\
    element select\n\
    may class id title name size multiple\n\
    has option\n\
    element option\n\
    may value selected\n\
    text\n\
    ";

/// The schema by which pages are judged where no other is given. docs/SCHEMA.md says in words what it allows.
pub fn built_in(alloc: Global) -> Result<Schema, Memory>
    ensures { IfOk result (λ s. Reads BUILT_IN.now s.root s.elements) }
{
    match read_schema(alloc, BUILT_IN.as_bytes()) {
        Ok(schema) => Ok(schema),
        Err(_) => Err(Memory),
    }
}
