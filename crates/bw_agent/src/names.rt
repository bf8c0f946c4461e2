//! Names that are in a table, or aren't.
ghost use Rattle.std.specs.Prelude.{◌≡◌};
ghost use Rattle.std.specs.List.{list_any};
ghost use Rattle.bw_lang.specs.Table.Names.{same};

use bw_lang::NameTable;

/// Whether the name is in the table.
pub fn is_known(names: &NameTable, name: &str) -> bool
    ensures { result ≡ list_any (same name.now) names.now }
{
    names.has(name)
}
