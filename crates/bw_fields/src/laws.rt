//! Laws of fields. A law is the contract of an empty function.
ghost use Rattle.bw_fields.specs.Laws.{NoLackIsThere, NotTwice, FieldIsThere};

/// Where a page may not lack a field, each unfolding of it has a control of that field.
pub fn no_lack_is_there()
    ensures { NoLackIsThere }
{}

/// Where a page may not have a field twice, each unfolding of it has one control of that field at most.
pub fn not_twice()
    ensures { NotTwice }
{}

/// Where a received field has no fault, each page has it: once where it takes one value, always of its kind, and of a kind
/// that fits its target.
pub fn field_is_there()
    ensures { FieldIsThere }
{}
