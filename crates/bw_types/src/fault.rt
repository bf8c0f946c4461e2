//! Why a service isn't well typed.
ghost use Rattle.std.specs.Prelude.{◌≡◌};

use bw_lang::{Kind, Memory, Name, Text};

/// How a gap is used in templates. A gap name has one kind in a service.
#[derive(Clone, Copy, PartialEq, Eq)]
pub enum GapKind {
    /// `<[gap]>`: documents and strings may fill it.
    Content,
    /// `attribute=[gap]`: strings may fill it.
    Attribute,
}

/// Why a service isn't well typed: the first test that fails, in one walk over its declarations in source order.
#[derive(Drop)]
pub enum TypeFault {
    /// An earlier declaration has this name, or a local's name is taken.
    Repeated(Name),
    /// Nothing of this name may be used there: no local, shared variable or template in an expression, no variable as
    /// the target of an assignment or a receive, no template as the first value of a shared variable, or no template's
    /// gap in a plug.
    Unknown(Name),
    /// A value of the first kind was expected, and one of the second was found. Where several kinds would do, the first
    /// stands for them: `string` at `==` and `!=`, which take no documents and no lists; `int` at the left of `+`, which
    /// takes strings too; `html` for a gap that stands for content, which takes strings too; `string` for the target of
    /// a receive, which may be a list too.
    Kind(Kind, Kind),
    /// A gap of this name stands for content in one place and for an attribute's value in another.
    GapKinds(Name),
    /// Controls of this name have fields of different kinds.
    FieldKinds(Text),
    /// A control of this template has a gap for its name, its type or `multiple`, is disabled, or is an input of a type
    /// that HTML 4.01 doesn't have or this language leaves out.
    BadControl(Name),
    /// A template has an element that only the page around it may have: `html`, `head`, `body` or `form`. The name is
    /// the element's.
    ReservedTag(Name),
    /// The template of this name has an input of type `file`.
    FileInput(Name),
    /// The last statement of this session isn't `exit`.
    NoExit(Name),
    /// There was no memory.
    Memory,
}

impl From<Memory> for TypeFault {
    ghost use Rattle.bw_types.specs.declared.fault.TypeFault.TheVariants as faults;

    ghost from_gives = { λ _ e. e ≡ faults.Memory };

    fn from(_error: Memory) -> TypeFault {
        TypeFault::Memory
    }
}
