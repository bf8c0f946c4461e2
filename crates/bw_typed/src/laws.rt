//! Laws of services that were read, and of services that are well typed. A law is the contract of an empty function.
ghost use Rattle.bw_typed.specs.Apart.{LocalsAreApart};
ghost use Rattle.bw_typed.specs.Earlier.{EarlierFieldSays, EarlierGapSays};
ghost use Rattle.bw_typed.specs.Markup.{TemplatesAreMarkup};
ghost use Rattle.bw_typed.specs.Measured.{TemplatesAreMeasured};
ghost use Rattle.bw_typed.specs.Numbered.{GapsAreNumbered, NumbersAreGaps};
ghost use Rattle.bw_typed.specs.Few.{DeclaresFew};
ghost use Rattle.bw_typed.specs.Formed.{BodiesAreCode, SharedAreNoLists};
ghost use Rattle.bw_typed.specs.Kinds.{KindIsOne, KindsAgree, KindsAreMet, SessionsAreTyped};
ghost use Rattle.bw_typed.specs.Named.{GapsHaveKinds, GapsHaveNumbers, PlugsAreKnown, SharedBegin};
ghost use Rattle.bw_typed.specs.ShortNames.{FieldsAreShort, ReadableHasShortNames};
ghost use Rattle.bw_typed.specs.ShortStrings.{SessionsHaveShort, SharedBeginShort};
ghost use Rattle.bw_typed.specs.Strings.{SessionsAreUtf8, SessionsSayTokens, SharedAreUtf8, SharedSayTokens};

/// The constant of each template is within the limits on documents, and is small: its weight is at most 262144, and at
/// most 64 of its elements stand inside one another.
pub fn templates_are_measured()
    ensures { TemplatesAreMeasured }
{}

/// The items of each template are markup: texts are UTF-8, names are names, no element names an attribute twice, and one
/// that has no end tag has no items.
pub fn templates_are_markup()
    ensures { TemplatesAreMarkup }
{}

/// The gaps of a service's templates are those that its table names: each gap that stands in a template has a number of
/// the table, and each number of the table stands in some template, in content or in an attribute.
pub fn gaps_are_numbered()
    ensures inside { GapsAreNumbered }
    ensures standing { NumbersAreGaps }
{}

/// The bodies of sessions can be written: their names are no keywords, and their expressions bind as they stand. No
/// shared variable is a list.
pub fn bodies_are_code()
    ensures code { BodiesAreCode }
    ensures shared { SharedAreNoLists }
{}

/// No string that stands in a session, and none that a shared variable begins with, is longer than 16384 bytes.
pub fn strings_are_short()
    ensures sessions { SessionsHaveShort }
    ensures shared { SharedBeginShort }
{}

/// Each string that stands in a session, and each that a shared variable begins with, is UTF-8.
pub fn strings_are_utf8()
    ensures sessions { SessionsAreUtf8 }
    ensures shared { SharedAreUtf8 }
{}

/// No name is longer than 64 bytes: neither the service's, nor one of its declarations, gaps and fields, nor one that
/// stands in a session.
pub fn names_are_short()
    ensures names { ReadableHasShortNames }
    ensures fields { FieldsAreShort }
{}

/// An expression has one kind, and in a service that is well typed it is the kind that its use demands.
pub fn kind_is_one()
    ensures one { KindIsOne }
    ensures agree { KindsAgree }
    ensures typed { SessionsAreTyped }
    ensures met { KindsAreMet }
{}

/// Each shared variable begins with a literal of its kind, a document with the name of a template. Each gap that is
/// plugged is one of the service's, with a number and a kind, and each gap of the table has a kind.
pub fn names_stand_for()
    ensures shared { SharedBegin }
    ensures numbers { GapsHaveNumbers }
    ensures plugs { PlugsAreKnown }
    ensures kinds { GapsHaveKinds }
{}

/// At each place of a session of a service that is well typed, the locals in scope have names that differ from each
/// other and from those of the service's declarations, and the session declares none of them from there on.
pub fn locals_are_apart()
    ensures { LocalsAreApart }
{}

/// A gap or a field that is tested against the kind of its first place in all templates passes exactly where it would
/// pass if it were tested against its first place in front, or not at all where there is none.
pub fn earlier_says()
    ensures gap { EarlierGapSays }
    ensures field { EarlierFieldSays }
{}

/// Each string of a service that was read is one that a token of its bytes says: what is known of the strings of tokens
/// is known of these.
pub fn strings_are_tokens()
    ensures sessions { SessionsSayTokens }
    ensures shared { SharedSayTokens }
{}

/// What each declaration has no more of than tokens, all declarations of a service that was read have no more of than its
/// file may have bytes: 1,048,576.
pub fn declares_few()
    ensures { DeclaresFew }
{}
