//! The words of refusals: what is wrong, and how it is mended.
ghost use Rattle.std.specs.Prelude.{◌≡◌, ◌++◌, OnOk};
ghost use Rattle.bw_hints.specs.Hints as spec;

use bw_lang::{Kind, Limit, Memory};
use bw_lex::LexFault;
use bw_syntax::SyntaxFault;
use bw_tmpl::TmplFault;
use bw_types::TypeFault;

/// What is expected where a template's markup stops.
#[derive(Clone, Copy)]
pub enum Expected {
    /// A text, a tag or a gap.
    Text,
    /// The rest of a gap.
    Gap,
    /// The rest of an end tag.
    EndTag,
    /// An attribute or the end of a tag.
    Tag,
    /// An attribute's value, behind its name.
    Attribute,
    /// An attribute's value, behind `=`.
    Value,
    /// The rest of a value in quotes.
    Quoted,
}

/// What is wrong with a text that has no tokens.
fn lex_what(fault: &LexFault) -> &'static [u8]
    ensures { result.now ≡ spec.lex_what fault.now }
{
    match fault {
        LexFault::BadByte(_) => b"this character begins nothing that a service is made of",
        LexFault::OpenString(_) => b"this string has no closing quote on its line",
        LexFault::OpenTemplate(_) => b"this template has no </html>",
        LexFault::NumberTooBig(_) => b"this number is greater than 9,223,372,036,854,775,807",
        LexFault::Memory => b"",
    }
}

/// What is wrong where a limit is passed.
fn limit_what(limit: Limit) -> &'static [u8]
    ensures { result.now ≡ spec.limit_what limit }
{
    match limit {
        Limit::Nesting => b"here more than 64 brackets are open at once",
        Limit::Stretch =>
            b"here more than 500 words and signs stand without ; or a brace between them",
        Limit::Templates => b"a service has at most 256 templates",
        Limit::Sessions => b"a service has at most 64 sessions",
        Limit::Shared => b"a service has at most 64 shared variables",
        Limit::Gaps => b"the templates of a service have at most 128 different gap names",
        Limit::Fields => b"a service has at most 128 different field names",
        Limit::Locals => b"a session declares at most 64 locals, in all its blocks",
        Limit::NameBytes => b"a name has at most 64 bytes",
        Limit::StringBytes => b"a string has at most 16,384 bytes",
        Limit::Weight => b"this template is too large",
    }
}

/// What is wrong with a template.
fn template_what(fault: TmplFault) -> &'static [u8]
    ensures { result.now ≡ spec.template_what fault }
{
    match fault {
        TmplFault::Malformed => b"from here on this is no text, tag or gap",
        TmplFault::RepeatedAttribute => b"this tag has an attribute twice",
        TmplFault::Mismatched => b"this element and its end tag don't pair",
        TmplFault::Nesting => b"here more than 64 elements stand inside one another",
        TmplFault::Memory => b"",
    }
}

/// What is wrong with a text that is no service.
pub fn syntax_what(fault: &SyntaxFault) -> &'static [u8]
    ensures { result.now ≡ spec.syntax_what fault.now }
{
    match fault {
        SyntaxFault::TooLong => b"the file has more than 1,048,576 bytes",
        SyntaxFault::Lex(fault) => lex_what(fault),
        SyntaxFault::TooMany(limit, _) => limit_what(*limit),
        SyntaxFault::Syntax(_) => b"reading gave up here: no service goes on like this",
        SyntaxFault::Template(_, fault) => template_what(*fault),
        SyntaxFault::Memory => b"",
    }
}

/// How it is mended with a text that has no tokens.
fn lex_mend(fault: &LexFault) -> &'static [u8]
    ensures { result.now ≡ spec.lex_mend fault.now }
{
    match fault {
        LexFault::BadByte(_) =>
            b"remove it, or put it into a string; the file must be UTF-8, and behind \\ in a string stands \", \\ or n",
        LexFault::OpenString(_) => b"add the quote; a line end in a string is written \\n",
        LexFault::OpenTemplate(_) => b"end it with </html>;",
        LexFault::NumberTooBig(_) => b"write a smaller number",
        LexFault::Memory => b"",
    }
}

/// How it is mended where a limit is passed.
fn limit_mend(limit: Limit) -> &'static [u8]
    ensures { result.now ≡ spec.limit_mend limit }
{
    match limit {
        Limit::Nesting => b"take inner blocks or parentheses apart, as into locals",
        Limit::Stretch => b"cut the statement in two, by a local",
        Limit::Templates => b"make one template of two by a gap, or cut the service in two",
        Limit::Sessions => b"cut the service in two",
        Limit::Shared => b"cut the service in two",
        Limit::Gaps => b"use the same name in several templates",
        Limit::Fields => b"use the same name on several pages",
        Limit::Locals => b"use a local again, or cut the session in two",
        Limit::NameBytes => b"shorten it",
        Limit::StringBytes => b"cut it in two and join them by +, or put the text into a template",
        Limit::Weight => b"cut it in two, and plug one into the other",
    }
}

/// How it is mended where a template's markup stops, and this is expected.
fn markup_mend(expected: Option<Expected>) -> &'static [u8]
    ensures { result.now ≡ spec.markup_mend expected }
{
    match expected {
        None =>
            b"write &lt; and &amp; in texts, quotes around values, names of tags in lower case, and gaps as <[name]>",
        Some(Expected::Text) =>
            b"write &lt; for <, &amp; for &, and other characters as they are; a tag's name is in lower case",
        Some(Expected::Gap) => b"a gap is written <[name]>, and name=[gap] in a tag",
        Some(Expected::EndTag) => b"an end tag is written </name>, with the name in lower case",
        Some(Expected::Tag) =>
            b"behind a tag's name stand attributes, each behind a blank, and > or />; names are in lower case",
        Some(Expected::Attribute) =>
            b"write a value behind the attribute's name, as in name=\"value\"",
        Some(Expected::Value) => b"put the value between quotes, or write [gap]",
        Some(Expected::Quoted) =>
            b"close the value by its quote; in a value < is written &lt;, and & is written &amp;",
    }
}

/// How it is mended with a template.
fn template_mend(fault: TmplFault, expected: Option<Expected>) -> &'static [u8]
    ensures { result.now ≡ spec.template_mend fault expected }
{
    match fault {
        TmplFault::Malformed => markup_mend(expected),
        TmplFault::RepeatedAttribute => b"keep one of the two",
        TmplFault::Mismatched =>
            b"close each element in front of the end of the one around it; br, hr, img, input, meta and link have no end tag",
        TmplFault::Nesting => b"plug the inner part as a template of its own",
        TmplFault::Memory => b"",
    }
}

/// How it is mended with a text that is no service; where a template's markup stops, this is expected.
pub fn syntax_mend(fault: &SyntaxFault, expected: Option<Expected>) -> &'static [u8]
    ensures { result.now ≡ spec.syntax_mend fault.now expected }
{
    match fault {
        SyntaxFault::TooLong => b"cut the service in two",
        SyntaxFault::Lex(fault) => lex_mend(fault),
        SyntaxFault::TooMany(limit, _) => limit_mend(*limit),
        SyntaxFault::Syntax(_) =>
            b"look in front of this place for a missing ; or bracket; a service ends with } for each { that is open",
        SyntaxFault::Template(_, fault) => template_mend(*fault, expected),
        SyntaxFault::Memory => b"",
    }
}

/// A kind, in words.
fn kind_name(kind: Kind) -> &'static [u8]
    ensures { result.now ≡ spec.kind_name kind }
{
    match kind {
        Kind::Int => b"an int",
        Kind::Bool => b"a bool",
        Kind::Str => b"a string",
        Kind::Html => b"a document",
        Kind::Strs => b"a list of strings",
    }
}

/// What a test of names and kinds is about.
#[derive(Clone, Copy)]
pub enum Role {
    /// A value, or a name that is declared.
    Value,
    /// The variable of a receive.
    Target,
    /// The gap of a plug.
    Gap,
    /// The literal of a shared variable.
    Literal,
}

/// How a value of another kind is mended.
fn kind_mend(wanted: Kind, found: Kind) -> &'static [u8]
    ensures { result.now ≡ spec.kind_mend wanted found }
{
    match (wanted, found) {
        (Kind::Int, Kind::Str) => b"write number(..) around it, behind a test by isnumber(..)",
        (Kind::Str, Kind::Int) => b"write text(..) around it",
        (Kind::Html, Kind::Str) => b"plug it into a template: P<[gap=..]",
        (Kind::Html, Kind::Int) => b"write text(..) around it, and plug that into a template",
        (Kind::Str, Kind::Html) => b"a document is no text: plug it into a gap for content",
        (Kind::Str, Kind::Strs) => b"go over the list by foreach, and use each of its strings",
        (Kind::Strs, Kind::Str) => b"only a field with several values, or none, is a list",
        (Kind::Bool, Kind::Int) => b"compare it with a number, as in n > 0",
        (Kind::Bool, Kind::Str) => b"compare it with a string, as in s == \"yes\"",
        _ => b"give it another value, or declare the variable otherwise",
    }
}

/// How a variable of another kind than those that are received is mended.
fn target_mend(found: Kind) -> &'static [u8]
    ensures { result.now ≡ spec.target_mend found }
{
    match found {
        Kind::Int =>
            b"receive it into a string, and use number(..) of that behind a test by isnumber(..)",
        _ => b"receive it into a string, or into strings where the field has several values",
    }
}

/// How another kind is mended in this role.
fn role_mend(role: Role, wanted: Kind, found: Kind) -> &'static [u8]
    ensures { result.now ≡ spec.role_mend role wanted found }
{
    match role {
        Role::Target => target_mend(found),
        Role::Literal => b"give it another value, or declare the variable otherwise",
        Role::Value | Role::Gap => kind_mend(wanted, found),
    }
}

/// How an unknown name is mended in this role.
fn unknown_mend(role: Role) -> &'static [u8]
    ensures { result.now ≡ spec.unknown_mend role }
{
    match role {
        Role::Gap => b"mend its spelling, or write a gap of this name into a template",
        Role::Literal => b"mend its spelling, or add a template of this name",
        Role::Value | Role::Target =>
            b"mend its spelling, or declare it; a local is known behind its declaration, to the end of its block",
    }
}

/// How a fault of names and kinds is mended, whose test is about this.
pub fn type_mend(fault: &TypeFault, role: Role) -> &'static [u8]
    ensures { result.now ≡ spec.type_mend fault.now role }
{
    match fault {
        TypeFault::Repeated(_) =>
            b"choose another name; templates, shared variables, sessions and a session's locals share them",
        TypeFault::Unknown(_) => unknown_mend(role),
        TypeFault::GapKinds(_) => b"use two names",
        TypeFault::FieldKinds(_) => b"use two names",
        TypeFault::BadControl(_) => b"write name and type as plain values, and leave out disabled",
        TypeFault::ReservedTag(_) => b"leave this element out",
        TypeFault::FileInput(_) => b"leave this input out",
        TypeFault::NoExit(_) => b"end it with exit and a page",
        TypeFault::Kind(wanted, found) => role_mend(role, *wanted, *found),
        TypeFault::Memory => b"",
    }
}

/// Words as they are.
fn push_words(out: &mut Vec<u8>, words: &[u8]) -> Result<(), Memory>
    ensures { OnOk result (out.new.items ≡ out.old.items ++ words.now) }
{
    out.extend_from_slice(words)?;
    Ok(())
}

/// Words with two names in them.
fn push_five(
    out: &mut Vec<u8>,
    front: &[u8],
    name: &[u8],
    middle: &[u8],
    other: &[u8],
    back: &[u8],
) -> Result<(), Memory>
    ensures { OnOk result (out.new.items ≡ out.old.items ++ spec.five front.now name.now middle.now other.now back.now) }
{
    push_words(out, front)?;
    push_words(out, name)?;
    push_words(out, middle)?;
    push_words(out, other)?;
    push_words(out, back)
}

/// Three parts.
fn push_three(out: &mut Vec<u8>, front: &[u8], middle: &[u8], back: &[u8]) -> Result<(), Memory>
    ensures { OnOk result (out.new.items ≡ out.old.items ++ (front.now ++ (middle.now ++ back.now))) }
{
    push_words(out, front)?;
    push_words(out, middle)?;
    push_words(out, back)
}

/// What is wrong with names and kinds.
pub fn push_type_what(out: &mut Vec<u8>, fault: &TypeFault) -> Result<(), Memory>
    ensures { OnOk result (out.new.items ≡ out.old.items ++ spec.type_what fault.now) }
{
    match fault {
        TypeFault::Repeated(_) => push_words(out, b"this name is taken"),
        TypeFault::Unknown(_) => push_words(out, b"nothing of this name can be used here"),
        TypeFault::GapKinds(_) => push_words(
            out,
            b"this gap stands for content in one place and for an attribute's value in another",
        ),
        TypeFault::FieldKinds(_) => push_words(
            out,
            b"another control of this name sends another kind of value",
        ),
        TypeFault::BadControl(_) => push_words(
            out,
            b"a control must have a fixed name and type, must not be disabled, and an input has one of the eight types",
        ),
        TypeFault::ReservedTag(_) => push_words(
            out,
            b"html, head, body and form belong to the page around a template",
        ),
        TypeFault::FileInput(_) => push_words(out, b"files can't be sent"),
        TypeFault::NoExit(_) => push_words(out, b"the last statement of this session isn't exit"),
        TypeFault::Kind(wanted, found) => push_three(
            out,
            kind_name(*wanted),
            b" is expected here, and this is ",
            kind_name(*found),
        ),
        TypeFault::Memory => push_words(out, b""),
    }
}

/// The name that may be meant by an unknown one.
pub fn push_meant_words(out: &mut Vec<u8>, name: &[u8]) -> Result<(), Memory>
    ensures { OnOk result (out.new.items ≡ out.old.items ++ spec.meant_words name.now) }
{
    push_words(out, b"perhaps you mean ")?;
    push_words(out, name)
}

/// What a fault of the check says, by its number, its detail and the tag of its element.
pub fn push_fault_what(
    out: &mut Vec<u8>,
    number: u8,
    detail: &[u8],
    tag: &[u8],
) -> Result<(), Memory>
    ensures { OnOk result (out.new.items ≡ out.old.items ++ spec.fault_what number detail.now tag.now) }
{
    if number == 1 {
        push_five(
            out,
            b"on this page <",
            tag,
            b"> may have the attribute ",
            detail,
            b", which the schema doesn't allow",
        )
    } else if number == 2 {
        push_five(
            out,
            b"on this page <",
            tag,
            b"> may lack the attribute ",
            detail,
            b", which the schema requires",
        )
    } else if number == 3 {
        push_five(
            out,
            b"on this page the attribute ",
            detail,
            b" of <",
            tag,
            b"> may have a value that the schema doesn't allow",
        )
    } else {
        push_content_what(out, number, detail, tag)
    }
}

/// The same of faults of an element's content, and of those of fields and plugs.
fn push_content_what(out: &mut Vec<u8>, number: u8, detail: &[u8], tag: &[u8]) -> Result<(), Memory>
    ensures { OnOk result (out.new.items ≡ out.old.items ++ spec.content_what number detail.now tag.now) }
{
    if number == 4 {
        push_five(
            out,
            b"this page may have <",
            detail,
            b"> in <",
            tag,
            b">, which the schema doesn't allow there",
        )
    } else if number == 5 {
        push_five(
            out,
            b"this page may have text in <",
            tag,
            b">, where the schema allows none",
            b"",
            b"",
        )
    } else if number == 6 {
        push_five(
            out,
            b"the root of this page is <",
            detail,
            b">, and the schema has another one",
            b"",
            b"",
        )
    } else if number == 7 {
        push_five(
            out,
            b"on this page <",
            tag,
            b"> may not have what its rule needs",
            b"",
            b"",
        )
    } else {
        push_field_what(out, number, detail)
    }
}

/// The same of faults of fields and plugs.
fn push_field_what(out: &mut Vec<u8>, number: u8, detail: &[u8]) -> Result<(), Memory>
    ensures { OnOk result (out.new.items ≡ out.old.items ++ spec.field_what number detail.now) }
{
    if number == 8 {
        push_five(
            out,
            b"a page of this show may have no field ",
            detail,
            b"",
            b"",
            b"",
        )
    } else if number == 9 {
        push_five(
            out,
            b"a page of this show may have the field ",
            detail,
            b" more than once",
            b"",
            b"",
        )
    } else if number == 10 {
        push_five(
            out,
            b"the field ",
            detail,
            b" may send what doesn't fit the variable",
            b"",
            b"",
        )
    } else {
        push_five(
            out,
            b"a plug here may find no open gap ",
            detail,
            b"",
            b"",
            b"",
        )
    }
}

/// How it is mended.
pub fn fault_mend(number: u8) -> &'static [u8]
    ensures { result.now ≡ spec.fault_mend number }
{
    if number == 1 {
        b"leave the attribute out, or use a schema of your own by --schema"
    } else if number == 2 {
        b"plug its gap on each way to this page, or write the value into the template"
    } else if number == 3 {
        b"plug one of the strings that the schema lists, chosen by a test, and nothing that a client sent"
    } else if number == 4 {
        b"put it into an element that may have it, as <li> into <ul>"
    } else if number == 5 {
        b"plug an element that may have text, as <li> with a gap in it"
    } else if number == 6 {
        b"give the schema the line: root html"
    } else if number == 7 {
        b"give it what the need of its rule asks for; where the need is an or, one part must hold on every page"
    } else if number == 8 {
        b"show a page that has an input of this name in each case"
    } else if number == 9 {
        b"give the inputs names of their own; only radio and submit buttons may share one"
    } else if number == 10 {
        b"receive a checkbox or a select with multiple into: strings c = none;"
    } else {
        b"plug it on one branch alone, or keep the two documents in two variables"
    }
}

/// What is wrong with a service that has too many points.
pub fn points_what() -> &'static [u8]
    ensures { result.now ≡ spec.points_what }
{
    b"the sessions have more than 4,096 statements and meetings of branches"
}

/// How it is mended.
pub fn points_mend() -> &'static [u8]
    ensures { result.now ≡ spec.points_mend }
{
    b"cut the service in two"
}

/// What is wrong with a service whose analysis has too many facts.
pub fn facts_what() -> &'static [u8]
    ensures { result.now ≡ spec.facts_what }
{
    b"too many documents may reach one another"
}

/// How it is mended.
pub fn facts_mend() -> &'static [u8]
    ensures { result.now ≡ spec.facts_mend }
{
    b"cut the service in two, or share fewer documents"
}
