//! The lines that tell why something is refused, without their ends.
ghost use Rattle.std.specs.Prelude.{◌≡◌, ◌≢◌, ◌++◌, decimal, IfOk};
ghost use Rattle.bw_format.specs.declared.file.FormatFault.TheVariants as formats;
ghost use Rattle.bw_schema.specs.declared.fault.SchemaFault.TheVariants as schemas;
ghost use Rattle.bw_syntax.specs.declared.fault.SyntaxFault.TheVariants as faults;
ghost use Rattle.bw_types.specs.declared.fault.TypeFault.TheVariants as types;
ghost use Rattle.bw_questions.specs.Lines as spec;

use bw_format::FormatFault;
use bw_lang::{Kind, Limit, Memory};
use bw_lex::LexFault;
use bw_schema::SchemaFault;
use bw_syntax::SyntaxFault;
use bw_tmpl::TmplFault;
use bw_types::TypeFault;
use bw_valid::Breach;
use itoa::Buffer;
use std::alloc::Global;

/// Three parts, one behind the other.
fn joined(alloc: Global, front: &[u8], middle: &[u8], back: &[u8]) -> Result<Vec<u8>, Memory>
    ensures { IfOk result (λ line. line.items ≡ front.now ++ (middle.now ++ back.now)) }
{
    let mut line = front.to_vec(alloc)?;
    line.extend_from_slice(middle)?;
    line.extend_from_slice(back)?;
    Ok(line)
}

/// Two parts, one behind the other.
pub fn paired(alloc: Global, front: &[u8], back: &[u8]) -> Result<Vec<u8>, Memory>
    ensures { IfOk result (λ line. line.items ≡ front.now ++ back.now) }
{
    let mut line = front.to_vec(alloc)?;
    line.extend_from_slice(back)?;
    Ok(line)
}

/// Words, and the place that they speak of.
pub fn placed(alloc: Global, front: &[u8], place: usize) -> Result<Vec<u8>, Memory>
    ensures { IfOk result (λ line. line.items ≡ front.now ++ decimal place) }
{
    paired(alloc, front, Buffer::new().format(place).as_bytes())
}

/// The words that name a limit.
fn limit_name(limit: Limit) -> &'static [u8]
    ensures { result.now ≡ spec.limit_name limit }
{
    match limit {
        Limit::Nesting => b"nesting",
        Limit::Stretch => b"stretch",
        Limit::Templates => b"templates",
        Limit::Sessions => b"sessions",
        Limit::Shared => b"shared",
        Limit::Gaps => b"gaps",
        Limit::Fields => b"fields",
        Limit::Locals => b"locals",
        Limit::NameBytes => b"name bytes",
        Limit::StringBytes => b"string bytes",
        Limit::Weight => b"weight",
    }
}

/// The word that names a kind.
fn kind_name(kind: Kind) -> &'static [u8]
    ensures { result.now ≡ spec.kind_name kind }
{
    match kind {
        Kind::Int => b"int",
        Kind::Bool => b"bool",
        Kind::Str => b"string",
        Kind::Html => b"html",
        Kind::Strs => b"strings",
    }
}

/// Why a template isn't read, behind its name.
fn template_fault(fault: TmplFault) -> &'static [u8]
    ensures { result.now ≡ spec.template_fault fault }
{
    match fault {
        TmplFault::Malformed => b" malformed",
        TmplFault::RepeatedAttribute => b" repeated attribute",
        TmplFault::Mismatched => b" mismatched",
        TmplFault::Nesting => b" nesting",
        TmplFault::Memory => b"",
    }
}

/// Why a text has no tokens.
fn lex_line(alloc: Global, fault: &LexFault) -> Result<Vec<u8>, Memory>
    ensures { IfOk result (λ line. line.items ≡ spec.lex_line fault.now) }
{
    match fault {
        LexFault::BadByte(at) => placed(alloc, b"lex bad byte at ", *at),
        LexFault::OpenString(at) => placed(alloc, b"lex open string at ", *at),
        LexFault::OpenTemplate(at) => placed(alloc, b"lex open template at ", *at),
        LexFault::NumberTooBig(at) => placed(alloc, b"lex number too big at ", *at),
        LexFault::Memory => Ok(Vec::new(alloc)),
    }
}

/// That a limit is passed, by this number.
fn limit_line(alloc: Global, limit: Limit, number: u64) -> Result<Vec<u8>, Memory>
    ensures { IfOk result (λ line. line.items ≡ spec.syntax_line (faults.TooMany limit number)) }
{
    let mut line = paired(alloc, b"too many ", limit_name(limit))?;
    line.extend_from_slice(b" ")?;
    line.extend_from_slice(Buffer::new().format(number).as_bytes())?;
    Ok(line)
}

/// Why a text is read as no service. Want of memory has no line.
pub fn syntax_line(alloc: Global, fault: &SyntaxFault) -> Result<Vec<u8>, Memory>
    ensures line { IfOk result (λ line. line.items ≡ spec.syntax_line fault.now) }
    ensures reason { IfOk result (λ line. fault.now ≢ faults.Memory) }
{
    match fault {
        SyntaxFault::TooLong => paired(alloc, b"service too long", b""),
        SyntaxFault::Lex(fault) => lex_line(alloc, fault),
        SyntaxFault::TooMany(limit, number) => limit_line(alloc, *limit, *number),
        SyntaxFault::Syntax(at) => placed(alloc, b"syntax at ", *at),
        SyntaxFault::Template(name, fault) => {
            joined(alloc, b"template ", name.as_bytes(), template_fault(*fault))
        }
        SyntaxFault::Memory => Err(Memory),
    }
}

/// A value of one kind was expected, and one of another was found.
fn kind_line(alloc: Global, wanted: Kind, found: Kind) -> Result<Vec<u8>, Memory>
    ensures { IfOk result (λ line. line.items ≡ spec.type_line (types.Kind wanted found)) }
{
    let mut line = paired(alloc, b"type kind ", kind_name(wanted))?;
    line.extend_from_slice(b" ")?;
    line.extend_from_slice(kind_name(found))?;
    Ok(line)
}

/// A byte of a field's name as it prints: the ends of lines as spaces.
pub fn shown(byte: u8) -> u8
    ensures { result ≡ spec.shown byte }
{
    if byte == b'\n' {
        b' '
    } else if byte == b'\r' {
        b' '
    } else {
        byte
    }
}

/// Controls of this name have fields of different kinds.
fn field_line(alloc: Global, field: &[u8]) -> Result<Vec<u8>, Memory>
    ensures { IfOk result (λ line. line.items ≡ spec.type_line (types.FieldKinds field.now)) }
{
    let mut line = b"type field kinds ".to_vec(alloc)?;
    for &byte in field {
        line.push(shown(byte))?;
    }
    Ok(line)
}

/// Why a service isn't well typed. Want of memory has no line.
pub fn type_line(alloc: Global, fault: &TypeFault) -> Result<Vec<u8>, Memory>
    ensures line { IfOk result (λ line. line.items ≡ spec.type_line fault.now) }
    ensures reason { IfOk result (λ line. fault.now ≢ types.Memory) }
{
    match fault {
        TypeFault::Repeated(name) => paired(alloc, b"type repeated ", name.as_bytes()),
        TypeFault::Unknown(name) => paired(alloc, b"type unknown ", name.as_bytes()),
        TypeFault::Kind(wanted, found) => kind_line(alloc, *wanted, *found),
        TypeFault::GapKinds(gap) => paired(alloc, b"type gap kinds ", gap.as_bytes()),
        TypeFault::FieldKinds(field) => field_line(alloc, field.as_bytes()),
        TypeFault::BadControl(template) => {
            paired(alloc, b"type bad control ", template.as_bytes())
        }
        TypeFault::ReservedTag(tag) => paired(alloc, b"type reserved tag ", tag.as_bytes()),
        TypeFault::FileInput(template) => {
            paired(alloc, b"type file input ", template.as_bytes())
        }
        TypeFault::NoExit(session) => paired(alloc, b"type no exit ", session.as_bytes()),
        TypeFault::Memory => Err(Memory),
    }
}

/// The service has so many points, too many.
pub fn points_line(alloc: Global, count: u64) -> Result<Vec<u8>, Memory>
    ensures { IfOk result (λ line. line.items ≡ spec.points_line count) }
{
    paired(
        alloc,
        b"too many points ",
        Buffer::new().format(count).as_bytes(),
    )
}

/// There is no file of this name.
pub fn no_file_line(alloc: Global, name: &str) -> Result<Vec<u8>, Memory>
    ensures { IfOk result (λ line. line.items ≡ spec.no_file_line name.now) }
{
    paired(alloc, b"no file ", name.as_bytes())
}

/// The bytes are no page.
pub fn no_page_line(alloc: Global) -> Result<Vec<u8>, Memory>
    ensures { IfOk result (λ line. line.items ≡ spec.no_page_line) }
{
    paired(alloc, b"not a page", b"")
}

/// This element breaks this rule.
pub fn breach_line(alloc: Global, breach: Breach) -> Result<Vec<u8>, Memory>
    ensures { IfOk result (λ line. line.items ≡ spec.breach_line breach) }
{
    let mut line = placed(alloc, b"invalid place ", breach.place as usize)?;
    line.extend_from_slice(b" rule ")?;
    line.extend_from_slice(Buffer::new().format(breach.rule).as_bytes())?;
    Ok(line)
}

/// Why a text is read as no schema. Want of memory has no line.
pub fn schema_line(alloc: Global, fault: &SchemaFault) -> Result<Vec<u8>, Memory>
    ensures line { IfOk result (λ line. line.items ≡ spec.schema_line fault.now) }
    ensures reason { IfOk result (λ line. fault.now ≢ schemas.Memory) }
{
    match fault {
        SchemaFault::Malformed => paired(alloc, b"schema malformed", b""),
        SchemaFault::Version(version) => {
            paired(
                alloc,
                b"schema version ",
                Buffer::new().format(*version).as_bytes(),
            )
        }
        SchemaFault::Repeated(name) => paired(alloc, b"schema repeated ", name.as_bytes()),
        SchemaFault::Unknown(name) => paired(alloc, b"schema unknown ", name.as_bytes()),
        SchemaFault::TooLong => paired(alloc, b"schema too long", b""),
        SchemaFault::Memory => Err(Memory),
    }
}

/// Why a file is read as no formats. Want of memory has no line.
pub fn format_line(alloc: Global, fault: &FormatFault) -> Result<Vec<u8>, Memory>
    ensures line { IfOk result (λ line. line.items ≡ spec.format_line fault.now) }
    ensures reason { IfOk result (λ line. fault.now ≢ formats.Memory) }
{
    match fault {
        FormatFault::TooLong => paired(alloc, b"formats too long", b""),
        FormatFault::Malformed(line) => placed(alloc, b"formats malformed line ", *line as usize),
        FormatFault::Repeated(line) => placed(alloc, b"formats repeated line ", *line as usize),
        FormatFault::Memory => Err(Memory),
    }
}

/// The bytes are no texts.
pub fn no_texts_line(alloc: Global) -> Result<Vec<u8>, Memory>
    ensures { IfOk result (λ line. line.items ≡ spec.no_texts_line) }
{
    paired(alloc, b"texts malformed", b"")
}
