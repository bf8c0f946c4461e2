//! What a scripted user does after a reply.
ghost use Rattle.std.specs.Prelude.{◌≡◌, []};
ghost use Rattle.bw_visit.specs.Scripts.{AreLines};
ghost use Rattle.bw_visit.specs.Turns.{IsAnswered, IsNext, IsSent, Keeps, Shrinks};

use crate::messages::put_post;
use crate::script::first_line;
use bw_agent::{AgentFault, Filled, fill};
use bw_http::read_form;
use bw_lang::{Memory, Text};
use std::alloc::Global;

/// What a scripted user does after a reply.
#[derive(Drop)]
pub(crate) enum After<'a> {
    /// Nothing more.
    Over,
    /// It sends a message, and these lines are left.
    Sends(&'a str),
    /// It says that no control has this name.
    Unknown(Text),
    /// There was no memory.
    Memory,
}

/// What it does after a reply with this body, with these lines left. A message is put where there was none.
pub(crate) fn go_on<'a>(
    alloc: Global,
    body: &[u8],
    lines: &'a str,
    message: &mut Vec<u8>,
) -> After<'a>
    requires lines { AreLines lines.now }
    requires none { message.old.items ≡ [] }
    ensures next { IsNext body.now lines.now message.new.items result }
    ensures shrinks { Shrinks lines.now message.new.items result }
{
    if lines.is_empty() {
        return After::Over;
    }
    match first_line(lines) {
        Some((line, later)) => answer_line(alloc, body, line, later, message),
        None => unreachable!(),
    }
}

/// What it does by one line, where these are left.
fn answer_line<'a>(
    alloc: Global,
    body: &[u8],
    line: &str,
    later: &'a str,
    message: &mut Vec<u8>,
) -> After<'a>
    requires { message.old.items ≡ [] }
    ensures answered { IsAnswered body.now line.now later.now message.new.items result }
    ensures keeps { Keeps later.now message.new.items result }
{
    match read_form(alloc, line.as_bytes()) {
        Ok(form) => match fill(alloc, body, &form) {
            Ok(filled) => send(&filled, later, message),
            Err(AgentFault::NotAPage) => After::Over,
            Err(AgentFault::NoForm) => After::Over,
            Err(AgentFault::UnknownAnswer(name)) => After::Unknown(name),
            Err(AgentFault::Memory) => After::Memory,
        },
        Err(Memory) => After::Memory,
    }
}

/// It sends what was filled in.
fn send<'a>(filled: &Filled, later: &'a str, message: &mut Vec<u8>) -> After<'a>
    requires { message.old.items ≡ [] }
    ensures sent { IsSent filled.now later.now message.new.items result }
    ensures keeps { Keeps later.now message.new.items result }
{
    match put_post(filled.target.as_bytes(), filled.body.as_bytes(), message) {
        Ok(()) => After::Sends(later),
        Err(Memory) => After::Memory,
    }
}
