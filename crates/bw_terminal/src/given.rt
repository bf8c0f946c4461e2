//! The words of the command line.
use bw_lang::{Memory, Text, Words};
use std::alloc::AllocGlobal;
use std::env;
use std::env::Env;
use std::io::ErrorKind;

/// The words behind the program's own name. Where one of them isn't UTF-8 there are none, so that they are refused.
pub fn command_line<R: Env + AllocGlobal>(rt: &R) -> Result<Words, Memory> {
    let mut words = Words::new(rt.alloc());
    match env::args(rt) {
        Ok(args) => {
            for word in args.skip(1) {
                words.push(Text::from_string(word))?;
            }
        }
        Err(error) => {
            if error.kind() == ErrorKind::OutOfMemory {
                return Err(Memory);
            }
        }
    }
    Ok(words)
}
