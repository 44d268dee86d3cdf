//! The options of a command, as `clap` reads them.

ghost use Rattle.std.specs.Prelude.{◌≡◌, ◌≢◌, [], IfOk, IfErr, map, false, codes, option_map};
ghost use Rattle.std.specs.String.{string_bytes};
ghost use Rattle.clap.specs.Words.{app_of, rule_of, with_rule};
ghost use Rattle.wf_words.specs.Commands.{command_app, option_rule, refusals, define_text};
ghost use Rattle.wf_words.specs.declared.error.WordsError.TheVariants.{Usage};

use crate::error::WordsError;
use clap::error::ErrorKind;
use clap::{Arg, Command};
use std::alloc::{AllocError, Global};

fn option<'a>(alloc: Global, name: &'a str) -> Arg<'a>
    ensures rule { rule_of result ≡ option_rule name.entry.now }
    ensures local { result.global ≡ false }
{
    Arg::new(alloc, name).long(name)
}

fn add<'a>(command: Command<'a>, arg: Arg<'a>) -> Result<Command<'a>, AllocError>
    requires { arg.global ≡ false }
    ensures { IfOk result (λ c. app_of c ≡ with_rule (app_of command.entry) (rule_of arg.entry)) }
{
    command.arg(arg)
}

/// The command of this name with its option.
#[tactic(auto, unfolding(crate::specs::Commands::command_app))]
fn command_named<'a>(alloc: Global, name: &'a str) -> Result<Command<'a>, AllocError>
    ensures { IfOk result (λ c. app_of c ≡ command_app name.entry.now) }
{
    let empty = Command::new(alloc, name);
    let whole = add(empty, option(alloc, "define"))?;
    Ok(whole)
}

/// What stands behind `--define`, if it is there. The name of the command is the first word.
pub fn define_text<'a>(
    alloc: Global,
    name: &'a str,
    words: &'a [String],
) -> Result<Option<&'a str>, WordsError>
    ensures grammar { IfOk result
        (λ _. refusals name.entry.now (map string_bytes words.entry.now) ≡ []) }
    ensures usage { IfErr result (λ e. e ≡ Usage
        → refusals name.entry.now (map string_bytes words.entry.now) ≢ []) }
    ensures text { IfOk result (λ o.
        option_map (λ s. s.now) o ≡ define_text name.entry.now (map string_bytes words.entry.now)) }
{
    let command = match command_named(alloc, name) {
        Ok(command) => command,
        Err(_) => return Err(WordsError::Memory),
    };
    match command.try_get_matches_from(words) {
        Ok(matches) => Ok(matches.get_str("define")),
        Err(error) => {
            if error.kind() == ErrorKind::OutOfMemory {
                Err(WordsError::Memory)
            } else {
                Err(WordsError::Usage)
            }
        }
    }
}
