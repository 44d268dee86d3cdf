//! The words of the commands that take `--define LIST` alone.

ghost use Rattle.std.specs.Prelude.{◌≡◌, map};
ghost use Rattle.std.specs.String.{string_bytes};
ghost use Rattle.wf_model.specs.Reading.{Gives};
ghost use Rattle.wf_words.specs.Commands.{check_words, plain_words, words_of_command, fault_of};
ghost use Rattle.wf_words.specs.WordsOf.{WordsOfCheck, WordsOfPlain};

use crate::command::define_text;
use crate::defines::defines;
use crate::error::WordsError;
use std::alloc::Global;
use wf_model::Name;

/// The names that the words of the command of this name define.
#[tactic(auto, unfolding(crate::specs::Commands::words_of_command))]
fn words_of_command(
    alloc: Global,
    name: &str,
    words: &[String],
) -> Result<Vec<(Name, Name)>, WordsError>
    ensures { Gives (λ v. v.items) fault_of result
        (words_of_command name.now (map string_bytes words.now)) }
{
    match define_text(alloc, name, words) {
        Ok(None) => Ok(Vec::new(alloc)),
        Ok(Some(list)) => defines(alloc, list.as_bytes()),
        Err(error) => Err(error),
    }
}

/// The names that the words define, each with a value: `check [--define LIST]`, the command's
/// name first.
///
/// LIST is `NAME=VALUE` pairs joined by commas, where both parts are 1 to 64 letters, digits and
/// `_`. `--define=LIST` is the same, and a lone `--` may stand last. An option that is repeated,
/// shortened or unknown, `--help` and any other word are none of this command.
pub fn check_words(alloc: Global, words: &[String]) -> Result<Vec<(Name, Name)>, WordsError>
    ensures { Gives (λ v. v.items) fault_of result (check_words (map string_bytes words.now)) }
{
    words_of_command(alloc, "check", words)
}

/// The names that the words define, each with a value: `plain [--define LIST]`, the command's name
/// first. LIST is as [`check_words`] reads it.
pub fn plain_words(alloc: Global, words: &[String]) -> Result<Vec<(Name, Name)>, WordsError>
    ensures { Gives (λ v. v.items) fault_of result (plain_words (map string_bytes words.now)) }
{
    words_of_command(alloc, "plain", words)
}

/// What some words after `check` define, and some that are none of this command.
#[tactic(auto, using(crate::proofs::WordsOf::words_of_check))]
pub fn words_of_check()
    ensures { WordsOfCheck }
{}

/// The same after `plain`.
#[tactic(auto, using(crate::proofs::WordsOf::words_of_plain))]
pub fn words_of_plain()
    ensures { WordsOfPlain }
{}
