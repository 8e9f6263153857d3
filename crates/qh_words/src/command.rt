//! The command line as `clap` reads it.

ghost use Rattle.std.specs.Prelude.{◌≡◌, ◌≢◌, ◌∷◌, [], IfOk, OnOk, fold, map};
ghost use Rattle.std.specs.Option.{option_copied};
ghost use Rattle.clap.specs.Words.{HasMatchesOf, app_of, fault_of, with_rule};
ghost use Rattle.qh_words.specs.Command.{command, fresh_rule, from_rule, prob_rule, value_in, with_letter};
ghost use Rattle.qh_words.specs.Request.{is_set};

use crate::fault::WordsFault;
use clap::error::ErrorKind;
use clap::{Arg, ArgAction, ArgMatches, Command};
use std::alloc::{AllocError, Global};

/// The options that have a letter, each of which has a value: the name by which the matches know it, and its letter.
const OPTIONS: [(&str, char); 13] = [
    ("c", 'c'),
    ("i", 'i'),
    ("d", 'd'),
    ("k", 'k'),
    ("p", 'p'),
    ("r", 'r'),
    ("w", 'w'),
    ("o", 'o'),
    ("v", 'v'),
    ("g", 'g'),
    ("j", 'j'),
    ("t", 't'),
    ("l", 'l'),
];

/// The matches of the words, whose first is the program's name.
#[tactic(auto, using(crate::proofs::Simple::free))]
pub fn matches<'a>(alloc: Global, words: &'a [&'a str]) -> Result<ArgMatches<'a>, WordsFault>
    ensures taken { OnOk result (fault_of command (map (λ s. s.now) words.now) ≡ []) }
    ensures matches { IfOk result (HasMatchesOf command (map (λ s. s.now) words.now)) }
    ensures usage { result ≡ Err WordsFault.Usage → fault_of command (map (λ s. s.now) words.now) ≢ [] }
{
    let Ok(command) = command_line(alloc) else {
        return Err(WordsFault::Memory);
    };
    match command.try_get_matches_from(words) {
        Ok(matches) => Ok(matches),
        Err(error) => {
            if error.kind() == ErrorKind::OutOfMemory {
                Err(WordsFault::Memory)
            } else {
                Err(WordsFault::Usage)
            }
        }
    }
}

/// The value of an option, by its name.
pub fn value<'a>(matches: &ArgMatches<'a>, name: &str) -> Option<&'a str>
    ensures { option_copied result ≡ value_in matches.now name.now }
{
    matches.get_str(name)
}

/// Whether a flag is given, by its name.
pub fn is_set(matches: &ArgMatches<'_>, name: &str) -> bool
    ensures { result ≡ is_set (value_in matches.now name.now) }
{
    let Some(text) = value(matches, name) else {
        return false;
    };
    text == "true"
}

/// The command with its options.
#[tactic(auto, unfolding(crate::specs::Command::command))]
fn command_line<'a>(alloc: Global) -> Result<Command<'a>, AllocError>
    ensures { IfOk result (λ c. app_of c ≡ command) }
{
    let command = Command::new(alloc, "qsimh_amplitudes");
    let command = with_options(alloc, command, &OPTIONS)?;
    let command = with_journal_options(alloc, command)?;
    with_prob(alloc, command)
}

/// The command with the options that have no letter.
fn with_journal_options<'a>(alloc: Global, command: Command<'a>) -> Result<Command<'a>, AllocError>
    ensures { IfOk result (λ c. app_of c ≡ with_rule (with_rule (app_of command.entry) fresh_rule) from_rule) }
{
    let fresh = Arg::new(alloc, "new")
        .long("new")
        .action(ArgAction::SetTrue);
    let from = Arg::new(alloc, "from").long("from").action(ArgAction::Set);
    command.arg(fresh)?.arg(from)
}

/// The command with the flag that asks for probabilities.
fn with_prob<'a>(alloc: Global, command: Command<'a>) -> Result<Command<'a>, AllocError>
    ensures { IfOk result (λ c. app_of c ≡ with_rule (app_of command.entry) prob_rule) }
{
    let prob = Arg::new(alloc, "prob")
        .long("prob")
        .action(ArgAction::SetTrue);
    command.arg(prob)
}

/// The command with these options too, each of which is named by its letter.
fn with_options<'a>(
    alloc: Global,
    command: Command<'a>,
    options: &[(&'a str, char)],
) -> Result<Command<'a>, AllocError>
    requires { map (λ o. o.0.now) options.now ≡ map (λ o. o.1 ∷ []) options.now }
    ensures { let letters = map (λ o. o.1) options.now in
        IfOk result (λ c. app_of c ≡ fold with_letter (app_of command.entry) letters) }
{
    let mut command = command;
    for (name, letter) in options {
        command = with_option(alloc, command, name, *letter)?;
    }
    Ok(command)
}

/// The command with an option more.
fn with_option<'a>(
    alloc: Global,
    command: Command<'a>,
    name: &'a str,
    letter: char,
) -> Result<Command<'a>, AllocError>
    requires { name.now ≡ letter ∷ [] }
    ensures { IfOk result (λ c. app_of c ≡ with_letter (app_of command.entry) letter) }
{
    let option = Arg::new(alloc, name).short(letter).action(ArgAction::Set);
    command.arg(option)
}
