//! The options of a command and its other words, read by `clap`. It gets the words before `--` alone, since
//! behind it each word is a script word, which `clap` would not tell from the size of a workload; and no
//! hyphen alone, which it would take for a word that is no option.
ghost use Rattle.std.specs.Prelude.{◌≡◌, IfOk, false, option_map, true};
ghost use Rattle.std.specs.List.{list_all, list_any};
ghost use Rattle.std.specs.Str.{is_utf8};
ghost use Rattle.clap.specs.Walk.{texts};
ghost use Rattle.clap.specs.Words.{app_of};
ghost use Rattle.command_words.specs.Options.{Given, flag_of, given_of, is_end, is_hyphen, takes_pick};
ghost use Rattle.command_words.specs.Grammar.{app_for, pick_added};
ghost use Rattle.command_words.specs.Parts.{given_by};
ghost use Rattle.command_words.specs.Parsed.{AreFine, IsParsedAs, Tells};

use clap::error::ErrorKind;
use clap::{Arg, ArgAction, ArgMatches, Command};
use std::alloc::{AllocError, Global};
use t32_base::streams::NoMemory;

/// A command that takes words: its options are a flag, and `--pick` or not.
#[derive(Clone, Copy)]
pub enum Form {
    Sim,
    Run,
    Load,
}

impl Form {
    fn flag(self) -> &'static str
        ensures { result.now ≡ flag_of self }
    {
        match self {
            Form::Sim | Form::Run => "log",
            Form::Load => "text",
        }
    }

    fn takes_pick(self) -> bool
        ensures { result ≡ takes_pick self }
    {
        matches!(self, Form::Sim)
    }
}

/// What the words of a command before `--` give: whether its flag stands there, the value of `--pick`, and
/// the words that are no options.
#[derive(Drop)]
pub struct Parts<'a> {
    pub flag: bool,
    pub pick: Option<&'a str>,
    pub plain: Vec<&'a str>,
}

/// What words give to a command, where they are its words. None of them is `--`.
pub fn parts_of<'a>(
    alloc: Global,
    form: Form,
    words: &'a [&str],
) -> Result<Option<Parts<'a>>, NoMemory>
    requires text { list_all is_utf8 (texts words.now) ≡ true }
    requires no_end { list_any is_end (texts words.now) ≡ false }
    ensures { IfOk result (λ r. option_map given_by r ≡ given_of form (texts words.now)) }
{
    if has_hyphen(words) {
        return Ok(None);
    }
    let Some(matches) = parsed(alloc, form, words)? else {
        return Ok(None);
    };
    Ok(Some(told(alloc, &matches)?))
}

// Is a word a hyphen alone?
fn has_hyphen(words: &[&str]) -> bool
    ensures { result ≡ list_any (λ word. is_hyphen word.now) words.now }
{
    words.iter().any(|word| *word == "-")
}

// What the matches of a parse tell.
fn told<'a>(alloc: Global, matches: &ArgMatches<'a>) -> Result<Parts<'a>, NoMemory>
    ensures { IfOk result (λ r. (g : Given) → Tells matches.now g → given_by r ≡ g) }
{
    let mut plain = Vec::new(alloc);
    if let Some(words) = matches.get_strs("words") {
        plain.extend_from_slice(words)?;
    }
    Ok(Parts {
        flag: matches.get_flag("flag"),
        pick: matches.get_str("pick"),
        plain,
    })
}

// The grammar of the words before `--`: no word asks for help, and a word that is no option is one of `words`.
fn grammar<'a>(alloc: Global, form: Form) -> Result<Command<'a>, AllocError>
    ensures { IfOk result (λ c. app_of c ≡ app_for form) }
{
    let flag = Arg::new(alloc, "flag")
        .long(form.flag())
        .action(ArgAction::SetTrue);
    let words = Arg::new(alloc, "words").action(ArgAction::Append);
    let command = Command::new(alloc, "t32")
        .no_binary_name(true)
        .disable_help_flag(true)
        .arg(flag)?;
    with_pick(alloc, form, command)?.arg(words)
}

// The command with `--pick`, where the form takes it.
fn with_pick<'a>(alloc: Global, form: Form, command: Command<'a>) -> Result<Command<'a>, AllocError>
    ensures { IfOk result (λ c. app_of c ≡ pick_added (takes_pick form) (app_of command.entry)) }
{
    if !form.takes_pick() {
        return Ok(command);
    }
    let pick = Arg::new(alloc, "pick").long("pick").action(ArgAction::Set);
    command.arg(pick)
}

// The matches of the words before `--`, where they are those of the command.
fn parsed<'a>(
    alloc: Global,
    form: Form,
    words: &'a [&str],
) -> Result<Option<ArgMatches<'a>>, NoMemory>
    requires { AreFine (texts words.now) }
    ensures { IfOk result (IsParsedAs (given_of form (texts words.now))) }
{
    match grammar(alloc, form)?.try_get_matches_from(words) {
        Ok(matches) => Ok(Some(matches)),
        Err(error) => {
            if error.kind() == ErrorKind::OutOfMemory {
                return Err(NoMemory);
            }
            Ok(None)
        }
    }
}
