//! What the words of a command have given so far, and whether one more may stand behind them.
ghost use Rattle.std.specs.Prelude.{◌≡◌};
ghost use Rattle.text_parts.specs.Numbers.{number_of};
ghost use Rattle.command_words.specs.Options.{begins_with_hyphen as begins_with_hyphen_of};
ghost use Rattle.word_faults.specs.Seen.{flag_of, is_below, is_sim, lacks_size, missing, nothing_of, with_flag, with_one, with_option, with_pick, with_pick_in, with_pick_value, with_plain, with_script_word, with_word};

use command_words::script_word;
use text_parts::number;

// The most words of a script.
const MOST_WORDS: u8 = 32;

/// A command that takes words.
#[derive(Clone, Copy, PartialEq, Eq, Debug)]
pub enum Form {
    Sim,
    Run,
    Load,
}

/// What the words of a command have given so far: its flag, `--pick`, whether its value is next, the size, how many script words,
/// and `--`.
#[derive(Clone, Copy, PartialEq, Eq, Debug)]
pub struct Seen {
    pub form: Form,
    pub flag: bool,
    pub pick: bool,
    pub awaits: bool,
    pub size: bool,
    pub words: u8,
    pub ended: bool,
}

/// Why a word is wrong.
#[derive(Clone, Copy, PartialEq, Eq, Debug)]
pub enum Reason {
    NoText,
    NoCommand,
    TakesNone,
    NoOption,
    Twice,
    NoPick,
    LacksSize,
    NoSize,
    NoScriptWord,
    TooMany,
}

impl Seen {
    /// Nothing yet.
    pub fn nothing(form: Form) -> Seen
        ensures { result ≡ nothing_of form }
    {
        Seen {
            form,
            flag: false,
            pick: false,
            awaits: false,
            size: false,
            words: 0,
            ended: false,
        }
    }

    /// The same with one word more, or why that may not stand there.
    pub fn with(self, word: &[u8]) -> Result<Seen, Reason>
        ensures { result ≡ with_word self word.now }
    {
        if self.awaits {
            self.with_pick_value(word)
        } else if self.ended {
            self.with_script_word(word)
        } else if word == b"--".as_slice() {
            Ok(Seen {
                ended: true,
                ..self
            })
        } else if begins_with_hyphen(word) {
            self.with_option(word)
        } else {
            self.with_plain(word)
        }
    }

    // A value of `--pick`.
    fn with_pick_value(self, word: &[u8]) -> Result<Seen, Reason>
        ensures { result ≡ with_pick_value self word.now }
    {
        if is_pick(word) {
            Ok(Seen {
                awaits: false,
                ..self
            })
        } else {
            Err(Reason::NoPick)
        }
    }

    fn with_option(self, word: &[u8]) -> Result<Seen, Reason>
        ensures { result ≡ with_option self word.now }
    {
        if word == self.form.flag() {
            self.with_flag()
        } else if !self.form.is_sim() {
            Err(Reason::NoOption)
        } else if word == b"--pick".as_slice() {
            self.with_pick(true)
        } else {
            self.with_pick_in(word)
        }
    }

    fn with_flag(self) -> Result<Seen, Reason>
        ensures { result ≡ with_flag self }
    {
        if self.flag {
            Err(Reason::Twice)
        } else {
            Ok(Seen { flag: true, ..self })
        }
    }

    // `--pick`, whose value is next or not.
    fn with_pick(self, awaits: bool) -> Result<Seen, Reason>
        ensures { result ≡ with_pick self awaits }
    {
        if self.pick {
            Err(Reason::Twice)
        } else {
            Ok(Seen {
                pick: true,
                awaits,
                ..self
            })
        }
    }

    // `--pick=` and its value.
    fn with_pick_in(self, word: &[u8]) -> Result<Seen, Reason>
        ensures { result ≡ with_pick_in self word.now }
    {
        match word.strip_prefix(b"--pick=") {
            Some(value) => {
                if is_pick(value) {
                    self.with_pick(false)
                } else {
                    Err(Reason::NoPick)
                }
            }
            None => Err(Reason::NoOption),
        }
    }

    // A word that is no option.
    fn with_plain(self, word: &[u8]) -> Result<Seen, Reason>
        ensures { result ≡ with_plain self word.now }
    {
        if !self.lacks_size() {
            self.with_script_word(word)
        } else if is_size(word) {
            Ok(Seen { size: true, ..self })
        } else {
            Err(Reason::NoSize)
        }
    }

    fn lacks_size(self) -> bool
        ensures { result ≡ lacks_size self }
    {
        match self.form {
            Form::Load => !self.size,
            _ => false,
        }
    }

    fn with_script_word(self, word: &[u8]) -> Result<Seen, Reason>
        ensures { result ≡ with_script_word self word.now }
    {
        if self.lacks_size() {
            return Err(Reason::LacksSize);
        }
        match script_word(word) {
            None => Err(Reason::NoScriptWord),
            Some(_) => self.with_one(),
        }
    }

    // A script word more.
    fn with_one(self) -> Result<Seen, Reason>
        ensures { result ≡ with_one self }
    {
        if self.words < MOST_WORDS {
            Ok(Seen {
                words: self.words + 1,
                ..self
            })
        } else {
            Err(Reason::TooMany)
        }
    }

    /// Why no command is whole here: the value of `--pick` or the size is missing.
    pub fn missing(self) -> Option<Reason>
        ensures { result ≡ missing self }
    {
        if self.awaits {
            Some(Reason::NoPick)
        } else if self.lacks_size() {
            Some(Reason::LacksSize)
        } else {
            None
        }
    }
}

impl Form {
    fn flag(self) -> &'static [u8]
        ensures { result.now ≡ flag_of self }
    {
        match self {
            Form::Sim | Form::Run => b"--log",
            Form::Load => b"--text",
        }
    }

    fn is_sim(self) -> bool
        ensures { result ≡ is_sim self }
    {
        matches!(self, Form::Sim)
    }
}

fn begins_with_hyphen(word: &[u8]) -> bool
    ensures { result ≡ begins_with_hyphen_of word.now }
{
    match word {
        [b'-', ..] => true,
        _ => false,
    }
}

// Is it a number of 31 bits?
fn is_pick(word: &[u8]) -> bool
    ensures { result ≡ is_below 0 2147483648 (number_of word.now) }
{
    is_within(0, 0x8000_0000, number(word))
}

// Is it a number from 1 to 1000?
fn is_size(word: &[u8]) -> bool
    ensures { result ≡ is_below 1 1001 (number_of word.now) }
{
    is_within(1, 1001, number(word))
}

fn is_within(low: u64, limit: u64, number: Option<u64>) -> bool
    ensures { result ≡ is_below low limit number }
{
    match number {
        Some(n) => low <= n && n < limit,
        None => false,
    }
}
