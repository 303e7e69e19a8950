ghost use Rattle.std.specs.Prelude.{◌≡◌, ◌+◌, ◌-◌, ◌^◌, min, IfErr};

use crate::action::Action;
use crate::trial::Opening;
use std::str::{FromStr, SplitAsciiWhitespace};
use thiserror::Error;

/// What a line asks for.
#[derive(Clone, Copy, Debug, PartialEq, Eq)]
pub enum Command {
    /// New stores in the place of those that are there.
    Open(Opening),
    /// The same to each store.
    Ask(Action),
    /// How many places differ from the plain store.
    Differ,
}

/// Why a line is no command.
#[derive(Clone, Copy, Debug, PartialEq, Eq, Error)]
pub enum LineFault {
    /// There is no such command.
    #[error("no such command")]
    Name,
    /// This word, counted from 1, is missing or outside its limits.
    #[error("word {0} is missing or outside its limits")]
    Word(usize),
    /// There are more words than the command takes.
    #[error("too many words")]
    Extra,
}

/// The words of a line that are still to be read.
#[derive(Drop)]
struct Words<'a> {
    rest: SplitAsciiWhitespace<'a>,
    /// How many words were asked for.
    taken: usize,
}

impl<'a> Words<'a> {
    fn new(line: &'a str) -> Self {
        Words {
            rest: line.split_ascii_whitespace(),
            taken: 0,
        }
    }

    /// The next word, if there is one.
    fn next_word(&mut self) -> Option<&'a str>
        ensures { self.new.taken ≡ min (self.old.taken + 1) (2 ^ 64 - 1) }
    {
        self.taken = self.taken.saturating_add(1);
        self.rest.next()
    }

    /// The number that the next word is.
    fn number<T: FromStr>(&mut self) -> Result<T, LineFault>
    where
        T::Err: Drop,
        ensures { IfErr result (λ fault. fault ≡ LineFault.Word self.new.taken) }
    {
        self.next_word()
            .and_then(|word| word.parse().ok())
            .ok_or(LineFault::Word(self.taken))
    }
}

impl FromStr for Command {
    type Err = LineFault;

    fn from_str(line: &str) -> Result<Self, LineFault> {
        let mut words = Words::new(line);
        let command = match words.next_word().ok_or(LineFault::Name)? {
            "open" => Command::Open(Opening {
                bytes: words.number()?,
                shift: words.number()?,
                fill: words.number()?,
            }),
            "read" => Command::Ask(Action::Read(words.number()?)),
            "holds" => Command::Ask(Action::Holds(words.number()?, words.number()?)),
            "write" => Command::Ask(Action::Write(words.number()?, words.number()?)),
            "differ" => Command::Differ,
            _ => return Err(LineFault::Name),
        };
        if words.next_word().is_some() {
            return Err(LineFault::Extra);
        }
        Ok(command)
    }
}
