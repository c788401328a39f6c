// What is said of errors and breaches, in words.
ghost use Rattle.std.specs.Prelude.{Some};
ghost use Rattle.play.specs.Texts.{error_text, breach_text};

use crate::types::{Breach, ScriptError};
use std::error::Error;
use std::fmt;

impl fmt::Display for ScriptError {
    ghost output = { λ e. Some (error_text e) };

    fn fmt<W: fmt::Write>(&self, f: &mut fmt::Formatter<W>) -> fmt::Result {
        match self {
            ScriptError::Unprintable => f.write_str("a byte that can't be printed"),
            ScriptError::UnknownVerb => f.write_str("no line begins so"),
            ScriptError::MissingWord => f.write_str("a word is missing"),
            ScriptError::UnknownSetting => f.write_str("a word that no line has"),
            ScriptError::MisplacedSetting => f.write_str("a word that has no place on this line"),
            ScriptError::ManyWords => f.write_str("too many words"),
            ScriptError::NoNumber => f.write_str("a number is wanted, of at most 999,999,999"),
            ScriptError::NoConnection => f.write_str("a connection is wanted, from 0 to 7"),
            ScriptError::NoBody => f.write_str("the body is missing"),
            ScriptError::LongName => f.write_str("a name of more than 255 bytes"),
            ScriptError::ManyNames => f.write_str("more names than there is room for"),
            ScriptError::OtherEtag => f.write_str("this body came with another etag before"),
            ScriptError::OtherBody => f.write_str("this etag belongs to another body"),
            ScriptError::OtherVary => f.write_str("the path varied otherwise before"),
            ScriptError::NoMemory => f.write_str("no memory is left"),
        }
    }
}

impl Error for ScriptError {}

impl fmt::Display for Breach {
    ghost output = { λ b. Some (breach_text b) };

    fn fmt<W: fmt::Write>(&self, f: &mut fmt::Formatter<W>) -> fmt::Result {
        match self {
            Breach::NeverSo => f.write_str("the origin never had it"),
            Breach::NotSince => f.write_str("not so since it was forwarded"),
            Breach::TooOld => f.write_str("older than the origin allows"),
            Breach::BeforeWrite => f.write_str("from before an acknowledged write"),
            Breach::NotShared => f.write_str("it was for one client only"),
            Breach::OtherClient => f.write_str("another client had asked"),
        }
    }
}
