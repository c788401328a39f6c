// What a line of a script says.
ghost use Rattle.std.specs.Prelude.{◌≡◌, true};
ghost use Rattle.play.specs.Script.{both, before_comment, cut_at, name_length, spelled_verb, spelled_field, verb_of, takes_two, field_of, may_stand, said_of, unsaid, seen_ok, set_field, with_word, settings_on, second_of, line_of, line_with, seen_line, parsed};

use crate::types::{Command, Field, MOST_SETTINGS, ScriptError, Settings, Verb};
use crate::words::{any_odd, cut_word, first_of, number};

/// What a line means: nothing, a command, or what is wrong with it.
pub fn parse(line: &[u8]) -> Result<Option<Command<'_>>, ScriptError>
    ensures { seen_ok seen_line result ≡ parsed line.now }
{
    if any_odd(line) {
        return Err(ScriptError::Unprintable);
    }
    let Some((word, behind)) = cut_word(before_comment(line)) else {
        return Ok(None);
    };
    let verb = Verb::named(word).ok_or(ScriptError::UnknownVerb)?;
    let (first, behind) = cut_word(behind).ok_or(ScriptError::MissingWord)?;
    let (second, behind) = second_of(verb, behind)?;
    let settings = settings(verb, behind)?;
    Ok(Some(Command::new(verb, first, second, settings)))
}

/// A line, as far as its comment.
fn before_comment(line: &[u8]) -> &[u8]
    ensures { result.now ≡ before_comment line.now }
{
    let len = first_of(line, b'#').unwrap_or(line.len());
    &line[..len]
}

/// The second word of the subject, and what stands behind it; empty for a verb that takes one word.
// No `Option`: which words a command takes is what `Command::new` asks its verb.
fn second_of(verb: Verb, text: &[u8]) -> Result<(&[u8], &[u8]), ScriptError>
    ensures { seen_ok both result ≡ second_of verb text.now }
{
    if verb.takes_two() {
        cut_word(text).ok_or(ScriptError::MissingWord)
    } else {
        Ok((&[], text))
    }
}

/// What is said behind the subject.
fn settings(verb: Verb, text: &[u8]) -> Result<Settings<'_>, ScriptError>
    ensures { seen_ok said_of result ≡ settings_on 16 verb unsaid text.now }
{
    let mut said = Settings::unsaid();
    let mut rest = text;
    for _i in 0..MOST_SETTINGS {
        let Some((word, behind)) = cut_word(rest) else {
            return Ok(said);
        };
        said = said.with_word(verb, word)?;
        rest = behind;
    }
    Err(ScriptError::ManyWords)
}

impl<'a> Command<'a> {
    /// A verb with those of these words that it takes.
    fn new(verb: Verb, first: &'a [u8], second: &'a [u8], settings: Settings<'a>) -> Command<'a>
        ensures { line_of result ≡ line_with verb first.now second.now (said_of settings.entry) }
    {
        match verb {
            Verb::Origin => Command::Origin {
                path: first,
                settings,
            },
            Verb::Tick => Command::Tick { seconds: first },
            Verb::Get => Command::Get {
                client: first,
                path: second,
                settings,
            },
            Verb::Put => Command::Put {
                client: first,
                path: second,
                settings,
            },
            Verb::Delete => Command::Delete {
                client: first,
                path: second,
                settings,
            },
            Verb::Act => Command::Act { connection: first },
            Verb::Decline => Command::Decline {
                connection: first,
                status: second,
            },
            Verb::Receive => Command::Receive { connection: first },
            Verb::Lose => Command::Lose { connection: first },
            Verb::Random => Command::Random {
                seed: first,
                count: second,
            },
        }
    }
}

impl<'a> Settings<'a> {
    /// Nothing is said.
    pub fn unsaid() -> Settings<'a>
        ensures { said_of result ≡ unsaid }
    {
        Settings::default()
    }

    /// With one more word behind the subject.
    #[tactic(auto, unfolding(crate::specs::Script::with_word))]
    fn with_word(self, verb: Verb, word: &'a [u8]) -> Result<Settings<'a>, ScriptError>
        ensures { seen_ok said_of result ≡ with_word verb word.now (said_of self.entry) }
    {
        let (name, value) = cut_name(word);
        let field = Field::named(name).ok_or(ScriptError::UnknownSetting)?;
        if verb.takes(field) {
            self.with(field, value)
        } else {
            Err(ScriptError::MisplacedSetting)
        }
    }

    fn with(mut self, field: Field, value: &'a [u8]) -> Result<Settings<'a>, ScriptError>
        ensures { seen_ok said_of result ≡ set_field field value.now (said_of self.entry) }
    {
        match field {
            Field::Language => self.language = value,
            Field::Etag => self.etag = value,
            Field::Body => self.body = value,
            Field::MaxAge => self.max_age = number(value).ok_or(ScriptError::NoNumber)?,
            Field::Age => self.age = number(value).ok_or(ScriptError::NoNumber)?,
            Field::Private => self.private = true,
            Field::NoStore => self.no_store = true,
            Field::NoCache => self.no_cache = true,
            Field::Vary => self.vary = true,
            Field::Authorization => self.authorization = true,
        }
        Ok(self)
    }
}

/// The name of a setting, with the `=` if it has a value, and the value.
fn cut_name(word: &[u8]) -> (&[u8], &[u8])
    ensures { both result ≡ cut_at (name_length word.now) word.now }
{
    let len = first_of(word, b'=').map_or(word.len(), |i| i + 1);
    word.split_at(len)
}

impl Verb {
    const ALL: [Verb; 10] = [
        Verb::Origin,
        Verb::Tick,
        Verb::Get,
        Verb::Put,
        Verb::Delete,
        Verb::Act,
        Verb::Decline,
        Verb::Receive,
        Verb::Lose,
        Verb::Random,
    ];

    /// The verb of a word.
    // No `TryFrom`: of the chain under an `ok_or` the proof didn't close.
    fn named(word: &[u8]) -> Option<Verb>
        ensures { result ≡ verb_of word.now }
    {
        Verb::ALL
            .iter()
            .copied()
            .find(|verb| word == verb.spelling())
    }

    /// How it is written.
    #[tactic(auto, unfolding(crate::specs::Script::spelled_verb))]
    fn spelling(self) -> &'static [u8]
        ensures { result.now ≡ spelled_verb self }
    {
        match self {
            Verb::Origin => b"origin",
            Verb::Tick => b"tick",
            Verb::Get => b"get",
            Verb::Put => b"put",
            Verb::Delete => b"delete",
            Verb::Act => b"act",
            Verb::Decline => b"decline",
            Verb::Receive => b"receive",
            Verb::Lose => b"lose",
            Verb::Random => b"random",
        }
    }

    /// Is it followed by two words, and not by one?
    fn takes_two(self) -> bool
        ensures { result ≡ takes_two self }
    {
        matches!(
            self,
            Verb::Get | Verb::Put | Verb::Delete | Verb::Decline | Verb::Random
        )
    }

    /// May this be said behind its subject?
    fn takes(self, field: Field) -> bool
        ensures { result ≡ may_stand self field }
    {
        match self {
            Verb::Origin => !matches!(field, Field::Authorization),
            Verb::Get => matches!(
                field,
                Field::Language
                    | Field::Etag
                    | Field::NoStore
                    | Field::NoCache
                    | Field::Authorization
            ),
            Verb::Put => matches!(field, Field::Language | Field::Etag | Field::Body),
            Verb::Delete => matches!(field, Field::Language),
            Verb::Tick | Verb::Act | Verb::Decline | Verb::Receive | Verb::Lose | Verb::Random =>
                false,
        }
    }
}

impl Field {
    const ALL: [Field; 10] = [
        Field::Language,
        Field::Etag,
        Field::Body,
        Field::MaxAge,
        Field::Age,
        Field::Private,
        Field::NoStore,
        Field::NoCache,
        Field::Vary,
        Field::Authorization,
    ];

    /// What a setting is about, from its name with the `=`.
    // As `Verb::named`: a trait for the two would be longer than this line.
    fn named(name: &[u8]) -> Option<Field>
        ensures { result ≡ field_of name.now }
    {
        Field::ALL
            .iter()
            .copied()
            .find(|field| name == field.spelling())
    }

    /// How it is written.
    #[tactic(auto, unfolding(crate::specs::Script::spelled_field))]
    fn spelling(self) -> &'static [u8]
        ensures { result.now ≡ spelled_field self }
    {
        match self {
            Field::Language => b"lang=",
            Field::Etag => b"etag=",
            Field::Body => b"body=",
            Field::MaxAge => b"max-age=",
            Field::Age => b"age=",
            Field::Private => b"private",
            Field::NoStore => b"no-store",
            Field::NoCache => b"no-cache",
            Field::Vary => b"vary",
            Field::Authorization => b"authorization",
        }
    }
}
