// What a store and a cache speak of, by value: the numbers of a stored response, and the connections.
ghost use Rattle.std.specs.Prelude.{◌≡◌, ◌<◌, Some, None, if◌then◌else◌, nat_lt};
ghost use Rattle.std.specs.Option.{option_map};

/// How many connections to the origin there are.
pub const CONNECTIONS: usize = 8;

/// A connection to the origin: they are numbered from 0 to 7.
#[derive(Clone, Copy)]
pub struct Connection {
    pub number: usize,
    ghost within: { number < 8 },
}

impl Connection {
    /// The connection of this number, if there is one.
    pub fn new(number: usize) -> Option<Connection>
        ensures { option_map (λ c. c.number) result ≡ (if nat_lt number 8 then Some number else None) }
    {
        if number < CONNECTIONS {
            Some(Connection { number })
        } else {
            None
        }
    }
}

/// What is asked for, and what a response is stored under: a path, and the language that selects one of its responses.
#[derive(Clone, Copy, Drop)]
pub struct CacheKey<'a> {
    pub path: &'a [u8],
    pub language: &'a [u8],
}

/// The numbers of a stored response.
#[derive(Clone, Copy)]
pub struct Row {
    /// For how many ticks from `requested_at` it may be shown.
    pub lifetime: u64,
    /// The tick at which the request was forwarded that brought or renewed it.
    pub requested_at: u64,
    /// The age that the answer came with.
    pub age: u64,
    /// The number of the exchange that brought or renewed it.
    pub exchange: u64,
    /// The tick at which it was last stored, renewed or served.
    pub used_at: u64,
    /// The answer says `vary: accept-language`.
    pub varies: bool,
    /// The answer says `no-cache`: it is never served, only renewed.
    pub no_cache: bool,
}

/// Which stored responses, of those to what a connection asks for.
#[derive(Clone, Copy, Drop)]
pub enum Scope<'a> {
    /// All of the path.
    Path,
    /// What is stored for the path and language.
    Language,
    /// The same, but only what has this validator.
    Validator(&'a [u8]),
}
