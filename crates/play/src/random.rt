// Commands in random order, from a seed: the same seed gives the same commands.
ghost use Rattle.std.specs.Prelude.{◌≡◌, ◌+◌, ◌%◌, [], IfOk, MatchOption, slice_get};
ghost use Rattle.play.specs.Dice.{next_state, rolled, label_of, rolls_at, PlayedAs};

use crate::types::{Command, Dice, Game, Rolls, ScriptError, Settings};

const PATHS: [&[u8]; 4] = [b"/a", b"/b", b"/c", b"/d"];

const LANGUAGES: [&[u8]; 3] = [b"sv", b"fi", b"en"];

const CLIENTS: [&[u8]; 4] = [b"anna", b"bo", b"cleo", b"dan"];

const DIGITS: [&[u8]; 8] = [b"0", b"1", b"2", b"3", b"4", b"5", b"6", b"7"];

/// A roll by which the origin has something else: the verbs share a hundred sides.
const ORIGIN_ROLL: u64 = 23;

impl Dice {
    /// Dice that fall by a seed.
    pub fn new(seed: u64) -> Dice
        ensures { result.state ≡ seed }
    {
        Dice { state: seed }
    }

    /// A number below `sides`; 0 if that is 0.
    pub fn roll(&mut self, sides: u64) -> u64
        ensures state { self.new.state ≡ next_state self.old.state }
        ensures value { result ≡ rolled (next_state self.old.state) sides }
    {
        self.state = self
            .state
            .wrapping_mul(6_364_136_223_846_793_005)
            .wrapping_add(1_442_695_040_888_963_407);
        (self.state / 8_589_934_592).checked_rem(sides).unwrap_or(0)
    }

    /// What a command is chosen by.
    fn rolls(&mut self) -> Rolls {
        Rolls {
            verb: self.roll(100),
            path: self.roll(4),
            client: self.roll(4),
            digit: self.roll(8),
            language: self.roll(3),
            coin: self.roll(8),
            max_age: self.roll(4) * 20,
            age: self.roll(3) * 5,
        }
    }
}

impl Game {
    /// So many commands in random order.
    pub fn play_random(&mut self, seed: u64, count: u64) -> Result<(), ScriptError>
        ensures none { count ≡ 0 → self.new ≡ self.old }
        ensures steps { IfOk result (λ _. PlayedAs count self.old.counts self.old.broken self.new.counts self.new.broken) }
    {
        let mut dice = Dice::new(seed);
        for n in 0..count {
            let label = label(n);
            let command = random_command(dice.rolls().at(n), &label, n);
            let _ = self.step(command)?;
        }
        Ok(())
    }
}

/// A body by the number of its command: five digits.
fn label(n: u64) -> [u8; 5]
    ensures { result ≡ label_of n }
{
    [n / 10000, n / 1000, n / 100, n / 10, n].map(digit)
}

fn digit(n: u64) -> u8
    ensures { result ≡ 48 + n % 10 }
{
    b'0' + (n % 10) as u8
}

impl Rolls {
    /// The first four commands say what the origin has for each path, so that each varies always alike.
    fn at(self, n: u64) -> Rolls
        ensures { result ≡ rolls_at n self }
    {
        if n < 4 {
            Rolls {
                verb: ORIGIN_ROLL,
                path: n,
                ..self
            }
        } else {
            self
        }
    }
}

fn random_command<'a>(rolls: Rolls, label: &'a [u8], n: u64) -> Command<'a> {
    let client = pick(&CLIENTS, rolls.client);
    let path = pick(&PATHS, rolls.path);
    let digit = pick(&DIGITS, rolls.digit);
    match rolls.verb {
        0..=17 => Command::Get {
            client,
            path,
            settings: rolls.asked(),
        },
        18..=21 => Command::Put {
            client,
            path,
            settings: rolls.written(label, n),
        },
        22 => Command::Delete {
            client,
            path,
            settings: rolls.in_language(),
        },
        ORIGIN_ROLL..=27 => Command::Origin {
            path,
            settings: rolls.had(label, n),
        },
        28..=58 => Command::Act { connection: digit },
        59..=89 => Command::Receive { connection: digit },
        90..=91 => Command::Lose { connection: digit },
        92 => Command::Decline {
            connection: digit,
            status: b"503",
        },
        _ => Command::Tick { seconds: digit },
    }
}

impl Rolls {
    fn in_language<'a>(self) -> Settings<'a> {
        Settings {
            language: pick(&LANGUAGES, self.language),
            ..Settings::unsaid()
        }
    }

    /// What a request says.
    fn asked<'a>(self) -> Settings<'a> {
        Settings {
            no_store: self.coin == 0,
            no_cache: self.coin == 1,
            authorization: self.coin == 2,
            ..self.in_language()
        }
    }

    /// What a write brings. One label in three has no etag.
    fn written<'a>(self, label: &'a [u8], n: u64) -> Settings<'a> {
        Settings {
            etag: if n % 3 == 0 { b"" } else { label },
            body: label,
            ..self.in_language()
        }
    }

    /// What the origin has and says. The paths 0 and 1 vary.
    fn had<'a>(self, label: &'a [u8], n: u64) -> Settings<'a> {
        Settings {
            max_age: self.max_age,
            age: self.age,
            private: self.coin == 0,
            no_cache: self.coin == 1,
            vary: self.path < 2,
            ..self.written(label, n)
        }
    }
}

/// The name with this number; empty past the last.
// No `Option`: a die has no more sides than its table has names.
fn pick(names: &[&'static [u8]], n: u64) -> &'static [u8]
    ensures { MatchOption (slice_get names.now n) (result.now ≡ []) (λ name. result.now ≡ name.now) }
{
    names.get(n as usize).copied().unwrap_or(b"")
}
