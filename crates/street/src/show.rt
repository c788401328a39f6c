// The lines of the output, as text.
use play::types::{Game, Judged, Shown, Source, What};
use std::fmt;

/// What becomes of a command, as a line; nothing for what no client sees.
#[derive(Clone, Copy)]
pub(crate) struct Line<'a> {
    pub(crate) game: &'a Game,
    pub(crate) shown: Shown,
}

impl fmt::Display for Line<'_> {
    fn fmt<W: fmt::Write>(&self, f: &mut fmt::Formatter<W>) -> fmt::Result {
        let tick = self.shown.tick;
        match self.shown.what {
            What::Quiet => Ok(()),
            What::Nothing(c) => writeln!(f, "{tick:>6}  nothing is under way on connection {c}"),
            _ => {
                self.fmt_who(f)?;
                self.fmt_what(f)?;
                writeln!(f)
            }
        }
    }
}

impl Line<'_> {
    /// The tick, the client and what it asks for.
    fn fmt_who<W: fmt::Write>(&self, f: &mut fmt::Formatter<W>) -> fmt::Result {
        let tick = self.shown.tick;
        write!(f, "{tick:>6}  ")?;
        let Some(who) = self.shown.who else {
            return Ok(());
        };
        let client = self.padded(Some(who.client), 10);
        let verb = if who.write { "writes " } else { "reads  " };
        let path = self.padded(Some(who.key.path), 12);
        let language = self.padded(who.key.language, 4);
        write!(f, "{client}{verb}{path}{language}")
    }

    fn fmt_what<W: fmt::Write>(&self, f: &mut fmt::Formatter<W>) -> fmt::Result {
        match self.shown.what {
            What::Quiet | What::Nothing(_) => Ok(()),
            What::Forwarded(c, None) => write!(f, "-> connection {c}"),
            What::Forwarded(c, etag) => {
                let etag = self.name(etag);
                write!(f, "-> connection {c}, if not etag {etag}")
            }
            What::Given(source, body, judged) => {
                let body = self.padded(body, 14);
                write!(f, "{body}")?;
                fmt_judged(f, source, judged)
            }
            What::Status(status) if self.is_write() => write!(f, "refused: {status}"),
            What::Status(status) => write!(f, "answer: {status}"),
            What::Done => write!(f, "done"),
            What::Lost => write!(f, "lost"),
            What::Refused => write!(f, "refused: 10, no connection is free"),
            What::Faulty => write!(f, "refused: 7, no such answer to this request"),
        }
    }

    fn is_write(&self) -> bool {
        self.shown.who.is_some_and(|who| who.write)
    }

    fn name(&self, number: Option<usize>) -> Name<'_> {
        self.padded(number, 0)
    }

    fn padded(&self, number: Option<usize>, width: usize) -> Name<'_> {
        Name {
            game: self.game,
            number,
            width,
        }
    }
}

/// From where, how long ago it was so, and of which lifetime; and what is wrong, if it is not as promised.
fn fmt_judged<W: fmt::Write>(
    f: &mut fmt::Formatter<W>,
    source: Source,
    judged: Judged,
) -> fmt::Result {
    let from = match source {
        Source::Kept => "kept",
        Source::Owner => "owner",
    };
    let Judged {
        verdict,
        ago,
        lifetime,
    } = judged;
    write!(f, "{from:<7}")?;
    if ago == 0 {
        write!(f, "so now, of {lifetime}")?;
    } else {
        write!(f, "so {ago} s ago, of {lifetime}")?;
    }
    if let Err(breach) = verdict {
        write!(f, "  NOT AS PROMISED: {breach}")?;
    }
    Ok(())
}

/// A name of the play, as text, with blanks behind it up to a width.
#[derive(Clone, Copy)]
struct Name<'a> {
    game: &'a Game,
    number: Option<usize>,
    width: usize,
}

impl fmt::Display for Name<'_> {
    fn fmt<W: fmt::Write>(&self, f: &mut fmt::Formatter<W>) -> fmt::Result {
        let name = self.game.names.name(self.number);
        // A script's names are bytes that can be printed, each a character: `pad` would count them one by one.
        f.write_str(str::from_utf8(name).unwrap_or("?"))?;
        for _ in name.len()..self.width {
            f.write_str(" ")?;
        }
        Ok(())
    }
}

/// The counts and the verdict.
#[derive(Clone, Copy)]
pub(crate) struct End<'a> {
    pub(crate) game: &'a Game,
}

impl fmt::Display for End<'_> {
    fn fmt<W: fmt::Write>(&self, f: &mut fmt::Formatter<W>) -> fmt::Result {
        let counts = self.game.counts;
        let stored = self.game.stored();
        writeln!(f, "from the store  {:>6}", counts.kept)?;
        writeln!(f, "from the origin {:>6}", counts.owner)?;
        writeln!(f, "writes done     {:>6}", counts.writes)?;
        writeln!(f, "other answers   {:>6}", counts.others)?;
        writeln!(f, "lost            {:>6}", counts.lost)?;
        writeln!(f, "refused         {:>6}", counts.refused)?;
        writeln!(f, "stored now      {stored:>6}")?;
        match self.game.broken {
            None => writeln!(f, "as promised"),
            Some(shown) => {
                let line = Line {
                    game: self.game,
                    shown,
                };
                write!(f, "the first that was not as promised:\n{line}")
            }
        }
    }
}
