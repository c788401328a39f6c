// The program `street`: a script on standard input, what clients are given on standard output, and the verdict.
#![tactic(auto)]

mod messages;
mod show;

use messages::Trouble;
use play::script::parse;
use play::types::{Command, Game, ScriptError, Shown};
use play::words::number;
use show::{End, Line};
use std::io::{BufRead, BufReader, Write};
use std::process::ExitCode;

fn main(rt: HostRuntime) -> ExitCode {
    match run(&rt) {
        Ok(()) => ExitCode::SUCCESS,
        Err(trouble) => {
            let _ = eprintln!(rt; "street: {trouble}");
            ExitCode::FAILURE
        }
    }
}

/// Plays the script line by line, and then tells the counts and the verdict.
fn run(rt: &HostRuntime) -> Result<(), Trouble> {
    let mut game = Game::new(rt.alloc());
    let mut out = String::new(rt.alloc());
    for (i, text) in BufReader::new(rt.alloc(), rt.stdin())?
        .lines(rt.alloc())
        .enumerate()
    {
        let line = i + 1;
        let text = text?;
        let shown = play_line(&mut game, text.as_bytes()).map_err(|error| Trouble::Script {
            line,
            error,
        })?;
        if let Some(shown) = shown {
            write!(out, "{}", Line { game: &game, shown })?;
            write_out(rt, &mut out)?;
        }
    }
    write!(out, "{}", End { game: &game })?;
    write_out(rt, &mut out)?;
    if game.broken.is_some() {
        Err(Trouble::Broken)
    } else {
        Ok(())
    }
}

/// Writes what was printed, in one piece however long it is, and keeps the memory for what is to come.
fn write_out(rt: &HostRuntime, out: &mut String) -> Result<(), Trouble> {
    rt.stdout().write_all(out.as_bytes())?;
    out.clear();
    Ok(())
}

/// What becomes of a line's command, if it is one and not many.
fn play_line(game: &mut Game, line: &[u8]) -> Result<Option<Shown>, ScriptError> {
    match parse(line)? {
        None => Ok(None),
        Some(Command::Random { seed, count }) => {
            let seed = number(seed).ok_or(ScriptError::NoNumber)?;
            let count = number(count).ok_or(ScriptError::NoNumber)?;
            game.play_random(seed, count)?;
            Ok(None)
        }
        Some(command) => game.step(command).map(Some),
    }
}
