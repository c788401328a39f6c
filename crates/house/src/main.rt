// The program `house`: event frames on standard input, frames on standard output.
#![tactic(auto)]

ghost use Rattle.std.specs.Prelude.{◌≡◌, ◌<◌, drop, length, IfOk};
ghost use Rattle.frames.specs.Views.{largest};
ghost use Rattle.proxy.specs.Batches.{take_all};
ghost use Rattle.proxy.specs.Steps.{HaltWithin};

mod pending;
mod report;

use frames::memory::Growing;
use pending::Pending;
use proxy::marks::{CLIENTS, Mark};
use proxy::state::Proxy;
use proxy::steps::{Halt, Taken};
use report::{End, Trouble};
use std::io::Write;
use std::process::ExitCode;

fn main(rt: HostRuntime) -> ExitCode {
    match run(&rt) {
        Ok(end) => {
            if end.halt != Halt::More {
                let _ = eprintln!(rt; "house: {end}");
            }
            ExitCode::SUCCESS
        }
        Err(trouble) => {
            let _ = eprintln!(rt; "house: {trouble}");
            ExitCode::FAILURE
        }
    }
}

/// All memory but that for what goes out is taken here, once.
fn run(rt: &HostRuntime) -> Result<End, Trouble> {
    let mut marks = vec![in rt.alloc(); Mark::Open as u8; CLIENTS]?;
    let mut pending = Pending::new(rt.alloc())?;
    let mut out = Growing::new(rt.alloc());
    let mut proxy = Proxy::new(&mut marks);
    pump(rt, &mut proxy, &mut pending, &mut out)
}

/// Takes the input piece by piece, until it ends or is refused.
fn pump(
    rt: &HostRuntime,
    proxy: &mut Proxy<'_>,
    pending: &mut Pending,
    out: &mut Growing,
) -> Result<End, Trouble>
    requires { length pending.old < largest }
{
    let mut at = 0u64;
    // An input has an end, but nothing says so: this counts further than any input goes.
    for _ in 0..u64::MAX {
        if pending.read(&mut rt.stdin()).map_err(Trouble::Reading)? == 0 {
            break;
        }
        let taken = take_piece(rt, proxy, pending, out)?;
        at = at.wrapping_add(taken.len as u64);
        match taken.halt {
            Halt::More => {}
            halt => return Ok(End { at, halt }),
        }
    }
    Ok(End {
        at,
        halt: Halt::More,
    })
}

/// Takes the events that are there, writes what they bring, and keeps the rest.
fn take_piece(
    rt: &HostRuntime,
    proxy: &mut Proxy<'_>,
    pending: &mut Pending,
    out: &mut Growing,
) -> Result<Taken, Trouble>
    ensures state { proxy.new ≡ (take_all pending.old proxy.old).turn.after }
    ensures value { IfOk result (λ taken. taken ≡ (take_all pending.old proxy.old).taken) }
    ensures room { IfOk result (λ taken. HaltWithin taken.halt (length pending.new)) }
    ensures rest { IfOk result (λ taken. pending.new ≡ drop taken.len pending.old) }
{
    let taken = proxy.take_all(pending.bytes(), out);
    write_out(rt, out)?;
    pending.take(taken.len);
    Ok(taken)
}

/// Writes what came out, and keeps the memory for what is to come.
fn write_out(rt: &HostRuntime, out: &mut Growing) -> Result<(), Trouble> {
    let bytes = out.taken()?;
    if !bytes.is_empty() {
        rt.stdout().write_all(bytes).map_err(Trouble::Writing)?;
    }
    out.clear();
    Ok(())
}
