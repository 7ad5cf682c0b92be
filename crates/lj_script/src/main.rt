//! Plays a script of calls of the libraries, and prints a line for each.
#![tactic(auto)]

mod args;
mod asking;
mod event;
mod out;
mod pending;
mod propagations;
mod script;
mod sharing;
mod stage;
mod stop;
mod table;
mod texts;

use out::Out;
use script::Script;
use std::io;
use std::process::ExitCode;
use stop::Stop;

fn main(rt: HostRuntime) -> io::Result<ExitCode> {
    let text = io::read_to_string(rt.alloc(), rt.stdin())?;
    let mut script = Script::new(&text);
    let mut out = Out::new(rt.alloc());
    let played = stage::play(&rt, rt.alloc(), &mut script, &mut out);
    print!(rt; "{}", out.text())?;
    let Err(stop) = played else {
        return Ok(ExitCode::SUCCESS);
    };
    let (line, why) = (stop.line().unwrap_or(script.at()), stop.name());
    println!(rt; "line {line}: {why}")?;
    Ok(ExitCode::from(2))
}
