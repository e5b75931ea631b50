#![tactic(auto)]

mod arguments;
mod book;
mod damage;
mod deliver;
mod ending;
mod error;
mod exec;
mod neighbours;
mod notes;
mod print;
mod reading;
mod script;
mod serve;
mod show;
mod text;
mod trace;

use crate::arguments::{Command, parse_command};
use crate::deliver::deliver_limit;
use crate::error::Fault;
use crate::exec::exec_file;
use crate::serve::serve_limit;
use crate::show::show_file;
use std::process::ExitCode;

fn run(rt: &HostRuntime) -> Result<(), Fault> {
    match parse_command(rt)? {
        Command::Deliver => {
            let image = deliver_limit(rt)?;
            serve_limit(rt, &image)
        }
        Command::Show(path) => show_file(rt, path),
        Command::Exec(path, plan) => exec_file(rt, path, &plan),
    }
}

fn main(rt: HostRuntime) -> ExitCode {
    match run(&rt) {
        Ok(()) => ExitCode::SUCCESS,
        Err(fault) => {
            let _told = eprintln!(rt; "gateway: {fault}");
            ExitCode::FAILURE
        }
    }
}
