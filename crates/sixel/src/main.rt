//! The program `sixel`: checks, lists, draws, mends and writes sixel pictures.
#![tactic(auto)]

use sixel_io::{FromRead, ToWrite};
use sixel_program::{Errors, Input, Output, Peeked, System, Terminals, execute, status_of};
use sixel_words::{Process, arguments_of, task_in, tell};
use std::cell::Cell;
use std::fs::File;
use std::io::{IsTerminal, Stdin};
use std::process::ExitCode;

fn main(rt: HostRuntime) -> ExitCode {
    let is_closed = Cell::new(false);
    let mut output = ToWrite::new(Output {
        stream: rt.stdout(),
        is_closed: &is_closed,
    });
    let mut errors = ToWrite::new(Errors {
        stream: rt.stderr(),
        is_closed: &is_closed,
    });
    let arguments = arguments_of(rt.alloc(), &Process::new(&rt));
    let exit = match task_in(rt.alloc(), arguments) {
        Ok(request) => {
            let folder = System::new(&rt);
            let terminals = Terminals {
                input: rt.stdin().is_terminal(),
                output: rt.stdout().is_terminal(),
                errors: rt.stderr().is_terminal(),
            };
            let standard: Input<Stdin, File> = Input::Standard(rt.stdin());
            let mut input = Peeked::new(FromRead::new(standard));
            execute(
                rt.alloc(),
                &request,
                &folder,
                terminals,
                &mut input,
                &mut output,
                &mut errors,
            )
        }
        Err(fault) => tell(rt.alloc(), fault, &mut output, &mut errors),
    };
    ExitCode::from(status_of(exit, is_closed.get()))
}
