//! The examples of docs/LIBRARY.md: a program that reads a stream from standard input and prints the sum of the field
//! `Y` of its values, a function that writes two values, and one that keeps what matches a wanted type.
#![tactic(auto)]

mod kept;
mod points;
mod sum;

use gob_all::Input;
use std::process::ExitCode;
use sum::sum_of_field;

fn main(rt: HostRuntime) -> ExitCode {
    let mut input = Input::new(rt.stdin());
    match sum_of_field(rt.alloc(), &mut input, b"Y") {
        Ok(sum) => match println!(rt; "{sum}") {
            Ok(()) => ExitCode::SUCCESS,
            Err(_) => ExitCode::from(2),
        },
        Err(_) => ExitCode::from(1),
    }
}
