// A line for each image of samples/, which the arguments name: its name, and the line that image_check prints of it.
#![tactic(auto)]

use std::env::FillError;
use std::fs::File;
use std::rt::{Env, Files};
use std::{io, str};

// The file of this name.
fn print_sample(rt: &(impl Files + Print), name: &str) -> io::Result<()> {
    print!(rt; "{name}: ")?;
    match File::open(rt, name) {
        Ok(mut file) => image_answer::print_answer_of(&mut file, &mut io::writer(rt)),
        Err(_) => println!(rt; "no such file"),
    }
}

// The argument of this place; answers whether there is one.
fn print_argument(rt: &(impl Env + Files + Print), place: usize) -> io::Result<bool> {
    let mut buffer = [0u8; 4096];
    let n = match rt.arg(place, &mut buffer) {
        Ok(n) => n,
        // longer than any name here, so an empty one stands for it
        Err(FillError::TooLong) => 0,
        Err(FillError::NotPresent) => return Ok(false),
    };
    let name = str::from_utf8(&buffer[..n]).map_err(|_| io::ErrorKind::InvalidData)?;
    print_sample(rt, name)?;
    Ok(true)
}

fn main(rt: HostRuntime) -> io::Result<()> {
    for place in 1..usize::MAX {
        if !print_argument(&rt, place)? {
            break;
        }
    }
    Ok(())
}
