// Stored sessions, each from the file that an argument names: its name, and then all that the session prints.
#![tactic(auto)]

use std::env::{Env, FillError};
use std::fs::Files;
use std::{fs, io};

// One session; false where its file can't be read or its name can't be printed.
fn tell(rt: &(impl Files + Print + Eprint), path: &str) -> bool {
    match fs::open(rt, path) {
        Ok(mut file) => {
            let is_named = rt.println(path).is_ok();
            if is_named {
                session_serve::serve(&mut file, &mut io::writer(rt));
            }
            is_named
        }
        Err(e) => {
            let _ = eprintln!(rt; "{path}: {e}");
            false
        }
    }
}

// The session of argument i; false too where there is none, or where it can't be the name of a file.
fn tell_argument(rt: &(impl Env + Files + Print + Eprint), i: usize) -> bool {
    let mut path = [0u8; 4096];
    match rt.arg(i, &mut path) {
        Ok(n) => match str::from_utf8(&path[..n]) {
            Ok(path) => tell(rt, path),
            Err(_) => {
                let _ = eprintln!(rt; "argument {i} is not UTF-8");
                false
            }
        },
        Err(FillError::TooLong) => {
            let _ = eprintln!(rt; "argument {i} is longer than 4096 bytes");
            false
        }
        Err(FillError::NotPresent) => false,
    }
}

fn main(rt: HostRuntime) {
    for i in 1..usize::MAX {
        if !tell_argument(&rt, i) {
            return;
        }
    }
}
