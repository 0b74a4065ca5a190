// Prints journals, newest entry first: each file that an argument names, or standard input where there is no argument. Of a broken
// journal nothing is printed.
#![tactic(auto)]

use journal::print::print;
use std::io::{Read, Write};
use std::rt::Files;
use std::{env, fs, io};

// Tells what went wrong with a file, in the system's words alone: behind these an error has its number.
fn tell<R: Eprint + AllocGlobal>(rt: &R, name: &str, error: io::Error) -> io::Result<()> {
    let told = format!(in rt.alloc(); "{error}")?;
    match told.as_str().split_once(" (os error") {
        Some((words, _)) => eprintln!(rt; "{name}: {words}"),
        None => eprintln!(rt; "{name}: {told}"),
    }
}

// A byte and one more than a journal may have are read, so that a longer file is seen to be one, and a read that fails there too.
fn print_from<R: Print + Eprint + AllocGlobal, F: Read + Drop>(
    rt: &R,
    from: F,
    name: &str,
) -> io::Result<()> {
    let mut journal = Vec::new(rt.alloc());
    let read = from.take(65537).read_to_end(&mut journal);
    if let Err(e) = read {
        return tell(rt, name, e);
    }
    let mut out = [0u8; 131072];
    match print(&journal, journal.len(), &mut out) {
        Ok(m) => io::writer(rt).write_all(&out[..m]),
        Err(_) => Ok(()),
    }
}

fn print_named<R: Print + Eprint + AllocGlobal + Files>(rt: &R, path: &str) -> io::Result<()> {
    match fs::open(rt, path) {
        Ok(file) => print_from(rt, file, path),
        Err(e) => tell(rt, path, e),
    }
}

fn main(rt: HostRuntime) -> io::Result<()> {
    let args = env::args(&rt)?;
    if args.len() < 2 {
        return print_from(&rt, rt.stdin(), "standard input");
    }
    for path in args.skip(1) {
        print_named(&rt, path.as_str())?;
    }
    Ok(())
}
