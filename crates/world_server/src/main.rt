// The program of the world server.
#![tactic(auto)]

mod advice;
mod pages;

use advice::advice_for;
use command_words::WordsFault;
use pages::page_of;
use run_status::Status;
use server_calls::{Ended, refused_words, run_command};
use std::env;
use std::io::{ErrorKind, IsTerminal};
use std::net::{Net, TcpListener, TcpStream};
use std::process::ExitCode;
use std::sync::Wait;
use std::thread::Threads;
use std::time::Clock;
use world_io::{StreamSink, write_all};

fn main(rt: HostRuntime) -> ExitCode {
    let status = match words_after_the_name(&rt) {
        Ok(words) => {
            let ended = answer(&rt, &rt, &words);
            tell(&rt, &words, &ended);
            ended.status
        }
        Err(fault) => {
            let ended = ended_with(refused_words(fault));
            tell(&rt, &[], &ended);
            ended.status
        }
    };
    ExitCode::from(status.number())
}

// Tells on standard error how a call ended that did not do all: by its fault line, and on a terminal by a
// line more.
fn tell(rt: &HostRuntime, words: &[String], ended: &Ended) {
    if ended.status == Status::Done {
        return;
    }
    say(rt, ended.status);
    if rt.stderr().is_terminal()
        && let Ok(line) = advice_for(rt.alloc(), words, ended)
    {
        let _ = write_all(&mut StreamSink::over(rt.stderr()), line.as_bytes());
    }
}

fn ended_with(status: Status) -> Ended {
    Ended {
        status,
        trouble: None,
    }
}

// The words after the program's name. One that is not UTF-8 is a faulty command line.
fn words_after_the_name(rt: &HostRuntime) -> Result<Vec<String>, WordsFault> {
    let words = match env::args(rt) {
        Ok(words) => words,
        Err(error) => {
            return Err(if error.kind() == ErrorKind::OutOfMemory {
                WordsFault::Memory
            } else {
                WordsFault::Usage
            });
        }
    };
    match words.skip(1).collect::<Vec<String>>(rt.alloc()) {
        Ok(words) => Ok(words),
        Err(_) => Err(WordsFault::Memory),
    }
}

// Prints the page that the words ask for, or runs the command that they say, which may start threads.
fn answer<R: Threads + Wait + Net<Listener = TcpListener, Stream = TcpStream> + Clock + Sync>(
    rt: &HostRuntime,
    threads: &R,
    words: &[String],
) -> Ended {
    match page_of(words) {
        Some(page) => ended_with(print(rt, page)),
        None => run_command(rt, threads, words),
    }
}

// Prints a page to standard output.
fn print(rt: &HostRuntime, page: &str) -> Status {
    match write_all(&mut StreamSink::over(rt.stdout()), page.as_bytes()) {
        Ok(()) => Status::Done,
        Err(_) => Status::WriteFault,
    }
}

// Prints the fault line to standard error, or nothing where there is no memory for it.
fn say(rt: &HostRuntime, status: Status) {
    if let Ok(line) = status.fault_line(rt.alloc()) {
        let _ = write_all(&mut StreamSink::over(rt.stderr()), &line);
    }
}
