// The line behind a fault line that helps a person, who reads standard error on a terminal.
use crate::pages::form_of;
use run_status::Status;
use server_calls::{Ended, Place, PlacedTrouble};
use std::alloc::{AllocError, Global};
use world_io::Deed;

/// What helps behind the fault line of a call with these words: a line with its line feed, or nothing.
pub(crate) fn advice_for(
    alloc: Global,
    words: &[String],
    ended: &Ended,
) -> Result<String, AllocError> {
    match (&ended.trouble, ended.status) {
        (Some(trouble), _) => of_trouble(alloc, trouble),
        (None, Status::Usage) => of_words(alloc, words),
        (None, Status::World(_)) => String::from_str(
            alloc,
            "the world file has a fault: the guide for hosts has a table of them, and check_world.py tells where in the file it is\n",
        ),
        (None, _) => String::from_str(alloc, ""),
    }
}

// The words of the choice that was meant.
fn of_words(alloc: Global, words: &[String]) -> Result<String, AllocError> {
    let form = match words.first() {
        Some(choice) => form_of(choice.as_str()),
        None => None,
    };
    match form {
        Some(form) => {
            format!(in alloc;
                "the words are: {form} (with --help alone behind the choice they are explained)\n"
            )
        }
        None => String::from_str(alloc, "world_server --help lists the choices\n"),
    }
}

// What the system said of a file or of standard output.
fn of_trouble(alloc: Global, it: &PlacedTrouble) -> Result<String, AllocError> {
    let name = match &it.place {
        Place::File(path) => path.as_str(),
        Place::Output => "standard output",
    };
    let reason = it.trouble.reason;
    match it.trouble.deed {
        Deed::Open => format!(in alloc; "{name} can't be opened: {reason}\n"),
        Deed::Lock => format!(in alloc; "{name} is open in another run, which has to end first\n"),
        Deed::Read => format!(in alloc; "{name} can't be read: {reason}\n"),
        Deed::Write => format!(in alloc; "{name} can't be written: {reason}\n"),
    }
}
