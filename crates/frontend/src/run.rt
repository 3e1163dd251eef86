// The whole way from the program's words to the page that it prints, or to what it says instead.
use crate::messages::Message;
use crate::options::{Files, Format, HELP, Request, Source, parse};
use crate::{text, tsv};
use ledger::books::Books;
use ledger::files::{BadFile, settle_files};
use std::alloc::{AllocError, Global};
use std::io::Read;
use std::{fs, io};

// The formats are these two, and a match says so plainer than a trait with an impl for each would.
fn page(heap: Global, books: &Books, format: Format) -> Result<String, AllocError> {
    match format {
        Format::Text => text::page(heap, books),
        Format::Tsv => tsv::page(heap, books),
    }
}

fn bytes_of(rt: &HostRuntime, source: Source<'_>) -> io::Result<Vec<u8>> {
    match source {
        Source::Input => {
            let mut bytes = Vec::new(rt.alloc());
            rt.stdin().read_to_end(&mut bytes)?;
            Ok(bytes)
        }
        Source::File(path) => fs::read(rt, path),
    }
}

fn read_source(rt: &HostRuntime, source: Source<'_>) -> Result<Vec<u8>, Message> {
    match bytes_of(rt, source) {
        Ok(bytes) => Ok(bytes),
        Err(error) => Err(Message::NoFile {
            file: String::from_str(rt.alloc(), source.name())?,
            error,
        }),
    }
}

// What is said where one of the two files is not taken.
fn refusal(heap: Global, files: Files<'_>, bad: BadFile) -> Result<Message, AllocError> {
    Ok(match bad {
        BadFile::Memory => Message::Memory,
        BadFile::Rejected { input, rejection } => Message::BadInput {
            file: String::from_str(heap, files.source(input).name())?,
            rejection,
        },
    })
}

fn settled_page(rt: &HostRuntime, format: Format, files: Files<'_>) -> Result<String, Message> {
    let heap = rt.alloc();
    let credits = read_source(rt, files.credits)?;
    let usage = read_source(rt, files.usage)?;
    match settle_files(heap, usage.as_slice(), credits.as_slice()) {
        Ok(books) => Ok(page(heap, &books, format)?),
        Err(bad) => Err(refusal(heap, files, bad)?),
    }
}

// What the program prints for these words.
pub fn answer(rt: &HostRuntime, words: &[String]) -> Result<String, Message> {
    let heap = rt.alloc();
    match parse(heap, words)? {
        Request::Help => Ok(String::from_str(heap, HELP)?),
        Request::Run { format, files } => settled_page(rt, format, files),
    }
}
