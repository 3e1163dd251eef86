// The words that the program is given.
ghost use Rattle.std.specs.Prelude.{◌+◌, ◌<◌, ◌^◌, List, [], ◌∷◌, ◌++◌, length};
ghost use Rattle.frontend.specs.declared.options.Source.{Source};
ghost use Rattle.frontend.specs.Words.{Asks, Counts, ReadsFormat, TellsFormat};

use crate::messages::Message;
use ledger::files::Input;
use ledger::shown::Count;
use std::alloc::Global;
use std::fmt;

pub(crate) const HELP: &str =
    "books: bills the uses of a workshop's machines and says how the members' credits stand

    books [--format text|tsv] USAGE CREDITS
    books --help

USAGE    a usage log: comma-separated text with the columns member, machine, start, minutes, rate
CREDITS  the members' credits: comma-separated text with the columns member, cents
         For one of the two, - reads standard input.

--format text  aligned columns, amounts as 12.50 (the default)
--format tsv   tab-separated values, amounts in whole cents
";

#[derive(Clone, Copy, PartialEq, Eq, Debug)]
pub(crate) enum Format {
    Text,
    Tsv,
}

// What is not read as a format is given back.
impl<'a> TryFrom<&'a str> for Format {
    ghost use Rattle.std.specs.Prelude.{◌≡◌};
    ghost use Rattle.frontend.specs.Words.{ReadsFormat};

    type Error = &'a str;

    ghost try_from_gives = { λ word. ReadsFormat word.now (λ e. e ≡ word) };

    fn try_from(word: &'a str) -> Result<Format, &'a str> {
        match word {
            "text" => Ok(Format::Text),
            "tsv" => Ok(Format::Tsv),
            _ => Err(word),
        }
    }
}

impl Format {
    // The format that a word asks for, or what is said of a word that asks for none.
    fn read(heap: Global, word: &str) -> Result<Format, Message>
        ensures { ReadsFormat word.now (TellsFormat word.now) result }
    {
        match Format::try_from(word) {
            Ok(format) => Ok(format),
            Err(word) => Err(BadWords::Format(String::from_str(heap, word)?).into()),
        }
    }
}

// Where one of the two files is read from.
#[derive(Clone, Copy, PartialEq, Eq, Debug)]
pub(crate) enum Source<'a> {
    Input,
    File(&'a str),
}

impl<'a> From<&'a str> for Source<'a> {
    ghost use Rattle.frontend.specs.Words.{Names};

    ghost from_gives = { Names };

    fn from(word: &'a str) -> Source<'a> {
        match word {
            "-" => Source::Input,
            _ => Source::File(word),
        }
    }
}

impl<'a> Source<'a> {
    // What it is called in a message.
    pub(crate) fn name(self) -> &'a str {
        match self {
            Source::Input => "standard input",
            Source::File(path) => path,
        }
    }
}

// The two files that a run bills.
#[derive(Clone, Copy, PartialEq, Eq, Debug)]
pub(crate) struct Files<'a> {
    pub(crate) usage: Source<'a>,
    pub(crate) credits: Source<'a>,
}

impl<'a> Files<'a> {
    pub(crate) fn source(self, input: Input) -> Source<'a> {
        match input {
            Input::Usage => self.usage,
            Input::Credits => self.credits,
        }
    }
}

// What is asked for.
#[derive(Clone, Copy, PartialEq, Eq, Debug)]
pub(crate) enum Request<'a> {
    Help,
    Run { format: Format, files: Files<'a> },
}

// Why the words are not taken. It has texts of its own, so that it may outlive the words.
#[derive(PartialEq, Eq, Debug, Drop)]
pub enum BadWords {
    Unknown(String),
    Format(String),
    FormatMissing,
    Files(usize),
    InputTwice,
}

impl fmt::Display for BadWords {
    fn fmt<W: fmt::Write>(&self, f: &mut fmt::Formatter<W>) -> fmt::Result {
        match self {
            BadWords::Unknown(word) => write!(
                f,
                "found {word:?}, wanted --format, --help or a file; see --help"
            ),
            BadWords::Format(word) => write!(
                f,
                "found {word:?} after --format, wanted text or tsv"
            ),
            BadWords::FormatMissing => f.write_str(
                "found nothing after --format, wanted text or tsv",
            ),
            BadWords::Files(found) => {
                let files = Count(*found, "file");
                write!(
                    f,
                    "found {files}, wanted 2: a usage log and the credits; see --help"
                )
            }
            BadWords::InputTwice => f.write_str(
                "found - twice, wanted standard input for one file at most",
            ),
        }
    }
}

// The files that the words name so far. They are held without memory of their own, so that none can be wanting.
#[derive(Clone, Copy, PartialEq, Eq, Debug)]
enum Named<'a> {
    Nothing,
    Usage(Source<'a>),
    Both(Files<'a>),
    More(usize),
}

impl<'a> Named<'a> {
    fn with(self, source: Source<'a>) -> Named<'a>
        ensures { (sources : List Source) → length sources + 1 < 2 ^ 64 → Counts self.entry sources → Counts result (sources ++ source.entry ∷ []) }
    {
        match self {
            Named::Nothing => Named::Usage(source),
            Named::Usage(usage) => Named::Both(Files {
                usage,
                credits: source,
            }),
            Named::Both(_) => Named::More(3),
            Named::More(files) => Named::More(files.saturating_add(1)),
        }
    }
}

fn run_request<'a>(format: Format, named: Named<'a>) -> Result<Request<'a>, BadWords>
    ensures { (sources : List Source) → Counts named.entry sources → Asks format sources result }
{
    match named {
        Named::Nothing => Err(BadWords::Files(0)),
        Named::Usage(_) => Err(BadWords::Files(1)),
        Named::Both(
            Files {
                usage: Source::Input,
                credits: Source::Input,
            },
        ) => Err(BadWords::InputTwice),
        Named::Both(files) => Ok(Request::Run { format, files }),
        Named::More(files) => Err(BadWords::Files(files)),
    }
}

pub(crate) fn parse<'a>(heap: Global, words: &'a [String]) -> Result<Request<'a>, Message> {
    let mut format = Format::Text;
    let mut named = Named::Nothing;
    let mut words = words.iter();
    while let Some(word) = words.next() {
        match word.as_str() {
            "--help" => return Ok(Request::Help),
            "--format" => {
                let name = words.next().ok_or(BadWords::FormatMissing)?;
                format = Format::read(heap, name.as_str())?;
            }
            word if word.starts_with('-') && word != "-" => {
                return Err(BadWords::Unknown(String::from_str(heap, word)?).into());
            }
            word => named = named.with(Source::from(word)),
        }
    }
    Ok(run_request(format, named)?)
}
