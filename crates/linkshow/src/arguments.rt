//! The arguments of the program.

ghost use Rattle.std.specs.Prelude.{◌≡◌};
ghost use Rattle.linkshow.specs.Arguments.{request_of};

use std::env::Args;

/// What an argument asks for.
#[derive(Clone, Copy, Debug, PartialEq, Eq)]
pub enum Request {
    /// `--help` or `-h`: what the program does.
    Help,
    /// `--version`: which one it is.
    Version,
    /// `--kernel`: of which kernel the messages are.
    Kernel,
    /// `--lenient`: an attribute that is refused does not hide the others.
    Lenient,
    /// No argument that there is.
    Unknown,
}

/// What this argument asks for.
pub fn asked_for(word: &str) -> Request
    ensures { result ≡ request_of word.now }
{
    if word == "--help" || word == "-h" {
        Request::Help
    } else if word == "--version" {
        Request::Version
    } else if word == "--kernel" {
        Request::Kernel
    } else if word == "--lenient" {
        Request::Lenient
    } else {
        Request::Unknown
    }
}

/// What all arguments ask for.
#[derive(Drop)]
pub enum Asked {
    /// What the program does.
    Help,
    /// Which one it is.
    Version,
    /// The answers to lines: those of messages of this kernel, if one is named, and whether they are read leniently.
    Lines(Option<String>, bool),
    /// An argument that there is not, or one beside `--help` or `--version`.
    Wrong(String),
}

/// The arguments so far.
#[derive(Drop)]
struct Options {
    /// `--help` or `--version`, which stand alone.
    alone: Option<Asked>,
    /// `--kernel`, after which its release is to come.
    kernel: Option<String>,
    release: Option<String>,
    is_lenient: bool,
    is_first: bool,
}

impl Options {
    /// Takes the next word, or gives it back where it is wrong.
    fn take(&mut self, word: String) -> Result<(), String> {
        if self.alone.is_some() {
            return Err(word);
        }
        if self.kernel.take().is_some() {
            self.release = Some(word);
            return Ok(());
        }
        match asked_for(word.as_str()) {
            Request::Help if self.is_first => self.alone = Some(Asked::Help),
            Request::Version if self.is_first => self.alone = Some(Asked::Version),
            Request::Kernel => self.kernel = Some(word),
            Request::Lenient => self.is_lenient = true,
            _ => return Err(word),
        }
        self.is_first = false;
        Ok(())
    }

    /// What they ask for, where no further one comes.
    fn asked(self) -> Asked {
        let Options {
            alone,
            kernel,
            release,
            is_lenient,
            ..
        } = self;
        match (alone, kernel) {
            (Some(asked), _) => asked,
            (None, Some(word)) => Asked::Wrong(word),
            (None, None) => Asked::Lines(release, is_lenient),
        }
    }
}

/// What these words ask for, of which the first is the program's name.
pub fn requested(words: Args) -> Asked {
    let mut options = Options {
        alone: None,
        kernel: None,
        release: None,
        is_lenient: false,
        is_first: true,
    };
    for word in words.skip(1) {
        if let Err(word) = options.take(word) {
            return Asked::Wrong(word);
        }
    }
    options.asked()
}
