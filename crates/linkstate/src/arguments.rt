//! The arguments of the program.

ghost use Rattle.std.specs.Prelude.{◌≡◌};
ghost use Rattle.linkstate.specs.Arguments.{request_of};

/// What an argument asks for.
#[derive(Clone, Copy, Debug, PartialEq, Eq)]
pub enum Request {
    /// `--help` or `-h`: what the program does.
    Help,
    /// `--version`: which one it is.
    Version,
    /// `--lenient`: an attribute that is refused does not make a message none.
    Lenient,
    /// No argument that there is.
    Unknown,
}

/// What this argument asks for.
pub fn asked_for(word: &str) -> Request
    ensures { result ≡ request_of word.now }
{
    if word == "--help" || word == "-h" {
        Request::Help
    } else if word == "--version" {
        Request::Version
    } else if word == "--lenient" {
        Request::Lenient
    } else {
        Request::Unknown
    }
}
