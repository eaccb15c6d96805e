//! The arguments of the program.

ghost use Rattle.std.specs.Prelude.{◌≡◌};
ghost use Rattle.linkwire.specs.Arguments.{request_of};

/// What an argument asks for, where it is the only one.
#[derive(Clone, Copy, Debug, PartialEq, Eq)]
pub enum Request {
    /// `--help` or `-h`: what the program does.
    Help,
    /// `--version`: which one it is.
    Version,
    /// Nothing: there are no other arguments, and any is passed over.
    Lines,
}

/// What this argument asks for.
pub fn asked_for(word: &str) -> Request
    ensures { result ≡ request_of word.now }
{
    if word == "--help" || word == "-h" {
        Request::Help
    } else if word == "--version" {
        Request::Version
    } else {
        Request::Lines
    }
}
