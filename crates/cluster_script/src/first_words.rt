//! The first words of lines.
ghost use Rattle.std.specs.Prelude.{◌≡◌};
ghost use Rattle.script_grammar.specs.FirstWords.{keyword_of};

use script_model::Keyword;

/// The first word that these bytes are.
pub fn keyword_of(word: &[u8]) -> Option<Keyword>
    ensures { result ≡ keyword_of word.now }
{
    match word {
        b"cluster" => Some(Keyword::Cluster),
        b"config" => Some(Keyword::Config),
        b"base" => Some(Keyword::Base),
        b"member" => Some(Keyword::Member),
        b"tick" => Some(Keyword::Tick),
        b"run" => Some(Keyword::Run),
        b"turn" => Some(Keyword::Turn),
        b"deliver" => Some(Keyword::Deliver),
        b"lose" => Some(Keyword::Lose),
        b"hold" => Some(Keyword::Hold),
        b"resume" => Some(Keyword::Resume),
        b"kill" => Some(Keyword::Kill),
        b"restart" => Some(Keyword::Restart),
        b"crash" => Some(Keyword::Crash),
        b"promote" => Some(Keyword::Promote),
        b"commit" => Some(Keyword::Commit),
        b"stream" => Some(Keyword::Stream),
        b"freeze" => Some(Keyword::Freeze),
        b"thaw" => Some(Keyword::Thaw),
        b"cut" => Some(Keyword::Cut),
        b"join" => Some(Keyword::Join),
        b"slow" => Some(Keyword::Slow),
        b"rest" => Some(Keyword::Rest),
        b"ctl" => Some(Keyword::Ctl),
        b"trace" => Some(Keyword::Trace),
        _ => None,
    }
}
