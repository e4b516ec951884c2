// Versions of documents.
ghost use Rattle.std.specs.Prelude.{map};
ghost use Rattle.std.specs.Option.{option_map};
ghost use Rattle.topos_text.specs.Tokens.{token_of, written};
ghost use Rattle.topos_grammar.specs.Kinds.{Under};
ghost use Rattle.topos_grammar.specs.Codes.{code};
ghost use Rattle.topos_statements.specs.Passages.{GivesBy};
ghost use Rattle.topos_statements.specs.Views.{version_of};

use topos_grammar::Stop;
use topos_grammar::heads::{after_word, expect_name};
use topos_text::{Token, Word, Written};

/// The version of a document. The first has one topology and none of the words `under`.
#[derive(Clone, Copy, Debug, PartialEq, Eq)]
pub enum Version {
    First,
    Second,
}

/// The topology that is named behind the word `under`, where the version has it and it stands in front.
pub fn under<'t, 'a>(
    version: Version,
    tokens: &'t [Token<'a>],
) -> Result<(Option<Written<'a>>, &'t [Token<'a>]), Stop>
    ensures { GivesBy (λ x. option_map written x.0) (λ x. map token_of x.1.now) (code (Under (version_of version))) (map token_of tokens.now) result }
{
    match version {
        Version::First => Ok((None, tokens)),
        Version::Second => match after_word(tokens, Word::Under) {
            None => Ok((None, tokens)),
            Some(behind) => {
                let (topology, rest) = expect_name(behind)?;
                Ok((Some(topology), rest))
            }
        },
    }
}
