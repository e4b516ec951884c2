// Documents from tokens.
ghost use Rattle.std.specs.Prelude.{◌≡◌, [], map, IfOk, IfErr, MatchResult};
ghost use Rattle.topos_text.specs.Tokens.{token_of};
ghost use Rattle.topos_text.specs.Trees as tree;
ghost use Rattle.topos_text.specs.Views.{statement_of, document_of};
ghost use Rattle.topos_text.specs.Documents.{IsDocument};
ghost use Rattle.topos_grammar.specs.Kinds.{OfStatement, Statement};
ghost use Rattle.topos_grammar.specs.Codes.{Any, call, document};
ghost use Rattle.topos_statements.specs.Passages.{Passes, Halts, GivesBy, each};
ghost use Rattle.topos_statements.specs.Views.{version_of};
ghost use Rattle.topos_statements.specs.Places.{IsNoDocument};
ghost use Rattle.topos_statements.specs.declared.documents.NoDocument.TheVariants.{NoMemory};

use crate::Version;
use crate::heads::{expect_number, expect_word, stands};
use crate::item::each;
use crate::site::covers;
use crate::statement::statement;
use std::alloc::Global;
use topos_grammar::Stop;
use topos_grammar::heads::{after_word, expect};
use topos_text::{DocumentTree, StatementTree, Symbol, Token, Word};

/// Why tokens are no document.
#[derive(Clone, Copy, Debug, PartialEq, Eq)]
pub enum NoDocument {
    /// No memory was left.
    NoMemory,
    /// The place, from 1, of the first token such that no document begins with the tokens up to it. Where some document begins with all of them it is their number plus 1.
    At(usize),
}

/// The statements up to the end of the tokens.
fn statements<'a>(
    alloc: Global,
    version: Version,
    tokens: &[Token<'a>],
) -> Result<Vec<StatementTree<'a>>, Stop>
    ensures { MatchResult result (λ v. Passes (each OfStatement Any (λ s k. call (Statement (version_of version)) k)) (map token_of tokens.now) (map statement_of v.items) []) (λ e. Halts (each OfStatement Any (λ s k. call (Statement (version_of version)) k)) (map token_of tokens.now) e) }
{
    let mut statements = Vec::new(alloc);
    let (_, mut rest) = tokens.split_at(0);
    while !rest.is_empty() {
        let (next, behind) = statement(alloc, version, rest)?;
        let after = expect(behind, Symbol::Semicolon)?;
        statements.push(Box::into_inner(next))?;
        rest = after;
    }
    Ok(statements)
}

/// A document of either version.
fn read<'a>(alloc: Global, tokens: &[Token<'a>]) -> Result<Box<DocumentTree<'a>>, Stop>
    ensures { GivesBy (λ x. document_of x.value) (λ x. []) document (map token_of tokens.now) result }
{
    if let Some(behind) = after_word(tokens, Word::Version) {
        let numbered = expect_number(behind, 2)?;
        let declared = expect(numbered, Symbol::Semicolon)?;
        let (site, after_site) = each(alloc, declared)?;
        let (topologies, after_topologies) = each(alloc, after_site)?;
        let later = statements(alloc, Version::Second, after_topologies)?;
        let second = DocumentTree::SecondVersion {
            site,
            topologies,
            statements: later,
        };
        return Ok(Box::new(alloc, second)?);
    }
    let (objects, after_objects) = each(alloc, tokens)?;
    let (covers, after_covers) = covers(alloc, after_objects)?;
    let rest = statements(alloc, Version::First, after_covers)?;
    let first = DocumentTree::FirstVersion {
        site: objects,
        covers,
        statements: rest,
    };
    Ok(Box::new(alloc, first)?)
}

/// The document that the tokens are. Tokens that are no document are refused with the place where they cease to be one.
pub fn document<'a>(
    alloc: Global,
    tokens: &[Token<'a>],
) -> Result<Box<DocumentTree<'a>>, NoDocument>
    ensures is_document { IfOk result (λ t. IsDocument (map token_of tokens.now) (document_of t.value)) }
    ensures syntax_place { IfErr result (λ e. IsNoDocument (map token_of tokens.now) e) }
    ensures only { (t : tree.DocumentTree) → IsDocument (map token_of tokens.now) t → MatchResult result (λ d. document_of d.value ≡ t) (λ e. e ≡ NoMemory) }
{
    match read(alloc, tokens) {
        Ok(document) => Ok(document),
        Err(Stop::NoMemory) => Err(NoDocument::NoMemory),
        Err(Stop::At(left)) => Err(NoDocument::At(tokens.len() - left + 1)),
    }
}
