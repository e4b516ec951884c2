// From the bytes of a text to its document.
ghost use Rattle.std.specs.Prelude.{◌≡◌, ◌≤◌, map, length, Ok, IfOk, IfErr, MatchResult};
ghost use Rattle.topos_model.specs.declared.doc.Doc as docs;
ghost use Rattle.topos_text.specs.Tokens.{token_of};
ghost use Rattle.topos_text.specs.Trees as tree;
ghost use Rattle.topos_text.specs.Views as view;
ghost use Rattle.topos_text.specs.Documents.{IsDocument};
ghost use Rattle.topos_text.specs.Resolving.{resolved};
ghost use Rattle.topos_text.specs.TextFaults.{SpellsWithin};
ghost use Rattle.document_limits.specs.Laws.{text_limits};
ghost use Rattle.topos_tokens.specs.TokenFaults.{IsRefused};
ghost use Rattle.topos_tokens.specs.declared.fault.ReadFault.TheVariants.{NoMemory};
ghost use Rattle.topos_reader.specs.Answers.{HasNoTree, HasNoDocument};

use document_limits::limit_laws;
use std::alloc::Global;
use topos_model::{Doc, Fault};
use topos_names::NameStop;
use topos_statements::NoDocument;
use topos_text::{DocumentTree, Token};
use topos_tokens::{ReadFault, tokens};

/// The document that a text spells within the limits. A text that spells none is refused by its first fault, of which there is one: it is too long; its bytes are not UTF-8; at a byte no token
/// begins; a name or a run of tokens is too long; the tokens are no document, from a place on; or, at the first token, a limit is passed, a name stands twice or is unknown.
pub fn read(alloc: Global, bytes: &[u8]) -> Result<Doc, ReadFault>
    ensures spells { IfOk result (λ doc. SpellsWithin bytes.now doc) }
    ensures refused { IfErr result (λ fault. IsRefused bytes.now fault) }
    ensures only { (doc : docs.Doc) → SpellsWithin bytes.now doc → MatchResult result (λ found. found ≡ doc) (λ fault. fault ≡ NoMemory) }
{
    let tokens = tokens(alloc, bytes)?;
    let tree = tree_of(alloc, &tokens)?;
    drop(tokens);
    limit_laws();
    document_of(alloc, &tree)
}

/// The tree of a document's tokens.
fn tree_of<'a>(alloc: Global, tokens: &[Token<'a>]) -> Result<Box<DocumentTree<'a>>, ReadFault>
    requires few { length tokens.now ≤ 1048576 }
    ensures is_document { IfOk result (λ t. IsDocument (map token_of tokens.now) (view.document_of t.value)) }
    ensures refused { IfErr result (λ fault. HasNoTree (map token_of tokens.now) fault) }
    ensures only { (t : tree.DocumentTree) → IsDocument (map token_of tokens.now) t → MatchResult result (λ found. view.document_of found.value ≡ t) (λ fault. fault ≡ NoMemory) }
{
    match topos_statements::document(alloc, tokens) {
        Ok(tree) => Ok(tree),
        Err(NoDocument::At(place)) => Err(ReadFault::Refused(Fault::Syntax(place as u32))),
        Err(NoDocument::NoMemory) => Err(ReadFault::NoMemory),
    }
}

/// The document of a tree within the limits.
fn document_of(alloc: Global, tree: &DocumentTree<'_>) -> Result<Doc, ReadFault>
    ensures ok { IfOk result (λ doc. resolved text_limits (view.document_of tree.now) ≡ Ok doc) }
    ensures refused { IfErr result (λ fault. HasNoDocument (resolved text_limits (view.document_of tree.now)) fault) }
{
    match topos_names::document(alloc, tree) {
        Ok(doc) => Ok(Box::into_inner(doc)),
        Err(NameStop::Fault(fault)) => Err(ReadFault::Refused(fault)),
        Err(NameStop::NoMemory) => Err(ReadFault::NoMemory),
    }
}
