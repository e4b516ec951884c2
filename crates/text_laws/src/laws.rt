// The laws of texts.
ghost use Rattle.topos_text.specs.Laws.{EachTextIsReadOrRefused};
ghost use Rattle.text_laws.specs.Laws.{FaultsAreOne, SpelledTextsAreFaultless, DocumentsAreOne};

use document_limits::limit_laws;
use topos_grammar::reading_laws;

/// Each text spells one document within the limits and has no fault, or it has one fault and spells none within them.
/// A text spells one document at most and has one fault at most, and one that spells a document within the limits has no fault.
pub fn text_laws()
    ensures documents { DocumentsAreOne }
    ensures faults { FaultsAreOne }
    ensures faultless { SpelledTextsAreFaultless }
    ensures each { EachTextIsReadOrRefused }
{
    reading_laws();
    limit_laws();
}
