//! Laws that callers cite. The contract of each function is the law; its body only cites other laws.
ghost use Rattle.lazydfa_c.specs.Laws.{BuiltWordsAreSearched, WordsAreMeant};

use patterns::laws::narrowed_inputs_are_enough;

/// A search for texts of which some has a Unicode word boundary finds what they mean, in text of any script. So does each
/// cache of the regex that a handle was opened on for such texts.
pub fn words_are_meant()
    ensures meant { WordsAreMeant }
    ensures built { BuiltWordsAreSearched }
{
    narrowed_inputs_are_enough();
}
