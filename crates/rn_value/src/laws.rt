//! What readers of texts, and of sorted lists, of values may rely on.
ghost use Rattle.rn_value.specs.Order.{value_cmp};
ghost use Rattle.rn_value.specs.Sorting.{SortsOneWay, SortsByCounts};
ghost use Rattle.rn_value.specs.TextLaws.{GrammarIsWritten, TextsDetermineValues};
ghost use Rattle.rn_value.specs.TextLaws.{WrittenTextsDetermineValues};
ghost use Rattle.rn_value.specs.TextLaws.{OneSpelling, TextsStayOnOneLine, TextsStayAsNamesGrow};

/// What a reader of texts of values may rely on, where names are identifiers.
///
/// The texts that `write_value` writes are exactly those of the grammar of values. A text determines
/// its value, also where other bytes follow it that begin with a space, a newline, a comma or a
/// closing bracket: no other value has a text there, and the text ends nowhere else. It holds no
/// newline, and stays the value's text as names are added.
pub fn text_laws()
    ensures exact { GrammarIsWritten }
    ensures determine { TextsDetermineValues }
    ensures written_determine { WrittenTextsDetermineValues }
    ensures one_spelling { OneSpelling }
    ensures one_line { TextsStayOnOneLine }
    ensures stay { TextsStayAsNamesGrow }
{}

/// An ascending list of values is determined by the multiset of its values: by what it is a
/// permutation of, and by how often it holds each value.
pub fn sorting_laws()
    ensures one_way { SortsOneWay value_cmp }
    ensures by_counts { SortsByCounts value_cmp }
{}
