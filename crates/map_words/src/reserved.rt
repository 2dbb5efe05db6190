//! The words that are no names.

ghost use Rattle.std.specs.Prelude.{◌≡◌, bytes_eq};
ghost use Rattle.std.specs.List.{list_any};
ghost use Rattle.map_words.specs.Names.{is_among, line_words, part_words, operation_words, is_reserved as is_reserved_word};

/// The words that lines begin with.
const LINE_WORDS: [&[u8]; 18] = [
    b"procedure",
    b"paint",
    b"new",
    b"drop",
    b"label",
    b"symbol",
    b"value",
    b"grid",
    b"show",
    b"legend",
    b"table",
    b"stamps",
    b"list",
    b"quit",
    b"model",
    b"undo",
    b"branch",
    b"end",
];

/// The words between the parts of a line.
const PART_WORDS: [&[u8]; 17] = [
    b"result",
    b"null",
    b"of",
    b"and",
    b"with",
    b"for",
    b"to",
    b"at",
    b"within",
    b"spreading",
    b"radiating",
    b"in",
    b"on",
    b"from",
    b"carrying",
    b"ignoring",
    b"nulls",
];

/// The names of operations.
const OPERATION_WORDS: [&[u8]; 38] = [
    b"LocalSum",
    b"LocalProduct",
    b"LocalMaximum",
    b"LocalMinimum",
    b"LocalMean",
    b"LocalMedian",
    b"LocalMajority",
    b"LocalMinority",
    b"LocalVariety",
    b"LocalDifference",
    b"LocalRatio",
    b"LocalRating",
    b"FocalSum",
    b"FocalMaximum",
    b"FocalMinimum",
    b"FocalMean",
    b"FocalMedian",
    b"FocalMajority",
    b"FocalMinority",
    b"FocalVariety",
    b"FocalProximity",
    b"FocalInsularity",
    b"FocalNeighbor",
    b"ZonalSum",
    b"ZonalMaximum",
    b"ZonalMinimum",
    b"ZonalMean",
    b"ZonalMedian",
    b"ZonalMajority",
    b"ZonalMinority",
    b"ZonalVariety",
    b"IncrementalLinkage",
    b"IncrementalLength",
    b"IncrementalPartition",
    b"IncrementalFrontage",
    b"IncrementalGradient",
    b"IncrementalAspect",
    b"IncrementalDrainage",
];

fn is_among_words(words: &[&[u8]], text: &[u8]) -> bool
    ensures { result ≡ list_any (λ w. bytes_eq w.now text.now) words.now }
{
    words.iter().any(|word| *word == text)
}

#[tactic(auto, unfolding(crate::specs::Names::is_among))]
fn is_line_word(text: &[u8]) -> bool
    ensures { result ≡ is_among line_words text.now }
{
    is_among_words(&LINE_WORDS, text)
}

#[tactic(auto, unfolding(crate::specs::Names::is_among))]
fn is_part_word(text: &[u8]) -> bool
    ensures { result ≡ is_among part_words text.now }
{
    is_among_words(&PART_WORDS, text)
}

#[tactic(auto, unfolding(crate::specs::Names::is_among))]
fn is_operation_word(text: &[u8]) -> bool
    ensures { result ≡ is_among operation_words text.now }
{
    is_among_words(&OPERATION_WORDS, text)
}

/// Whether a word is reserved, so that it is no name although it may have a name's form.
#[tactic(auto, unfolding(crate::specs::Names::is_reserved))]
pub fn is_reserved(text: &[u8]) -> bool
    ensures { result ≡ is_reserved_word text.now }
{
    if is_line_word(text) {
        return true;
    }
    if is_part_word(text) {
        return true;
    }
    is_operation_word(text)
}
