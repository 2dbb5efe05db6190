//! The words of a run.
ghost use Rattle.std.specs.Prelude.{◌≡◌, ◌<◌, ◌≤◌, MatchOption, Some, None, IsTrue, length, option_map, bytes_eq};
ghost use Rattle.std.specs.List.{list_any, All};
ghost use Rattle.map_words.specs.Names.{is_plain};
ghost use Rattle.map_machine.specs.Pairs.{cut, pair_of, all_pairs, pairs_of};
ghost use Rattle.map_machine.specs.Words.{model_of, files_form, sample_form, form_of};
ghost use Rattle.map_run.specs.Forms.{pair_read, pairs_read, model_read, form_read, form_by_verb};

use crate::forms::{FileWords, Form, MOST_PAIRS, Pair, Words};
use crate::workers::{side_in, workers_in};
use arrayvec::ArrayVec;
use map_words::is_plain;

// Cuts at the first sign =.
fn cut_word(word: &str) -> Option<Pair<'_>>
    ensures { MatchOption result (cut word.now ≡ None) (λ p. cut word.now ≡ Some (pair_read p)) }
{
    match word.split_once('=') {
        Some((name, file)) => Some(Pair { name, file }),
        None => None,
    }
}

// A name that a layer may have, and a file that isn't empty.
fn pair_in(word: &str) -> Option<Pair<'_>>
    ensures { MatchOption result (pair_of word.now ≡ None)
        (λ p. (pair_of word.now ≡ Some (pair_read p)) × IsTrue (is_plain p.name.now)) }
{
    match cut_word(word) {
        Some(pair) => {
            if is_plain(pair.name.as_bytes()) && !pair.file.is_empty() {
                return Some(pair);
            }
            None
        }
        None => None,
    }
}

// Whether one of the pairs has this name.
fn has_name(pairs: &[Pair<'_>], name: &str) -> bool
    ensures { result ≡ list_any (λ p. bytes_eq p.name.now name.now) pairs.now }
{
    pairs.iter().any(|pair| pair.name == name)
}

// The pairs of these words: one to 32, of distinct names.
fn pairs_in(words: &[String]) -> Option<ArrayVec<Pair<'_>, MOST_PAIRS>>
    ensures { MatchOption result (pairs_of (all_pairs words.now) ≡ None)
        (λ ps. (pairs_of (all_pairs words.now) ≡ Some (pairs_read ps.items)) × (0 < length ps.items) × All (λ p. IsTrue (is_plain p.name.now)) ps.items) }
{
    let mut pairs = ArrayVec::new();
    for word in words {
        match pair_in(word.as_str()) {
            None => return None,
            Some(pair) => {
                if pairs.is_full() {
                    return None;
                }
                if has_name(&pairs, pair.name) {
                    return None;
                }
                pairs.push(pair);
            }
        }
    }
    if pairs.is_empty() {
        return None;
    }
    Some(pairs)
}

// The model file that a word names: - names none.
fn model_in(word: &str) -> Option<&str>
    ensures { model_read result ≡ model_of word.now }
{
    if word == "-" {
        return None;
    }
    Some(word)
}

// What a run over files is of: its model file, and its pairs.
fn files_in<'a>(model: &'a str, words: &'a [String]) -> Option<Form<'a>>
    ensures { option_map form_read result ≡ files_form model.now (pairs_of (all_pairs words.now)) }
{
    if model.is_empty() {
        return None;
    }
    match pairs_in(words) {
        None => None,
        Some(pairs) => Some(Form::Files(FileWords {
            model: model_in(model),
            pairs,
        })),
    }
}

// What a sample is of: its size, and no more words.
fn sample_in<'a>(size: &str, words: &[String]) -> Option<Form<'a>>
    ensures { option_map form_read result ≡ sample_form size.now words.now }
{
    if !words.is_empty() {
        return None;
    }
    match side_in(size) {
        None => None,
        Some(side) => Some(Form::Sample(side)),
    }
}

// The form of a run, by its first word and by the third and those after it.
fn form_in<'a>(verb: &str, third: &'a str, words: &'a [String]) -> Option<Form<'a>>
    ensures { option_map form_read result ≡ form_by_verb verb.now third.now words.now }
{
    if verb == "run" {
        return files_in(third, words);
    }
    if verb == "sample" {
        return sample_in(third, words);
    }
    None
}

/// What the words say where they are of the form `run WORKERS MODEL NAME=FILE {NAME=FILE}` or `sample WORKERS N`.
pub fn words_in(words: &[String]) -> Option<Words<'_>>
    ensures { option_map (λ w. form_read w.form) result ≡ form_of words.now }
{
    match words {
        [verb, workers, third, rest @ ..] => match workers_in(workers.as_str()) {
            None => None,
            Some(workers) => match form_in(verb.as_str(), third.as_str(), rest) {
                None => None,
                Some(form) => Some(Words { workers, form }),
            },
        },
        _ => None,
    }
}
