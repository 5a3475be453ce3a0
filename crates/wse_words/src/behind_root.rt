// What comes behind ROOT.
ghost use Rattle.std.specs.Prelude.{◌≡◌, ◌∷◌, [], option_map};
ghost use Rattle.wse_words.specs.Words.{texts_of, options_in, options, input_limit};
ghost use Rattle.wse_words.specs.Read.{options_of};

use crate::numbers::number_within;
use crate::options::Options;

/// The most bytes of input where no word says it.
const STANDARD_INPUT: u64 = 4_294_967_296;

/// The most bytes of input that a word may allow.
const MOST_INPUT: u64 = 4_611_686_018_427_387_904;

/// Options with a limit that the word writes.
fn limited(adopt: bool, word: &str) -> Option<Options>
    ensures { option_map options_of result ≡ option_map (options adopt) (input_limit word.now) }
{
    match number_within(1, MOST_INPUT, word) {
        Some(max_input) => Some(Options { adopt, max_input }),
        None => None,
    }
}

fn one_option(a: &str) -> Option<Options>
    ensures { option_map options_of result ≡ options_in (a.now ∷ []) }
{
    if a == "--adopt" {
        Some(Options {
            adopt: true,
            max_input: STANDARD_INPUT,
        })
    } else {
        None
    }
}

fn two_options(a: &str, b: &str) -> Option<Options>
    ensures { option_map options_of result ≡ options_in (a.now ∷ b.now ∷ []) }
{
    if a == "--max-input" {
        limited(false, b)
    } else {
        None
    }
}

fn three_options(a: &str, b: &str, c: &str) -> Option<Options>
    ensures { option_map options_of result ≡ options_in (a.now ∷ b.now ∷ c.now ∷ []) }
{
    if a == "--adopt" && b == "--max-input" {
        limited(true, c)
    } else if a == "--max-input" && c == "--adopt" {
        limited(true, b)
    } else {
        None
    }
}

/// `--adopt` and `--max-input N`, each at most once, in either order.
pub fn read_options(words: &[String]) -> Option<Options>
    ensures { option_map options_of result ≡ options_in (texts_of words.now) }
{
    match words {
        [] => Some(Options {
            adopt: false,
            max_input: STANDARD_INPUT,
        }),
        [a] => one_option(a.as_str()),
        [a, b] => two_options(a.as_str(), b.as_str()),
        [a, b, c] => three_options(a.as_str(), b.as_str(), c.as_str()),
        _ => None,
    }
}
