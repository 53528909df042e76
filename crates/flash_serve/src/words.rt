// What the words of a command line give to an option. `clap` has read them before and refused what is out of form; what
// contracts say of the words is read here once more, by exact functions.
ghost use Rattle.std.specs.Prelude.{◌≡◌};
ghost use Rattle.std.specs.Option.{option_map};
ghost use Rattle.flash_serve.specs.Words.{behind, behind_name, first_word, has_word, value_of};

use flash_names::Blob;

/// Whether this word is among the words.
pub fn has_word(words: &[Blob], name: &[u8]) -> bool
    ensures { result ≡ has_word name.now words.now }
{
    let mut rest = words;
    'words: while let Some((word, more)) = rest.split_first() {
        if word.bytes() == name {
            return true;
        }
        rest = more;
    }
    false
}

/// The value that the words give to the option of this name: the word after `--name`, or what is behind `--name=`,
/// whichever comes first.
pub fn value_of<'a>(words: &'a [Blob], name: &[u8]) -> Option<&'a [u8]>
    ensures { option_map (λ value. value.now) result ≡ value_of name.now words.now }
{
    let mut rest = words;
    'words: while let Some((word, more)) = rest.split_first() {
        match behind_name(word.bytes(), name) {
            Some([]) => return first_word(more),
            Some([b'=', value @ ..]) => return Some(value),
            Some(_) => {}
            None => {}
        }
        rest = more;
    }
    None
}

// What is behind the option's name in a word that begins with it.
fn behind_name<'a>(word: &'a [u8], name: &[u8]) -> Option<&'a [u8]>
    ensures { option_map (λ value. value.now) result ≡ behind_name name.now word.now }
{
    behind(behind(word, b"--")?, name)
}

fn first_word(words: &[Blob]) -> Option<&[u8]>
    ensures { option_map (λ value. value.now) result ≡ first_word words.now }
{
    match words {
        [word, ..] => Some(word.bytes()),
        [] => None,
    }
}

// What is behind this start in a word, where it begins so.
fn behind<'a>(word: &'a [u8], start: &[u8]) -> Option<&'a [u8]>
    ensures { option_map (λ value. value.now) result ≡ behind start.now word.now }
{
    if start.len() <= word.len() && &word[..start.len()] == start {
        Some(&word[start.len()..])
    } else {
        None
    }
}
