// Words, and the words of a line.
ghost use Rattle.std.specs.Prelude.{◌≡◌, IfOk, map, option_map};
ghost use Rattle.lsm_shell_parts.specs.Word.{is_word, words_of};

use std::alloc::{AllocError, Global};

/// Whether these bytes are a word: one or more, each from 33 to 126.
pub fn is_word(bytes: &[u8]) -> bool
    ensures { result ≡ is_word bytes.now }
{
    !bytes.is_empty() && bytes.iter().all(|byte| matches!(byte, 33..=126))
}

/// The words of a line. None: something in it is no word.
pub fn split_words(alloc: Global, line: &[u8]) -> Result<Option<Vec<&[u8]>>, AllocError>
    ensures { IfOk result (λ found. option_map (λ words. map (λ word. word.now) words.items) found ≡ words_of line.now) }
{
    let parts: Vec<&[u8]> = line.split(|byte| *byte == b' ').collect(alloc)?;
    let are_words = parts.iter().all(|part| is_word(part));
    Ok(are_words.then_some(parts))
}
