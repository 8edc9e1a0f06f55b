//! Looks for a file that is read at the path of one that would be written.
ghost use Rattle.std.specs.Prelude.{Contains, IfSome, map, option_map};
ghost use Rattle.many_requests.specs.Looks.{Finds};

use std::rt::Files;
use streams::FilesUsed;

/// The first of these words that leads to the same file as a path.
pub(crate) fn first_same<'w, R: Files>(
    rt: &R,
    words: &[&'w str],
    path: &str,
    used: &mut FilesUsed,
) -> Option<&'w str>
    ensures is_one { IfSome result (λ word. Contains (map (λ word. word.now) words.now) word.now) }
    ensures found { Finds path.now (option_map (λ word. word.now) result) used.old used.new }
{
    for word in words {
        if used.is_same_file(rt, path, word) {
            return Some(*word);
        }
    }
    None
}
