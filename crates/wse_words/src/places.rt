// Words that name the two folders.
ghost use Rattle.std.specs.Prelude.{◌≡◌, ◌++◌, ◌∷◌, [], nat_eq};
ghost use Rattle.std.specs.List.{starts_with};
ghost use Rattle.wse_words.specs.Words.{without_slashes, is_place, lies_outside, are_places};

/// Whether TREE and STORE may name the two folders.
pub fn are_places(tree: &str, store: &str) -> bool
    ensures { result ≡ are_places tree.now store.now }
{
    is_folder_word(tree) && is_folder_word(store) && is_outside(tree, store)
}

/// The word without the slashes at its end.
fn trimmed(word: &[u8]) -> &[u8]
    ensures { result.now ≡ without_slashes word.now }
{
    let mut end = word.len();
    while end > 0 {
        if word[end - 1] != b'/' {
            return &word[..end];
        }
        end -= 1;
    }
    &[]
}

/// Whether the word may name a folder: it isn't empty and doesn't begin with `-`.
fn is_folder_word(word: &str) -> bool
    ensures { result ≡ is_place word.now }
{
    match word.as_bytes() {
        [] => false,
        [first, ..] => *first != b'-',
    }
}

/// Whether the word begins with the folder's and `/`.
fn is_below(word: &[u8], folder: &[u8]) -> bool
    ensures { result ≡ starts_with nat_eq word.now (folder.now ++ 47 ∷ []) }
{
    if word.len() <= folder.len() {
        return false;
    }
    if word[folder.len()] != b'/' {
        return false;
    }
    word.starts_with(folder)
}

/// Whether STORE, as it is spelled, lies outside TREE.
fn is_outside(tree: &str, store: &str) -> bool
    ensures { result ≡ lies_outside tree.now store.now }
{
    let tree = trimmed(tree.as_bytes());
    let store = trimmed(store.as_bytes());
    !(store == tree || is_below(store, tree))
}
