// The text that tells people which words are understood.
ghost use Rattle.std.specs.Prelude.{◌≡◌};
ghost use Rattle.wse_words.specs.Usage.{usage_text};

/// The lists of words that are understood, one a line.
pub fn usage_text() -> &'static str
    ensures { result.now ≡ usage_text }
{
    "usage: wsedit init TREE STORE\n\
     usage: wsedit run TREE STORE ROOT [--adopt] [--max-input N]\n\
     usage: wsedit show TREE STORE\n"
}
