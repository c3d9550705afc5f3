ghost use Rattle.std.specs.Prelude.{◌≡◌, ◌++◌, string_bytes, OnOk};
ghost use Rattle.lrc_coding.specs.Told.{recipe_refusal_words, refusal_place, recipe_refusal_text};

use lrc_code::Fragment;
use std::alloc::AllocError;

/// Why no recipe is told.
#[derive(Clone, Copy, Debug, PartialEq, Eq)]
pub enum RecipeRefusal {
    /// The first word is no set of fragments of the code.
    NoMask,
    /// The second word is no number of a fragment of the code.
    NoFragment,
    /// The fragment is not in the set.
    NotMissing(Fragment),
    /// The fragments outside the set don't determine it.
    Undetermined(Fragment),
}

impl RecipeRefusal {
    /// Returns why, in words.
    pub fn words(self) -> &'static str
        ensures { result.now ≡ recipe_refusal_words self }
    {
        match self {
            RecipeRefusal::NoMask => "this is no set of fragments of the code",
            RecipeRefusal::NoFragment => "the code has no such fragment",
            RecipeRefusal::NotMissing(_) => "the fragment is not missing, so it is its own source",
            RecipeRefusal::Undetermined(_) => "what is not missing does not determine the fragment",
        }
    }

    /// Adds the line of standard error: the words, and which word of the command line they are about.
    ///
    /// # Errors
    ///
    /// Only for want of memory; then a beginning of the line may have been added.
    pub fn push_text(self, out: &mut String) -> Result<(), AllocError>
        ensures { OnOk result (string_bytes out.new ≡ string_bytes out.old ++ recipe_refusal_text self) }
    {
        let words = self.words();
        write!(out, "lrcman: {words}: ")?;
        self.push_place(out)
    }

    /// Adds which word of the command line it is about.
    fn push_place(self, out: &mut String) -> Result<(), AllocError>
        ensures { OnOk result (string_bytes out.new ≡ string_bytes out.old ++ refusal_place self) }
    {
        match self {
            RecipeRefusal::NoMask => out.push_str("mask\n"),
            RecipeRefusal::NoFragment => out.push_str("fragment\n"),
            RecipeRefusal::NotMissing(fragment) | RecipeRefusal::Undetermined(fragment) => {
                let number = fragment.value;
                write!(out, "fragment {number}\n")
            }
        }
    }
}
