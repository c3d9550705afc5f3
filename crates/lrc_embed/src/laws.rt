//! What the calls say together. Each law is the contract of a function that does nothing.

ghost use Rattle.std.specs.Prelude.{◌≡◌, ◌++◌, ℕ, ◌<◌, IsTrue, List, length, get_or};
ghost use Rattle.lrc_code.specs.declared.codes.Code.{Code};
ghost use Rattle.lrc_code.specs.declared.numbers.Fragment.{Fragment};
ghost use Rattle.lrc_code.specs.Losses.{FragmentSet};
ghost use Rattle.lrc_field.specs.Recipes.{read_by};
ghost use Rattle.lrc_field.specs.Stripes.{Bytes, IsStripe};
ghost use Rattle.lrc_coder.specs.Buffers.{bytes_at, each_of};
ghost use Rattle.lrc_coder.specs.Coding.{IsRebuilt};
ghost use Rattle.lrc_records.specs.Recipes.{IsRecipeOf};
ghost use Rattle.lrc_records.specs.Replies.{encoded_reply};
ghost use Rattle.lrc_rules.specs.declared.command.Command.{Command};
ghost use Rattle.lrc_rules.specs.declared.reply.Reply.{Reply};
ghost use Rattle.lrc_text.specs.Texts.{reply_text};
ghost use Rattle.lrc_book.specs.Books.{BookView, state_of, IsBook};
ghost use Rattle.lrc_book.specs.SameLooks.{HaveSameLooks};
ghost use Rattle.lrc_feed.specs.declared.feed.FedCall.{FedCall};
ghost use Rattle.lrc_embed.specs.Forms.{HasFields};
ghost use Rattle.lrc_embed.specs.Published.{IsViewOf, HasMade};
ghost use Rattle.lrc_records.specs.declared.recipe.LrcRecipe.{LrcRecipe as AnyRecipe};

/// What is rebuilt by the recipe of a fragment is that fragment, missing or not: where the bytes that are read are a
/// stripe's, the byte that is written is the stripe's too.
pub fn recipes_rebuild_their_fragment()
    ensures { (code : Code) (missing : FragmentSet) (f : Fragment) (r : AnyRecipe)
        (fragments : List (List ℕ)) (before after : List ℕ) (i : ℕ) (v : Bytes) →
        IsRecipeOf code missing f r → IsRebuilt code r.coefficients fragments before after → IsStripe code v →
        ((g : ℕ) → IsTrue (read_by (each_of r.coefficients) g) → bytes_at fragments i g ≡ v g) → i < length before →
        get_or after i 0 ≡ v f.value }
{}

/// The word and the fields of a kind of command are those of its lines in scripts, as they are read and written.
pub fn commands_have_fields()
    ensures { (command : Command) → HasFields command }
{}

/// Replies of one record have one text, so a record has the text that its reply has in the output.
pub fn a_record_has_its_text()
    ensures { (a b : Reply) → encoded_reply a ≡ encoded_reply b → reply_text a ≡ reply_text b }
{}

/// A viewer that has made the calls which the published book has made since has the same entries, and every look at it
/// returns the same. That the calls are the same is the contract of `lrc_feed::begins`.
pub fn viewers_make_the_same_entries()
    ensures history { (b view after now : BookView) (calls : List FedCall)
        → IsBook b → IsBook view → IsViewOf b view → HasMade calls b after → HasMade calls view now
        → after.history ≡ b.history ++ now.history }
    ensures looks { (b view after now : BookView) (calls : List FedCall)
        → IsBook b → IsBook view → IsViewOf b view → HasMade calls b after → HasMade calls view now
        → HaveSameLooks b.nodes (state_of after) (state_of now) }
{}
