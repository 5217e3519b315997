//! Laws of the texts of tokens and headers.
ghost use Rattle.std.specs.Prelude.{ℕ, ◌+◌, ◌*◌, ◌≤◌, List, length};
ghost use Rattle.std.specs.List.{All};
ghost use Rattle.file_modes.specs.lisp_graph.declared.world.AreaRule.{AreaRule};
ghost use Rattle.file_modes.specs.lisp_graph.declared.world.World.{World};
ghost use Rattle.file_modes.specs.world_text.Limits.{AreNamed, IsAccepted};
ghost use Rattle.file_modes.specs.sexpr_text.declared.token.Token.{Token};
ghost use Rattle.file_modes.specs.sexpr_print.Spelling.{lines_text};
ghost use Rattle.sexpr_laws.specs.Spellable.{AreSpellable};
ghost use Rattle.sexpr_laws.specs.ReadBack.{AreTokensReadBack, IsHeaderReadBack, in_order};

/// The pieces of lines of tokens spell these tokens, in order, and then the text ends. Each token takes at most 32 bytes with its
/// gap, and each line one byte more for its line feed. Required: each area is found by its name, and each token can be spelled.
pub fn tokens_are_read_back()
    ensures value { (areas : List AreaRule) (line : ℕ) (lines : List (List Token)) → AreNamed areas → All (AreSpellable areas) lines
        → AreTokensReadBack areas line lines }
    ensures at_most { (areas : List AreaRule) (lines : List (List Token)) → AreNamed areas → All (AreSpellable areas) lines
        → length (lines_text areas lines) ≤ 32 * length (in_order lines) + length lines }
{}

/// A text that begins with the header of an accepted world means its space and its areas, with the graph that the text after the
/// header means.
pub fn header_is_read_back()
    ensures { (world : World) (text : List ℕ) → IsAccepted world → IsHeaderReadBack world text }
{}
