//! Grammars over tokens.
ghost use Rattle.std.specs.Prelude.{ℕ, List, IfOk, IfSome, option_map};
ghost use Rattle.text_forms.specs.Forms.{Finishes};
ghost use Rattle.query_meaning.specs.Tokens.{Placed, At};
ghost use Rattle.text_forms.specs.Grammars.{IsViable, Took, WantsWord, WantsName};

use olap_meaning::OutOfMemory;
use query_meaning::Token;
use std::alloc::Global;

/// A grammar over tokens, in the middle of a whole.
pub trait Grammar: Drop {
    type Tree: Drop;

    /// What a clause sees of a tree.
    ghost Meaning: { Type 0 };

    ghost meaning: { Self.Tree → Meaning };

    /// The tokens that may still come, and what the whole then means.
    ghost rest: { Self → List Placed → Meaning → Type 0 };

    /// What holds of each state that is reached.
    ghost stands: { Self → Type 0 };

    /// The bytes at which a token may begin: all of them, where a tree does not keep places.
    ghost places: { ℕ → Type 0 };

    /// The state after a token, which begins at the byte `at`. None where it may not come.
    fn take(self, alloc: Global, at: usize, token: Token) -> Result<Option<Self>, OutOfMemory>
        requires stands { stands self }
        requires place { places at }
        ensures kept { IfOk result (λ next. IfSome next stands) }
        ensures takes { IfOk result (λ next. Took rest (rest self) (At at token) next) };

    /// Whether some word that may come begins so. A word is of capital letters and digits.
    fn wants_word(&self, front: &str) -> bool
        requires { stands self.now }
        ensures { WantsWord (rest self.now) front.now result };

    /// Whether any name may come; or else none may.
    fn wants_name(&self) -> bool
        requires { stands self.now }
        ensures { WantsName (rest self.now) result };

    /// The tree, if the whole may end here.
    fn finish(self, alloc: Global) -> Result<Option<Self::Tree>, OutOfMemory>
        requires { stands self }
        ensures { IfOk result (λ found. Finishes (rest self) (option_map meaning found)) };

    /// From each state some tokens go on to a whole.
    ghost closes: { (state : Self) → stands state → IsViable (rest state) };
}
