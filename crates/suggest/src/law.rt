// What a suggestion says of a specification.

ghost use Rattle.std.specs.Prelude.{◌≡◌, ℕ, List, false};
ghost use Rattle.spec_core.specs.Specification.{Specification};
ghost use Rattle.suggest.specs.Pairs.{pairs_of};
ghost use Rattle.suggest.specs.Answers.{AreAnswers, AreAnswersSoFar, counted, is_unknown};
ghost use Rattle.suggest.specs.Theorem.{AreShownToBreak, IsRight};
ghost use Rattle.suggest.specs.declared.answer.PairAnswer.{PairAnswer};

use check_run::law_good_verdicts;

/// Each set of pairs that is enough contains all needed pairs; where no pair is unknown the needed ones are enough; and where a pair is
/// proved at two parameters, a conflict on equal arguments for these is enough for it. No pair is unknown exactly where none is counted to
/// be. Each refutation breaks its obligation, also in answers for the first pairs alone.
pub fn law_least_pairs()
    ensures right { (d : Specification) (budget : ℕ) (answers : List PairAnswer)
        → AreAnswers d budget (pairs_of d) answers → IsRight d answers }
    ensures so_far { (d : Specification) (budget : ℕ) (answers : List PairAnswer)
        → AreAnswersSoFar d budget (pairs_of d) answers → AreShownToBreak d answers }
    ensures complete { (answers : List PairAnswer) → (counted answers).unknown ≡ 0 → (a b : ℕ)
        → is_unknown answers a b ≡ false }
    ensures incomplete { (answers : List PairAnswer) → ((a b : ℕ) → is_unknown answers a b ≡ false)
        → (counted answers).unknown ≡ 0 }
{
    law_good_verdicts();
}
