// What meeting two types comes to.
ghost use Rattle.std.specs.Prelude.{◌≡◌};
ghost use Rattle.rules.specs.Types.{and as and_of, from_bool as verdict_of};
ghost use Rattle.memo.specs.Verdicts.{result_of};

#[derive(Clone, Copy, Debug, PartialEq, Eq)]
pub enum UnifyResult {
    Success,
    Failure,
    Indeterminate,
}

use UnifyResult::{Failure, Indeterminate, Success};

impl UnifyResult {
    // Of two pairs: a failure of either is one of both.
    #[tactic(auto, unfolding(crate::specs::Verdicts::result_of))]
    pub fn and(self, other: UnifyResult) -> UnifyResult
        ensures { result_of result ≡ and_of (result_of self) (result_of other) }
    {
        match (self, other) {
            (Failure, _) | (_, Failure) => Failure,
            (Success, Success) => Success,
            _ => Indeterminate,
        }
    }
}

impl From<bool> for UnifyResult {
    ghost from_gives = { λ met v. result_of v ≡ verdict_of met };

    #[tactic(auto, unfolding(crate::specs::Verdicts::result_of, rules::specs::Types::from_bool))]
    fn from(met: bool) -> UnifyResult {
        if met { Success } else { Failure }
    }
}
