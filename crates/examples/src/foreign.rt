// A host from elsewhere, to show how far the interface reaches: it may refuse everything, but it may not forget what it took.
ghost use Rattle.std.specs.Prelude.{[]};
ghost use Rattle.claims.specs.declared.codes.ResultCode.TheVariants.{Other};
ghost use Rattle.std.proofs.Common.{rules};

use claims::claim::Claim;
use claims::codes::ResultCode;
use hosts::host::Host;

/// Says 9 to every claim, and so never takes anything. The laws allow that.
#[derive(Clone, Copy)]
pub struct AlwaysOther;

impl Host for AlwaysOther {
    ghost verdict = { λ _ _. Other };

    ghost taken = { λ _ _. 0 };

    ghost debits = { λ _ _ _. Unit };

    ghost registers = { λ _. [] };

    ghost bottom_verdict = { λ _ _. Other };

    ghost laws = { Prim.search rules };

    fn inquire(&self, _claim: &Claim) -> ResultCode {
        ResultCode::Other
    }

    fn tell_taken(&self, _account: u64) -> u64 {
        0
    }

    fn debit(&mut self, _claim: &Claim) -> ResultCode {
        ResultCode::Other
    }
}
