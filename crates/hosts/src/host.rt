// The one interface behind which different hosts stand: what a host means, the laws that it keeps, and its three calls.
ghost use Rattle.std.specs.Prelude.{◌≡◌, ℕ, List, Option};
ghost use Rattle.claims.specs.declared.terms.Terms.{Terms};
ghost use Rattle.claims.specs.declared.codes.ResultCode.{ResultCode};
ghost use Rattle.hosts.specs.Meaning.{HostLaws};

use claims::claim::Claim;
use claims::codes::ResultCode;
use claims::terms::{FIFTEEN_DIGITS, Terms};

/// The most that may have been taken from an account.
pub const FIGURE_LIMIT: u64 = FIFTEEN_DIGITS;

pub trait Host {
    /// What the host says of a claim with these terms.
    ghost verdict: { Self → Terms → ResultCode };

    /// What has been drawn from an account.
    ghost taken: { Self → ℕ → ℕ };

    /// Exactly one debit with these terms turns the first host into the second.
    ghost debits: { Self → Terms → Self → Type 0 };

    /// What each register above the bottom host objects to a claim, uppermost first.
    ghost registers: { Self → List (Terms → Option ResultCode) };

    /// What the bottom host says of a claim.
    ghost bottom_verdict: { Self → Terms → ResultCode };

    /// Tells the verdict.
    fn inquire(&self, claim: &Claim) -> ResultCode
        ensures { result ≡ verdict self.now claim.now.terms };

    /// Tells the taken figure of an account.
    fn tell_taken(&self, account: u64) -> u64
        ensures { result ≡ taken self.now account };

    /// Debits the claim once, and answers the verdict that held before.
    fn debit(&mut self, claim: &Claim) -> ResultCode
        ensures answer { result ≡ verdict self.old claim.now.terms }
        ensures once { debits self.old claim.now.terms self.new };

    /// What each `impl` must prove: the five laws, which `HostLaws` names.
    ghost laws: { HostLaws verdict taken debits registers bottom_verdict };
}
